use form_base::Spot;
use std::alloc::{AllocError, AllocFailed};

/// Why lines are no program.
#[derive(Drop)]
pub enum ProgramError {
    /// Here begins the first statement that is outside the grammar, or the first block without its end, or there is the
    /// first line that begins with a period and ends no module.
    BadSyntax(Spot),
    Memory,
}

impl From<AllocError> for ProgramError {
    ghost use Rattle.std.specs.Prelude.{◌≡◌};
    ghost use Rattle.form_stmts.specs.declared.error.ProgramError.TheVariants.{Memory};

    ghost from_gives = { λ _ e. e ≡ Memory };

    fn from(_e: AllocError) -> ProgramError {
        ProgramError::Memory
    }
}

impl<T: Drop> From<AllocFailed<T>> for ProgramError {
    ghost use Rattle.std.specs.Prelude.{◌≡◌};
    ghost use Rattle.form_stmts.specs.declared.error.ProgramError.TheVariants.{Memory};

    ghost from_gives = { λ _ e. e ≡ Memory };

    fn from(_e: AllocFailed<T>) -> ProgramError {
        ProgramError::Memory
    }
}
