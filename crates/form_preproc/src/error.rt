use form_base::Cause;
use std::alloc::{AllocError, AllocFailed};

/// Why a line can't act.
#[derive(Drop)]
pub enum LineError {
    /// It is refused for this cause.
    Refused(Cause),
    Memory,
}

impl From<AllocError> for LineError {
    ghost use Rattle.std.specs.Prelude.{◌≡◌};
    ghost use Rattle.form_preproc.specs.declared.error.LineError.TheVariants.{Memory};

    ghost from_gives = { λ _ e. e ≡ Memory };

    fn from(_e: AllocError) -> LineError {
        LineError::Memory
    }
}

impl<T: Drop> From<AllocFailed<T>> for LineError {
    ghost use Rattle.std.specs.Prelude.{◌≡◌};
    ghost use Rattle.form_preproc.specs.declared.error.LineError.TheVariants.{Memory};

    ghost from_gives = { λ _ e. e ≡ Memory };

    fn from(_e: AllocFailed<T>) -> LineError {
        LineError::Memory
    }
}

impl From<PartError> for LineError {
    ghost use Rattle.std.specs.Prelude.{◌≡◌};
    ghost use Rattle.form_preproc.specs.Causes.{line_error};

    ghost from_gives = { λ error made. made ≡ line_error error };

    fn from(error: PartError) -> LineError {
        match error {
            PartError::IllFormed => LineError::Refused(Cause::BadInstruction),
            PartError::NoMemory => LineError::Memory,
        }
    }
}

/// Why what is written can't be read.
#[derive(Drop)]
pub enum PartError {
    /// It is out of its form.
    IllFormed,
    NoMemory,
}

impl From<AllocError> for PartError {
    ghost use Rattle.std.specs.Prelude.{◌≡◌};
    ghost use Rattle.form_preproc.specs.declared.error.PartError.TheVariants.{NoMemory};

    ghost from_gives = { λ _ e. e ≡ NoMemory };

    fn from(_e: AllocError) -> PartError {
        PartError::NoMemory
    }
}
