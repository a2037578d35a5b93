use form_base::{Cause, Id};
use std::alloc::{AllocError, AllocFailed};

/// Why what a module carries out has no results.
#[derive(Drop)]
pub enum CarryError {
    /// It is refused, at this expression.
    Refused(Cause, Id),
    Memory,
}

impl From<AllocError> for CarryError {
    ghost use Rattle.std.specs.Prelude.{◌≡◌};
    ghost use Rattle.form_module.specs.declared.carry_error.CarryError.TheVariants.{Memory};

    ghost from_gives = { λ _ error. error ≡ Memory };

    fn from(_: AllocError) -> Self {
        CarryError::Memory
    }
}

impl<T: Drop> From<AllocFailed<T>> for CarryError {
    ghost use Rattle.std.specs.Prelude.{◌≡◌};
    ghost use Rattle.form_module.specs.declared.carry_error.CarryError.TheVariants.{Memory};

    ghost from_gives = { λ _ error. error ≡ Memory };

    fn from(_: AllocFailed<T>) -> Self {
        CarryError::Memory
    }
}
