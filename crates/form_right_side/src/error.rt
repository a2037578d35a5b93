use form_base::{Cause, Spot};
use std::alloc::{AllocError, AllocFailed};

/// Why a program wasn't checked to its end.
#[derive(Drop)]
pub enum CheckError {
    /// It is refused, at this spot.
    Refused(Cause, Spot),
    Memory,
}

/// A number is past its limit, at this spot.
#[derive(Clone, Copy)]
pub struct PastLimit {
    pub spot: Spot,
}

impl From<PastLimit> for CheckError {
    ghost use Rattle.std.specs.Prelude.{◌≡◌};
    ghost use Rattle.form_base.specs.declared.cause.Cause.TheVariants.{NumberRange};
    ghost use Rattle.form_right_side.specs.declared.error.CheckError.TheVariants.{Refused};

    ghost from_gives = { λ past error. error ≡ Refused NumberRange past.spot };

    fn from(past: PastLimit) -> Self {
        CheckError::Refused(Cause::NumberRange, past.spot)
    }
}

impl From<AllocError> for CheckError {
    ghost use Rattle.std.specs.Prelude.{◌≡◌};
    ghost use Rattle.form_right_side.specs.declared.error.CheckError.TheVariants.{Memory};

    ghost from_gives = { λ _ error. error ≡ Memory };

    fn from(_: AllocError) -> Self {
        CheckError::Memory
    }
}

impl<T: Drop> From<AllocFailed<T>> for CheckError {
    ghost use Rattle.std.specs.Prelude.{◌≡◌};
    ghost use Rattle.form_right_side.specs.declared.error.CheckError.TheVariants.{Memory};

    ghost from_gives = { λ _ error. error ≡ Memory };

    fn from(_: AllocFailed<T>) -> Self {
        CheckError::Memory
    }
}
