use crate::carry_error::CarryError;
use form_base::{Cause, Id};
use form_collect::CollectError;
use form_expand::ExpandError;
use std::alloc::AllocError;

/// Why there is no result.
#[derive(Drop)]
pub enum ResultError {
    Refused(Cause),
    Memory,
}

impl ResultError {
    ghost use Rattle.std.specs.Prelude.{◌≡◌};
    ghost use Rattle.form_module.specs.Answers.{at_expression};

    /// Why the module isn't carried out, whose expression has no result.
    pub fn at(self, expression: Id) -> CarryError
        ensures { result ≡ at_expression expression self }
    {
        match self {
            ResultError::Refused(cause) => CarryError::Refused(cause, expression),
            ResultError::Memory => CarryError::Memory,
        }
    }
}

impl From<AllocError> for ResultError {
    ghost use Rattle.std.specs.Prelude.{◌≡◌};
    ghost use Rattle.form_module.specs.declared.result_error.ResultError.TheVariants.{Memory};

    ghost from_gives = { λ _ error. error ≡ Memory };

    fn from(_: AllocError) -> Self {
        ResultError::Memory
    }
}

impl From<ExpandError> for ResultError {
    ghost use Rattle.std.specs.Prelude.{◌≡◌};
    ghost use Rattle.form_module.specs.Answers.{of_expand};

    ghost from_gives = { λ error result. result ≡ of_expand error };

    fn from(error: ExpandError) -> Self {
        match error {
            ExpandError::Refused(cause) => ResultError::Refused(cause),
            ExpandError::Memory => ResultError::Memory,
        }
    }
}

impl From<CollectError> for ResultError {
    ghost use Rattle.std.specs.Prelude.{◌≡◌};
    ghost use Rattle.form_module.specs.Answers.{of_collect};

    ghost from_gives = { λ error result. result ≡ of_collect error };

    fn from(error: CollectError) -> Self {
        match error {
            CollectError::Overflow => ResultError::Refused(Cause::Overflow),
            CollectError::Memory => ResultError::Memory,
        }
    }
}
