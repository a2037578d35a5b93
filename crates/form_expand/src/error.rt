use form_base::Cause;
use form_normal::ProductError;
use std::alloc::{AllocError, AllocFailed};

/// Why no further term comes.
#[derive(Drop)]
pub enum ExpandError {
    /// The list is refused here.
    Refused(Cause),
    Memory,
}

impl From<ProductError> for ExpandError {
    ghost use Rattle.std.specs.Prelude.{◌≡◌};
    ghost use Rattle.form_expand.specs.Error.{error_of};

    ghost from_gives = { λ error e. e ≡ error_of error };

    fn from(error: ProductError) -> Self {
        match error {
            ProductError::Refused(cause) => ExpandError::Refused(cause),
            ProductError::Memory => ExpandError::Memory,
        }
    }
}

impl From<AllocError> for ExpandError {
    ghost use Rattle.std.specs.Prelude.{◌≡◌};
    ghost use Rattle.form_expand.specs.declared.error.ExpandError.TheVariants.{Memory};

    ghost from_gives = { λ _ e. e ≡ Memory };

    fn from(_: AllocError) -> Self {
        ExpandError::Memory
    }
}

impl<T: Drop> From<AllocFailed<T>> for ExpandError {
    ghost use Rattle.std.specs.Prelude.{◌≡◌};
    ghost use Rattle.form_expand.specs.declared.error.ExpandError.TheVariants.{Memory};

    ghost from_gives = { λ _ e. e ≡ Memory };

    fn from(_: AllocFailed<T>) -> Self {
        ExpandError::Memory
    }
}
