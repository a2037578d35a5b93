ghost use Rattle.std.specs.Prelude.{◌≡◌, ◌≢◌, ℕ, ◌≤◌, Option, length, IfOk, IfSome};
ghost use Rattle.form_outside.specs.Texts.{Texts, text_of, IsFetched};
ghost use Rattle.form_outside.specs.Faults.{HasRisen};

use std::alloc::{AllocError, AllocFailed, Global};
use thiserror::Error;

#[derive(Clone, Copy, Debug, PartialEq, Eq, Error)]
pub enum LibraryErr {
    #[error("the text is too long")]
    TooLong,
    #[error("the library failed")]
    Failed,
    #[error("out of memory")]
    Memory,
}

impl From<AllocError> for LibraryErr {
    ghost use Rattle.std.specs.Prelude.{◌≡◌};
    ghost use Rattle.form_outside.specs.declared.library.LibraryErr.TheVariants.{Memory};

    ghost from_gives = { λ _ error. error ≡ Memory };

    fn from(_: AllocError) -> Self {
        LibraryErr::Memory
    }
}

impl<T: Drop> From<AllocFailed<T>> for LibraryErr {
    ghost use Rattle.std.specs.Prelude.{◌≡◌};
    ghost use Rattle.form_outside.specs.declared.library.LibraryErr.TheVariants.{Memory};

    ghost from_gives = { λ _ error. error ≡ Memory };

    fn from(_: AllocFailed<T>) -> Self {
        LibraryErr::Memory
    }
}

/// Texts by name, which never change.
pub trait Library {
    /// The texts, where it tells them.
    ghost texts: { Self → Option Texts };

    /// How often it has failed.
    ghost faults: { Self → ℕ };

    /// The bytes of a text: none where there is no text of that name, and `TooLong` where it has more than `max`.
    fn fetch(&mut self, alloc: Global, name: &str, max: u64) -> Result<Option<Vec<u8>>, LibraryErr>
        ensures fetched { IfSome (texts self.old) (λ all. IsFetched (text_of all name.now) max result) }
        ensures within { IfOk result (λ found. IfSome found (λ text. length text.items ≤ max)) }
        ensures same { texts self.new ≡ texts self.old }
        ensures failed { result ≡ Err LibraryErr.Failed → HasRisen (faults self.old) (faults self.new) }
        ensures not_risen { result ≢ Err LibraryErr.Failed → faults self.new ≡ faults self.old }
        ensures never_falls { faults self.old ≤ faults self.new };
}
