ghost use Rattle.std.specs.Prelude.{◌≡◌, ◌≢◌, ℕ, ◌≤◌, Bool, false, List, [], Option, is_ok};
ghost use Rattle.form_outside.specs.Taken.{Takes};
ghost use Rattle.form_outside.specs.Faults.{HasRisen};

use std::alloc::{AllocError, AllocFailed, Global};
use thiserror::Error;

#[derive(Clone, Copy, Debug, PartialEq, Eq, Error)]
pub enum SinkErr {
    #[error("the output failed")]
    Failed,
    #[error("out of memory")]
    Memory,
}

impl From<AllocError> for SinkErr {
    ghost use Rattle.std.specs.Prelude.{◌≡◌};
    ghost use Rattle.form_outside.specs.declared.sink.SinkErr.TheVariants.{Memory};

    ghost from_gives = { λ _ error. error ≡ Memory };

    fn from(_: AllocError) -> Self {
        SinkErr::Memory
    }
}

impl<T: Drop> From<AllocFailed<T>> for SinkErr {
    ghost use Rattle.std.specs.Prelude.{◌≡◌};
    ghost use Rattle.form_outside.specs.declared.sink.SinkErr.TheVariants.{Memory};

    ghost from_gives = { λ _ error. error ≡ Memory };

    fn from(_: AllocFailed<T>) -> Self {
        SinkErr::Memory
    }
}

/// Takes bytes, piece after piece.
pub trait Sink {
    /// The bytes taken, where it tells them.
    ghost taken: { Self → Option (List ℕ) };

    /// Whether its last call was a `finish` that answered Ok. Always told.
    ghost is_finished: { Self → Bool };

    /// How often it has failed.
    ghost faults: { Self → ℕ };

    /// Takes the whole piece, or at an `Err` a front of it.
    fn put(&mut self, alloc: Global, piece: &[u8]) -> Result<(), SinkErr>
        ensures taken { Takes (taken self.old) piece.now (taken self.new) result }
        ensures open { is_finished self.new ≡ false }
        ensures failed { result ≡ Err SinkErr.Failed → HasRisen (faults self.old) (faults self.new) }
        ensures not_risen { result ≢ Err SinkErr.Failed → faults self.new ≡ faults self.old }
        ensures never_falls { faults self.old ≤ faults self.new };

    /// Sees to it that what was taken is where it belongs. Takes nothing.
    fn finish(&mut self, alloc: Global) -> Result<(), SinkErr>
        ensures taken { Takes (taken self.old) [] (taken self.new) result }
        ensures finished { is_finished self.new ≡ is_ok result }
        ensures failed { result ≡ Err SinkErr.Failed → HasRisen (faults self.old) (faults self.new) }
        ensures not_risen { result ≢ Err SinkErr.Failed → faults self.new ≡ faults self.old }
        ensures never_falls { faults self.old ≤ faults self.new };
}
