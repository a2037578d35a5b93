ghost use Rattle.std.specs.Prelude.{◌≡◌, ◌≢◌, ℕ, ◌+◌, ◌≤◌, ◌<◌, ◌^◌, List, [], ◌∷◌, ◌++◌, Option, Some, None, length, map, option_map, slice_set, IfOk, IfSome, OnOk, OnErr};
ghost use Rattle.form_outside.specs.Runs.{IsLive, length_of, lengths_in, Contents, KeepsOthers, Appended, IsRead};
ghost use Rattle.form_outside.specs.Faults.{HasRisen};

use std::alloc::{AllocError, AllocFailed, Global};
use thiserror::Error;

#[derive(Clone, Copy, Debug, PartialEq, Eq, Error)]
pub enum StoreErr {
    #[error("the store failed")]
    Failed,
    #[error("out of memory")]
    Memory,
}

impl From<AllocError> for StoreErr {
    ghost use Rattle.std.specs.Prelude.{◌≡◌};
    ghost use Rattle.form_outside.specs.declared.store.StoreErr.TheVariants.{Memory};

    ghost from_gives = { λ _ error. error ≡ Memory };

    fn from(_: AllocError) -> Self {
        StoreErr::Memory
    }
}

impl<T: Drop> From<AllocFailed<T>> for StoreErr {
    ghost use Rattle.std.specs.Prelude.{◌≡◌};
    ghost use Rattle.form_outside.specs.declared.store.StoreErr.TheVariants.{Memory};

    ghost from_gives = { λ _ error. error ≡ Memory };

    fn from(_: AllocFailed<T>) -> Self {
        StoreErr::Memory
    }
}

/// Runs of bytes, numbered 0, 1, 2 as they are made. Runs, and the bytes in one, number below 2^63.
pub trait Store {
    /// The length of each run, none where it was removed. Always told.
    ghost lengths: { Self → List (Option ℕ) };

    /// The bytes of each run, where it tells them.
    ghost contents: { Self → Option Contents };

    /// How often it has failed.
    ghost faults: { Self → ℕ };

    /// Makes an empty run, and answers its number.
    fn create(&mut self, alloc: Global) -> Result<u64, StoreErr>
        ensures number { IfOk result (λ run. (run ≡ length (lengths self.old)) × (run < 2 ^ 63)) }
        ensures made { OnOk result (lengths self.new ≡ lengths self.old ++ Some 0 ∷ []) }
        ensures empty { OnOk result (contents self.new
            ≡ option_map (λ runs. runs ++ Some [] ∷ []) (contents self.old)) }
        ensures err { OnErr result ((lengths self.new ≡ lengths self.old)
            × (contents self.new ≡ contents self.old)) }
        ensures failed { result ≡ Err StoreErr.Failed → HasRisen (faults self.old) (faults self.new) }
        ensures not_risen { result ≢ Err StoreErr.Failed → faults self.new ≡ faults self.old }
        ensures never_falls { faults self.old ≤ faults self.new };

    /// Puts bytes at a run's end. What the run has after an `Err` isn't told: the caller only removes it then.
    fn append(&mut self, alloc: Global, run: u64, bytes: &[u8]) -> Result<(), StoreErr>
        requires { IsLive (lengths self.old) run }
        ensures longer { OnOk result (lengths self.new
            ≡ slice_set (lengths self.old) run (Some (length_of (lengths self.old) run + length bytes.now))) }
        ensures small { OnOk result (length_of (lengths self.new) run < 2 ^ 63) }
        ensures appended { OnOk result (contents self.new
            ≡ option_map (Appended run bytes.now) (contents self.old)) }
        ensures err { OnErr result (KeepsOthers (lengths self.old) (contents self.old) run (lengths self.new) (contents self.new)) }
        ensures failed { result ≡ Err StoreErr.Failed → HasRisen (faults self.old) (faults self.new) }
        ensures not_risen { result ≢ Err StoreErr.Failed → faults self.new ≡ faults self.old }
        ensures never_falls { faults self.old ≤ faults self.new };

    /// Reads the bytes from `at` on into the front of `out`, as many as fit, and answers how many.
    fn read(&mut self, alloc: Global, run: u64, at: u64, out: &mut [u8]) -> Result<usize, StoreErr>
        requires live { IsLive (lengths self.old) run }
        requires within { at ≤ length_of (lengths self.old) run }
        ensures count { IfOk result (λ n. (n ≤ length out.old) × (at + n ≤ length_of (lengths self.old) run)) }
        ensures read { IfOk result (λ n. IfSome (contents self.old) (λ runs. IsRead runs run at n out.new)) }
        ensures same { (lengths self.new ≡ lengths self.old) × (contents self.new ≡ contents self.old) }
        ensures failed { result ≡ Err StoreErr.Failed → HasRisen (faults self.old) (faults self.new) }
        ensures not_risen { result ≢ Err StoreErr.Failed → faults self.new ≡ faults self.old }
        ensures never_falls { faults self.old ≤ faults self.new };

    /// Removes a run.
    fn remove(&mut self, alloc: Global, run: u64) -> Result<(), StoreErr>
        requires { IsLive (lengths self.old) run }
        ensures removed { OnOk result (lengths self.new ≡ slice_set (lengths self.old) run None) }
        ensures gone { OnOk result (contents self.new
            ≡ option_map (λ runs. slice_set runs run None) (contents self.old)) }
        ensures err { OnErr result ((lengths self.new ≡ lengths self.old)
            × (contents self.new ≡ contents self.old)) }
        ensures failed { result ≡ Err StoreErr.Failed → HasRisen (faults self.old) (faults self.new) }
        ensures not_risen { result ≢ Err StoreErr.Failed → faults self.new ≡ faults self.old }
        ensures never_falls { faults self.old ≤ faults self.new };

    /// Where it tells the bytes of its runs, their lengths are those of the bytes.
    ghost same_lengths: { (store : Self) → IfSome (contents store) (λ runs. lengths store ≡ lengths_in runs) };
}
