ghost use Rattle.std.specs.Prelude.{◌≡◌, ◌≢◌, ◌+◌, ◌<◌, ◌≤◌, ◌^◌, [], ◌∷◌, ◌++◌, Some, None, Err, OnOk, OnErr, IfOk, IfSome, IsSome, IsOk, length, slice_set, map, min, take, drop, ◌-◌, unwrap_or};
ghost use Rattle.form_outside.specs.Runs.{IsLive, length_of, bytes_of, Appended, IsRead, KeepsOthers};
ghost use Rattle.form_mem.specs.Store.{held_bytes, runs_of, lengths_of};

use form_outside::{Store, StoreErr};
use std::alloc::{AllocError, Global};

/// A store in memory, which never fails.
#[derive(Drop)]
pub struct MemStore {
    runs: Vec<Option<Vec<u8>>>,
}

impl MemStore {
    /// A store without runs.
    pub fn new(alloc: Global) -> Self
        ensures { runs_of result ≡ [] }
    {
        MemStore {
            runs: Vec::new(alloc),
        }
    }
}

impl Store for MemStore {
    ghost use Rattle.std.proofs.Common.{rules};

    ghost lengths = { lengths_of };

    ghost contents = { λ store. Some (runs_of store) };

    ghost faults = { λ _. 0 };

    ghost same_lengths = { Prim.search rules };

    fn create(&mut self, alloc: Global) -> Result<u64, StoreErr>
        ensures number { IfOk result (λ run. (run ≡ length (runs_of self.old)) × (run < 2 ^ 63)) }
        ensures made { OnOk result (runs_of self.new ≡ runs_of self.old ++ Some [] ∷ []) }
        ensures err { OnErr result (runs_of self.new ≡ runs_of self.old) }
        ensures sure { result ≢ Err StoreErr.Failed }
    {
        let run = self.runs.len() as u64;
        self.runs.push(Some(Vec::new(alloc)))?;
        Ok(run)
    }

    fn append(&mut self, alloc: Global, run: u64, bytes: &[u8]) -> Result<(), StoreErr>
        requires { IsLive (lengths_of self.old) run }
        ensures longer { OnOk result (lengths_of self.new
            ≡ slice_set (lengths_of self.old) run (Some (length_of (lengths_of self.old) run + length bytes.now))) }
        ensures small { OnOk result (length_of (lengths_of self.new) run < 2 ^ 63) }
        ensures appended { OnOk result (runs_of self.new ≡ Appended run bytes.now (runs_of self.old)) }
        ensures unchanged { OnErr result (runs_of self.new ≡ runs_of self.old) }
        ensures others { OnErr result (KeepsOthers (lengths_of self.old) (Some (runs_of self.old)) run (lengths_of self.new) (Some (runs_of self.new))) }
        ensures sure { result ≢ Err StoreErr.Failed }
    {
        let _ = alloc;
        match extend(&mut self.runs[run as usize], bytes) {
            Ok(()) => Ok(()),
            Err(_) => Err(StoreErr::Memory),
        }
    }

    fn read(&mut self, alloc: Global, run: u64, at: u64, out: &mut [u8]) -> Result<usize, StoreErr>
        requires live { IsLive (lengths_of self.old) run }
        requires within { at ≤ length_of (lengths_of self.old) run }
        ensures ok { IsOk result }
        ensures count { IfOk result (λ n. (n ≤ length out.old) × (at + n ≤ length_of (lengths_of self.old) run)) }
        ensures read { IfOk result (λ n. IsRead (runs_of self.old) run at n out.new) }
        ensures same { runs_of self.new ≡ runs_of self.old }
    {
        let _ = alloc;
        Ok(copy_from(bytes_at(&self.runs, run as usize), at as usize, out))
    }

    fn remove(&mut self, alloc: Global, run: u64) -> Result<(), StoreErr>
        requires { IsLive (lengths_of self.old) run }
        ensures ok { IsOk result }
        ensures removed { lengths_of self.new ≡ slice_set (lengths_of self.old) run None }
        ensures gone { runs_of self.new ≡ slice_set (runs_of self.old) run None }
    {
        let _ = alloc;
        self.runs[run as usize] = None;
        Ok(())
    }
}

/// Puts bytes at the end of a run that is live.
fn extend(held: &mut Option<Vec<u8>>, bytes: &[u8]) -> Result<(), AllocError>
    requires { IsSome held.old }
    ensures ok { OnOk result (held_bytes held.new ≡ Some (unwrap_or (held_bytes held.old) [] ++ bytes.now)) }
    ensures err { OnErr result (held_bytes held.new ≡ held_bytes held.old) }
    ensures small { IfSome held.new (λ held. length held.items < 2 ^ 63) }
{
    match held {
        Some(held) => held.extend_from_slice(bytes),
        None => unreachable!(),
    }
}

/// The bytes of a run, or none where it isn't live.
fn bytes_at(runs: &[Option<Vec<u8>>], run: usize) -> &[u8]
    requires { run < length runs.now }
    ensures { result.now ≡ bytes_of (map held_bytes runs.now) run }
{
    match &runs[run] {
        Some(held) => held.as_slice(),
        None => &[],
    }
}

/// Copies the bytes from `at` on into the front of `out`, as many as fit, and answers how many.
fn copy_from(bytes: &[u8], at: usize, out: &mut [u8]) -> usize
    requires { at ≤ length bytes.now }
    ensures count { result ≡ min (length out.new) (length bytes.now - at) }
    ensures copied { take result out.new ≡ take result (drop at bytes.now) }
    ensures len { length out.new ≡ length out.old }
{
    let rest = &bytes[at..];
    let count = rest.len().min(out.len());
    out[..count].copy_from_slice(&rest[..count]);
    count
}
