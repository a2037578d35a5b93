ghost use Rattle.std.specs.Prelude.{◌≡◌, ◌≢◌, ◌↔◌, ◌≤◌, ◌/◌, ◌⊎◌, Bool, false, [], ◌∷◌, ◌++◌, Some, Err, IsTrue, OnOk, OnErr, IsOk, is_ok, true, length, take};
ghost use Rattle.form_outside.specs.Taken.{Takes};
ghost use Rattle.form_mem.specs.Calls.{is_listed, one_more};
ghost use Rattle.form_mem.specs.Sink.{bytes_of, ended, failing_puts, put_count, failing_finishes, finish_count, sink_faults, sure_bytes_of, surely_ended};

use crate::calls::Calls;
use form_outside::{Sink, SinkErr};
use std::alloc::{AllocError, Global};

/// A sink in memory, which can be told to fail.
#[derive(Drop)]
pub struct MemSink {
    taken: Vec<u8>,
    finished: bool,
    puts: Calls,
    finishes: Calls,
    faults: u64,
}

impl MemSink {
    /// A sink that has taken nothing, of which no call is to fail.
    pub fn new(alloc: Global) -> Self
        ensures bytes { bytes_of result ≡ [] }
        ensures open { ended result ≡ false }
        ensures failing { (failing_puts result ≡ []) × (failing_finishes result ≡ []) }
        ensures calls { (put_count result ≡ 0) × (finish_count result ≡ 0) }
        ensures faults { sink_faults result ≡ 0 }
    {
        MemSink {
            taken: Vec::new(alloc),
            finished: false,
            puts: Calls::new(alloc),
            finishes: Calls::new(alloc),
            faults: 0,
        }
    }

    /// Has a call of `put` fail. The first that is ever made is call 1.
    pub fn fail_put_at(&mut self, call: u64) -> Result<(), AllocError>
        ensures ok { OnOk result (failing_puts self.new ≡ failing_puts self.old ++ call ∷ []) }
        ensures err { OnErr result (failing_puts self.new ≡ failing_puts self.old) }
        ensures bytes { bytes_of self.new ≡ bytes_of self.old }
        ensures ended { ended self.new ≡ ended self.old }
        ensures finishes { failing_finishes self.new ≡ failing_finishes self.old }
        ensures calls { (put_count self.new ≡ put_count self.old)
            × (finish_count self.new ≡ finish_count self.old) }
        ensures faults { sink_faults self.new ≡ sink_faults self.old }
    {
        self.puts.fail_at(call)
    }

    /// Has a call of `finish` fail. The first that is ever made is call 1.
    pub fn fail_finish_at(&mut self, call: u64) -> Result<(), AllocError>
        ensures ok { OnOk result (failing_finishes self.new ≡ failing_finishes self.old ++ call ∷ []) }
        ensures err { OnErr result (failing_finishes self.new ≡ failing_finishes self.old) }
        ensures bytes { bytes_of self.new ≡ bytes_of self.old }
        ensures ended { ended self.new ≡ ended self.old }
        ensures puts { failing_puts self.new ≡ failing_puts self.old }
        ensures calls { (put_count self.new ≡ put_count self.old)
            × (finish_count self.new ≡ finish_count self.old) }
        ensures faults { sink_faults self.new ≡ sink_faults self.old }
    {
        self.finishes.fail_at(call)
    }

    /// The bytes taken so far.
    pub fn bytes(&self) -> &[u8]
        ensures { result.now ≡ bytes_of self.now }
    {
        self.taken.as_slice()
    }

    /// Whether the last call was a `finish` that answered Ok.
    pub fn is_finished(&self) -> bool
        ensures { result ≡ ended self.now }
    {
        self.finished
    }
}

impl Sink for MemSink {
    ghost taken = { λ sink. Some (bytes_of sink) };

    ghost is_finished = { ended };

    ghost faults = { sink_faults };

    /// Fails exactly at the calls that are to fail, and takes half of the piece then, or nothing where memory lacks.
    fn put(&mut self, alloc: Global, piece: &[u8]) -> Result<(), SinkErr>
        ensures taken { Takes (Some (bytes_of self.old)) piece.now (Some (bytes_of self.new)) result }
        ensures open { ended self.new ≡ false }
        ensures fails { (result ≡ Err SinkErr.Failed)
            ↔ IsTrue (is_listed (failing_puts self.old) (put_count self.new)) }
        ensures half { result ≡ Err SinkErr.Failed →
            (bytes_of self.new ≡ bytes_of self.old ++ take (length piece.now / 2) piece.now)
            ⊎ (bytes_of self.new ≡ bytes_of self.old) }
        ensures memory { result ≡ Err SinkErr.Memory → bytes_of self.new ≡ bytes_of self.old }
        ensures risen { result ≡ Err SinkErr.Failed → sink_faults self.new ≡ one_more (sink_faults self.old) }
        ensures not_risen { result ≢ Err SinkErr.Failed → sink_faults self.new ≡ sink_faults self.old }
        ensures never_falls { sink_faults self.old ≤ sink_faults self.new }
        ensures failing { (failing_puts self.new ≡ failing_puts self.old)
            × (failing_finishes self.new ≡ failing_finishes self.old) }
        ensures calls { (put_count self.new ≡ one_more (put_count self.old))
            × (finish_count self.new ≡ finish_count self.old) }
    {
        let _ = alloc;
        self.finished = false;
        if self.puts.next() {
            self.faults = self.faults.saturating_add(1);
            let _ = self.taken.extend_from_slice(&piece[..piece.len() / 2]);
            return Err(SinkErr::Failed);
        }
        append(&mut self.taken, piece)
    }

    /// Fails exactly at the calls that are to fail.
    fn finish(&mut self, alloc: Global) -> Result<(), SinkErr>
        ensures taken { bytes_of self.new ≡ bytes_of self.old }
        ensures ended { ended self.new ≡ is_ok result }
        ensures memory { result ≢ Err SinkErr.Memory }
        ensures fails { (result ≡ Err SinkErr.Failed)
            ↔ IsTrue (is_listed (failing_finishes self.old) (finish_count self.new)) }
        ensures risen { result ≡ Err SinkErr.Failed → sink_faults self.new ≡ one_more (sink_faults self.old) }
        ensures not_risen { result ≢ Err SinkErr.Failed → sink_faults self.new ≡ sink_faults self.old }
        ensures never_falls { sink_faults self.old ≤ sink_faults self.new }
        ensures failing { (failing_puts self.new ≡ failing_puts self.old)
            × (failing_finishes self.new ≡ failing_finishes self.old) }
        ensures calls { (put_count self.new ≡ put_count self.old)
            × (finish_count self.new ≡ one_more (finish_count self.old)) }
    {
        let _ = alloc;
        self.finished = false;
        if self.finishes.next() {
            self.faults = self.faults.saturating_add(1);
            return Err(SinkErr::Failed);
        }
        self.finished = true;
        Ok(())
    }
}

/// A sink in memory that never fails.
#[derive(Drop)]
pub struct SureSink {
    taken: Vec<u8>,
    finished: bool,
}

impl SureSink {
    /// A sink that has taken nothing.
    pub fn new(alloc: Global) -> Self
        ensures bytes { sure_bytes_of result ≡ [] }
        ensures open { surely_ended result ≡ false }
    {
        SureSink {
            taken: Vec::new(alloc),
            finished: false,
        }
    }

    /// The bytes taken so far.
    pub fn bytes(&self) -> &[u8]
        ensures { result.now ≡ sure_bytes_of self.now }
    {
        self.taken.as_slice()
    }

    /// Whether the last call was a `finish`.
    pub fn is_finished(&self) -> bool
        ensures { result ≡ surely_ended self.now }
    {
        self.finished
    }
}

impl Sink for SureSink {
    ghost taken = { λ sink. Some (sure_bytes_of sink) };

    ghost is_finished = { surely_ended };

    ghost faults = { λ _. 0 };

    /// Takes nothing where memory lacks.
    fn put(&mut self, alloc: Global, piece: &[u8]) -> Result<(), SinkErr>
        ensures ok { OnOk result (sure_bytes_of self.new ≡ sure_bytes_of self.old ++ piece.now) }
        ensures err { OnErr result (sure_bytes_of self.new ≡ sure_bytes_of self.old) }
        ensures open { surely_ended self.new ≡ false }
        ensures sure { result ≢ Err SinkErr.Failed }
    {
        let _ = alloc;
        self.finished = false;
        append(&mut self.taken, piece)
    }

    fn finish(&mut self, alloc: Global) -> Result<(), SinkErr>
        ensures ok { IsOk result }
        ensures taken { sure_bytes_of self.new ≡ sure_bytes_of self.old }
        ensures ended { surely_ended self.new ≡ true }
    {
        let _ = alloc;
        self.finished = true;
        Ok(())
    }
}

/// Puts a piece at the end of the bytes taken, or nothing where memory lacks.
fn append(taken: &mut Vec<u8>, piece: &[u8]) -> Result<(), SinkErr>
    ensures ok { OnOk result (taken.new.items ≡ taken.old.items ++ piece.now) }
    ensures err { OnErr result (taken.new.items ≡ taken.old.items) }
    ensures sure { result ≢ Err SinkErr.Failed }
{
    taken.extend_from_slice(piece)?;
    Ok(())
}
