ghost use Rattle.std.specs.Prelude.{◌≡◌, ◌≢◌, ◌<◌, ◌≤◌, [], false, Err, OnOk, OnErr, is_ok, vec_len, length, take};
ghost use Rattle.std.specs.Io.KnownBytes.{Keeps, Appends};
ghost use Rattle.form_outside.specs.Faults.{HasRisen};
ghost use Rattle.form_outside.specs.Taken.{Takes};

use form_outside::{Sink, SinkErr};
use std::alloc::Global;
use std::io::Write;

/// How many bytes wait before they are written out.
const ROOM: usize = 65536;

/// A sink over a writer, as the standard output. Its bytes are written out in large pieces, the last at `finish`.
#[derive(Drop)]
pub struct OutSink<W: Write> {
    out: W,
    /// The bytes since the last piece. Those before `start` are written out, since a write failed after them.
    waiting: Vec<u8>,
    start: usize,
    finished: bool,
    faults: u64,
    ghost in_range: { start ≤ vec_len waiting },
}

impl<W: Write> OutSink<W> {
    ghost use Rattle.form_files.specs.OutSink.{taken_by, waiting_in, writer_in, is_finished, sink_faults};

    pub fn new(alloc: Global, out: W) -> Self
        ensures taken { taken_by result ≡ W.contents out }
        ensures waiting { waiting_in result ≡ [] }
        ensures out { writer_in result ≡ out }
        ensures open { is_finished result ≡ false }
        ensures faults { sink_faults result ≡ 0 }
    {
        OutSink {
            out,
            waiting: Vec::new(alloc),
            start: 0,
            finished: false,
            faults: 0,
        }
    }

    /// Writes out what waits. What a failed write leaves still waits.
    fn write_out(&mut self) -> Result<(), SinkErr>
        ensures taken { Keeps (taken_by self.old) (taken_by self.new) }
        ensures written { OnOk result (waiting_in self.new ≡ []) }
        ensures finished { is_finished self.new ≡ is_finished self.old }
        ensures failed { OnErr result (HasRisen (sink_faults self.old) (sink_faults self.new)) }
        ensures never_falls { sink_faults self.old ≤ sink_faults self.new }
        ensures not_risen { OnOk result (sink_faults self.new ≡ sink_faults self.old) }
        ensures memory { result ≢ Err SinkErr.Memory }
    {
        self.start += write_front(&mut self.out, &self.waiting[self.start..]);
        if self.start < self.waiting.len() {
            self.faults = self.faults.saturating_add(1);
            return Err(SinkErr::Failed);
        }
        self.start = 0;
        self.waiting.clear();
        Ok(())
    }
}

impl<W: Write> Sink for OutSink<W> {
    ghost use Rattle.form_files.specs.OutSink.{taken_by, waiting_in, is_finished, sink_faults};

    // What the writer holds and then what waits, where the writer tells it; the standard output doesn't.
    ghost taken = { taken_by };

    ghost is_finished = { is_finished };

    ghost faults = { sink_faults };

    fn put(&mut self, alloc: Global, piece: &[u8]) -> Result<(), SinkErr>
        ensures taken { Takes (taken_by self.old) piece.now (taken_by self.new) result }
        ensures few_wait { OnOk result (length (waiting_in self.new) < 65_536) }
        ensures open { is_finished self.new ≡ false }
        ensures failed { result ≡ Err SinkErr.Failed → HasRisen (sink_faults self.old) (sink_faults self.new) }
        ensures not_risen { result ≢ Err SinkErr.Failed → sink_faults self.new ≡ sink_faults self.old }
        ensures never_falls { sink_faults self.old ≤ sink_faults self.new }
    {
        let _ = alloc;
        self.finished = false;
        self.waiting.extend_from_slice(piece)?;
        if self.waiting.len() < ROOM {
            return Ok(());
        }
        self.write_out()
    }

    fn finish(&mut self, alloc: Global) -> Result<(), SinkErr>
        ensures taken { Takes (taken_by self.old) [] (taken_by self.new) result }
        ensures none_waits { OnOk result (waiting_in self.new ≡ []) }
        ensures finished { is_finished self.new ≡ is_ok result }
        ensures failed { OnErr result (HasRisen (sink_faults self.old) (sink_faults self.new)) }
        ensures not_risen { OnOk result (sink_faults self.new ≡ sink_faults self.old) }
        ensures never_falls { sink_faults self.old ≤ sink_faults self.new }
        ensures memory { result ≢ Err SinkErr.Memory }
    {
        let _ = alloc;
        self.finished = false;
        self.write_out()?;
        if self.out.flush().is_err() {
            self.faults = self.faults.saturating_add(1);
            return Err(SinkErr::Failed);
        }
        self.finished = true;
        Ok(())
    }
}

/// Writes bytes out, and answers how many: fewer than all where a write failed or took none.
fn write_front<W: Write>(out: &mut W, bytes: &[u8]) -> usize
    ensures within { result ≤ length bytes.now }
    ensures appended { Appends (W.contents out.old) (W.contents out.new) (take result bytes.now) }
{
    let mut written = 0;
    while written < bytes.len() {
        let Ok(count) = out.write(&bytes[written..]) else {
            break;
        };
        if count == 0 {
            break;
        }
        written += count;
    }
    written
}
