ghost use Rattle.std.specs.Prelude.{◌≡◌, ◌≢◌, ◌≤◌, ◌<◌, ◌⊎◌, None, IfOk, IfSome, OnErr, true};
ghost use Rattle.form_base.specs.Status.{code_of};
ghost use Rattle.form_base.specs.declared.status.Status.TheVariants.{Usage, LibraryFault, SinkFault, OutOfMemory};
ghost use Rattle.form_outside.specs.Faults.{last_count};
ghost use Rattle.form_engine.specs.Call.{bytes_of_words, IsStop, IsCarriedOut, FollowsOutcome};
ghost use Rattle.form_engine.specs.Outcome.{Outcome, IsOutcome};
ghost use Rattle.form_engine.specs.Words.{file_of};

use form_base::Status;
use form_engine::tform;
use form_mem::{OpenGate, fresh_stores};
use form_outside::{Library, Sink};
use std::alloc::{AllocError, Global};
use std::sync::Wait;
use std::thread::Threads;

/// How many stores a call is lent: the master's and those of sixteen workers.
const STORES: usize = 17;

/// Runs the command of these words, with stores in memory and a gate that keeps no seat waiting.
pub fn run_command<R: Threads + Wait, L: Library, O: Sink>(
    rt: &R,
    alloc: Global,
    words: &[String],
    library: &mut L,
    out: &mut O,
) -> Result<Status, AllocError>
    requires library_can_count { L.faults library.old ≢ last_count }
    requires sink_can_count { O.faults out.old ≢ last_count }

    // Where library and sink tell, the outcome of the words and texts is carried out, or a front of it where a device
    // whose count rose, or want of memory, stopped the call. No store stops it, since none in memory fails.
    ensures headline { IfOk result (λ status. FollowsOutcome (bytes_of_words words.now) (L.texts library.old)
        (O.taken out.old) (O.taken out.new) status
        (IsStop (L.faults library.old < L.faults library.new) (O.faults out.old < O.faults out.new)
        (λ store. ⊥) status)) }

    // Where no count rose it is carried out, unless memory ran out.
    ensures complete { IfOk result (λ status.
        L.faults library.new ≡ L.faults library.old → O.faults out.new ≡ O.faults out.old →
        IfSome (L.texts library.old) (λ texts. IfSome (O.taken out.old) (λ taken.
        (outcome : Outcome) → IsOutcome (bytes_of_words words.now) texts outcome →
        IsCarriedOut outcome taken (O.taken out.new) status ⊎ (status ≡ OutOfMemory)))) }

    // Whatever devices there are, faulty words are refused, and no others are.
    ensures usage { IfOk result (λ status. status ≡ Usage → file_of (bytes_of_words words.now) ≡ None) }
    ensures usage_wherever { IfOk result (λ status. file_of (bytes_of_words words.now) ≡ None →
        (status ≡ Usage) ⊎ ((status ≡ SinkFault) ⊎ (status ≡ OutOfMemory))) }

    // A fault is told exactly of an object whose count rose in this call.
    ensures library_fault { IfOk result (λ status. status ≡ LibraryFault →
        L.faults library.old < L.faults library.new) }
    ensures sink_fault { IfOk result (λ status. status ≡ SinkFault → O.faults out.old < O.faults out.new) }
    ensures library_unrisen { IfOk result (λ status. status ≢ LibraryFault →
        L.faults library.new ≡ L.faults library.old) }
    ensures sink_unrisen { IfOk result (λ status. status ≢ SinkFault → O.faults out.new ≡ O.faults out.old) }

    // A call that wasn't stopped has finished the sink.
    ensures finished { IfOk result (λ status. code_of status ≤ 4 → O.is_finished out.new ≡ true) }

    // Where memory lacks for the stores, nothing was done.
    ensures untouched { OnErr result ((library.new ≡ library.old) × (out.new ≡ out.old)) }
{
    let mut stores = fresh_stores(alloc, STORES)?;
    Ok(tform(rt, alloc, words, library, out, &mut stores, &OpenGate))
}
