ghost use Rattle.std.specs.Prelude.{◌≡◌, ◌≢◌, ◌≤◌, ◌<◌, ◌⊎◌, ◌++◌, ℕ, List, length, map, Some, None, Ok, Err, All, IsSomeAnd, IfOk, IfSome, OnOk, OnErr, MatchResult, true};
ghost use Rattle.form_base.specs.Status.{code_of};
ghost use Rattle.form_base.specs.declared.cause.Cause.{Cause};
ghost use Rattle.form_base.specs.declared.place.Place.{Place};
ghost use Rattle.form_base.specs.declared.status.Status.TheVariants.{Done, Usage, Missing, TextTooLong, RefusedText, RefusedRun, LibraryFault, SinkFault, StoreFault, StoreDamaged, OutOfMemory};
ghost use Rattle.form_outside.specs.Faults.{last_count, HasRisen};
ghost use Rattle.form_outside.specs.Runs.{HasNoLiveRun};
ghost use Rattle.form_outside.specs.Texts.{text_of};
ghost use Rattle.form_engine.specs.Answer.{Carries, nothing_more};
ghost use Rattle.form_engine.specs.Call.{bytes_of_words, IsStop, HasStoreRisen, FollowsOutcome, IsCarriedOut};
ghost use Rattle.form_preproc.specs.Expansion.{longest_text};
ghost use Rattle.form_engine.specs.Outcome.{Outcome, IsOutcome, refused};
ghost use Rattle.form_engine.specs.Stop.{ending};
ghost use Rattle.form_engine.specs.Words.{file_of};

use crate::decide::decide;
use crate::laws::one_outcome;
use crate::stop::Stop;
use form_base::Status;
use form_outside::{Gate, Library, Sink, Store};
use std::alloc::Global;
use std::sync::Wait;
use std::thread::Threads;

/// Runs one command.
///
/// `words` begins with the program's own name. `library` has the texts, `out` takes what is printed, `stores` are
/// where sorted runs go (0 the master's, 1 to 16 the workers'), and `gate` is passed before each bucket.
pub fn tform<R: Threads + Wait, L: Library, O: Sink, S: Store + Send, G: Gate + Sync>(
    rt: &R,
    alloc: Global,
    words: &[String],
    library: &mut L,
    out: &mut O,
    stores: &mut [S],
    gate: &G,
) -> Status
    requires seventeen_stores { length stores.old ≡ 17 }
    requires no_live_run { All (λ store. HasNoLiveRun (S.lengths store)) stores.old }
    requires library_can_count { L.faults library.old ≢ last_count }
    requires sink_can_count { O.faults out.old ≢ last_count }
    requires stores_can_count { All (λ store. S.faults store ≢ last_count) stores.old }

    // Where library and sink tell, the outcome of the words and texts is carried out: its bytes stand behind what the
    // sink had taken, and the status is its status. Otherwise a front of its bytes stands there, and the status names a
    // device whose count rose in this call, or want of memory.
    ensures headline { FollowsOutcome (bytes_of_words words.now) (L.texts library.old)
        (O.taken out.old) (O.taken out.new) result
        (IsStop (L.faults library.old < L.faults library.new) (O.faults out.old < O.faults out.new)
        (HasStoreRisen S.faults stores.old stores.new) result) }

    // Where no count rose it is carried out, unless memory ran out: so each status comes wherever it is the outcome's.
    ensures complete { L.faults library.new ≡ L.faults library.old →
        O.faults out.new ≡ O.faults out.old →
        map S.faults stores.new ≡ map S.faults stores.old →
        IfSome (L.texts library.old) (λ texts. IfSome (O.taken out.old) (λ taken.
        (outcome : Outcome) → IsOutcome (bytes_of_words words.now) texts outcome →
        IsCarriedOut outcome taken (O.taken out.new) result ⊎ (result ≡ OutOfMemory))) }

    // Whatever devices there are, faulty words are refused, without a look at the library, and no others are.
    ensures usage { result ≡ Usage → file_of (bytes_of_words words.now) ≡ None }
    ensures usage_wherever { file_of (bytes_of_words words.now) ≡ None →
        (result ≡ Usage) ⊎ ((result ≡ SinkFault) ⊎ (result ≡ OutOfMemory)) }
    ensures untouched { file_of (bytes_of_words words.now) ≡ None → library.new ≡ library.old }

    // A text that is missing is the one that the words name.
    ensures missing_file { (name : List ℕ) → result ≡ Missing name → file_of (bytes_of_words words.now) ≡ Some name }

    // Where the library tells its texts, what is said of them is so, whatever fails.
    ensures missing { IfSome (L.texts library.old) (λ texts.
        (name : List ℕ) → result ≡ Missing name → text_of texts name ≡ None) }
    ensures too_long { IfSome (L.texts library.old) (λ texts.
        (name : List ℕ) → result ≡ TextTooLong name →
        IsSomeAnd (text_of texts name) (λ text. longest_text < length text)) }
    ensures too_long_text { IfSome (L.texts library.old) (λ texts.
        (name : List ℕ) → result ≡ TextTooLong name →
        IsOutcome (bytes_of_words words.now) texts (refused (TextTooLong name))) }
    ensures refused_text { IfSome (L.texts library.old) (λ texts.
        (cause : Cause) (place : Place) → result ≡ RefusedText cause place →
        IsOutcome (bytes_of_words words.now) texts (refused (RefusedText cause place))) }
    ensures refused_run { IfSome (L.texts library.old) (λ texts.
        (cause : Cause) (place : Place) → result ≡ RefusedRun cause place →
        (bytes : List ℕ) × IsOutcome (bytes_of_words words.now) texts
        (record { bytes = bytes; status = RefusedRun cause place })) }
    ensures done { IfSome (L.texts library.old) (λ texts. result ≡ Done →
        (bytes : List ℕ)
        × IsOutcome (bytes_of_words words.now) texts (record { bytes = bytes; status = Done })) }

    // A fault of library or sink is told exactly where its count rose in this call, and damage of nothing.
    ensures library_fault { result ≡ LibraryFault → L.faults library.old < L.faults library.new }
    ensures sink_fault { result ≡ SinkFault → O.faults out.old < O.faults out.new }
    ensures library_unrisen { result ≢ LibraryFault → L.faults library.new ≡ L.faults library.old }
    ensures sink_unrisen { result ≢ SinkFault → O.faults out.new ≡ O.faults out.old }
    ensures store_fault { (store : ℕ) → result ≡ StoreFault store →
        HasStoreRisen S.faults stores.old stores.new store }
    ensures never_damaged { (store run place kept found : ℕ) → result ≢ StoreDamaged store run place kept found }

    // A call that wasn't stopped has finished the sink, and one that was hasn't.
    ensures finished { code_of result ≤ 4 → O.is_finished out.new ≡ true }
    ensures unfinished { 4 < code_of result → O.is_finished out.new ≡ true → O.is_finished out.old ≡ true }

    // The library's texts are as they were, and so are the stores, since no run is made yet.
    ensures same_texts { L.texts library.new ≡ L.texts library.old }
    ensures same_stores { stores.new ≡ stores.old }
{
    one_outcome();
    let _ = rt;
    match run(alloc, words, library, out, stores, gate) {
        Ok(status) => status,
        Err(stop) => stop.status(),
    }
}

/// Decides what is to be written, writes it and finishes.
fn run<L: Library, O: Sink, S: Store + Send, G: Gate + Sync>(
    alloc: Global,
    words: &[String],
    library: &mut L,
    out: &mut O,
    stores: &mut [S],
    gate: &G,
) -> Result<Status, Stop>
    requires library_can_count { L.faults library.old ≢ last_count }
    requires sink_can_count { O.faults out.old ≢ last_count }
    ensures headline { FollowsOutcome (bytes_of_words words.now) (L.texts library.old)
        (O.taken out.old) (O.taken out.new) (ending result)
        (IsStop (L.faults library.old < L.faults library.new) (O.faults out.old < O.faults out.new)
        (λ store. ⊥) (ending result)) }
    ensures decided { IfOk result (λ status. IfSome (L.texts library.old) (λ texts.
        (bytes : List ℕ)
        × IsOutcome (bytes_of_words words.now) texts (record { bytes = bytes; status = status }))) }
    ensures answered { IfOk result (λ status. code_of status ≤ 4) }
    ensures usage { IfOk result (λ status. status ≡ Usage → file_of (bytes_of_words words.now) ≡ None) }
    ensures usage_wherever { file_of (bytes_of_words words.now) ≡ None →
        MatchResult result (λ status. status ≡ Usage) (λ stop. stop ≢ Stop.Library) }
    ensures library_fault { result ≡ Err Stop.Library → L.faults library.old < L.faults library.new }
    ensures sink_fault { result ≡ Err Stop.Sink → O.faults out.old < O.faults out.new }
    ensures untouched { file_of (bytes_of_words words.now) ≡ None → library.new ≡ library.old }
    ensures missing_file { IfOk result (λ status. (name : List ℕ) → status ≡ Missing name →
        file_of (bytes_of_words words.now) ≡ Some name) }
    ensures library_unrisen { result ≢ Err Stop.Library → L.faults library.new ≡ L.faults library.old }
    ensures sink_unrisen { result ≢ Err Stop.Sink → O.faults out.new ≡ O.faults out.old }
    ensures finished { OnOk result (O.is_finished out.new ≡ true) }
    ensures unfinished { OnErr result (O.is_finished out.new ≡ true → O.is_finished out.old ≡ true) }
    ensures same_texts { L.texts library.new ≡ L.texts library.old }
    ensures same_stores { stores.new ≡ stores.old }
{
    one_outcome();
    let answer = decide(alloc, words, library)?;
    let status = answer.carry_out(alloc, out, stores, gate)?;
    finish(alloc, out, status)
}

/// Finishes the sink, and then answers the status.
fn finish<O: Sink>(alloc: Global, out: &mut O, status: Status) -> Result<Status, Stop>
    ensures carried { Carries (O.taken out.old) (nothing_more status) (O.taken out.new) result }
    ensures never_library { result ≢ Err Stop.Library }
    ensures failed { result ≡ Err Stop.Sink → HasRisen (O.faults out.old) (O.faults out.new) }
    ensures not_risen { result ≢ Err Stop.Sink → O.faults out.new ≡ O.faults out.old }
    ensures never_falls { O.faults out.old ≤ O.faults out.new }
    ensures finished { OnOk result (O.is_finished out.new ≡ true) }
    ensures unfinished { OnErr result (O.is_finished out.new ≡ true → O.is_finished out.old ≡ true) }
{
    match out.finish(alloc) {
        Ok(()) => Ok(status),
        Err(error) => {
            drop(status);
            Err(Stop::from(error))
        }
    }
}
