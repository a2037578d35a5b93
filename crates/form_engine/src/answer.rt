ghost use Rattle.std.specs.Prelude.{◌≡◌, ◌≢◌, ◌≤◌, ◌++◌, true, Err};
ghost use Rattle.form_outside.specs.Faults.{HasRisen};
ghost use Rattle.form_outside.specs.Taken.{Takes};
ghost use Rattle.form_engine.specs.Answer.{Carries};
ghost use Rattle.form_engine.specs.Outcome.{Outcome, refused};

use crate::carry::carry_out;
use crate::stop::Stop;
use form_base::{Settings, Status};
use form_check::Program;
use form_outside::{Gate, Sink, SinkErr, Store};
use std::alloc::Global;

/// What a call is to do, as its words and the library's text decide it.
#[derive(Drop)]
pub enum Answer {
    /// To carry out this program.
    Runs(Settings, Program),
    Refused(Status),
}

impl Answer {
    ghost use Rattle.form_engine.specs.Answer.{IsAnswerOutcome, IsSoundAnswer};

    /// Carries the program out, or puts the line of the refusal into the sink. Answers the status.
    pub fn carry_out<O: Sink, S: Store + Send, G: Gate + Sync>(
        self,
        alloc: Global,
        out: &mut O,
        stores: &mut [S],
        gate: &G,
    ) -> Result<Status, Stop>
        requires { IsSoundAnswer self }
        ensures carried { (outcome : Outcome) × IsAnswerOutcome self outcome
            × Carries (O.taken out.old) outcome (O.taken out.new) result }
        ensures never_library { result ≢ Err Stop.Library }
        ensures failed { result ≡ Err Stop.Sink → HasRisen (O.faults out.old) (O.faults out.new) }
        ensures not_risen { result ≢ Err Stop.Sink → O.faults out.new ≡ O.faults out.old }
        ensures never_falls { O.faults out.old ≤ O.faults out.new }
        ensures unfinished { O.is_finished out.new ≡ true → O.is_finished out.old ≡ true }
        ensures same_stores { stores.new ≡ stores.old }
    {
        match self {
            Answer::Runs(settings, program) => {
                let ended = carry_out(alloc, &settings, &program, out, stores, gate);
                drop(program);
                ended
            }
            Answer::Refused(status) => refuse(alloc, status, out),
        }
    }
}

/// Puts the line of a refusal into the sink, and answers the status.
#[tactic(auto, using(form_outside::proofs::Written::Takes_error))]
pub fn refuse<O: Sink>(alloc: Global, status: Status, out: &mut O) -> Result<Status, Stop>
    ensures carried { Carries (O.taken out.old) (refused status) (O.taken out.new) result }
    ensures never_library { result ≢ Err Stop.Library }
    ensures failed { result ≡ Err Stop.Sink → HasRisen (O.faults out.old) (O.faults out.new) }
    ensures not_risen { result ≢ Err Stop.Sink → O.faults out.new ≡ O.faults out.old }
    ensures never_falls { O.faults out.old ≤ O.faults out.new }
    ensures unfinished { O.is_finished out.new ≡ true → O.is_finished out.old ≡ true }
{
    match write_refusal(alloc, &status, out) {
        Ok(()) => Ok(status),
        Err(error) => {
            // (let go whole: variant by variant it would be proved anew at this exit)
            drop(status);
            Err(Stop::from(error))
        }
    }
}

/// Puts the line of a refusal into the sink.
fn write_refusal<O: Sink>(alloc: Global, status: &Status, out: &mut O) -> Result<(), SinkErr>
    ensures taken { Takes (O.taken out.old) (refused status.now).bytes (O.taken out.new) result }
    ensures failed { result ≡ Err SinkErr.Failed → HasRisen (O.faults out.old) (O.faults out.new) }
    ensures not_risen { result ≢ Err SinkErr.Failed → O.faults out.new ≡ O.faults out.old }
    ensures never_falls { O.faults out.old ≤ O.faults out.new }
    ensures unfinished { O.is_finished out.new ≡ true → O.is_finished out.old ≡ true }
{
    let line = format!(in alloc; "{status}\n")?;
    out.put(alloc, line.as_bytes())
}
