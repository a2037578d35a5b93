ghost use Rattle.std.specs.Prelude.{◌≡◌, ◌≢◌, ◌≤◌, true, Err};
ghost use Rattle.form_outside.specs.Faults.{HasRisen};
ghost use Rattle.form_outside.specs.Taken.{Takes};
ghost use Rattle.form_check.specs.Sound.{IsSound};
ghost use Rattle.form_module.specs.Sets.{has};
ghost use Rattle.form_engine.specs.Answer.{Carries, Stops};
ghost use Rattle.form_engine.specs.Outcome.{Outcome, program_outcome};
ghost use Rattle.form_engine.specs.Printed.{printed_module, printed_where};

use crate::answer::refuse;
use crate::stop::Stop;
use form_base::{Name, Settings, Status};
use form_check::{Module, Program};
use form_expand::Stored;
use form_module::{ExpressionSet, ModuleError, printed, run_module};
use form_names::Names;
use form_outside::{Gate, Sink, SinkErr, Store};
use form_print::{print_expression, text_of};
use std::alloc::Global;

/// Carries out each module and prints what it prints, up to the first that is refused.
pub fn carry_out<O: Sink, S: Store + Send, G: Gate + Sync>(
    alloc: Global,
    settings: &Settings,
    program: &Program,
    out: &mut O,
    stores: &mut [S],
    gate: &G,
) -> Result<Status, Stop>
    requires { IsSound program.now }
    ensures carried { (outcome : Outcome) × (outcome ≡ program_outcome settings.now program.now)
        × Carries (O.taken out.old) outcome (O.taken out.new) result }
    ensures never_library { result ≢ Err Stop.Library }
    ensures failed { result ≡ Err Stop.Sink → HasRisen (O.faults out.old) (O.faults out.new) }
    ensures not_risen { result ≢ Err Stop.Sink → O.faults out.new ≡ O.faults out.old }
    ensures never_falls { O.faults out.old ≤ O.faults out.new }
    ensures unfinished { O.is_finished out.new ≡ true → O.is_finished out.old ≡ true }
    ensures same_stores { stores.new ≡ stores.old }
{
    let mut standing = Vec::new(alloc);
    for (index, module) in program.modules().iter().enumerate() {
        match run_module(alloc, settings, program, index, standing, stores, gate) {
            Ok(report) => standing = report.into_expressions(),
            Err(error) => return stop_at(alloc, out, error),
        }
        print_module(alloc, out, program.names(), module, &standing)?;
    }
    Ok(Status::Done)
}

/// Ends at a module: puts the line that refuses it.
fn stop_at<O: Sink>(alloc: Global, out: &mut O, error: ModuleError) -> Result<Status, Stop>
    ensures stopped { Stops (O.taken out.old) error (O.taken out.new) result }
    ensures never_library { result ≢ Err Stop.Library }
    ensures failed { result ≡ Err Stop.Sink → HasRisen (O.faults out.old) (O.faults out.new) }
    ensures not_risen { result ≢ Err Stop.Sink → O.faults out.new ≡ O.faults out.old }
    ensures never_falls { O.faults out.old ≤ O.faults out.new }
    ensures unfinished { O.is_finished out.new ≡ true → O.is_finished out.old ≡ true }
{
    match error {
        ModuleError::Refused(cause, place) => refuse(alloc, Status::RefusedRun(cause, place), out),
        ModuleError::Memory => Err(Stop::Memory),
    }
}

/// Prints the expressions that stand at the end of a module and that it prints.
fn print_module<O: Sink>(
    alloc: Global,
    out: &mut O,
    names: &Names,
    carried: &Module,
    standing: &[Stored],
) -> Result<(), SinkErr>
    ensures taken { Takes (O.taken out.old) (printed_module names.now carried.now.statements standing.now) (O.taken out.new) result }
    ensures failed { result ≡ Err SinkErr.Failed → HasRisen (O.faults out.old) (O.faults out.new) }
    ensures not_risen { result ≢ Err SinkErr.Failed → O.faults out.new ≡ O.faults out.old }
    ensures never_falls { O.faults out.old ≤ O.faults out.new }
    ensures unfinished { O.is_finished out.new ≡ true → O.is_finished out.old ≡ true }
{
    let meant = printed(alloc, carried)?;
    for expression in standing {
        print_meant(alloc, out, names, &meant, expression)?;
    }
    Ok(())
}

/// Prints an expression where it is meant.
fn print_meant<O: Sink>(
    alloc: Global,
    out: &mut O,
    names: &Names,
    meant: &ExpressionSet,
    stored: &Stored,
) -> Result<(), SinkErr>
    ensures taken { Takes (O.taken out.old)
        (printed_where names.now (has meant.now stored.now.expression) stored.now) (O.taken out.new) result }
    ensures failed { result ≡ Err SinkErr.Failed → HasRisen (O.faults out.old) (O.faults out.new) }
    ensures not_risen { result ≢ Err SinkErr.Failed → O.faults out.new ≡ O.faults out.old }
    ensures never_falls { O.faults out.old ≤ O.faults out.new }
    ensures unfinished { O.is_finished out.new ≡ true → O.is_finished out.old ≡ true }
{
    if !meant.has(stored.expression) {
        return Ok(());
    }
    let name = Name::new(alloc, text_of(names, stored.expression))?;
    print_expression(alloc, out, names, &name, stored.terms.as_slice())
}
