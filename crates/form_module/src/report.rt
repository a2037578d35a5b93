ghost use Rattle.std.specs.Prelude.{◌≡◌, ◌<◌, length};
ghost use Rattle.form_module.specs.Module.{HaveTrees};
ghost use Rattle.form_module.specs.Reporting.{IsPlaced, IsRefusedAt, Reports, module_at};

use crate::carry_error::CarryError;
use crate::error::ModuleError;
use crate::module::carry_out_module;
use form_base::{Cause, Id, Name, Place, Settings};
use form_check::Program;
use form_expand::Stored;
use form_names::Names;
use form_outside::{Gate, Store};
use form_print::text_of;
use std::alloc::Global;

/// The numbers of the buckets of inputs that each seat took, seat by seat.
pub type Division = Vec<Vec<u64>>;

/// What came of a module.
#[derive(Drop)]
pub struct Report {
    /// The expressions that stand at its end, each with its terms in their order, in the order of first definition.
    pub expressions: Vec<Stored>,
    /// How the inputs of each expression were divided: none, as long as there are no seats.
    pub divisions: Vec<Division>,
}

impl Report {
    ghost use Rattle.std.specs.Prelude.{◌≡◌};

    pub fn into_expressions(self) -> Vec<Stored>
        ensures { result ≡ self.expressions }
    {
        let Report {
            expressions,
            divisions: _,
        } = self;
        expressions
    }
}

/// Carries out a module of a program, by its place from 0, over the expressions that stand at its start, each with its
/// terms in their order; or answers the first refusal, in the order of first definition.
///
/// `stores` are for sorted runs, and `gate` is to be passed before each bucket of inputs. There are neither yet.
pub fn run_module<S: Store + Send, G: Gate + Sync>(
    alloc: Global,
    settings: &Settings,
    program: &Program,
    index: usize,
    expressions: Vec<Stored>,
    stores: &mut [S],
    gate: &G,
) -> Result<Report, ModuleError>
    requires within { index < length program.now.modules }
    requires trees { HaveTrees (module_at program.now index) }
    ensures reports { Reports settings.now program.now index expressions.items result }
    ensures same_stores { stores.new ≡ stores.old }
{
    let _ = gate;
    let modules = program.modules();
    match carry_out_module(alloc, settings, &modules[index], expressions) {
        Ok(expressions) => Ok(Report {
            expressions,
            divisions: Vec::new(alloc),
        }),
        Err(error) => {
            let number = index as u64 + 1;
            Err(placed(alloc, program.names(), number, error))
        }
    }
}

/// Why the module of a number is refused, at its place.
fn placed(alloc: Global, names: &Names, number: u64, error: CarryError) -> ModuleError
    ensures { IsPlaced names.now number error result }
{
    match error {
        CarryError::Refused(cause, expression) => refused(alloc, names, number, cause, expression),
        CarryError::Memory => ModuleError::Memory,
    }
}

/// The refusal at an expression of the module of a number.
fn refused(alloc: Global, names: &Names, number: u64, cause: Cause, expression: Id) -> ModuleError
    ensures { IsRefusedAt names.now number cause expression result }
{
    match Name::new(alloc, text_of(names, expression)) {
        Ok(name) => ModuleError::Refused(cause, Place::Run(number, name)),
        Err(_) => ModuleError::Memory,
    }
}
