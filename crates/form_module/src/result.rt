ghost use Rattle.std.specs.Prelude.{◌≡◌, None};
ghost use Rattle.std.specs.Bool.{OnTrue};
ghost use Rattle.form_expand.specs.Listing.{single};
ghost use Rattle.form_flow.specs.Left.{outputs_left};
ghost use Rattle.form_flow.specs.Statements.{outputs as outputs_of};
ghost use Rattle.form_module.specs.Answers.{Gives, IsAdded};
ghost use Rattle.form_module.specs.Inputs.{inputs_left};
ghost use Rattle.form_module.specs.Module.{collected_list, result_of as result_meant, through};
ghost use Rattle.form_term.specs.declared.monomial.Monomial.{Monomial as Output};

use crate::inputs::{Batch, BatchEnd, Inputs, next_batch};
use crate::result_error::ResultError;
use form_base::{Cause, Settings};
use form_collect::{Collector, Terms};
use form_flow::{CompiledModule, Outputs};
use form_term::Monomial;
use std::alloc::Global;

/// How many inputs are read at once.
const MOST_AT_ONCE: usize = 32;

/// What the statements make of inputs, collected.
pub fn result_of(
    alloc: Global,
    settings: &Settings,
    statements: &CompiledModule,
    inputs: &mut Inputs,
) -> Result<Terms, ResultError>
    requires { statements.now.limits.terms ≡ settings.now.max_expand }
    ensures { Gives (λ terms. terms) result (result_meant settings.now.max_terms statements.now (inputs_left inputs.old)) }
{
    let terms = collect(alloc, settings.max_expand, statements, inputs)?;
    if terms.as_slice().len() as u64 > settings.max_terms {
        return Err(ResultError::Refused(Cause::TermLimit));
    }
    Ok(terms)
}

/// What the statements make of inputs comes to, where all come to their end.
fn collect(
    alloc: Global,
    limit: u64,
    statements: &CompiledModule,
    inputs: &mut Inputs,
) -> Result<Terms, ResultError>
    requires { statements.now.limits.terms ≡ limit }
    ensures { Gives (λ terms. terms) result (collected_list (through (outputs_of statements.now) (inputs_left inputs.old))) }
{
    let mut collector = Collector::new(alloc);
    add_inputs(alloc, limit, statements, inputs, &mut collector)?;
    Ok(collector.into_terms()?)
}

/// Adds what the statements make of inputs.
fn add_inputs(
    alloc: Global,
    limit: u64,
    statements: &CompiledModule,
    inputs: &mut Inputs,
    collector: &mut Collector,
) -> Result<(), ResultError>
    requires { statements.now.limits.terms ≡ limit }
    ensures { IsAdded (through (outputs_of statements.now) (inputs_left inputs.old)) collector.old collector.new result }
{
    if pass_all(statements, limit) {
        return add_unchanged(alloc, inputs, collector);
    }
    add_batches(alloc, statements, inputs, collector)
}

/// Whether the statements surely leave each term as it is: there are none, and a term may have an output.
pub fn pass_all(statements: &CompiledModule, limit: u64) -> bool
    requires { statements.now.limits.terms ≡ limit }
    ensures { OnTrue result ((m : Output) → outputs_of statements.now m ≡ single m) }
{
    if limit == 0 {
        return false;
    }
    statements.is_empty()
}

/// Adds inputs as they are.
fn add_unchanged(
    alloc: Global,
    inputs: &mut Inputs,
    collector: &mut Collector,
) -> Result<(), ResultError>
    ensures { IsAdded (inputs_left inputs.old) collector.old collector.new result }
{
    while let Some(item) = inputs.next(alloc)? {
        collector.add(item)?;
    }
    Ok(())
}

/// Adds what the statements make of inputs. They are read many at a time, so that what reads them and what carries them out
/// each stay in the processor's cache for a while.
fn add_batches(
    alloc: Global,
    statements: &CompiledModule,
    inputs: &mut Inputs,
    collector: &mut Collector,
) -> Result<(), ResultError>
    ensures { IsAdded (through (outputs_of statements.now) (inputs_left inputs.old)) collector.old collector.new result }
{
    'batches: loop {
        let Batch { items, end } = next_batch(alloc, inputs, MOST_AT_ONCE)?;
        add_each(alloc, statements, items, collector)?;
        match end {
            BatchEnd::More => {}
            BatchEnd::Done => return Ok(()),
            BatchEnd::Failed(error) => return Err(ResultError::from(error)),
        }
    }
}

/// Adds what the statements make of each of these terms.
fn add_each(
    alloc: Global,
    statements: &CompiledModule,
    items: Vec<Monomial>,
    collector: &mut Collector,
) -> Result<(), ResultError>
    ensures { IsAdded (through (outputs_of statements.now) (record { terms = items.items; end = None })) collector.old collector.new result }
{
    for item in items {
        add(alloc, statements, item, collector)?;
    }
    Ok(())
}

/// Adds what the statements make of a term.
fn add(
    alloc: Global,
    statements: &CompiledModule,
    item: Monomial,
    collector: &mut Collector,
) -> Result<(), ResultError>
    ensures { IsAdded (outputs_of statements.now item) collector.old collector.new result }
{
    add_all(alloc, &mut statements.outputs(alloc, item), collector)
}

/// Adds all outputs that are left.
fn add_all(
    alloc: Global,
    outputs: &mut Outputs,
    collector: &mut Collector,
) -> Result<(), ResultError>
    ensures { IsAdded (outputs_left outputs.old) collector.old collector.new result }
{
    while let Some(item) = outputs.next(alloc)? {
        collector.add(item)?;
    }
    Ok(())
}
