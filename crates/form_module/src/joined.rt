//! Results that are found with equal terms joined on the way.
ghost use Rattle.std.specs.Prelude.{◌≡◌, [], ◌∷◌, ℕ, List, Option, None, Ok, IfOk, IfSome};
ghost use Rattle.form_expand.specs.Expanding.{list_of_sum};
ghost use Rattle.form_flow.specs.Left.{outputs_left};
ghost use Rattle.form_flow.specs.Statements.{outputs as outputs_of};
ghost use Rattle.form_gathered.specs.Joined.{HaveSums};
ghost use Rattle.form_levels.specs.Outputs.{HasOutputs};
ghost use Rattle.form_module.specs.Inputs.{IsTreeOf, inputs_left, inputs_of};
ghost use Rattle.form_module.specs.Module.{collected_list, result_of as result_meant, through, within};
ghost use Rattle.form_module.specs.Places.{right_side_by};
ghost use Rattle.form_module.specs.Summed.{AreAddedIf, AreTogetherIf, ComesTo, GivesIfAny, IsPut};
ghost use Rattle.form_term.specs.declared.monomial.Monomial.{Monomial as Input};
ghost use Rattle.form_tree.specs.Tree.{Sum, pieces_of_sum};

use crate::inputs::{Batch, BatchEnd, Inputs, next_batch};
use crate::result::pass_all;
use crate::result_error::ResultError;
use crate::works::right_side;
use form_base::{Cause, Settings};
use form_check::Checked;
use form_collect::Terms;
use form_expand::Standing;
use form_flow::{CompiledModule, Outputs};
use form_gathered::laws::joined_lists;
use form_gathered::{Joined, JoinedTerm};
use form_levels::{Pace, joined_outputs, outputs_of_joined};
use form_sides::joined_list;
use form_term::Monomial;
use form_tree::Piece;
use std::alloc::{AllocError, Global};

/// The result of a definition whose right side is joined; none where that isn't likely to gain anything, or where it isn't certain
/// that nothing is refused.
pub fn joined_side(
    alloc: Global,
    settings: &Settings,
    statements: &[Checked],
    compiled: &CompiledModule,
    standing: &Standing,
    place: Option<usize>,
) -> Result<Option<Terms>, ResultError>
    requires { compiled.now.limits.terms ≡ settings.now.max_expand }
    ensures { (expression : ℕ) (tree : Option Sum) → IsTreeOf (right_side_by statements.now place) tree →
        GivesIfAny result (result_meant settings.now.max_terms compiled.now (inputs_of settings.now.max_expand standing.now expression tree)) }
{
    let Some(place) = place else {
        return Ok(None);
    };
    let tree = right_side(statements, place);
    match side_terms(alloc, tree, settings.max_expand, compiled, standing)? {
        Some(terms) => few_enough(settings.max_terms, terms),
        None => Ok(None),
    }
}

/// What the statements make of a right side's list comes to.
fn side_terms(
    alloc: Global,
    tree: &[Piece],
    limit: u64,
    statements: &CompiledModule,
    standing: &Standing,
) -> Result<Option<Terms>, AllocError>
    requires { statements.now.limits.terms ≡ limit }
    ensures { (s : Sum) → tree.now ≡ pieces_of_sum s →
        IfOk result (λ made. IfSome made (ComesTo statements.now (list_of_sum limit standing.now s))) }
{
    if pass_all(statements, limit) {
        return form_sides::joined_terms(alloc, tree, limit, standing);
    }
    changed_terms(alloc, tree, limit, statements, standing)
}

/// The same where they may change terms: they are carried out on the joined list.
fn changed_terms(
    alloc: Global,
    tree: &[Piece],
    limit: u64,
    statements: &CompiledModule,
    standing: &Standing,
) -> Result<Option<Terms>, AllocError>
    ensures { (s : Sum) → tree.now ≡ pieces_of_sum s →
        IfOk result (λ made. IfSome made (ComesTo statements.now (list_of_sum limit standing.now s))) }
{
    joined_lists();
    let Some(mut pace) = Pace::of_joined(statements) else {
        return Ok(None);
    };
    let Some(list) = joined_list(alloc, tree, limit, standing)? else {
        return Ok(None);
    };
    let Some(outputs) = list_outputs(alloc, statements, &list, &mut pace)? else {
        return Ok(None);
    };
    Ok(Some(outputs.into_terms()?))
}

/// What the statements make of a list of which these have the sums, batch by batch: where that isn't certain of a batch, in smaller
/// ones. None where it isn't certain of one joined term, or where it doesn't join.
fn list_outputs(
    alloc: Global,
    statements: &CompiledModule,
    list: &[JoinedTerm],
    pace: &mut Pace,
) -> Result<Option<Joined>, AllocError>
    ensures { (all : List Input) → HaveSums list.now all → IfOk result (λ made. IfSome made (HasOutputs statements.now all)) }
{
    let mut table = Joined::new(alloc);
    let mut most = usize::MAX;
    let mut left = list;
    while !left.is_empty() {
        let size = pace.size().min(most).min(left.len());
        let (batch, behind) = left.split_at(size);
        match outputs_of_joined(alloc, statements, batch, pace)? {
            Some(outputs) => {
                if !add_joined(&mut table, outputs)? {
                    return Ok(None);
                }
                left = behind;
            }
            None => {
                if size == 1 {
                    return Ok(None);
                }
                most = size / 2;
            }
        }
    }
    Ok(Some(table))
}

/// Terms of a result, unless they are more than so many.
fn few_enough(most: u64, terms: Terms) -> Result<Option<Terms>, ResultError>
    ensures { GivesIfAny result (within most (Ok terms)) }
{
    if terms.as_slice().len() as u64 > most {
        return Err(ResultError::Refused(Cause::TermLimit));
    }
    Ok(Some(terms))
}

/// The result of inputs, where it is found with equal terms joined on the way; none where that isn't likely to gain, or where sums
/// aren't surely in range in whatever order they are made.
pub fn joined_result(
    alloc: Global,
    settings: &Settings,
    statements: &CompiledModule,
    inputs: &mut Inputs,
) -> Result<Option<Terms>, ResultError>
    ensures { GivesIfAny result (result_meant settings.now.max_terms statements.now (inputs_left inputs.old)) }
{
    let Some(mut pace) = Pace::of(statements) else {
        return Ok(None);
    };
    match joined_terms(alloc, statements, inputs, &mut pace)? {
        Some(terms) => few_enough(settings.max_terms, terms),
        None => Ok(None),
    }
}

/// What the statements make of inputs comes to; none where it doesn't join.
fn joined_terms(
    alloc: Global,
    statements: &CompiledModule,
    inputs: &mut Inputs,
    pace: &mut Pace,
) -> Result<Option<Terms>, ResultError>
    ensures { GivesIfAny result (collected_list (through (outputs_of statements.now) (inputs_left inputs.old))) }
{
    let mut table = Joined::new(alloc);
    if !add_inputs(alloc, statements, inputs, pace, &mut table)? {
        return Ok(None);
    }
    Ok(Some(table.into_terms()?))
}

/// Adds what the statements make of inputs. Answers false where it doesn't join.
fn add_inputs(
    alloc: Global,
    statements: &CompiledModule,
    inputs: &mut Inputs,
    pace: &mut Pace,
    table: &mut Joined,
) -> Result<bool, ResultError>
    ensures { IsPut (through (outputs_of statements.now) (inputs_left inputs.old)) table.old table.new result }
{
    'batches: loop {
        let Batch { items, end } = next_batch(alloc, inputs, pace.size())?;
        if !add_batch(alloc, statements, &items, pace, table)? {
            return Ok(false);
        }
        match end {
            BatchEnd::More => {}
            BatchEnd::Done => return Ok(true),
            BatchEnd::Failed(error) => return Err(ResultError::from(error)),
        }
    }
}

/// Adds what the statements make of these inputs: all together, or in parts where that made batches smaller, or one by one.
/// Answers false where it doesn't join.
fn add_batch(
    alloc: Global,
    statements: &CompiledModule,
    items: &[Monomial],
    pace: &mut Pace,
    table: &mut Joined,
) -> Result<bool, ResultError>
    ensures { IsPut (through (outputs_of statements.now) (record { terms = items.now; end = None })) table.old table.new result }
{
    if let Some(outputs) = joined_outputs(alloc, statements, items, pace)? {
        return Ok(add_joined(table, outputs)?);
    }
    if items.len() > pace.size() {
        return add_parts(alloc, statements, items, pace, table);
    }
    add_one_by_one(alloc, statements, items, table)
}

/// The same part by part.
fn add_parts(
    alloc: Global,
    statements: &CompiledModule,
    items: &[Monomial],
    pace: &mut Pace,
    table: &mut Joined,
) -> Result<bool, ResultError>
    ensures { IsPut (through (outputs_of statements.now) (record { terms = items.now; end = None })) table.old table.new result }
{
    let mut rest = items;
    while !rest.is_empty() {
        let (part, behind) = rest.split_at(rest.len().min(pace.size()));
        if !add_part(alloc, statements, part, pace, table)? {
            return Ok(false);
        }
        rest = behind;
    }
    Ok(true)
}

/// The same of a part of a batch: together or one by one.
fn add_part(
    alloc: Global,
    statements: &CompiledModule,
    items: &[Monomial],
    pace: &mut Pace,
    table: &mut Joined,
) -> Result<bool, ResultError>
    ensures { IsPut (through (outputs_of statements.now) (record { terms = items.now; end = None })) table.old table.new result }
{
    match joined_outputs(alloc, statements, items, pace)? {
        Some(outputs) => Ok(add_joined(table, outputs)?),
        None => add_one_by_one(alloc, statements, items, table),
    }
}

/// Adds joined terms. Answers false where they don't join.
fn add_joined(table: &mut Joined, terms: Vec<JoinedTerm>) -> Result<bool, AllocError>
    ensures { IfOk result (AreTogetherIf table.old terms.items table.new) }
{
    for term in terms {
        if !table.add(term)? {
            return Ok(false);
        }
    }
    Ok(true)
}

/// Adds what the statements make of each of these terms, as it is defined. Answers false where it doesn't join.
fn add_one_by_one(
    alloc: Global,
    statements: &CompiledModule,
    items: &[Monomial],
    table: &mut Joined,
) -> Result<bool, ResultError>
    ensures { IsPut (through (outputs_of statements.now) (record { terms = items.now; end = None })) table.old table.new result }
{
    for item in items {
        if !add_item(alloc, statements, item.clone()?, table)? {
            return Ok(false);
        }
    }
    Ok(true)
}

/// Adds what the statements make of a term.
fn add_item(
    alloc: Global,
    statements: &CompiledModule,
    item: Monomial,
    table: &mut Joined,
) -> Result<bool, ResultError>
    ensures { IsPut (outputs_of statements.now item) table.old table.new result }
{
    add_outputs(alloc, &mut statements.outputs(alloc, item), table)
}

/// Adds all outputs that are left. Answers false where they don't join.
fn add_outputs(
    alloc: Global,
    outputs: &mut Outputs,
    table: &mut Joined,
) -> Result<bool, ResultError>
    ensures { IsPut (outputs_left outputs.old) table.old table.new result }
{
    while let Some(item) = outputs.next(alloc)? {
        if !add_term(table, item)? {
            return Ok(false);
        }
    }
    Ok(true)
}

/// Adds a term. Answers false where it doesn't join.
fn add_term(table: &mut Joined, item: Monomial) -> Result<bool, AllocError>
    ensures { IfOk result (AreAddedIf table.old table.new (item ∷ [])) }
{
    joined_lists();
    table.add(JoinedTerm::single(item))
}
