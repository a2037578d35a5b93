ghost use Rattle.std.specs.Prelude.{◌≡◌, Ok, Err, All, IfOk, OnOk, ℕ, Option, map, filter, fold};
ghost use Rattle.std.specs.Bool.{OnTrue};
ghost use Rattle.form_base.specs.declared.cause.Cause.{Cause};
ghost use Rattle.form_module.specs.Answers.{AreCarriedOut, Gives};
ghost use Rattle.form_module.specs.Inputs.{IsTreeOf, inputs_of};
ghost use Rattle.form_module.specs.Kept.{as_stored, is_kept};
ghost use Rattle.form_module.specs.Module.{HasRightSide, HaveTrees, module_outcome, result_of as result_meant, standing_after, with_expression};
ghost use Rattle.form_module.specs.Places.{right_side_by, work_at};
ghost use Rattle.form_module.specs.Settled.{AreAtRest};
ghost use Rattle.form_module.specs.Works.{works_of};
ghost use Rattle.form_tree.specs.Tree.{Sum};

use crate::carry_error::CarryError;
use crate::expression_set::{ExpressionSet, changed};
use crate::joined::{joined_result, joined_side};
use crate::result::result_of;
use crate::result_error::ResultError;
use crate::settled::{are_at_rest, comes_out_alike};
use crate::works::{inputs, works};
use form_base::{Id, Settings};
use form_check::{Checked, Module};
use form_collect::Terms;
use form_expand::{Standing, Stored};
use form_flow::CompiledModule;
use form_tree::laws::trees_are_built;
use std::alloc::{AllocError, Global};
use std::collections::BTreeMap;

/// What stands after a module that is carried out over the expressions that stand at its start.
pub fn carry_out_module(
    alloc: Global,
    settings: &Settings,
    carried: &Module,
    standing: Vec<Stored>,
) -> Result<Vec<Stored>, CarryError>
    requires { HaveTrees carried.now }
    ensures carried { IfOk result (λ after.
        module_outcome settings.now carried.now standing.items ≡ Ok after.items) }
    ensures refused { (cause : Cause) (expression : ℕ) → result ≡ Err (CarryError.Refused cause expression) →
        module_outcome settings.now carried.now standing.items
        ≡ Err (record { cause = cause; expression = expression }) }
{
    let statements = carried.statements();
    let limit = settings.max_expand;
    let compiled = CompiledModule::new(alloc, limit, settings.max_repeat, carried.actions())?;
    let works = works(alloc, statements, &standing)?;
    let is_at_rest = are_at_rest(&compiled, limit, &standing);
    let standing = Standing::from_vec(standing);
    let carried_out = carry_out(
        alloc, settings, statements, &compiled, is_at_rest, &standing, works,
    );
    drop(compiled);
    let results = carried_out?;
    let after = put_all(alloc, statements, standing.into_vec(), results)?;
    Ok(after)
}

/// The results of what a module carries out, but for those that are as the expressions stand, where all is at rest.
fn carry_out(
    alloc: Global,
    settings: &Settings,
    statements: &[Checked],
    compiled: &CompiledModule,
    is_at_rest: bool,
    standing: &Standing,
    works: BTreeMap<Id, Option<usize>>,
) -> Result<Vec<Stored>, CarryError>
    requires trees { All HasRightSide statements.now }
    requires limit { compiled.now.limits.terms ≡ settings.now.max_expand }
    requires at_rest { OnTrue is_at_rest (AreAtRest compiled.now standing.now.stored) }
    requires works { map (work_at statements.now) works.entries ≡ works_of statements.now standing.now.stored }
    ensures { AreCarriedOut settings.now statements.now compiled.now standing.now result }
{
    trees_are_built();
    let most = settings.max_terms;
    let mut results = Vec::new(alloc);
    for (expression, place) in works {
        if comes_out_alike(is_at_rest, most, standing, expression, place) {
            continue;
        }
        match carried(
            alloc, settings, statements, compiled, standing, expression, place,
        ) {
            Ok(terms) => results.push(Stored { expression, terms })?,
            Err(error) => return Err(error.at(expression)),
        }
    }
    Ok(results)
}

/// The result of an expression: with equal terms joined on the way, where that comes to one, and else as it is defined.
fn carried(
    alloc: Global,
    settings: &Settings,
    statements: &[Checked],
    compiled: &CompiledModule,
    standing: &Standing,
    expression: Id,
    place: Option<usize>,
) -> Result<Terms, ResultError>
    requires { compiled.now.limits.terms ≡ settings.now.max_expand }
    ensures { (tree : Option Sum) → IsTreeOf (right_side_by statements.now place) tree →
        Gives (λ terms. terms) result (result_meant settings.now.max_terms compiled.now (inputs_of settings.now.max_expand standing.now expression tree)) }
{
    let max_expand = settings.max_expand;
    if let Some(side) = joined_side(alloc, settings, statements, compiled, standing, place)? {
        return Ok(side);
    }
    let mut first = inputs(alloc, max_expand, statements, standing, expression, place);
    if let Some(terms) = joined_result(alloc, settings, compiled, &mut first)? {
        return Ok(terms);
    }
    let mut anew = inputs(alloc, max_expand, statements, standing, expression, place);
    result_of(alloc, settings, compiled, &mut anew)
}

/// What stands after a module: the results among the expressions that aren't changed.
fn put_all(
    alloc: Global,
    statements: &[Checked],
    standing: Vec<Stored>,
    results: Vec<Stored>,
) -> Result<Vec<Stored>, AllocError>
    ensures { IfOk result (λ after. Ok after.items ≡ standing_after statements.now standing.items (Ok results.items)) }
{
    let changed = changed(alloc, statements)?;
    let mut after = BTreeMap::new(alloc);
    keep(&mut after, &changed, standing)?;
    put(&mut after, results)?;
    Ok(listed(alloc, after)?)
}

/// Puts the expressions that aren't changed among those that stand after a module.
fn keep(
    after: &mut BTreeMap<Id, Terms>,
    changed: &ExpressionSet,
    standing: Vec<Stored>,
) -> Result<(), AllocError>
    ensures { OnOk result (map as_stored after.new.entries
        ≡ fold with_expression (map as_stored after.old.entries) (filter (is_kept changed.now) standing.items)) }
{
    for one in standing {
        if !changed.has(one.expression) {
            put_one(after, one)?;
        }
    }
    Ok(())
}

/// Puts expressions among those that stand after a module.
fn put(after: &mut BTreeMap<Id, Terms>, results: Vec<Stored>) -> Result<(), AllocError>
    ensures { OnOk result (map as_stored after.new.entries
        ≡ fold with_expression (map as_stored after.old.entries) results.items) }
{
    for one in results {
        put_one(after, one)?;
    }
    Ok(())
}

fn put_one(after: &mut BTreeMap<Id, Terms>, one: Stored) -> Result<(), AllocError>
    ensures { OnOk result (map as_stored after.new.entries ≡ with_expression (map as_stored after.old.entries) one) }
{
    after.insert(one.expression, one.terms)?;
    Ok(())
}

/// The expressions with their terms, in their order.
fn listed(alloc: Global, after: BTreeMap<Id, Terms>) -> Result<Vec<Stored>, AllocError>
    ensures { IfOk result (λ all. all.items ≡ map as_stored after.entries) }
{
    let mut all = Vec::new(alloc);
    for (expression, terms) in after {
        all.push(Stored { expression, terms })?;
    }
    Ok(all)
}
