//! What a statement that is no block makes of a term.
ghost use Rattle.form_flow.specs.Outcome.{made};
ghost use Rattle.form_flow.specs.Sources.{HasEffect};
ghost use Rattle.form_flow.specs.Statements.{leaf as leaf_of, multiplied as multiplied_of};

use crate::compiled::{CompiledModule, ReadyLeaf, ReadySide};
use crate::effect::{Effect, Expanded, Source, effect_of_product, times_each};
use crate::rest::rewritten;
use crate::summing::{Numbers, with_dummies};
use form_ast::Side;
use form_expand::{ExpandError, expand_tree};
use form_term::Monomial;
use std::alloc::Global;

pub fn effect_of<'a>(
    alloc: Global,
    compiled: &CompiledModule,
    leaf: &'a ReadyLeaf<'a>,
    item: Monomial,
) -> Result<Effect<'a>, ExpandError>
    ensures { HasEffect result (leaf_of compiled.now.limits leaf.now item) }
{
    let limit = compiled.limit();
    match leaf {
        ReadyLeaf::Rewrite(group) => rewritten(alloc, limit, group, item),
        ReadyLeaf::Multiply(side, right) => multiplied(alloc, limit, *side, right, item),
        ReadyLeaf::Sum(indices) => effect_of_product(with_dummies(alloc, indices.as_slice(), item)),
        ReadyLeaf::SumOver(index, values) => Ok(Effect::Source(Source::Numbers(Numbers {
            item,
            index: *index,
            values: values.as_slice(),
        }))),
        ReadyLeaf::Discard => Ok(Effect::Discarded),
    }
}

/// A term times a right side, or that times the term.
fn multiplied<'a>(
    alloc: Global,
    limit: u64,
    side: Side,
    right: &'a ReadySide<'a>,
    item: Monomial,
) -> Result<Effect<'a>, ExpandError>
    ensures { HasEffect result (made (multiplied_of limit side right.now item)) }
{
    match right.list_within(limit) {
        Some(list) => times_each(alloc, side, item, list),
        None => times_tree(alloc, limit, side, right, item),
    }
}

/// A term times a right side whose terms are made one by one, or that times the term.
fn times_tree<'a>(
    alloc: Global,
    limit: u64,
    side: Side,
    right: &'a ReadySide<'a>,
    item: Monomial,
) -> Result<Effect<'a>, ExpandError>
    ensures { HasEffect result (made (multiplied_of limit side right.now item)) }
{
    let list = expand_tree(alloc, right.pieces(), limit, right.nothing());
    let expanded = Box::new(alloc, Expanded { item, side, list })?;
    Ok(Effect::Source(Source::Expanded(expanded)))
}
