ghost use Rattle.std.specs.Prelude.{Ok};
ghost use Rattle.form_expand.specs.Listing.{Listing};
ghost use Rattle.form_expand.specs.Next.{IsMade};
ghost use Rattle.form_expand.specs.Walks.{all_of};
ghost use Rattle.form_flow.specs.Left.{Nexts};
ghost use Rattle.form_flow.specs.Made.{Makes};
ghost use Rattle.form_flow.specs.Multiplying.{multiplied_by, product_from};
ghost use Rattle.form_flow.specs.Outcome.{made as made_of};
ghost use Rattle.form_flow.specs.Sources.{HasEffect, expanded_left, listed, products_left};

use crate::summing::Numbers;
use form_ast::Side;
use form_expand::{ExpandError, Expansion, Row};
use form_normal::{product, product_onto};
use form_term::Monomial;
use std::alloc::Global;

/// What a statement does with a term.
#[derive(Drop)]
pub enum Effect<'a> {
    /// It didn't act.
    None(Monomial),
    /// It acted, and this one term came of it.
    One(Monomial),
    /// It acted, and nothing came of it.
    Nothing,
    /// It acted, and these terms come of it.
    Source(Source<'a>),
    /// It didn't act, and nothing came of the term.
    Discarded,
}

impl<'a> Effect<'a> {
    /// It acted, and made this product, none where that is 0.
    fn of_product(product: Option<Monomial>) -> Effect<'a>
        ensures { (l : Listing) → Makes (Ok product) l → HasEffect (Ok result) (made_of l) }
    {
        match product {
            Some(item) => Effect::One(item),
            None => Effect::Nothing,
        }
    }
}

/// What a statement does that makes this product.
pub fn effect_of_product<'a>(
    product: Result<Option<Monomial>, ExpandError>,
) -> Result<Effect<'a>, ExpandError>
    ensures { (l : Listing) → Makes product l → HasEffect result (made_of l) }
{
    match product {
        Ok(made) => Ok(Effect::of_product(made)),
        Err(error) => Err(error),
    }
}

/// A term times each term of a list, or each of these times the term.
pub fn times_each<'a>(
    alloc: Global,
    side: Side,
    item: Monomial,
    list: &'a [Monomial],
) -> Result<Effect<'a>, ExpandError>
    ensures { HasEffect result (made_of (multiplied_by side (all_of list.now) item)) }
{
    let Some((term, rest)) = list.split_first() else {
        return Ok(Effect::Nothing);
    };
    if rest.is_empty() {
        return effect_of_product(times_one(alloc, side, item, term));
    }
    Ok(Effect::Source(Source::Times(Times { item, side, list })))
}

/// A term times another one, or that times the term; none where the product is 0.
fn times_one(
    alloc: Global,
    side: Side,
    item: Monomial,
    term: &Monomial,
) -> Result<Option<Monomial>, ExpandError>
    ensures { IsMade result (product_from side item term.now) }
{
    match side {
        Side::Right => Ok(product_onto(alloc, item, term)?),
        Side::Left => Ok(product(alloc, term, &item)?),
    }
}

/// A term that stays where it is times another one, or that times the term; none where the product is 0.
fn product_with(
    alloc: Global,
    side: Side,
    item: &Monomial,
    term: &Monomial,
) -> Result<Option<Monomial>, ExpandError>
    ensures { IsMade result (product_from side item.now term.now) }
{
    match side {
        Side::Right => Ok(product(alloc, item, term)?),
        Side::Left => Ok(product(alloc, term, item)?),
    }
}

/// A term that is multiplied by each term of a list.
#[derive(Drop)]
pub struct Times<'a> {
    pub item: Monomial,
    pub side: Side,
    /// Those that are left.
    pub list: &'a [Monomial],
}

impl<'a> Times<'a> {
    /// The next product. Those that are 0 are passed over.
    pub fn next(&mut self, alloc: Global) -> Result<Option<Monomial>, ExpandError>
        ensures { Nexts result (products_left self.old) (products_left self.new) }
    {
        while let Some((term, rest)) = self.list.split_first() {
            let made = product_with(alloc, self.side, &self.item, term)?;
            self.list = rest;
            if let Some(made) = made {
                return Ok(Some(made));
            }
        }
        Ok(None)
    }
}

/// A term that is multiplied by each term of a right side, which are made one by one.
#[derive(Drop)]
pub struct Expanded<'a> {
    pub item: Monomial,
    pub side: Side,
    /// Those that are left.
    pub list: Expansion<'a>,
}

impl<'a> Expanded<'a> {
    /// The next product. Those that are 0 are passed over.
    pub fn next(&mut self, alloc: Global) -> Result<Option<Monomial>, ExpandError>
        ensures { Nexts result (expanded_left self.old) (expanded_left self.new) }
    {
        'terms: loop {
            let Some(term) = self.list.next(alloc)? else {
                return Ok(None);
            };
            let made = product_with(alloc, self.side, &self.item, &term)?;
            if let Some(made) = made {
                return Ok(Some(made));
            }
        }
    }
}

/// What comes of a term, one by one.
#[derive(Drop)]
pub enum Source<'a> {
    Times(Times<'a>),
    Expanded(Box<Expanded<'a>>),
    Row(Box<Row<'a>>),
    Numbers(Numbers<'a>),
}

impl<'a> Source<'a> {
    /// The next term. The first refusal ends them; once it or want of memory was answered it isn't asked again.
    #[tactic(auto, using(crate::proofs::Multiplied::nexts), unfolding(crate::specs::Sources::listed))]
    pub fn next(&mut self, alloc: Global) -> Result<Option<Monomial>, ExpandError>
        ensures { Nexts result (listed self.old) (listed self.new) }
    {
        match self {
            Source::Times(times) => times.next(alloc),
            Source::Expanded(expanded) => expanded.next(alloc),
            Source::Row(row) => row.next(alloc),
            Source::Numbers(numbers) => numbers.next(alloc),
        }
    }
}
