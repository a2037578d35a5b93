ghost use Rattle.form_normal.specs.Product.{product_of};
ghost use Rattle.form_expand.specs.Left.{product_by};
ghost use Rattle.form_expand.specs.Next.{IsMade};

use crate::ExpandError;
use form_normal::{product, product_onto};
use form_term::Monomial;
use std::alloc::Global;

/// A front of a product, none where it has no factor yet, times a term; none where the product is 0.
pub fn times(
    alloc: Global,
    left: &Option<Monomial>,
    term: &Monomial,
) -> Result<Option<Monomial>, ExpandError>
    ensures { IsMade result (product_by left.now term.now) }
{
    match left {
        Some(left) => times_left(alloc, left, term),
        None => Ok(Some(Monomial {
            coefficient: term.coefficient,
            term: term.term.clone()?,
        })),
    }
}

/// A front times a term. A number or a function goes onto a copy of the front.
fn times_left(
    alloc: Global,
    left: &Monomial,
    term: &Monomial,
) -> Result<Option<Monomial>, ExpandError>
    ensures { IsMade result (product_of left.now term.now) }
{
    if term.term.powers().is_empty()
        && term.term.functions().len() < 2
        && term.term.word().is_empty()
    {
        return times_onto(alloc, left.clone()?, term);
    }
    Ok(product(alloc, left, term)?)
}

/// The same with a front of the caller's own.
pub fn times_onto(
    alloc: Global,
    left: Monomial,
    term: &Monomial,
) -> Result<Option<Monomial>, ExpandError>
    ensures { IsMade result (product_of left term.now) }
{
    Ok(product_onto(alloc, left, term)?)
}

/// `times` with a term of its own.
pub fn times_owned(
    alloc: Global,
    left: &Option<Monomial>,
    term: Monomial,
) -> Result<Option<Monomial>, ExpandError>
    ensures { IsMade result (product_by left.now term) }
{
    match left {
        Some(left) => Ok(product(alloc, left, &term)?),
        None => Ok(Some(term)),
    }
}
