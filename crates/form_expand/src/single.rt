//! Factors that are one term at most: `i_`, dot products, components, deltas and functions.
ghost use Rattle.std.specs.Prelude.{◌≡◌, [], ◌∷◌, IfOk};
ghost use Rattle.form_term.specs.Factor.{function_factor, non_commuting_factor};
ghost use Rattle.form_normal.specs.Product.{product as product_of_all};
ghost use Rattle.form_expand.specs.Kept.{listing};
ghost use Rattle.form_expand.specs.Singles as definition;

use crate::number::LARGEST_EXPONENT;
use crate::whole::Whole;
use form_base::{Cause, Id};
use form_frac::Frac;
use form_normal::{ProductError, laws, product};
use form_term::{Call, Component, Delta, DotPower, Index, Monomial, Term};
use std::alloc::{AllocError, Global};

/// The most factors that a term may have, those inside arguments counted, and how deep it may be.
const LARGEST_SIZE: usize = 4096;

const LARGEST_DEPTH: usize = 64;

pub fn imaginary_list<'a>(alloc: Global) -> Result<Whole<'a>, AllocError>
    ensures { IfOk result (λ whole. listing whole ≡ definition.imaginary_list) }
{
    alone(alloc, Term::imaginary(alloc)?)
}

/// The list of the dot product of two vectors to a power.
pub fn dot_list<'a>(alloc: Global, left: Id, right: Id, power: i32) -> Result<Whole<'a>, AllocError>
    ensures { IfOk result (λ whole. listing whole ≡ definition.dot_list left right power) }
{
    let size = power.unsigned_abs();
    if size > LARGEST_EXPONENT {
        return Ok(Whole::refused(Cause::PowerRange));
    }
    if size == 0 {
        return Ok(Whole::single(Monomial::unit(alloc)));
    }
    alone(alloc, Term::dot(alloc, DotPower::of(left, right, power))?)
}

pub fn component_list<'a>(alloc: Global, component: Component) -> Result<Whole<'a>, AllocError>
    ensures { IfOk result (λ whole. listing whole ≡ definition.component_list component) }
{
    alone(alloc, Term::component(alloc, component)?)
}

/// The list of a delta of two indices.
pub fn delta_list<'a>(alloc: Global, first: Index, second: Index) -> Result<Whole<'a>, AllocError>
    ensures { IfOk result (λ whole. listing whole ≡ definition.delta_list first second) }
{
    alone(alloc, Term::delta(alloc, Delta::of(first, second))?)
}

/// The list of a commuting function.
fn commuting_list<'a>(alloc: Global, call: Call) -> Result<Whole<'a>, AllocError>
    ensures { IfOk result (λ whole. listing whole ≡ definition.alone (function_factor call)) }
{
    laws::functions_past_limits();
    if call.size() > LARGEST_SIZE {
        return Ok(Whole::refused(Cause::TermSize));
    }
    if call.depth() >= LARGEST_DEPTH {
        return Ok(Whole::refused(Cause::TermSize));
    }
    alone(alloc, Term::function(alloc, call)?)
}

/// The list of a non-commuting function.
fn non_commuting_list<'a>(alloc: Global, call: Call) -> Result<Whole<'a>, AllocError>
    ensures { IfOk result (λ whole. listing whole ≡ definition.alone (non_commuting_factor call)) }
{
    laws::functions_past_limits();
    if call.size() > LARGEST_SIZE {
        return Ok(Whole::refused(Cause::TermSize));
    }
    if call.depth() >= LARGEST_DEPTH {
        return Ok(Whole::refused(Cause::TermSize));
    }
    alone(alloc, Term::non_commuting(alloc, call)?)
}

/// The list of a function.
pub fn call_list<'a>(alloc: Global, call: Call, is_commuting: bool) -> Result<Whole<'a>, AllocError>
    ensures { IfOk result (λ whole. listing whole ≡ definition.list_of_call is_commuting call) }
{
    if is_commuting {
        commuting_list(alloc, call)
    } else {
        non_commuting_list(alloc, call)
    }
}

/// The list of a term as a factor alone.
#[tactic(auto, unfolding(crate::specs::Singles::alone))]
fn alone<'a>(alloc: Global, term: Term) -> Result<Whole<'a>, AllocError>
    ensures { IfOk result (λ whole. listing whole ≡ definition.alone term) }
{
    term_list(alloc, Frac::one(), term)
}

/// The list of a term with a coefficient as a factor alone.
pub fn term_list<'a>(alloc: Global, coefficient: Frac, term: Term) -> Result<Whole<'a>, AllocError>
    ensures { IfOk result (λ whole. listing whole ≡ definition.of_product (product_of_all (record { coefficient = coefficient; term = term } ∷ []))) }
{
    laws::products_of_one();
    let factor = Monomial { coefficient, term };
    factor.laws();
    made(product(alloc, &Monomial::unit(alloc), &factor))
}

/// The list of a product.
fn made<'a>(answer: Result<Option<Monomial>, ProductError>) -> Result<Whole<'a>, AllocError>
    ensures { IfOk result (λ whole. definition.ListsProduct answer (listing whole)) }
{
    match answer {
        Ok(Some(term)) => Ok(Whole::single(term)),
        Ok(None) => Ok(Whole::nothing()),
        Err(ProductError::Refused(cause)) => Ok(Whole::refused(cause)),
        Err(ProductError::Memory) => Err(AllocError),
    }
}
