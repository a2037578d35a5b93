//! Symbols that wildcards stand for, and factors to a power that a wildcard stands for.
ghost use Rattle.std.specs.Prelude.{◌≡◌, ◌≤◌, ℕ, true, [], ◌∷◌, nat_abs, map, All, Some, IfOk, IfSome};
ghost use Rattle.form_frac.specs.Fraction.{largest, IsLowest};
ghost use Rattle.form_term.specs.Term.{largest_exponent};
ghost use Rattle.form_normal.specs.Product.{number_alone};
ghost use Rattle.form_expand.specs.Bound as definition;
ghost use Rattle.form_expand.specs.Kept.{listing, listed};
ghost use Rattle.form_expand.specs.Listing.{single};
ghost use Rattle.form_expand.specs.Numbers as numbers;
ghost use Rattle.form_expand.specs.Singles.{dot_list as dot_list_of};

use crate::ended::{LARGEST_POWER, power_of};
use crate::number::{LARGEST_EXPONENT, number_list, symbol_list};
use crate::single::{component_list, delta_list, dot_list, imaginary_list, term_list};
use crate::stored::Standing;
use crate::value::turned;
use crate::whole::Whole;
use form_base::{Cause, Id};
use form_frac::Frac;
use form_term::{DotPower, Monomial, Others, Power, Term, number_in, terms_in};
use form_tree::{Base, Exponent};
use std::alloc::{AllocError, Global};

/// The list of a symbol that may be bound, to a power, and the power that the list is to be written out to.
#[tactic(auto, unfolding(crate::specs::Bound::wild_list))]
pub fn wild_list<'a>(
    alloc: Global,
    names: &Standing,
    symbol: Id,
    is_over: bool,
    power: i128,
) -> Result<(Whole<'a>, u128), AllocError>
    requires { nat_abs power ≤ largest }
    ensures { IfOk result (λ found. listed found ≡ definition.wild_list names.now symbol is_over power) }
{
    let Some(value) = names.expression(symbol) else {
        return Ok((symbol_to(alloc, symbol, turned(is_over, power))?, 1));
    };
    let terms = terms_in(alloc, value)?;
    expression_to(alloc, terms, is_over, power)
}

/// The same of these terms.
fn expression_to<'a>(
    alloc: Global,
    terms: Vec<Monomial>,
    is_over: bool,
    power: i128,
) -> Result<(Whole<'a>, u128), AllocError>
    ensures { (symbol : ℕ) → IfOk result (λ found. listed found ≡ definition.wild_list_by symbol is_over power (Some terms.items)) }
{
    let size = power.unsigned_abs();
    if size == 0 {
        return Ok((Whole::single(Monomial::unit(alloc)), 1));
    }
    Ok((base_of(alloc, terms, is_over, power < 0)?, size))
}

/// The number that a wildcard stands for as a factor. None where it isn't one or is 0, and where the wildcard stands after `/`
/// or has a power.
pub fn bound_number(names: &Standing, symbol: Id, is_over: bool, power: i32) -> Option<Frac>
    ensures { IfSome result (λ number. (definition.wild_list names.now symbol is_over power ≡ (single (number_alone number), 1)) × IsLowest number) }
{
    if is_over {
        return None;
    }
    if power != 1 {
        return None;
    }
    let Some(value) = names.expression(symbol) else {
        return None;
    };
    let Some(number) = number_in(value) else {
        return None;
    };
    Some(number)
}

/// What is to be multiplied where these terms stand after `/`, or to a negative power.
fn base_of<'a>(
    alloc: Global,
    terms: Vec<Monomial>,
    is_over: bool,
    is_negative: bool,
) -> Result<Whole<'a>, AllocError>
    ensures { IfOk result (λ whole. listing whole ≡ definition.base_of is_over is_negative terms.items) }
{
    if !is_over && !is_negative {
        return Ok(Whole::made(terms));
    }
    let inverse = inverse(alloc, &terms)?;
    if is_over && is_negative {
        return Ok(unless_refused(inverse, terms));
    }
    Ok(inverse)
}

/// These terms, unless their inverse is refused.
fn unless_refused<'a>(inverse: Whole<'a>, terms: Vec<Monomial>) -> Whole<'a>
    ensures { listing result ≡ definition.unless_refused ((listing inverse.entry).end) (definition.as_it_is terms.items) }
{
    let Whole { kept: _, end } = inverse;
    match end {
        Some(refusal) => Whole::refused(refusal.into_cause()),
        None => Whole::made(terms),
    }
}

/// The inverse of an expression of these terms.
#[tactic(auto, unfolding(crate::specs::Bound::inverse))]
fn inverse<'a>(alloc: Global, terms: &[Monomial]) -> Result<Whole<'a>, AllocError>
    ensures { IfOk result (λ whole. listing whole ≡ definition.inverse terms.now) }
{
    match terms {
        [] => Ok(Whole::refused(Cause::DivideByZero)),
        [term] => inverted(alloc, term),
        _ => Ok(Whole::refused(Cause::PowerRange)),
    }
}

/// The inverse of a term.
#[tactic(auto, unfolding(crate::specs::Bound::inverse))]
fn inverted<'a>(alloc: Global, term: &Monomial) -> Result<Whole<'a>, AllocError>
    ensures { IfOk result (λ whole. listing whole ≡ definition.inverse (term.now ∷ [])) }
{
    if !is_invertible(&term.term) {
        return Ok(Whole::refused(Cause::PowerRange));
    }
    let Ok(coefficient) = term.coefficient.recip() else {
        return Ok(Whole::refused(Cause::DivideByZero));
    };
    let term = turned_exponents(alloc, &term.term)?;
    term_list(alloc, coefficient, term)
}

/// Whether there is nothing besides symbols and dot products.
pub fn is_invertible(term: &Term) -> bool
    ensures { result ≡ definition.is_invertible term.now }
{
    !term.is_imaginary()
        && term.components().is_empty()
        && term.deltas().is_empty()
        && term.functions().is_empty()
        && term.word().is_empty()
}

/// The term whose exponents have the other sign.
fn turned_exponents(alloc: Global, term: &Term) -> Result<Term, AllocError>
    requires { definition.is_invertible term.now ≡ true }
    ensures { IfOk result (λ turned. turned ≡ definition.turned_exponents term.now) }
{
    let powers = turned_powers(alloc, term.powers())?;
    let dots = turned_dots(alloc, term.dots())?;
    Term::from_factors(alloc, powers, of_dots(alloc, dots))
}

/// Dot products alone.
fn of_dots(alloc: Global, dots: Vec<DotPower>) -> Others
    ensures { result ≡ definition.of_dots dots.items }
{
    Others {
        is_imaginary: false,
        dots,
        components: Vec::new(alloc),
        deltas: Vec::new(alloc),
        functions: Vec::new(alloc),
        word: Vec::new(alloc),
    }
}

fn turned_powers(alloc: Global, powers: &[Power]) -> Result<Vec<Power>, AllocError>
    requires { All (λ p. nat_abs p.exponent ≤ largest_exponent) powers.now }
    ensures { IfOk result (λ turned. turned.items ≡ map definition.turned_power powers.now) }
{
    let mut turned = Vec::with_capacity(alloc, powers.len())?;
    for power in powers {
        turned.push(turned_power(power))?;
    }
    Ok(turned)
}

fn turned_power(power: &Power) -> Power
    requires { nat_abs power.now.exponent ≤ largest_exponent }
    ensures { result ≡ definition.turned_power power.now }
{
    Power {
        symbol: power.symbol,
        exponent: -power.exponent,
    }
}

fn turned_dots(alloc: Global, dots: &[DotPower]) -> Result<Vec<DotPower>, AllocError>
    requires { All (λ d. nat_abs d.exponent ≤ largest_exponent) dots.now }
    ensures { IfOk result (λ turned. turned.items ≡ map definition.turned_dot dots.now) }
{
    let mut turned = Vec::with_capacity(alloc, dots.len())?;
    for dot in dots {
        turned.push(turned_dot(dot))?;
    }
    Ok(turned)
}

fn turned_dot(dot: &DotPower) -> DotPower
    requires { nat_abs dot.now.exponent ≤ largest_exponent }
    ensures { result ≡ definition.turned_dot dot.now }
{
    DotPower {
        left: dot.left,
        right: dot.right,
        exponent: -dot.exponent,
    }
}

/// The list of a base of one piece to a power that a wildcard stands for, and the power that it is to be written out to.
pub fn raised_list<'a>(
    alloc: Global,
    names: &Standing,
    base: &Base,
    by: &Exponent,
) -> Result<(Whole<'a>, u128), AllocError>
    ensures { IfOk result (λ found. listed found
        ≡ definition.list_of_base names.now base.now by.now.is_over (definition.exponent_in names.now by.now.is_minus by.now.symbol)) }
{
    let Some(exponent) = names.exponent(alloc, by.is_minus, by.symbol)? else {
        return Ok(refused());
    };
    list_to(alloc, names, base, by.is_over, exponent)
}

/// A list that is refused in place of a power.
fn refused<'a>() -> (Whole<'a>, u128)
    ensures { listed result ≡ definition.refused_power }
{
    (Whole::refused(Cause::PowerRange), 1)
}

/// The same to this power.
#[tactic(auto, unfolding(crate::specs::Bound::list_of_base))]
fn list_to<'a>(
    alloc: Global,
    names: &Standing,
    base: &Base,
    is_over: bool,
    exponent: i128,
) -> Result<(Whole<'a>, u128), AllocError>
    requires { nat_abs exponent ≤ largest }
    ensures { IfOk result (λ found. listed found ≡ definition.list_of_base names.now base.now is_over (Some exponent)) }
{
    match base {
        Base::Number(number) => Ok(number_to(alloc, number.get(), is_over, exponent)),
        Base::Symbol(symbol) => { Ok((symbol_to(alloc, *symbol, turned(is_over, exponent))?, 1)) }
        Base::Wild(symbol) => wild_list(alloc, names, *symbol, is_over, exponent),
        Base::Dot(left, right) => {
            let (left, right) = (names.vector(*left), names.vector(*right));
            Ok((dot_to(alloc, left, right, turned(is_over, exponent))?, 1))
        }
        Base::Imaginary => Ok(raised(imaginary_list(alloc)?, exponent)),
        Base::Component(component) => {
            let list = component_list(alloc, names.component(*component))?;
            Ok(raised(list, exponent))
        }
        Base::Delta(first, second) => {
            let list = delta_list(alloc, names.index(*first), names.index(*second))?;
            Ok(raised(list, exponent))
        }
    }
}

/// A list that has no inverse, to a power.
fn raised<'a>(whole: Whole<'a>, exponent: i128) -> (Whole<'a>, u128)
    ensures { listed result ≡ definition.raised (listing whole.entry) (Some exponent) }
{
    match power_of(exponent) {
        Some(power) => (whole, power as u128),
        None => refused(),
    }
}

fn number_to<'a>(alloc: Global, number: u128, is_over: bool, exponent: i128) -> (Whole<'a>, u128)
    ensures { listed result ≡ definition.number_raised number is_over exponent }
{
    if exponent.unsigned_abs() > LARGEST_POWER {
        return refused();
    }
    let exponent = number_exponent(number, is_over, exponent);
    (number_list(alloc, number, exponent), 1)
}

/// The exponent of a number: an inverse of 0 stays one after `/` too.
fn number_exponent(number: u128, is_over: bool, exponent: i128) -> i32
    requires { nat_abs exponent ≤ definition.largest_power }
    ensures { result ≡ definition.number_exponent number is_over exponent }
{
    if number == 0 && exponent < 0 {
        exponent as i32
    } else {
        turned(is_over, exponent) as i32
    }
}

/// The list of a symbol to a power.
fn symbol_to<'a>(alloc: Global, symbol: Id, power: i128) -> Result<Whole<'a>, AllocError>
    ensures { IfOk result (λ whole. listing whole ≡ numbers.symbol_list symbol power) }
{
    if power.unsigned_abs() > LARGEST_EXPONENT as u128 {
        return Ok(Whole::refused(Cause::PowerRange));
    }
    symbol_list(alloc, symbol, power as i32)
}

/// The list of the dot product of two vectors to a power.
fn dot_to<'a>(alloc: Global, left: Id, right: Id, power: i128) -> Result<Whole<'a>, AllocError>
    ensures { IfOk result (λ whole. listing whole ≡ dot_list_of left right power) }
{
    if power.unsigned_abs() > LARGEST_EXPONENT as u128 {
        return Ok(Whole::refused(Cause::PowerRange));
    }
    dot_list(alloc, left, right, power as i32)
}
