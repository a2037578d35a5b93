//! A front of a product times a term, again and again. Neither memory nor time goes with the number of factors: where a
//! further factor changes exponents, the sign and `i_` alone, many are made at once; a factor with anything else soon comes
//! to the limit of a term's size, and another coefficient to that of numbers.
ghost use Rattle.std.specs.Prelude.{◌≡◌, ◌<◌, ◌≤◌, ◌%◌, ◌==◌, ◌&&◌, ◌+ℤ◌, ◌*ℤ◌, pos, nat_abs, map, true, Ok, Some, IfOk, IfSome};
ghost use Rattle.std.specs.List.{list_all, list_any};
ghost use Rattle.form_frac.specs.Fraction.{has_size_one as has_size_one_of};
ghost use Rattle.form_term.specs.Term.{IsTerm, exponent_in as exponent_in_of, largest_exponent};
ghost use Rattle.form_normal.specs.Product.{is_fixed as is_fixed_of};
ghost use Rattle.form_expand.specs.Next.{IsMade};
ghost use Rattle.form_expand.specs.Often.{MakesMore, changes_exponents as changes_exponents_of, dot_in as dot_in_of, dot_stands_in as dot_stands_in_of, is_among as is_among_of, is_bare as is_bare_of, is_kept as is_kept_of, is_unit_power as is_unit_power_of, keeps_dot, keeps_power, often, raised_dot as raised_dot_of, raised_power as raised_power_of, reached as reached_of, stands_in as stands_in_of};

use crate::ExpandError;
use crate::number::LARGEST_EXPONENT;
use crate::times::times_onto;
use form_base::Id;
use form_frac::Frac;
use form_term::{Delta, DotPower, Index, Monomial, Power, Term};
use std::alloc::{AllocError, Global};

/// How often half as many factors are tried as before.
const TRIES: u32 = 128;

/// The largest number of factors that are tried.
const MOST_AT_ONCE: u128 = 170141183460469231731687303715884105727;

/// What some further factors come to.
#[derive(Drop)]
pub enum More {
    /// The product, and how many factors are left.
    Made(Monomial, u128),
    /// It is 0.
    Nothing,
}

/// A front of a product times a term, so many times, from the left: none where a product is 0.
pub fn times_often(
    alloc: Global,
    front: Monomial,
    term: &Monomial,
    times: u128,
) -> Result<Option<Monomial>, ExpandError>
    ensures { IsMade result (often front term.now times) }
{
    let mut front = front;
    let mut left = times;
    while left > 0 {
        match some_more(alloc, front, term, left) {
            Ok(More::Made(made, rest)) => {
                front = made;
                left = rest;
            }
            Ok(More::Nothing) => return Ok(None),
            Err(error) => return Err(error),
        }
    }
    Ok(Some(front))
}

/// Some further factors, of those that are left.
fn some_more(
    alloc: Global,
    front: Monomial,
    term: &Monomial,
    left: u128,
) -> Result<More, ExpandError>
    requires { 0 < left }
    ensures { MakesMore result front term.now left }
{
    if !changes_exponents(&front, term) {
        return one_more(alloc, front, term, left);
    }
    let Some(more) = many_more(alloc, &front, term, left)? else {
        return one_more(alloc, front, term, left);
    };
    Ok(more)
}

/// One factor more.
fn one_more(
    alloc: Global,
    front: Monomial,
    term: &Monomial,
    left: u128,
) -> Result<More, ExpandError>
    requires { 0 < left }
    ensures { MakesMore result front term.now left }
{
    match times_onto(alloc, front, term) {
        Ok(Some(made)) => Ok(More::Made(made, left - 1)),
        Ok(None) => Ok(More::Nothing),
        Err(error) => Err(error),
    }
}

/// As many of the factors that are left as can be made at once, or a part of these; none where exponents would come to 0 or
/// past their limit after a few.
fn many_more(
    alloc: Global,
    front: &Monomial,
    term: &Monomial,
    left: u128,
) -> Result<Option<More>, AllocError>
    requires { changes_exponents_of front.now term.now ≡ true }
    ensures { IfOk result (λ found. IfSome found (λ more. MakesMore (Ok more) front.now term.now left)) }
{
    let mut count = left;
    for _try in 0..TRIES {
        if count < 4 {
            return Ok(None);
        }
        let found = so_many_more(alloc, front, term, left, count)?;
        if found.is_some() {
            return Ok(found);
        }
        count /= 2;
    }
    Ok(None)
}

/// So many further factors, less those that go beyond a multiple of 4, whose signs and `i_` go away.
fn so_many_more(
    alloc: Global,
    front: &Monomial,
    term: &Monomial,
    left: u128,
    count: u128,
) -> Result<Option<More>, AllocError>
    requires { changes_exponents_of front.now term.now ≡ true }
    ensures { IfOk result (λ found. IfSome found (λ more. MakesMore (Ok more) front.now term.now left)) }
{
    let count = count.saturating_sub(count % 4);
    if count == 0 {
        return Ok(None);
    }
    let Some(rest) = left.checked_sub(count) else {
        return Ok(None);
    };
    let Some(made) = raised(alloc, front, term, count)? else {
        return Ok(None);
    };
    Ok(Some(More::Made(made, rest)))
}

/// A front times so many of a term at once; none where an exponent of the front would come to the other side of 0 or past its
/// limit.
fn raised(
    alloc: Global,
    front: &Monomial,
    term: &Monomial,
    count: u128,
) -> Result<Option<Monomial>, AllocError>
    requires changes { changes_exponents_of front.now term.now ≡ true }
    requires fours { count % 4 ≡ 0 }
    ensures { IfOk result (λ found. IfSome found (λ made. often front.now term.now count ≡ Ok (Some made))) }
{
    front.laws();
    term.laws();
    let Some(powers) = raised_powers(alloc, front.term.powers(), term.term.powers(), count)? else {
        return Ok(None);
    };
    let Some(dots) = raised_dots(alloc, front.term.dots(), term.term.dots(), count)? else {
        return Ok(None);
    };
    let made = with_exponents(alloc, front, powers, dots)?;
    Ok(Some(made))
}

/// A term with these powers in place of its own, and its other factors.
fn with_exponents(
    alloc: Global,
    front: &Monomial,
    powers: Vec<Power>,
    dots: Vec<DotPower>,
) -> Result<Monomial, AllocError>
    requires { IsTerm (record { symbols = powers.items; others = record front.now.term.others { dots = dots.items } }) }
    ensures { IfOk result (λ made. made ≡ record { coefficient = front.now.coefficient; term = record { symbols = powers.items; others = record front.now.term.others { dots = dots.items } } }) }
{
    let copy = front.term.clone()?;
    let (_own, mut others) = copy.into_factors(alloc);
    others.dots = dots;
    let term = Term::from_factors(alloc, powers, others)?;
    Ok(Monomial {
        coefficient: front.coefficient,
        term,
    })
}

/// Powers of symbols times so many of others; none where an exponent isn't kept on its side of 0 and within its limit.
fn raised_powers(
    alloc: Global,
    powers: &[Power],
    factor: &[Power],
    count: u128,
) -> Result<Option<Vec<Power>>, AllocError>
    ensures made { IfOk result (λ found. IfSome found (λ raised. raised.items ≡ map (raised_power_of factor.now count) powers.now)) }
    ensures kept { IfOk result (λ found. IfSome found (λ raised. list_all (keeps_power factor.now count) powers.now ≡ true)) }
{
    let mut raised = Vec::with_capacity(alloc, powers.len())?;
    let mut ahead = powers;
    while let Some((power, behind)) = ahead.split_first() {
        let Some(higher) = raised_power(power, factor, count) else {
            return Ok(None);
        };
        raised.push(higher)?;
        ahead = behind;
    }
    Ok(Some(raised))
}

/// A power times so many of others, where its exponent is kept.
fn raised_power(power: &Power, factor: &[Power], count: u128) -> Option<Power>
    ensures { IfSome result (λ raised. (raised ≡ raised_power_of factor.now count power.now) × (keeps_power factor.now count power.now ≡ true)) }
{
    let exponent = kept(power.exponent, exponent_in(factor, power.symbol), count)?;
    Some(Power {
        symbol: power.symbol,
        exponent,
    })
}

/// Powers of dot products times so many of others, as powers of symbols.
fn raised_dots(
    alloc: Global,
    dots: &[DotPower],
    factor: &[DotPower],
    count: u128,
) -> Result<Option<Vec<DotPower>>, AllocError>
    ensures made { IfOk result (λ found. IfSome found (λ raised. raised.items ≡ map (raised_dot_of factor.now count) dots.now)) }
    ensures kept { IfOk result (λ found. IfSome found (λ raised. list_all (keeps_dot factor.now count) dots.now ≡ true)) }
{
    let mut raised = Vec::with_capacity(alloc, dots.len())?;
    let mut ahead = dots;
    while let Some((dot, behind)) = ahead.split_first() {
        let Some(higher) = raised_dot(dot, factor, count) else {
            return Ok(None);
        };
        raised.push(higher)?;
        ahead = behind;
    }
    Ok(Some(raised))
}

/// A power of a dot product times so many of others, where its exponent is kept.
fn raised_dot(dot: &DotPower, factor: &[DotPower], count: u128) -> Option<DotPower>
    ensures { IfSome result (λ raised. (raised ≡ raised_dot_of factor.now count dot.now) × (keeps_dot factor.now count dot.now ≡ true)) }
{
    let exponent = kept(dot.exponent, dot_in(factor, dot.left, dot.right), count)?;
    Some(DotPower {
        left: dot.left,
        right: dot.right,
        exponent,
    })
}

/// The exponent that so many of another reach from this one, where it stays on its side of 0 and within its limit.
fn kept(exponent: i32, step: i32, count: u128) -> Option<i32>
    ensures { IfSome result (λ end. (end ≡ reached_of exponent step count) × (is_kept_of exponent (reached_of exponent step count) ≡ true)) }
{
    let end = reached(exponent, step, count)?;
    if !is_kept(exponent, end) {
        return None;
    }
    Some(as_exponent(end))
}

fn reached(exponent: i32, step: i32, count: u128) -> Option<i128>
    ensures { IfSome result (λ end. end ≡ exponent +ℤ pos count *ℤ step) }
{
    if count > MOST_AT_ONCE {
        return None;
    }
    let far = (count as i128).checked_mul(step as i128)?;
    let end = (exponent as i128).checked_add(far)?;
    Some(end)
}

fn is_kept(exponent: i32, end: i128) -> bool
    ensures { result ≡ is_kept_of exponent end }
{
    0 < end.unsigned_abs()
        && end.unsigned_abs() <= LARGEST_EXPONENT as u128
        && (end < 0) == (exponent < 0)
}

fn as_exponent(end: i128) -> i32
    requires { nat_abs end ≤ largest_exponent }
    ensures { result ≡ end }
{
    end as i32
}

/// The exponent of a symbol, 0 where it is absent.
fn exponent_in(powers: &[Power], symbol: Id) -> i32
    ensures { result ≡ exponent_in_of powers.now symbol }
{
    for power in powers {
        if power.symbol == symbol {
            return power.exponent;
        }
    }
    0
}

/// The exponent of a dot product, 0 where it is absent.
fn dot_in(dots: &[DotPower], left: Id, right: Id) -> i32
    ensures { result ≡ dot_in_of dots.now left right }
{
    for dot in dots {
        if is_of(dot, left, right) {
            return dot.exponent;
        }
    }
    0
}

fn is_of(dot: &DotPower, left: Id, right: Id) -> bool
    ensures { result ≡ (dot.now.left == left && dot.now.right == right) }
{
    dot.left == left && dot.right == right
}

/// Whether a further factor changes exponents, the sign and `i_` alone.
fn changes_exponents(front: &Monomial, term: &Monomial) -> bool
    ensures { result ≡ changes_exponents_of front.now term.now }
{
    is_unit_power(term) && is_among(&front.term, &term.term)
}

/// Whether it is 1 or -1 times powers of symbols and dot products, and `i_`.
fn is_unit_power(term: &Monomial) -> bool
    ensures { result ≡ is_unit_power_of term.now }
{
    has_size_one(term.coefficient) && is_bare(&term.term)
}

fn has_size_one(coefficient: Frac) -> bool
    ensures { result ≡ has_size_one_of coefficient }
{
    coefficient.numerator_size() == 1 && coefficient.is_whole()
}

fn is_bare(term: &Term) -> bool
    ensures { result ≡ is_bare_of term.now }
{
    term.components().is_empty()
        && term.deltas().is_empty()
        && term.functions().is_empty()
        && term.word().is_empty()
}

/// Whether the symbols and dot products of a term stand in the front, too, and no delta of the front is 0 or 1.
fn is_among(front: &Term, term: &Term) -> bool
    ensures { result ≡ is_among_of front.now term.now }
{
    !has_fixed(front.deltas())
        && all_stand_in(front.powers(), term.powers())
        && all_dots_stand_in(front.dots(), term.dots())
}

fn all_stand_in(powers: &[Power], factor: &[Power]) -> bool
    ensures { result ≡ list_all (stands_in_of powers.now) factor.now }
{
    factor.iter().all(|power| stands_in(powers, power))
}

fn stands_in(powers: &[Power], power: &Power) -> bool
    ensures { result ≡ stands_in_of powers.now power.now }
{
    0 < exponent_in(powers, power.symbol).unsigned_abs()
}

fn all_dots_stand_in(dots: &[DotPower], factor: &[DotPower]) -> bool
    ensures { result ≡ list_all (dot_stands_in_of dots.now) factor.now }
{
    factor.iter().all(|dot| dot_stands_in(dots, dot))
}

fn dot_stands_in(dots: &[DotPower], dot: &DotPower) -> bool
    ensures { result ≡ dot_stands_in_of dots.now dot.now }
{
    0 < dot_in(dots, dot.left, dot.right).unsigned_abs()
}

fn has_fixed(deltas: &[Delta]) -> bool
    ensures { result ≡ list_any is_fixed_of deltas.now }
{
    deltas.iter().any(|delta| is_fixed(delta))
}

/// Whether both indices of a delta are fixed, and it is 1 or 0.
#[tactic(auto, using(crate::proofs::Raising::equal_or_not))]
fn is_fixed(delta: &Delta) -> bool
    ensures { result ≡ is_fixed_of delta.now }
{
    match (delta.first, delta.second) {
        (Index::Fixed(_), Index::Fixed(_)) => true,
        _ => false,
    }
}
