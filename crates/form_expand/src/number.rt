ghost use Rattle.std.specs.Prelude.{◌≡◌, ◌≤◌, Some, pos, nat_abs, IfOk, IfSome, if◌then◌else◌};
ghost use Rattle.std.specs.Option.{ok_or};
ghost use Rattle.form_frac.specs.Fraction.{make, largest, whole, IsLowest};
ghost use Rattle.form_frac.specs.declared.frac_error.FracError.TheVariants.{Overflow};
ghost use Rattle.form_normal.specs.Product.{number_alone as number_alone_of};
ghost use Rattle.form_expand.specs.Kept.{listing};
ghost use Rattle.form_expand.specs.Listing.{single};
ghost use Rattle.form_expand.specs.Numbers.{raised as raised_of, of_coefficient, of_fraction as of_fraction_of, number_list as number_list_of, symbol_list as symbol_list_of};

use crate::whole::Whole;
use form_base::{Cause, Id};
use form_frac::{Frac, FracError};
use form_term::{Monomial, Term};
use std::alloc::{AllocError, Global};

/// The largest size of a coefficient.
const LARGEST: u128 = 170141183460469231731687303715884105727;

/// The largest size of an exponent.
pub const LARGEST_EXPONENT: u32 = 1_000_000_000;

/// The list of a whole number to a power.
pub fn number_list<'a>(alloc: Global, value: u128, power: i32) -> Whole<'a>
    ensures { listing result ≡ number_list_of value power }
{
    let size = power.unsigned_abs();
    if size == 0 {
        return Whole::single(Monomial::unit(alloc));
    }
    if value > LARGEST {
        return Whole::refused(Cause::Overflow);
    }
    let base = factor_of(value, power < 0);
    of_fraction(alloc, base, size)
}

/// The fraction that a whole number to a power is; none where that is refused or no term.
pub fn number_alone(value: u128, power: i32) -> Option<Frac>
    ensures { IfSome result (λ number. (number_list_of value power ≡ single (number_alone_of number)) × IsLowest number) }
{
    if power == 1 {
        number_once(value)
    } else {
        number_raised(value, power)
    }
}

/// The same of the number itself, which nearly every number is.
fn number_once(value: u128) -> Option<Frac>
    ensures { IfSome result (λ number. (number_list_of value (pos 1) ≡ single (number_alone_of number)) × IsLowest number) }
{
    if value == 0 {
        return None;
    }
    if value > LARGEST {
        return None;
    }
    let number = Frac::whole(value as i128);
    let _ = number.numerator();
    Some(number)
}

fn number_raised(value: u128, power: i32) -> Option<Frac>
    ensures { IfSome result (λ number. (number_list_of value power ≡ single (number_alone_of number)) × IsLowest number) }
{
    let size = power.unsigned_abs();
    if size == 0 {
        return Some(one());
    }
    if value > LARGEST {
        return None;
    }
    let base = factor_of(value, power < 0).ok()?;
    if base.is_zero() {
        return None;
    }
    let number = raised(base, size as u128).ok()?;
    let _ = number.numerator();
    Some(number)
}

/// 1, with what holds of it.
fn one() -> Frac
    ensures one { result ≡ whole (pos 1) }
    ensures lowest { IsLowest result }
{
    let one = Frac::one();
    let _ = one.numerator();
    one
}

/// A factor of a number's power: the number, or its inverse.
fn factor_of(number: u128, is_inverse: bool) -> Result<Frac, FracError>
    requires { number ≤ largest }
    ensures { result ≡ (if is_inverse then make (pos 1) (pos number) else make (pos number) (pos 1)) }
{
    if is_inverse {
        Frac::make(1, number as i128)
    } else {
        Frac::make(number as i128, 1)
    }
}

fn of_fraction<'a>(alloc: Global, base: Result<Frac, FracError>, power: u32) -> Whole<'a>
    requires { 1 ≤ power }
    ensures { listing result ≡ of_fraction_of base power }
{
    match base {
        Err(FracError::Overflow) => Whole::refused(Cause::Overflow),
        Err(FracError::DivideByZero) => Whole::refused(Cause::DivideByZero),
        Ok(base) => {
            if base.is_zero() {
                return Whole::nothing();
            }
            fraction_list(alloc, base, power as u128)
        }
    }
}

/// The list of a fraction to a power.
pub fn fraction_list<'a>(alloc: Global, base: Frac, power: u128) -> Whole<'a>
    requires { 1 ≤ power }
    ensures { listing result ≡ of_coefficient (raised_of base power) }
{
    match raised(base, power) {
        Ok(coefficient) => Whole::single(Monomial {
            coefficient,
            term: Term::one(alloc),
        }),
        Err(_) => Whole::refused(Cause::Overflow),
    }
}

/// A fraction to a power. Any but 1, -1 and 0 is out of range after a few factors.
fn raised(base: Frac, power: u128) -> Result<Frac, FracError>
    requires { 1 ≤ power }
    ensures { result ≡ ok_or (raised_of base power) Overflow }
{
    if base.numerator_size() == 1 && base.is_whole() {
        return Ok(one_raised(base, power));
    }
    multiplied(base, power)
}

/// The same of 1 or -1.
fn one_raised(base: Frac, power: u128) -> Frac
    requires some { 1 ≤ power }
    requires one { nat_abs base.numerator ≡ 1 }
    requires whole { base.denominator ≡ 1 }
    ensures { raised_of base power ≡ Some result }
{
    if power % 2 == 0 { Frac::one() } else { base }
}

/// The same, factor by factor.
fn multiplied(base: Frac, power: u128) -> Result<Frac, FracError>
    requires { 1 ≤ power }
    ensures { result ≡ ok_or (raised_of base power) Overflow }
{
    let mut product = base;
    for _made in 1..power {
        product = product.mul(base)?;
    }
    Ok(product)
}

/// The list of a symbol to a power.
pub fn symbol_list<'a>(alloc: Global, symbol: Id, power: i32) -> Result<Whole<'a>, AllocError>
    ensures { IfOk result (λ whole. listing whole ≡ symbol_list_of symbol power) }
{
    if power.unsigned_abs() > LARGEST_EXPONENT {
        return Ok(Whole::refused(Cause::PowerRange));
    }
    Ok(Whole::single(Monomial {
        coefficient: Frac::one(),
        term: Term::symbol(alloc, symbol, power)?,
    }))
}
