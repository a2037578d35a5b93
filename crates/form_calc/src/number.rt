ghost use Rattle.std.specs.Prelude.{◌≡◌, ◌≤◌, ◌<◌, pos, Some, None, is_some};
ghost use Rattle.form_calc.specs.Number as number;

use std::marker::Model;

/// A whole number of 128 bits, or none, where a step was out of range.
#[derive(Clone, Copy)]
pub struct Number {
    value: Option<i128>,
}

impl Model for Number {
    ghost use Rattle.std.specs.Prelude.{ℤ, Option};

    ghost Value = { Option ℤ };

    ghost view = { λ n. n.value };

    ghost inverse = { λ value. record { value = value } };
}

impl Number {
    pub fn zero() -> Number
        ensures { result ≡ Some (pos 0) }
    {
        Number { value: Some(0) }
    }

    pub fn one() -> Number
        ensures { result ≡ Some (pos 1) }
    {
        Number { value: Some(1) }
    }

    pub fn value(self) -> Option<i128>
        ensures { result ≡ self }
    {
        self.value
    }

    pub fn plus(self, other: Number) -> Number
        ensures { result ≡ number.plus self other }
    {
        Number {
            value: sum(self.value, other.value),
        }
    }

    /// The number with this value, or none.
    pub(crate) fn new(value: Option<i128>) -> Number
        ensures { result ≡ value }
    {
        Number { value }
    }
}

pub fn zero() -> Option<i128>
    ensures { result ≡ Some (pos 0) }
{
    Some(0)
}

fn ten() -> Option<i128>
    ensures { result ≡ Some (pos 10) }
{
    Some(10)
}

/// The number of a decimal digit.
fn digit(byte: u8) -> Option<i128>
    ensures { result ≡ number.digit byte }
{
    Some(i128::from(byte.saturating_sub(b'0')))
}

/// A number with one more decimal digit.
pub fn with_digit(value: Option<i128>, byte: u8) -> Option<i128>
    ensures { result ≡ number.with_digit value byte }
{
    sum(product(value, ten()), digit(byte))
}

/// A number below 0 with one more decimal digit.
pub fn with_digit_below(value: Option<i128>, byte: u8) -> Option<i128>
    ensures { result ≡ number.with_digit_below value byte }
{
    difference(product(value, ten()), digit(byte))
}

pub fn sum(a: Option<i128>, b: Option<i128>) -> Option<i128>
    ensures { result ≡ number.plus a b }
{
    a?.checked_add(b?)
}

pub fn difference(a: Option<i128>, b: Option<i128>) -> Option<i128>
    ensures { result ≡ number.minus a b }
{
    a?.checked_sub(b?)
}

pub fn product(a: Option<i128>, b: Option<i128>) -> Option<i128>
    ensures { result ≡ number.times a b }
{
    a?.checked_mul(b?)
}

/// The quotient, without what is behind the point.
pub fn quotient(a: Option<i128>, b: Option<i128>) -> Option<i128>
    ensures { result ≡ number.over a b }
{
    a?.checked_div(b?)
}

/// What a division leaves, with the sign of the dividend.
pub fn remainder(a: Option<i128>, b: Option<i128>) -> Option<i128>
    ensures { result ≡ number.rest a b }
{
    let a = a?;
    let b = b?;
    if b == -1 { Some(0) } else { a.checked_rem(b) }
}

pub fn opposite(a: Option<i128>) -> Option<i128>
    ensures { result ≡ number.negated a }
{
    a?.checked_neg()
}
