//! Powers and exponents.
ghost use Rattle.std.specs.Prelude.{◌≡◌, ◌<◌, ◌≤◌, ◌^◌};
ghost use Rattle.form_right_side.specs.Refusal.{GivesWithin};
ghost use Rattle.form_right_side.specs.RightSide as definition;
ghost use Rattle.form_right_side.specs.Walking as walking;

use crate::PastLimit;
use form_ast::{Link, Sign};
use form_number::{Capped, Number};

/// The largest number, 2^127-1.
pub const LARGEST_NUMBER: u128 = 170_141_183_460_469_231_731_687_303_715_884_105_727;

/// The largest power of a symbol or a dot product, in size.
pub const LARGEST_EXPONENT: u32 = 1_000_000_000;

/// The largest power of anything else, in size.
pub const LARGEST_POWER: u32 = 1_000;

/// A written power as far as limits ask: its sign, and its number, capped.
#[derive(Clone, Copy)]
pub struct Power {
    pub sign: Option<Sign>,
    pub number: Capped,
}

pub fn link_of(link: Link) -> form_tree::Link
    ensures { result ≡ walking.link_of link }
{
    match link {
        Link::First | Link::Plus => form_tree::Link::Plus,
        Link::Minus => form_tree::Link::Minus,
        Link::Times | Link::Over => form_tree::Link::Times,
    }
}

pub fn is_over(link: Link) -> bool
    ensures { result ≡ walking.is_over link }
{
    link == Link::Over
}

/// The value of a number of at most so much.
pub fn within(number: &Number, most: u128) -> Result<u128, PastLimit>
    requires { most < 2 ^ 127 }
    ensures { GivesWithin (λ value. value) result (definition.value_within most number.now) }
{
    let Some(value) = number.up_to(most) else {
        return Err(PastLimit {
            spot: number.spot(),
        });
    };
    Ok(value)
}

/// The size of a power of at most so much: 1 where none is written.
pub fn size_of(power: Option<Power>, most: u32) -> Result<u32, PastLimit>
    ensures { GivesWithin (λ size. size) result (definition.size_within most power) }
{
    let Some(power) = power else {
        return Ok(1);
    };
    if power.number.value > u128::from(most) {
        return Err(PastLimit {
            spot: power.number.spot,
        });
    }
    Ok(power.number.value as u32)
}

fn has_minus(power: Option<Power>) -> bool
    ensures { result ≡ definition.has_minus power }
{
    match power {
        Some(power) => power.sign == Some(Sign::Minus),
        None => false,
    }
}

fn is_zero(power: Option<Power>) -> bool
    ensures { result ≡ definition.is_zero power }
{
    match power {
        Some(power) => power.number.value == 0,
        None => false,
    }
}

/// Whether an exponent is below zero, if its size isn't 0: after `/` a power changes its sign.
fn is_below_zero(is_over: bool, power: Option<Power>) -> bool
    ensures { result ≡ definition.is_below_zero is_over power }
{
    if is_over {
        !has_minus(power)
    } else {
        has_minus(power)
    }
}

/// The exponent of a factor with a power of this size.
pub fn exponent(is_over: bool, power: Option<Power>, size: u32) -> i32
    requires { size ≤ definition.largest_exponent }
    ensures { result ≡ definition.exponent is_over power size }
{
    let size = size as i32;
    if is_below_zero(is_over, power) {
        -size
    } else {
        size
    }
}

/// The exponent of a number: a 0 with a negative power keeps an exponent below zero after `/` too.
pub fn number_exponent(value: u128, is_over: bool, power: Option<Power>, size: u32) -> i32
    requires { size ≤ definition.largest_exponent }
    ensures { result ≡ definition.number_exponent value is_over power size }
{
    if value == 0 && has_minus(power) {
        -(size as i32)
    } else {
        exponent(is_over, power, size)
    }
}

/// Whether a factor stands after `/`, or with a negative power.
pub fn is_inverted(is_over: bool, power: Option<Power>) -> bool
    ensures { result ≡ definition.is_inverted is_over power }
{
    is_over || has_minus(power) && !is_zero(power)
}
