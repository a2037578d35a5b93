//! Numbers and comparisons of operands.

ghost use Rattle.std.specs.Prelude.{◌≡◌, Some, pos};
ghost use Rattle.form_calc.specs.Condition as condition;
ghost use Rattle.form_calc.specs.Number as number;

use crate::Number;
use crate::number::{with_digit, with_digit_below, zero};

/// How two operands are compared.
#[derive(Clone, Copy)]
pub enum Comparison {
    Equal,
    Unequal,
    Less,
    Greater,
    LessOrEqual,
    GreaterOrEqual,
}

/// The most that a number is before a digit that 64 bits have room for.
const FEW: u64 = 1_000_000_000_000_000_000;

/// The number that the digits at the front give, as far as 64 bits have room for it, and what follows them.
fn read_few(digits: &[u8]) -> (u64, &[u8])
    ensures { number.read_up (number.zero) digits.now ≡ number.read_up (Some (pos result.0)) result.1.now }
{
    let mut few: u64 = 0;
    let mut rest = digits;
    while let [byte, others @ ..] = rest {
        if few > FEW {
            return (few, rest);
        }
        few = few * 10 + u64::from(byte.saturating_sub(b'0'));
        rest = others;
    }
    (few, rest)
}

/// The number that digits give.
#[tactic(auto, unfolding(crate::specs::Number::read_up))]
fn read_up(digits: &[u8]) -> Option<i128>
    ensures { result ≡ number.read_up (number.zero) digits.now }
{
    let (few, rest) = read_few(digits);
    let mut value = Some(i128::from(few));
    for byte in rest {
        value = with_digit(value, *byte);
    }
    value
}

/// The number below 0 that digits give.
#[tactic(auto, unfolding(crate::specs::Number::read_down))]
fn read_down(digits: &[u8]) -> Option<i128>
    ensures { result ≡ number.read_down (number.zero) digits.now }
{
    let mut value = zero();
    for byte in digits {
        value = with_digit_below(value, *byte);
    }
    value
}

/// The number that a sign and digits give, none where it is out of range.
pub fn number_of(text: &[u8]) -> Number
    ensures { result ≡ number.number_of text.now }
{
    let [first, digits @ ..] = text else {
        return Number::zero();
    };
    if *first == b'-' {
        Number::new(read_down(digits))
    } else if *first == b'+' {
        Number::new(read_up(digits))
    } else {
        Number::new(read_up(text))
    }
}

/// How two numbers compare, none where one is out of range.
fn compare_numbers(comparison: Comparison, a: Option<i128>, b: Option<i128>) -> Option<bool>
    ensures { result ≡ condition.compared_numbers comparison a b }
{
    let a = a?;
    let b = b?;
    Some(match comparison {
        Comparison::Equal => a == b,
        Comparison::Unequal => a != b,
        Comparison::Less => a < b,
        Comparison::Greater => a > b,
        Comparison::LessOrEqual => a <= b,
        Comparison::GreaterOrEqual => a >= b,
    })
}

/// How two texts compare, none where they can't be compared so.
fn compare_texts(comparison: Comparison, a: &[u8], b: &[u8]) -> Option<bool>
    ensures { result ≡ condition.compared_texts comparison a.now b.now }
{
    match comparison {
        Comparison::Equal => Some(a == b),
        Comparison::Unequal => Some(a != b),
        _ => None,
    }
}

/// How two operands compare: none where they can't be compared so, and none in that where a number is out of range.
pub fn compare(
    comparison: Comparison,
    a: &[u8],
    is_a_number: bool,
    b: &[u8],
    is_b_number: bool,
) -> Option<Option<bool>>
    ensures { result ≡ condition.compared comparison (record { text = a.now; is_number = is_a_number }) (record { text = b.now; is_number = is_b_number }) }
{
    if is_a_number && is_b_number {
        let first = number_of(a).value();
        let second = number_of(b).value();
        return Some(compare_numbers(comparison, first, second));
    }
    Some(Some(compare_texts(comparison, a, b)?))
}
