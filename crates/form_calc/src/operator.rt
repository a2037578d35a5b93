//! What joins factors and products.

ghost use Rattle.std.specs.Prelude.{◌≡◌, Some, None, MatchOption};
ghost use Rattle.form_calc.specs.Calculation as calculation;
ghost use Rattle.form_calc.specs.Reading.{looked_up};

use crate::blanks::after_blanks;
use crate::number::{difference, product, quotient, remainder, sum};

/// What is done with the next factor of a product.
#[derive(Clone, Copy)]
pub enum Operator {
    Times,
    Over,
    Rest,
}

impl Operator {
    /// A product with a further factor.
    pub fn applied(self, left: Option<i128>, factor: Option<i128>) -> Option<i128>
        ensures { result ≡ calculation.applied self left factor }
    {
        match self {
            Operator::Times => product(left, factor),
            Operator::Over => quotient(left, factor),
            Operator::Rest => remainder(left, factor),
        }
    }
}

/// A sum with a further product, which may be taken away.
pub fn added(is_minus: bool, left: Option<i128>, product: Option<i128>) -> Option<i128>
    ensures { result ≡ calculation.added is_minus left product }
{
    if is_minus {
        difference(left, product)
    } else {
        sum(left, product)
    }
}

fn operator_of(byte: u8) -> Option<Operator>
    ensures { result ≡ looked_up calculation.operators byte }
{
    match byte {
        b'*' => Some(Operator::Times),
        b'/' => Some(Operator::Over),
        b'%' => Some(Operator::Rest),
        _ => None,
    }
}

/// The operator before a further factor, and what follows it.
#[tactic(auto, unfolding(crate::specs::Calculation::operator_at))]
pub fn operator_at(text: &[u8]) -> Option<(Operator, &[u8])>
    ensures { MatchOption result (calculation.operator_at text.now ≡ None) (λ x. calculation.operator_at text.now ≡ Some (x.0, x.1.now)) }
{
    let [first, rest @ ..] = after_blanks(text) else {
        return None;
    };
    let operator = operator_of(*first)?;
    Some((operator, rest))
}

/// Whether a sign is a minus.
fn sign_of(byte: u8) -> Option<bool>
    ensures { result ≡ looked_up calculation.signs byte }
{
    match byte {
        b'+' => Some(false),
        b'-' => Some(true),
        _ => None,
    }
}

/// Whether the sign before a further product is a minus, and what follows it.
#[tactic(auto, unfolding(crate::specs::Calculation::sign_at))]
pub fn sign_at(text: &[u8]) -> Option<(bool, &[u8])>
    ensures { MatchOption result (calculation.sign_at text.now ≡ None) (λ x. calculation.sign_at text.now ≡ Some (x.0, x.1.now)) }
{
    let [first, rest @ ..] = after_blanks(text) else {
        return None;
    };
    let is_minus = sign_of(*first)?;
    Some((is_minus, rest))
}
