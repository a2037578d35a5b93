ghost use Rattle.std.specs.Prelude.{◌≡◌, Some, None, MatchOption};
ghost use Rattle.form_calc.specs.Calculation as calculation;
ghost use Rattle.form_calc.specs.Answers.{IsCalculated};

use crate::CalcError;
use crate::blanks::{after_blanks, closing};
use crate::numerals::{after_signs, numeral, signed};
use crate::operator::{added, operator_at, sign_at};

/// The most parentheses that may be open.
const MOST_OPEN: u64 = 64;

/// The sum at the front, and what follows it. `deeper` is how many more parentheses may be open. Each turn reads an operator, so
/// that the text has turns enough.
#[cycle(calculation)]
#[tactic(auto, using(crate::proofs::Chains::one_turn), unfolding(crate::specs::Calculation::sum, crate::specs::Reading::chained))]
fn sum(text: &[u8], deeper: u64) -> Option<(Option<i128>, &[u8])>
    ensures { MatchOption result (calculation.sum (calculation.parenthesis deeper) text.now ≡ None) (λ x. calculation.sum (calculation.parenthesis deeper) text.now ≡ Some (x.0, x.1.now)) }
{
    let (first, behind) = product(text, deeper)?;
    let mut value = first;
    let mut rest = behind;
    for _turn in text {
        let Some((is_minus, behind)) = sign_at(rest) else {
            return Some((value, rest));
        };
        let (right, more) = product(behind, deeper)?;
        value = added(is_minus, value, right);
        rest = more;
    }
    Some((value, rest))
}

/// The product at the front, and what follows it.
#[cycle(calculation)]
#[tactic(auto, using(crate::proofs::Chains::one_turn), unfolding(crate::specs::Calculation::product, crate::specs::Reading::chained))]
fn product(text: &[u8], deeper: u64) -> Option<(Option<i128>, &[u8])>
    ensures { MatchOption result (calculation.product (calculation.parenthesis deeper) text.now ≡ None) (λ x. calculation.product (calculation.parenthesis deeper) text.now ≡ Some (x.0, x.1.now)) }
{
    let (first, behind) = factor(text, deeper)?;
    let mut value = first;
    let mut rest = behind;
    for _turn in text {
        let Some((operator, behind)) = operator_at(rest) else {
            return Some((value, rest));
        };
        let (right, more) = factor(behind, deeper)?;
        value = operator.applied(value, right);
        rest = more;
    }
    Some((value, rest))
}

/// The factor at the front with its signs, and what follows it.
#[cycle(calculation)]
#[tactic(auto, unfolding(crate::specs::Calculation::factor))]
fn factor(text: &[u8], deeper: u64) -> Option<(Option<i128>, &[u8])>
    ensures { MatchOption result (calculation.factor (calculation.parenthesis deeper) text.now ≡ None) (λ x. calculation.factor (calculation.parenthesis deeper) text.now ≡ Some (x.0, x.1.now)) }
{
    let (value, rest) = primary(after_signs(text), deeper)?;
    Some((signed(text, value), rest))
}

/// The number or the parenthesis at the front, and what follows it.
#[cycle(calculation)]
#[tactic(auto, unfolding(crate::specs::Calculation::primary))]
fn primary(text: &[u8], deeper: u64) -> Option<(Option<i128>, &[u8])>
    ensures { MatchOption result (calculation.primary (calculation.parenthesis deeper) text.now ≡ None) (λ x. calculation.primary (calculation.parenthesis deeper) text.now ≡ Some (x.0, x.1.now)) }
{
    let [first, inside @ ..] = text else {
        return None;
    };
    if *first == b'(' {
        parenthesis(inside, deeper)
    } else {
        numeral(text)
    }
}

/// What stands in the parenthesis that is open here, and what follows it.
#[cycle(calculation)]
#[tactic(auto, using(crate::proofs::Chains::within_none, crate::proofs::Chains::within_next))]
fn parenthesis(text: &[u8], deeper: u64) -> Option<(Option<i128>, &[u8])>
    ensures { MatchOption result (calculation.parenthesis deeper text.now ≡ None) (λ x. calculation.parenthesis deeper text.now ≡ Some (x.0, x.1.now)) }
{
    if deeper == 0 {
        return None;
    }
    let (value, rest) = sum(text, deeper - 1)?;
    let behind = closing(rest)?;
    Some((value, behind))
}

/// The value of what stands in braces.
pub fn calculate(text: &[u8]) -> Result<i128, CalcError>
    ensures { IsCalculated result (calculation.value_of text.now) }
{
    let Some((value, rest)) = sum(text, MOST_OPEN) else {
        return Err(CalcError::IllFormed);
    };
    if !after_blanks(rest).is_empty() {
        return Err(CalcError::IllFormed);
    }
    value.ok_or(CalcError::OutOfRange)
}
