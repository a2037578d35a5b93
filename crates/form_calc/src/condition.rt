ghost use Rattle.std.specs.Prelude.{◌≡◌, Some, None, MatchOption};
ghost use Rattle.form_calc.specs.Condition as condition;
ghost use Rattle.form_calc.specs.Answers.{IsCalculated};

use crate::CalcError;
use crate::blanks::{after_blanks, closing};
use crate::marks::{behind_double, comparison_at};
use crate::operand::compare;
use crate::operands::operand;

/// The most parentheses that may be open.
const MOST_OPEN: u64 = 64;

/// Whether two things hold, none where one is out of range.
fn both(a: Option<bool>, b: Option<bool>) -> Option<bool>
    ensures { result ≡ condition.both a b }
{
    let a = a?;
    let b = b?;
    Some(a && b)
}

/// Whether one of two things holds, none where one is out of range.
fn either(a: Option<bool>, b: Option<bool>) -> Option<bool>
    ensures { result ≡ condition.either a b }
{
    let a = a?;
    let b = b?;
    Some(a || b)
}

/// Whether the alternatives at the front hold, and what follows them. `deeper` is how many more parentheses may be open. Each turn
/// reads an operator, so that the text has turns enough.
#[cycle(condition)]
#[tactic(auto, using(crate::proofs::Chains::one_turn), unfolding(crate::specs::Condition::alternatives, crate::specs::Condition::joint_at, crate::specs::Reading::chained))]
fn alternatives(text: &[u8], deeper: u64) -> Option<(Option<bool>, &[u8])>
    ensures { MatchOption result (condition.alternatives (condition.parenthesis deeper) text.now ≡ None) (λ x. condition.alternatives (condition.parenthesis deeper) text.now ≡ Some (x.0, x.1.now)) }
{
    let (first, behind) = conjunction(text, deeper)?;
    let mut truth = first;
    let mut rest = behind;
    for _turn in text {
        let Some(behind) = behind_double(b'|', rest) else {
            return Some((truth, rest));
        };
        let (right, more) = conjunction(behind, deeper)?;
        truth = either(truth, right);
        rest = more;
    }
    Some((truth, rest))
}

/// Whether the tests at the front that `&&` joins hold, and what follows them.
#[cycle(condition)]
#[tactic(auto, using(crate::proofs::Chains::one_turn), unfolding(crate::specs::Condition::conjunction, crate::specs::Condition::joint_at, crate::specs::Reading::chained))]
fn conjunction(text: &[u8], deeper: u64) -> Option<(Option<bool>, &[u8])>
    ensures { MatchOption result (condition.conjunction (condition.parenthesis deeper) text.now ≡ None) (λ x. condition.conjunction (condition.parenthesis deeper) text.now ≡ Some (x.0, x.1.now)) }
{
    let (first, behind) = test(text, deeper)?;
    let mut truth = first;
    let mut rest = behind;
    for _turn in text {
        let Some(behind) = behind_double(b'&', rest) else {
            return Some((truth, rest));
        };
        let (right, more) = test(behind, deeper)?;
        truth = both(truth, right);
        rest = more;
    }
    Some((truth, rest))
}

/// Whether the test at the front holds, and what follows it.
#[cycle(condition)]
#[tactic(auto, unfolding(crate::specs::Condition::test_at))]
fn test(text: &[u8], deeper: u64) -> Option<(Option<bool>, &[u8])>
    ensures { MatchOption result (condition.test_at (condition.parenthesis deeper) text.now ≡ None) (λ x. condition.test_at (condition.parenthesis deeper) text.now ≡ Some (x.0, x.1.now)) }
{
    let [first, inside @ ..] = after_blanks(text) else {
        return None;
    };
    if *first == b'(' {
        parenthesis(inside, deeper)
    } else {
        comparison(text)
    }
}

/// Whether the alternatives in the parenthesis that is open here hold, and what follows it.
#[cycle(condition)]
#[tactic(auto, using(crate::proofs::Chains::within_none, crate::proofs::Chains::within_next))]
fn parenthesis(text: &[u8], deeper: u64) -> Option<(Option<bool>, &[u8])>
    ensures { MatchOption result (condition.parenthesis deeper text.now ≡ None) (λ x. condition.parenthesis deeper text.now ≡ Some (x.0, x.1.now)) }
{
    if deeper == 0 {
        return None;
    }
    let (truth, rest) = alternatives(text, deeper - 1)?;
    let behind = closing(rest)?;
    Some((truth, behind))
}

/// Whether the comparison at the front holds, and what follows it.
#[tactic(auto, unfolding(crate::specs::Condition::comparison))]
fn comparison(text: &[u8]) -> Option<(Option<bool>, &[u8])>
    ensures { MatchOption result (condition.comparison text.now ≡ None) (λ x. condition.comparison text.now ≡ Some (x.0, x.1.now)) }
{
    let (first, is_first_number, rest) = operand(text)?;
    let (comparison, rest) = comparison_at(rest)?;
    let (second, is_second_number, rest) = operand(rest)?;
    let truth = compare(comparison, first, is_first_number, second, is_second_number)?;
    Some((truth, rest))
}

/// Whether a condition holds.
pub fn holds(text: &[u8]) -> Result<bool, CalcError>
    ensures { IsCalculated result (condition.truth_of text.now) }
{
    let Some((truth, rest)) = alternatives(text, MOST_OPEN) else {
        return Err(CalcError::IllFormed);
    };
    if !after_blanks(rest).is_empty() {
        return Err(CalcError::IllFormed);
    }
    truth.ok_or(CalcError::OutOfRange)
}
