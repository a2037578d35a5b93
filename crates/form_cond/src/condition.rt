//! Conditions are gone through from the left, and no further than up to where the answer is known.
ghost use Rattle.std.specs.Prelude.{◌≡◌, List, false, IfOk, IsOk};
ghost use Rattle.std.specs.List.{list_any};
ghost use Rattle.form_cond.specs.Condition.{AreReady, Ready, all_hold as all_hold_of, has_match, holds as holds_of, is_compared, is_match, is_so as is_so_by, is_true as is_true_of, test_holds as test_holds_of};

use crate::value::value_of;
use form_base::Comparison;
use form_frac::Frac;
use form_match::Pattern;
use form_term::Term;
use form_tree::{Test, Value};
use sqlite_items::Items;
use std::alloc::{AllocError, Global};
use std::cmp::Ordering;

/// Whether a condition holds of a term with a coefficient, by its patterns made ready. Memory is taken for `match` alone.
#[cycle(nesting)]
pub fn holds(
    alloc: Global,
    condition: &[Items<Test>],
    patterns: &[Pattern],
    coefficient: Frac,
    term: &Term,
) -> Result<bool, AllocError>
    ensures holds { (rs : List Ready) → AreReady patterns.now rs →
        IfOk result (λ b. b ≡ holds_of rs condition.now coefficient term.now) }
    ensures without_match { list_any (list_any has_match) condition.now ≡ false → IsOk result }
{
    for tests in condition {
        if all_hold(alloc, tests.as_slice(), patterns, coefficient, term)? {
            return Ok(true);
        }
    }
    Ok(false)
}

/// Whether all of these tests hold.
#[cycle(nesting)]
fn all_hold(
    alloc: Global,
    tests: &[Test],
    patterns: &[Pattern],
    coefficient: Frac,
    term: &Term,
) -> Result<bool, AllocError>
    ensures holds { (rs : List Ready) → AreReady patterns.now rs →
        IfOk result (λ b. b ≡ all_hold_of rs tests.now coefficient term.now) }
    ensures without_match { list_any has_match tests.now ≡ false → IsOk result }
{
    for test in tests {
        if !test_holds(alloc, test, patterns, coefficient, term)? {
            return Ok(false);
        }
    }
    Ok(true)
}

#[cycle(nesting)]
fn test_holds(
    alloc: Global,
    test: &Test,
    patterns: &[Pattern],
    coefficient: Frac,
    term: &Term,
) -> Result<bool, AllocError>
    ensures holds { (rs : List Ready) → AreReady patterns.now rs →
        IfOk result (λ b. b ≡ test_holds_of rs coefficient term.now test.now) }
    ensures without_match { has_match test.now ≡ false → IsOk result }
{
    match test {
        Test::Nonzero(value) => is_true(alloc, value, patterns, coefficient, term),
        Test::Compared(left, by, right) => {
            are_so(alloc, left, *by, right, patterns, coefficient, term)
        }
        Test::Parenthesis(inner) => holds(alloc, inner.as_slice(), patterns, coefficient, term),
    }
}

/// Whether a value isn't 0.
fn is_true(
    alloc: Global,
    value: &Value,
    patterns: &[Pattern],
    coefficient: Frac,
    term: &Term,
) -> Result<bool, AllocError>
    ensures is { (rs : List Ready) → AreReady patterns.now rs →
        IfOk result (λ truth. truth ≡ is_true_of rs value.now coefficient term.now) }
    ensures without_match { is_match value.now ≡ false → IsOk result }
{
    let value = value_of(alloc, value, patterns, coefficient, term)?;
    Ok(!value.is_zero())
}

/// Whether a comparison of two values is so.
fn are_so(
    alloc: Global,
    left: &Value,
    by: Comparison,
    right: &Value,
    patterns: &[Pattern],
    coefficient: Frac,
    term: &Term,
) -> Result<bool, AllocError>
    ensures is { (rs : List Ready) → AreReady patterns.now rs →
        IfOk result (λ truth. truth ≡ is_compared rs left.now by right.now coefficient term.now) }
    ensures without_match { is_match left.now ≡ false → is_match right.now ≡ false → IsOk result }
{
    let left = value_of(alloc, left, patterns, coefficient, term)?;
    let right = value_of(alloc, right, patterns, coefficient, term)?;
    Ok(is_so(by, left.cmp(right)))
}

/// Whether a comparison is so, by how the left value stands to the right one.
fn is_so(by: Comparison, order: Ordering) -> bool
    ensures { result ≡ is_so_by by order }
{
    match by {
        Comparison::EqualTo => order.is_eq(),
        Comparison::NotEqualTo => order.is_ne(),
        Comparison::Less => order.is_lt(),
        Comparison::Greater => order.is_gt(),
        Comparison::AtMost => order.is_le(),
        Comparison::AtLeast => order.is_ge(),
    }
}
