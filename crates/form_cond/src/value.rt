//! The value of what stands in a condition.
ghost use Rattle.std.specs.Prelude.{◌≡◌, List, false, slice_get, IfOk, IsOk};
ghost use Rattle.form_cond.specs.Condition.{AreReady, Ready, is_match, matches as matches_of, truth as truth_of, value_of as value_in};

use crate::count::count_of;
use crate::occurring::any_occurs;
use form_frac::Frac;
use form_match::{Pattern, first_match};
use form_term::Term;
use form_tree::Value;
use std::alloc::{AllocError, Global};

pub fn value_of(
    alloc: Global,
    value: &Value,
    patterns: &[Pattern],
    coefficient: Frac,
    term: &Term,
) -> Result<Frac, AllocError>
    ensures value { (rs : List Ready) → AreReady patterns.now rs →
        IfOk result (λ x. x ≡ value_in rs value.now coefficient term.now) }
    ensures without_match { is_match value.now ≡ false → IsOk result }
{
    match value {
        Value::Number(number) => Ok(*number),
        Value::Coefficient => Ok(coefficient),
        Value::Count(weights) => Ok(count_of(weights, term)),
        Value::Match(number) => {
            let is_match = matches(alloc, *number, patterns, term)?;
            Ok(truth(is_match))
        }
        Value::Occurs(names) => Ok(truth(any_occurs(names.as_slice(), term))),
    }
}

/// 1 or 0.
fn truth(is_so: bool) -> Frac
    ensures { result ≡ truth_of is_so }
{
    if is_so { Frac::one() } else { Frac::zero() }
}

/// Whether a pattern, by its number, matches a term.
fn matches(
    alloc: Global,
    number: usize,
    patterns: &[Pattern],
    term: &Term,
) -> Result<bool, AllocError>
    ensures { (rs : List Ready) → AreReady patterns.now rs →
        IfOk result (λ is. is ≡ matches_of (slice_get rs number) term.now) }
{
    let Some(pattern) = patterns.get(number) else {
        return Ok(false);
    };
    let found = first_match(alloc, pattern, term)?;
    Ok(found.is_some())
}
