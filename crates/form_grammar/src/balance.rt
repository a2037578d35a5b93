//! What remains of a product once equal factors are joined.
ghost use Rattle.std.specs.Prelude.{◌≡◌, sum_by, count_by, IfOk, MatchOption};
ghost use Rattle.std.specs.List.{list_any, list_all};
ghost use Rattle.form_ast.specs.Patterns.{is_same_name as is_same_name_of, is_same_key as is_same_key_of, size_at as size_at_of, is_cancelled as is_cancelled_of, stays as stays_in, has_name as has_name_of, stands_alone as stands_alone_in, are_balanced as are_balanced_of};
ghost use Rattle.form_grammar.specs.Balance.{has_same_key as has_same_key_as, stays_first as stays_first_in};

use form_ast::{Key, Weight};
use form_base::Name;
use form_number::{Total, WholeNumber};
use std::alloc::{AllocError, Global};

fn is_same_name(name: &Name, is_marked: bool, other: &Name, is_other_marked: bool) -> bool
    ensures { result ≡ is_same_name_of name.now is_marked other.now is_other_marked }
{
    name == other && is_marked == is_other_marked
}

fn is_same_key(key: &Key, other: &Key) -> bool
    ensures { result ≡ is_same_key_of key.now other.now }
{
    match (key, other) {
        (Key::Alone(a, m), Key::Alone(b, n)) => is_same_name(a, *m, b, *n),
        (Key::Dotted(a, m, b, n), Key::Dotted(c, k, d, l)) => {
            (is_same_name(a, *m, c, *k) && is_same_name(b, *n, d, *l))
                || (is_same_name(a, *m, d, *l) && is_same_name(b, *n, c, *k))
        }
        _ => false,
    }
}

/// The size of a power with this key, below zero or not, where it is one.
fn size_at<'a>(key: &Key, below: bool, weight: &'a Weight) -> Option<&'a WholeNumber>
    ensures { MatchOption result (size_at_of key.now below weight.now ≡ 0) (λ size. size.now ≡ size_at_of key.now below weight.now) }
{
    match weight {
        Weight::Keyed(other, is_below, size) if is_same_key(key, other) && below == *is_below =>
            Some(size),
        _ => None,
    }
}

/// The sum of the sizes of the powers with this key that are below zero, or of those that aren't.
fn total(alloc: Global, weights: &[Weight], key: &Key, below: bool) -> Result<Total, AllocError>
    ensures { IfOk result (λ sum. sum ≡ sum_by (size_at_of key.now below) weights.now) }
{
    let mut sum = Total::zero(alloc);
    for weight in weights {
        if let Some(size) = size_at(key, below, weight) {
            sum = sum.plus(size)?;
        }
    }
    Ok(sum)
}

/// Whether the powers above zero and those below it cancel.
fn is_cancelled(alloc: Global, weights: &[Weight], key: &Key) -> Result<bool, AllocError>
    ensures { IfOk result (λ cancelled. cancelled ≡ is_cancelled_of weights.now key.now) }
{
    let above = total(alloc, weights, key, false)?;
    let beneath = total(alloc, weights, key, true)?;
    Ok(above.is_equal(&beneath))
}

/// Whether a factor that weighs this remains.
fn stays(alloc: Global, weights: &[Weight], weight: &Weight) -> Result<bool, AllocError>
    ensures { IfOk result (λ remains. remains ≡ stays_in weights.now weight.now) }
{
    match weight {
        Weight::Keyed(key, _, _) => Ok(!is_cancelled(alloc, weights, key)?),
        Weight::Lone(size) => Ok(!size.is_zero()),
        Weight::Free(_) => Ok(true),
    }
}

/// Whether it is the power of this name alone.
fn has_name(name: &Name, weight: &Weight) -> bool
    ensures { result ≡ has_name_of name.now weight.now }
{
    match weight {
        Weight::Keyed(Key::Alone(other, _), _, _) => name == other,
        Weight::Free(other) => name == other,
        _ => false,
    }
}

/// How many are powers of this name alone.
fn count_of(weights: &[Weight], name: &Name) -> usize
    ensures { result ≡ count_by (has_name_of name.now) weights.now }
{
    let mut count = 0;
    for weight in weights {
        if has_name(name, weight) {
            count += 1;
        }
    }
    count
}

/// Whether a name to the power of a wildcard is the base of no other factor.
fn stands_alone(weights: &[Weight], weight: &Weight) -> bool
    ensures { result ≡ stands_alone_in weights.now weight.now }
{
    match weight {
        Weight::Free(name) => count_of(weights, name) == 1,
        Weight::Keyed(_, _, _) | Weight::Lone(_) => true,
    }
}

/// Whether both are powers of one key, so that both remain or none does.
fn has_same_key(weight: &Weight, other: &Weight) -> bool
    ensures { result ≡ has_same_key_as weight.now other.now }
{
    match (weight, other) {
        (Weight::Keyed(key, _, _), Weight::Keyed(other_key, _, _)) => is_same_key(key, other_key),
        _ => false,
    }
}

/// Whether one of those before has its key.
fn is_repeated(before: &[Weight], weight: &Weight) -> bool
    ensures { result ≡ list_any (has_same_key_as weight.now) before.now }
{
    before.iter().any(|other| has_same_key(weight, other))
}

/// Whether a factor remains and none before it has its key: the powers of a key are added up once.
fn stays_first(
    alloc: Global,
    weights: &[Weight],
    before: &[Weight],
    weight: &Weight,
) -> Result<bool, AllocError>
    ensures { IfOk result (λ remains. remains ≡ stays_first_in weights.now before.now weight.now) }
{
    Ok(!is_repeated(before, weight) && stays(alloc, weights, weight)?)
}

/// Whether a factor remains.
fn any_stays(alloc: Global, weights: &[Weight]) -> Result<bool, AllocError>
    ensures { IfOk result (λ any. any ≡ list_any (stays_in weights.now) weights.now) }
{
    for place in 0..weights.len() {
        if stays_first(alloc, weights, &weights[..place], &weights[place])? {
            return Ok(true);
        }
    }
    Ok(false)
}

/// Whether powers of wildcards stand on names that are the base of no other factor.
fn all_stand_alone(weights: &[Weight]) -> bool
    ensures { result ≡ list_all (stands_alone_in weights.now) weights.now }
{
    weights.iter().all(|weight| stands_alone(weights, weight))
}

/// Whether a factor remains, and powers of wildcards stand on such names.
pub fn are_balanced(alloc: Global, weights: &[Weight]) -> Result<bool, AllocError>
    ensures { IfOk result (λ balanced. balanced ≡ are_balanced_of weights.now) }
{
    Ok(any_stays(alloc, weights)? && all_stand_alone(weights))
}
