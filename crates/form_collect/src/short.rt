//! Short lists, collected without a hash table where they have two terms at most.
ghost use Rattle.std.specs.Prelude.{◌≡◌, false, [], ◌∷◌, None, Some, Ok, IfOk, IfSome};
ghost use Rattle.std.specs.Bool.{OnTrue};
ghost use Rattle.form_collect.specs.Collecting.{collected};
ghost use Rattle.form_collect.specs.Short.{AreOrdered, IsExchanged, IsAdded};

use crate::{CollectError, Collector};
use form_frac::Frac;
use form_term::{Monomial, compare};
use std::alloc::{AllocError, Global};
use std::cmp::Ordering;

/// The collected list of a few terms; None where a sum of coefficients is out of range.
pub fn collect_short(
    alloc: Global,
    list: Vec<Monomial>,
) -> Result<Option<Vec<Monomial>>, AllocError>
    ensures some { IfOk result (λ found. IfSome found (λ terms. collected list.items ≡ Some terms.items)) }
    ensures none { result ≡ Ok None → collected list.items ≡ None }
{
    if is_collected(&list) {
        return Ok(Some(list));
    }
    if is_exchanged(&list) {
        return exchanged(list);
    }
    if let Some(sum) = added(&list) {
        return one_term(list, sum);
    }
    collect_all(alloc, list)
}

/// Whether a list surely is collected as it stands.
fn is_collected(list: &[Monomial]) -> bool
    ensures { OnTrue result (collected list.now ≡ Some list.now) }
{
    match list {
        [one] => !one.coefficient.is_zero(),
        [one, two] => are_ordered(one, two, Ordering::Less),
        _ => false,
    }
}

/// Whether a list surely has two terms, the second of which comes first.
fn is_exchanged(list: &[Monomial]) -> bool
    ensures { OnTrue result (IsExchanged list.now) }
{
    match list {
        [one, two] => are_ordered(one, two, Ordering::Greater),
        _ => false,
    }
}

/// Whether two terms stand so to each other, and neither has the coefficient 0.
fn are_ordered(one: &Monomial, two: &Monomial, ordering: Ordering) -> bool
    ensures are { OnTrue result (AreOrdered one.now two.now ordering) }
    ensures none { result ≡ false → AreOrdered one.now two.now ordering → ⊥ }
{
    if one.coefficient.is_zero() {
        return false;
    }
    if two.coefficient.is_zero() {
        return false;
    }
    compare(&one.term, &two.term) == ordering
}

/// The other way round, a list of two terms that is collected so.
fn exchanged(mut list: Vec<Monomial>) -> Result<Option<Vec<Monomial>>, AllocError>
    requires { IsExchanged list.items }
    ensures some { IfOk result (λ found. IfSome found (λ terms. collected list.items ≡ Some terms.items)) }
    ensures none { result ≡ Ok None → collected list.items ≡ None }
{
    let Some(two) = list.pop() else {
        return Ok(None);
    };
    let Some(one) = list.pop() else {
        return Ok(None);
    };
    list.push(two)?;
    list.push(one)?;
    Ok(Some(list))
}

/// The sum of the two coefficients of a list that surely has one term twice, where it isn't 0.
fn added(list: &[Monomial]) -> Option<Frac>
    ensures { IfSome result (IsAdded list.now) }
{
    match list {
        [one, two] => sum_of(one, two),
        _ => None,
    }
}

/// The sum of two coefficients of what surely is one term, where it isn't 0.
fn sum_of(one: &Monomial, two: &Monomial) -> Option<Frac>
    ensures { IfSome result (IsAdded (one.now ∷ two.now ∷ [])) }
{
    if compare(&one.term, &two.term) != Ordering::Equal {
        return None;
    }
    let Ok(sum) = one.coefficient.add(two.coefficient) else {
        return None;
    };
    if sum.is_zero() {
        return None;
    }
    Some(sum)
}

/// The term of a list that has it twice, with this coefficient.
fn one_term(mut list: Vec<Monomial>, coefficient: Frac) -> Result<Option<Vec<Monomial>>, AllocError>
    requires { IsAdded list.items coefficient }
    ensures some { IfOk result (λ found. IfSome found (λ terms. collected list.items ≡ Some terms.items)) }
    ensures none { result ≡ Ok None → collected list.items ≡ None }
{
    let Some(_two) = list.pop() else {
        return Ok(None);
    };
    let Some(one) = list.pop() else {
        return Ok(None);
    };
    list.push(Monomial {
        coefficient,
        term: one.term,
    })?;
    Ok(Some(list))
}

/// The collected list of any number of terms.
fn collect_all(alloc: Global, list: Vec<Monomial>) -> Result<Option<Vec<Monomial>>, AllocError>
    ensures some { IfOk result (λ found. IfSome found (λ terms. collected list.items ≡ Some terms.items)) }
    ensures none { result ≡ Ok None → collected list.items ≡ None }
{
    let mut collector = Collector::new(alloc);
    for item in list {
        collector.add(item)?;
    }
    match collector.into_terms() {
        Ok(terms) => Ok(Some(terms.into_vec())),
        Err(CollectError::Overflow) => Ok(None),
        Err(CollectError::Memory) => Err(AllocError),
    }
}
