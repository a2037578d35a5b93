//! Terms that are made anew, as products of one, from factors whose lists may be in any order.

ghost use Rattle.std.specs.Prelude.{◌≡◌, ◌≤◌, ◌+◌, ◌-◌, ◌^◌, ◌∷◌, [], Ok, Err, All, IfOk, filter, map, min, nat_abs, not, sum};
ghost use Rattle.std.specs.List.{list_any};
ghost use Rattle.std.specs.List.Sorted.{IsStrictlySortedBy};
ghost use Rattle.std.specs.declared.cmp.Ordering.TheVariants.{Equal};
ghost use Rattle.form_base.specs.declared.cause.Cause.{Cause};
ghost use Rattle.form_term.specs.Term.{AreFactors, IsCall, delta_order, largest_exponent, of_others, pair_order, size, size_of_call};
ghost use Rattle.form_term.specs.Terms.{term};
ghost use Rattle.form_normal.specs.Factors.{AreEachLawful, IsProductive};
ghost use Rattle.form_normal.specs.Lists.{in_order};
ghost use Rattle.form_normal.specs.Product.{is_one as is_one_of, is_zero as is_zero_of, limited, others_product, product};

use crate::factors::LARGEST_DEPTH;
use crate::products::{LARGEST_SIZE, ProductError, has_zero, is_one};
use form_base::Cause;
use form_frac::Frac;
use form_term::{Call, Delta, Monomial, Others, Power, Term};
use std::alloc::Global;

/// The product of one term alone, by its coefficient and its factors; none where it is 0. Powers and dot products are those
/// of a term, and the lists of components, deltas and commuting functions may be in any order.
pub fn made_anew(
    alloc: Global,
    coefficient: Frac,
    powers: Vec<Power>,
    others: Others,
) -> Result<Option<Monomial>, ProductError>
    requires powers { IsProductive powers.items }
    requires each { AreEachLawful others }
    requires dots { IsStrictlySortedBy pair_order others.dots }
    requires range { All (λ d. nat_abs d.exponent ≤ largest_exponent) others.dots }
    ensures made { IfOk result (λ m. product (record { coefficient = coefficient; term = term powers.items others } ∷ []) ≡ Ok m) }
    ensures refused { (cause : Cause) → result ≡ Err (ProductError.Refused cause) →
        product (record { coefficient = coefficient; term = term powers.items others } ∷ []) ≡ Err cause }
{
    if is_zero_alone(&others) {
        return Ok(None);
    }
    let others = ordered(others);
    let term = within_limits(alloc, powers, others)?;
    Ok(Some(Monomial { coefficient, term }))
}

/// Whether one of the deltas is 0.
pub(crate) fn is_zero_alone(others: &Others) -> bool
    ensures { result ≡ list_any is_zero_of others.now.deltas }
{
    has_zero(&others.deltas)
}

/// The factors of the product of a term alone.
fn ordered(others: Others) -> Others
    requires { IsStrictlySortedBy pair_order others.dots }
    ensures { result ≡ others_product (of_others others ∷ []) }
{
    let Others {
        is_imaginary,
        dots,
        components,
        deltas,
        functions,
        word,
    } = others;
    let components = sorted(components);
    let deltas = open_in_order(deltas);
    let functions = sorted(functions);
    Others {
        is_imaginary,
        dots,
        components,
        deltas,
        functions,
        word,
    }
}

/// A list, put in order.
pub(crate) fn sorted<T: Ord>(mut list: Vec<T>) -> Vec<T>
    requires { (x y : T) → T.cmp x y ≡ Equal → x ≡ y }
    ensures { result.items ≡ in_order T.cmp list.items }
{
    list.sort_unstable();
    list
}

/// Deltas, put in order, without those that are 1.
fn open_in_order(deltas: Vec<Delta>) -> Vec<Delta>
    ensures { result.items ≡ filter (λ d. not (is_one_of d)) (in_order delta_order deltas.items) }
{
    let mut all = sorted(deltas);
    all.retain(|delta| !is_one(delta));
    all
}

/// A term of these factors, whose exponents are within their limit, within the other limits.
fn within_limits(alloc: Global, powers: Vec<Power>, others: Others) -> Result<Term, ProductError>
    requires powers { IsProductive powers.items }
    requires others { AreFactors IsCall others }
    ensures ok { IfOk result (λ t. limited (term powers.items others) ≡ Ok t) }
    ensures refused { (cause : Cause) → result ≡ Err (ProductError.Refused cause) →
        limited (term powers.items others) ≡ Err cause }
{
    let size = size_of(&powers, &others);
    if size > LARGEST_SIZE {
        return Err(ProductError::Refused(Cause::TermSize));
    }
    let depth = others.depth();
    if depth >= LARGEST_DEPTH {
        return Err(ProductError::Refused(Cause::TermSize));
    }
    let term = Term::from_factors(alloc, powers, others)?;
    Ok(term)
}

/// How many factors these are, those inside arguments counted, or the largest number where that is less.
fn size_of(powers: &[Power], others: &Others) -> usize
    ensures { result ≡ min (size (term powers.now others.now)) (2 ^ 64 - 1) }
{
    let pairs = powers.len().saturating_add(others.dots.len());
    let vectors = pairs.saturating_add(others.components.len());
    let plain = vectors.saturating_add(others.deltas.len());
    let commuting = size_with(plain, &others.functions);
    size_with(commuting, &others.word)
}

/// A size and that of these functions together, or the largest number where that is less.
#[tactic(auto, using(crate::proofs::Sizes::counted, crate::proofs::Sizes::all_counted))]
fn size_with(size: usize, calls: &[Call]) -> usize
    ensures { result ≡ min (size + sum (map size_of_call calls.now)) (2 ^ 64 - 1) }
{
    let mut count = size;
    let mut rest = calls;
    while let Some((call, others)) = rest.split_first() {
        count = count.saturating_add(call.size());
        rest = others;
    }
    count
}
