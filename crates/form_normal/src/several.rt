//! Products of any number of factors. Their lists are joined and put in order once, and exponents are summed in a wider
//! type, so that their range is asked of the sums alone.

ghost use Rattle.std.specs.Prelude.{◌≡◌, ◌≤◌, ◌<◌, [], ◌∷◌, ◌++◌, true, false, length, map, Ok, Err, All, IfOk, OnOk, nat_abs};
ghost use Rattle.std.specs.List.{AllByRecursion};
ghost use Rattle.form_base.specs.declared.cause.Cause.{Cause};
ghost use Rattle.form_term.specs.Term.{IsTerm, RisesBy, largest_exponent, pair_order};
ghost use Rattle.form_normal.specs.Lists.{before_others, dots_product};
ghost use Rattle.form_normal.specs.Product.{are_dots_in_range, are_in_range, coefficient_of, imaginary_count as imaginary_count_of, product, symbols_product};
ghost use Rattle.form_normal.specs.Several.{lists_of, paired, paired_in, put_behind as put_behind_of, unpaired as unpaired_of, with_sum};

use crate::anew::{is_zero_alone, made_anew, sorted};
use crate::merging::{compare_pairs, put_all};
use crate::products::{LARGEST_EXPONENT, ProductError, turned};
use form_base::Cause;
use form_frac::Frac;
use form_term::{DotPower, Monomial, Others, Power, Term};
use std::alloc::{AllocError, Global};
use std::cmp::Ordering;

/// The product of factors with their coefficients, from the left; none where it is 0.
pub fn product_of_all(alloc: Global, factors: &[Monomial]) -> Result<Option<Monomial>, ProductError>
    ensures ok { IfOk result (λ m. product factors.now ≡ Ok m) }
    ensures refused { (cause : Cause) → result ≡ Err (ProductError.Refused cause) → product factors.now ≡ Err cause }
{
    let lists = lists_of_all(alloc, factors)?;
    if is_zero_alone(&lists) {
        return Ok(None);
    }
    let Some(size) = coefficient_of_all(factors) else {
        return Err(ProductError::Refused(Cause::Overflow));
    };
    let count = imaginary_count(factors);
    let coefficient = turned((count / 2) % 2 == 1, size);
    let powers = powers_of_all(alloc, factors)?;
    let others = summed(alloc, count % 2 == 1, lists)?;
    made_anew(alloc, coefficient, powers, others)
}

/// The lists of all factors, each joined as it stands.
fn lists_of_all(alloc: Global, factors: &[Monomial]) -> Result<Others, AllocError>
    ensures { IfOk result (λ o. o ≡ lists_of (map (λ m. m.term) factors.now)) }
{
    let mut lists = Others::none(alloc);
    for factor in factors {
        put_behind(&mut lists, &factor.term)?;
    }
    Ok(lists)
}

/// Puts the lists of a term behind these.
fn put_behind(lists: &mut Others, term: &Term) -> Result<(), AllocError>
    ensures { OnOk result (lists.new ≡ put_behind_of lists.old term.now.others) }
{
    put_all(&mut lists.dots, term.dots())?;
    put_all(&mut lists.components, term.components())?;
    put_all(&mut lists.deltas, term.deltas())?;
    put_all(&mut lists.functions, term.functions())?;
    put_all(&mut lists.word, term.word())
}

/// The product of the coefficients, from the left, where none overflows.
#[tactic(auto, using(crate::proofs::Coefficients::times_none))]
fn coefficient_of_all(factors: &[Monomial]) -> Option<Frac>
    ensures { result ≡ coefficient_of factors.now }
{
    let Some((first, others)) = factors.split_first() else {
        return Some(Frac::one());
    };
    let mut product = first.coefficient;
    let mut rest = others;
    while let Some((factor, others)) = rest.split_first() {
        let Ok(next) = product.mul(factor.coefficient) else {
            return None;
        };
        product = next;
        rest = others;
    }
    Some(product)
}

/// How many factors have `i_`.
fn imaginary_count(factors: &[Monomial]) -> usize
    ensures { result ≡ imaginary_count_of (map (λ m. m.term) factors.now) }
{
    let mut count = 0;
    for factor in factors {
        count += usize::from(factor.term.is_imaginary());
    }
    count
}

/// The powers of symbols in the product, whose exponents are within their limit.
fn powers_of_all(alloc: Global, factors: &[Monomial]) -> Result<Vec<Power>, ProductError>
    ensures ok { IfOk result (λ powers. (powers.items ≡ symbols_product (map (λ m. m.term) factors.now)) × (are_in_range powers.items ≡ true)) }
    ensures lawful { IfOk result (λ powers. AllByRecursion IsTerm (map (λ m. m.term) factors.now)) }
    ensures refused { (cause : Cause) → result ≡ Err (ProductError.Refused cause) →
        (cause ≡ Cause.PowerRange) × (are_in_range (symbols_product (map (λ m. m.term) factors.now)) ≡ false) }
{
    let pairs = paired_of_all(alloc, factors)?;
    let sums = summed_dots(alloc, pairs)?;
    Ok(unpaired(alloc, &sums)?)
}

/// The powers of symbols of all factors, each written as one of the pair of its symbol with itself.
fn paired_of_all(alloc: Global, factors: &[Monomial]) -> Result<Vec<DotPower>, AllocError>
    ensures pairs { IfOk result (λ pairs. pairs.items ≡ paired_in (map (λ m. m.term) factors.now)) }
    ensures lawful { IfOk result (λ pairs. AllByRecursion IsTerm (map (λ m. m.term) factors.now)) }
{
    let mut pairs = Vec::new(alloc);
    for factor in factors {
        put_paired(&mut pairs, factor.term.powers())?;
    }
    Ok(pairs)
}

fn put_paired(pairs: &mut Vec<DotPower>, powers: &[Power]) -> Result<(), AllocError>
    ensures { OnOk result (pairs.new.items ≡ pairs.old.items ++ map paired powers.now) }
{
    for power in powers {
        pairs.push(DotPower {
            left: power.symbol,
            right: power.symbol,
            exponent: power.exponent,
        })?;
    }
    Ok(())
}

/// The powers of symbols that are written as pairs.
fn unpaired(alloc: Global, pairs: &[DotPower]) -> Result<Vec<Power>, AllocError>
    ensures { IfOk result (λ powers. powers.items ≡ map unpaired_of pairs.now) }
{
    let mut powers = Vec::with_capacity(alloc, pairs.len())?;
    for pair in pairs {
        powers.push(Power {
            symbol: pair.left,
            exponent: pair.exponent,
        })?;
    }
    Ok(powers)
}

/// Lists whose dot products are summed, with `i_` or without.
fn summed(alloc: Global, is_imaginary: bool, lists: Others) -> Result<Others, ProductError>
    requires { All (λ d. 0 < nat_abs d.exponent) lists.dots }
    ensures ok { IfOk result (λ o. (o ≡ record lists { is_imaginary = is_imaginary; dots = dots_product lists.dots }) × (are_dots_in_range o.dots ≡ true)) }
    ensures refused { (cause : Cause) → result ≡ Err (ProductError.Refused cause) →
        (cause ≡ Cause.PowerRange) × (are_dots_in_range (dots_product lists.dots) ≡ false) }
{
    let dots = summed_dots(alloc, lists.dots)?;
    Ok(Others {
        is_imaginary,
        dots,
        ..lists
    })
}

/// The product of powers of dot products in any order, whose exponents are within their limit.
fn summed_dots(alloc: Global, dots: Vec<DotPower>) -> Result<Vec<DotPower>, ProductError>
    requires { All (λ d. 0 < nat_abs d.exponent) dots.items }
    ensures ok { IfOk result (λ made. (made.items ≡ dots_product dots.items) × (are_dots_in_range made.items ≡ true)) }
    ensures refused { (cause : Cause) → result ≡ Err (ProductError.Refused cause) →
        (cause ≡ Cause.PowerRange) × (are_dots_in_range (dots_product dots.items) ≡ false) }
{
    let rising = sorted(dots);
    let mut made = Vec::new(alloc);
    let mut rest = rising.as_slice();
    while let Some((first, behind)) = rest.split_first() {
        let (exponent, others) = sum_of_first(first, behind);
        if exponent.unsigned_abs() > u128::from(LARGEST_EXPONENT) {
            return Err(ProductError::Refused(Cause::PowerRange));
        }
        put_sum(&mut made, first, exponent)?;
        rest = others;
    }
    Ok(made)
}

/// The sum of the exponents of the pair that stands first, and the powers of other pairs.
fn sum_of_first<'a>(first: &DotPower, behind: &'a [DotPower]) -> (i128, &'a [DotPower])
    requires rise { RisesBy pair_order (first.now ∷ behind.now) }
    requires there { AllByRecursion (λ d. 0 < nat_abs d.exponent) (first.now ∷ behind.now) }
    ensures sum { dots_product (first.now ∷ behind.now) ≡ before_others (with_sum first.now result.0) (dots_product result.1.now) }
    ensures rise { RisesBy pair_order result.1.now }
    ensures there { AllByRecursion (λ d. 0 < nat_abs d.exponent) result.1.now }
    ensures less { length result.1.now ≤ length behind.now }
{
    let mut sum = i128::from(first.exponent);
    let mut rest = behind;
    while let Some((next, others)) = rest.split_first() {
        if compare_pairs(first, next) != Ordering::Equal {
            return (sum, rest);
        }
        sum += i128::from(next.exponent);
        rest = others;
    }
    (sum, rest)
}

/// Puts a power of this pair last, unless its exponent is 0.
fn put_sum(made: &mut Vec<DotPower>, pair: &DotPower, exponent: i128) -> Result<(), AllocError>
    requires { nat_abs exponent ≤ largest_exponent }
    ensures { OnOk result (made.new.items ≡ made.old.items ++ before_others (with_sum pair.now exponent) []) }
{
    if exponent != 0 {
        made.push(DotPower {
            left: pair.left,
            right: pair.right,
            exponent: exponent as i32,
        })?;
    }
    Ok(())
}
