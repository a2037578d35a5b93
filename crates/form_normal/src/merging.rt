ghost use Rattle.std.specs.Prelude.{◌≡◌, ◌≤◌, ◌+ℤ◌, nat_abs, [], ◌∷◌, ◌++◌, All, IfOk, OnOk};
ghost use Rattle.std.specs.List.Sorted.{IsStrictlySortedBy};
ghost use Rattle.std.specs.Mem.{FitsInMemory};
ghost use Rattle.form_term.specs.Term.{RisesBy, of_symbols, pair_order, largest_exponent};
ghost use Rattle.form_normal.specs.Product.{symbols_product};
ghost use Rattle.form_normal.specs.Factors.{IsProductive};
ghost use Rattle.form_normal.specs.Lists.{in_order as in_order_of, joined_dots as joined_dots_of, dots_product};

use form_term::{DotPower, Power};
use std::alloc::{AllocError, Global};
use std::cmp::Ordering;

/// Two lists in order, joined in order.
pub fn in_order<T: Ord + Clone + Drop>(
    alloc: Global,
    left: &[T],
    right: &[T],
) -> Result<Vec<T>, AllocError>
    requires exact { (x y : T) → T.is_clone x y → y ≡ x }
    requires left { RisesBy T.cmp left.now }
    requires right { RisesBy T.cmp right.now }
    requires memory { FitsInMemory T.row }
    ensures { IfOk result (λ list. list.items ≡ in_order_of T.cmp (left.now ++ right.now)) }
{
    let mut list = Vec::with_capacity(alloc, left.len().saturating_add(right.len()))?;
    let mut i = 0;
    let mut j = 0;
    while i < left.len() && j < right.len() {
        if left[i].cmp(&right[j]) == Ordering::Greater {
            list.push(right[j].clone()?)?;
            j += 1;
        } else {
            list.push(left[i].clone()?)?;
            i += 1;
        }
    }
    put_all(&mut list, &left[i..])?;
    put_all(&mut list, &right[j..])?;
    Ok(list)
}

/// Two lists, one after the other.
pub fn both<T: Clone + Drop>(alloc: Global, left: &[T], right: &[T]) -> Result<Vec<T>, AllocError>
    requires exact { (x y : T) → T.is_clone x y → y ≡ x }
    requires memory { FitsInMemory T.row }
    ensures { IfOk result (λ list. list.items ≡ left.now ++ right.now) }
{
    let mut list = Vec::with_capacity(alloc, left.len().saturating_add(right.len()))?;
    put_all(&mut list, left)?;
    put_all(&mut list, right)?;
    Ok(list)
}

/// Puts copies of these last.
pub(crate) fn put_all<T: Clone + Drop>(list: &mut Vec<T>, rest: &[T]) -> Result<(), AllocError>
    requires { (x y : T) → T.is_clone x y → y ≡ x }
    ensures { OnOk result (list.new.items ≡ list.old.items ++ rest.now) }
{
    for item in rest {
        list.push(item.clone()?)?;
    }
    Ok(())
}

/// The powers of a product, from those of its factors in order of declaration.
pub fn merged(alloc: Global, left: &[Power], right: &[Power]) -> Result<Vec<Power>, AllocError>
    requires left { IsProductive left.now }
    requires right { IsProductive right.now }
    ensures { IfOk result (λ powers. powers.items
        ≡ symbols_product (of_symbols left.now ∷ of_symbols right.now ∷ [])) }
{
    let mut powers = Vec::with_capacity(alloc, left.len() + right.len())?;
    let mut i = 0;
    let mut j = 0;
    while i < left.len() && j < right.len() {
        let l = left[i];
        let r = right[j];
        match l.symbol.cmp(&r.symbol) {
            Ordering::Less => {
                powers.push(l)?;
                i += 1;
            }
            Ordering::Greater => {
                powers.push(r)?;
                j += 1;
            }
            Ordering::Equal => {
                let power = joined(l, r);
                if power.exponent != 0 {
                    powers.push(power)?;
                }
                i += 1;
                j += 1;
            }
        }
    }
    powers.extend_from_slice(&left[i..])?;
    powers.extend_from_slice(&right[j..])?;
    Ok(powers)
}

/// The same where the first are the caller's own, which stay where they are if there are no others.
pub fn merged_onto(
    alloc: Global,
    powers: Vec<Power>,
    more: &[Power],
) -> Result<Vec<Power>, AllocError>
    requires left { IsProductive powers.items }
    requires right { IsProductive more.now }
    ensures { IfOk result (λ made. made.items
        ≡ symbols_product (of_symbols powers.items ∷ of_symbols more.now ∷ [])) }
{
    if more.is_empty() {
        return Ok(powers);
    }
    merged(alloc, &powers, more)
}

/// The product of two powers of one symbol.
fn joined(left: Power, right: Power) -> Power
    requires left { nat_abs left.exponent ≤ largest_exponent }
    requires right { nat_abs right.exponent ≤ largest_exponent }
    ensures symbol { result.symbol ≡ left.symbol }
    ensures exponent { result.exponent ≡ left.exponent +ℤ right.exponent }
{
    Power {
        symbol: left.symbol,
        exponent: left.exponent + right.exponent,
    }
}

/// The product of powers of dot products, from those of two factors, each by their pairs.
pub fn merged_dots(
    alloc: Global,
    left: &[DotPower],
    right: &[DotPower],
) -> Result<Vec<DotPower>, AllocError>
    requires left { IsStrictlySortedBy pair_order left.now }
    requires right { IsStrictlySortedBy pair_order right.now }
    requires left_range { All (λ d. nat_abs d.exponent ≤ largest_exponent) left.now }
    requires right_range { All (λ d. nat_abs d.exponent ≤ largest_exponent) right.now }
    ensures { IfOk result (λ dots. dots.items ≡ dots_product (left.now ++ right.now)) }
{
    let mut dots = Vec::with_capacity(alloc, left.len() + right.len())?;
    let mut i = 0;
    let mut j = 0;
    while i < left.len() && j < right.len() {
        let l = left[i];
        let r = right[j];
        match compare_pairs(&left[i], &right[j]) {
            Ordering::Less => {
                dots.push(l)?;
                i += 1;
            }
            Ordering::Greater => {
                dots.push(r)?;
                j += 1;
            }
            Ordering::Equal => {
                let dot = joined_dots(l, r);
                if dot.exponent != 0 {
                    dots.push(dot)?;
                }
                i += 1;
                j += 1;
            }
        }
    }
    dots.extend_from_slice(&left[i..])?;
    dots.extend_from_slice(&right[j..])?;
    Ok(dots)
}

/// The order of the pairs of two dot products.
pub(crate) fn compare_pairs(left: &DotPower, right: &DotPower) -> Ordering
    ensures { result ≡ pair_order left.now right.now }
{
    let lefts = left.left.cmp(&right.left);
    lefts.then(left.right.cmp(&right.right))
}

/// The product of two powers of one dot product.
fn joined_dots(left: DotPower, right: DotPower) -> DotPower
    requires left { nat_abs left.exponent ≤ largest_exponent }
    requires right { nat_abs right.exponent ≤ largest_exponent }
    ensures { result ≡ joined_dots_of left right }
{
    DotPower {
        left: left.left,
        right: left.right,
        exponent: left.exponent + right.exponent,
    }
}
