//! Sums and products that stay in range.
ghost use Rattle.std.specs.Prelude.{◌≡◌, ◌≤◌, ◌+◌, ◌*◌, pos, neg_ℤ, ◌+ℤ◌, ◌*ℤ◌, nat_le, if◌then◌else◌};
ghost use Rattle.form_frac.specs.Fraction.{largest, is_in_range, signed as signed_of};

/// The size that no part of a fraction may pass.
pub const LARGEST: u128 = i128::MAX as u128;

/// A number by its sign and its size.
pub fn signed(is_negative: bool, size: u128) -> i128
    requires { size ≤ largest }
    ensures { result ≡ signed_of is_negative size }
{
    let number = size as i128;
    if is_negative { -number } else { number }
}

pub fn sum(a: i128, b: i128) -> Option<i128>
    ensures { result ≡ (if is_in_range (a +ℤ b) then Some (a +ℤ b) else None) }
{
    let sum = a.checked_add(b)?;
    if sum == i128::MIN { None } else { Some(sum) }
}

pub fn product(a: i128, b: i128) -> Option<i128>
    ensures { result ≡ (if is_in_range (a *ℤ b) then Some (a *ℤ b) else None) }
{
    let product = a.checked_mul(b)?;
    if product == i128::MIN {
        None
    } else {
        Some(product)
    }
}

/// The same, where the second has no sign.
pub fn scaled(number: i128, factor: u128) -> Option<i128>
    requires { factor ≤ largest }
    ensures { result ≡ (if is_in_range (number *ℤ pos factor) then Some (number *ℤ pos factor) else None) }
{
    product(number, factor as i128)
}

/// The same of numbers without a sign.
pub fn product_size(a: u128, b: u128) -> Option<u128>
    ensures { result ≡ (if nat_le (a * b) largest then Some (a * b) else None) }
{
    let product = a.checked_mul(b)?;
    if product > LARGEST {
        None
    } else {
        Some(product)
    }
}

pub fn sum_size(a: u128, b: u128) -> Option<u128>
    ensures { result ≡ (if nat_le (a + b) largest then Some (a + b) else None) }
{
    let sum = a.checked_add(b)?;
    if sum > LARGEST { None } else { Some(sum) }
}
