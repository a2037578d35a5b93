ghost use Rattle.std.specs.Prelude.{◌≡◌, ◌≤◌, ◌/◌, ◌%◌, ℕ};
ghost use Rattle.std.specs.Int.{◌∣◌, IsGcd};
ghost use Rattle.form_frac.specs.Fraction.{gcd as gcd_of};

/// The greatest common divisor; 0 for 0 and 0.
pub fn gcd(a: u128, b: u128) -> u128
    ensures value { result ≡ gcd_of a b }
    ensures divides_left { result ∣ a }
    ensures divides_right { result ∣ b }
    ensures greatest { (d : ℕ) → d ∣ a → d ∣ b → d ∣ result }
{
    let mut greater = a;
    let mut lesser = b;
    while lesser > u64::MAX as u128 {
        let rest = greater % lesser;
        greater = lesser;
        lesser = rest;
    }
    if lesser == 0 {
        greater
    } else {
        gcd_of_small(lesser as u64, rest(greater, lesser) as u64) as u128
    }
}

/// The same by 64-bit division, which takes a fraction of the time.
fn gcd_of_small(a: u64, b: u64) -> u64
    ensures { IsGcd a b result }
{
    let mut greater = a;
    let mut lesser = b;
    while lesser != 0 {
        let rest = greater % lesser;
        greater = lesser;
        lesser = rest;
    }
    greater
}

/// The quotient without a rest, by 64-bit division where both are small; one by 1, which is most often asked for, takes
/// none.
pub fn quotient(a: u128, b: u128) -> u128
    requires { 1 ≤ b }
    ensures { result ≡ a / b }
{
    if b == 1 {
        a
    } else if a <= u64::MAX as u128 && b <= u64::MAX as u128 {
        (a as u64 / b as u64) as u128
    } else {
        a / b
    }
}

/// The rest, in the same way.
fn rest(a: u128, b: u128) -> u128
    requires { 1 ≤ b }
    ensures { result ≡ a % b }
{
    if a <= u64::MAX as u128 && b <= u64::MAX as u128 {
        (a as u64 % b as u64) as u128
    } else {
        a % b
    }
}
