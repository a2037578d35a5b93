//! Sums, products and quotients at the edges of the range, against values worked out by hand.

use form_frac::{Frac, FracError, gcd};
use std::cmp::Ordering;
use std::test::Fail;

const M: i128 = i128::MAX;

/// A fraction that can be made.
fn fraction(n: i128, d: i128) -> Frac {
    Frac::make(n, d).unwrap_or(Frac::zero())
}

/// Whether these are the parts of what came out.
fn is(answer: Result<Frac, FracError>, numerator: i128, denominator: u128) -> bool {
    match answer {
        Ok(f) => f.numerator() == numerator && f.denominator() == denominator,
        Err(_) => false,
    }
}

#[test]
fn results_are_in_lowest_terms(rt: HostRuntime) -> Result<(), Fail> {
    assert!(rt; is(Frac::make(6, -4), -3, 2));
    assert!(rt; is(fraction(1, 2).add(fraction(1, 3)), 5, 6));
    assert!(rt; is(fraction(5, 6).add(fraction(-1, 3)), 1, 2));
    assert!(rt; is(Frac::whole(M).mul(fraction(1, M)), 1, 1));
    assert!(rt; is(fraction(-2, 3).mul(fraction(9, 4)), -3, 2));
    assert!(rt; is(fraction(-2, 3).recip(), -3, 2));
    assert!(rt; fraction(-2, 3).neg() == fraction(4, 6));
    assert!(rt; fraction(M, 2).cmp(fraction(M - 1, 2)) == Ordering::Greater);
    assert!(rt; fraction(-1, 2).cmp(fraction(-1, 3)) == Ordering::Less);
    assert_eq!(rt; gcd(1 << 100, 6 << 90), 1 << 91);
    Ok(())
}

#[test]
fn results_out_of_range_are_refused(rt: HostRuntime) -> Result<(), Fail> {
    assert!(rt; fraction(1, M).add(fraction(1, 2)) == Err(FracError::Overflow));
    assert!(rt; fraction(M, 2).add(fraction(M, 2)) == Err(FracError::Overflow));
    assert!(rt; Frac::whole(M).add(Frac::one()) == Err(FracError::Overflow));
    assert!(rt; Frac::whole(M).mul(Frac::whole(2)) == Err(FracError::Overflow));
    assert!(rt; Frac::zero().recip() == Err(FracError::DivideByZero));
    assert!(rt; Frac::make(1, 0) == Err(FracError::DivideByZero));
    assert!(rt; Frac::make(i128::MIN, 1) == Err(FracError::Overflow));
    Ok(())
}
