//! Calculations and conditions of the preprocessor.

use form_calc::{CalcError, calculate, holds};
use std::test::Fail;

#[test]
fn a_product_binds_closer_than_a_sum(rt: HostRuntime) -> Result<(), Fail> {
    assert!(rt; matches!(calculate(b"1 + 2*(3 - -4)"), Ok(15)));
    assert!(rt; matches!(calculate(b"7%4/0"), Err(CalcError::OutOfRange)));
    assert!(rt; matches!(calculate(b"1 2"), Err(CalcError::IllFormed)));
    Ok(())
}

#[test]
fn numbers_are_compared_by_their_values(rt: HostRuntime) -> Result<(), Fail> {
    assert!(rt; matches!(holds(b"07 == 7 && (a != b || 1 > 2)"), Ok(true)));
    assert!(rt; matches!(holds(b"a < b"), Err(CalcError::IllFormed)));
    Ok(())
}
