//! Weights of fractions, also at the edges of the range, against values worked out by hand.

use form_frac::{Frac, Weight};
use std::test::Fail;

const M: i128 = i128::MAX;

/// That of n over d, and that of 0 where there is no such fraction.
fn weight(n: i128, d: i128) -> Weight {
    Weight::of(Frac::make(n, d).unwrap_or(Frac::zero()))
}

/// Whether two weights join to this one.
fn join_to(left: Weight, right: Weight, both: Weight) -> bool {
    left.join(right) == Some(both) && right.join(left) == Some(both)
}

/// Whether two weights don't join.
fn are_past_range(left: Weight, right: Weight) -> bool {
    left.join(right) == None && right.join(left) == None
}

#[test]
fn sizes_are_added_over_the_least_common_multiple(rt: HostRuntime) -> Result<(), Fail> {
    assert!(rt; weight(-3, 2) == weight(3, 2));
    assert!(rt; join_to(weight(2, 1), weight(3, 1), weight(5, 1)));
    assert!(rt; join_to(weight(1, 2), weight(1, 3), weight(5, 6)));
    assert!(rt; join_to(weight(1, 4), weight(1, 6), weight(5, 12)));
    assert!(rt; join_to(weight(-1, 1), weight(1, 1), weight(2, 1)));
    assert!(rt; weight(1, 2).join(weight(-1, 2)) != Some(weight(1, 1)));
    Ok(())
}

#[test]
fn what_is_past_the_range_does_not_join(rt: HostRuntime) -> Result<(), Fail> {
    assert!(rt; join_to(weight(M - 1, 1), weight(1, 1), weight(M, 1)));
    assert!(rt; are_past_range(weight(M, 1), weight(1, 1)));
    assert!(rt; are_past_range(weight(M, 1), weight(1, 2)));
    assert!(rt; are_past_range(weight(1, M), weight(1, 2)));
    assert!(rt; are_past_range(weight(M - 1, 2), weight(3, 2)));
    Ok(())
}

#[test]
fn products_multiply_both_parts(rt: HostRuntime) -> Result<(), Fail> {
    assert!(rt; weight(-2, 3).times(weight(5, 7)) == Some(weight(10, 21)));
    assert!(rt; weight(M, 1).times(weight(1, 1)) == Some(weight(M, 1)));
    assert!(rt; weight(1, M).times(weight(1, 1)) == Some(weight(1, M)));
    assert!(rt; weight(M, 1).times(weight(2, 1)) == None);
    assert!(rt; weight(1, M).times(weight(1, 2)) == None);
    Ok(())
}
