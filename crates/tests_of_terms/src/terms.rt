//! A power of exponent 0, and how large and deep 1 is.

use form_base::Id;
use form_term::{Monomial, Term};
use std::test::Fail;

/// Whether two terms are equal.
fn are_equal(left: Term, right: Term) -> bool {
    left == right
}

/// The size of a term and its depth.
fn sizes(term: Term) -> (usize, usize) {
    (term.size(), term.depth())
}

#[test]
fn a_power_of_exponent_zero_is_one(rt: HostRuntime) -> Result<(), Fail> {
    let alloc = rt.alloc();
    let unit = Monomial::unit(alloc).clone()?;
    assert!(rt; are_equal(Term::symbol(alloc, Id::new(3), 0)?, unit.term));
    assert_eq!(rt; sizes(Term::one(alloc)), (0, 1));
    Ok(())
}
