//! Conditions on x^3, x being the symbol 0.

use form_base::{Comparison, Id};
use form_cond::holds;
use form_frac::Frac;
use form_match::Pattern;
use form_term::Term;
use form_tree::{Alternatives, Counted, Name, PatternPiece, Test, Value, Weighted, Weights};
use sqlite_items::Items;
use std::alloc::{AllocError, Global};
use std::test::Fail;

/// x^2 as a pattern.
fn square(alloc: Global) -> Result<Vec<PatternPiece>, AllocError> {
    let mut pieces = Vec::new(alloc);
    pieces.push(PatternPiece::Symbol(Name::Itself(Id::new(0)), 2))?;
    Ok(pieces)
}

/// One test as a condition.
fn alone(alloc: Global, test: Test) -> Result<Alternatives, AllocError> {
    let mut tests = Items::new(alloc);
    tests.push(test)?;
    let mut condition = Items::new(alloc);
    condition.push(tests)?;
    Ok(condition)
}

/// The one pattern of a condition made ready.
fn ready<'a>(alloc: Global, pieces: &'a [PatternPiece]) -> Result<Vec<Pattern<'a>>, AllocError> {
    let pattern = Pattern::new(alloc, pieces, Vec::new(alloc))?;
    let mut patterns = Vec::new(alloc);
    patterns.push(pattern)?;
    Ok(patterns)
}

/// Whether this holds of x^3 by its patterns.
fn holds_by(
    alloc: Global,
    condition: &[Items<Test>],
    patterns: &[Pattern],
) -> Result<bool, AllocError> {
    let term = Term::symbol(alloc, Id::new(0), 3)?;
    holds(alloc, condition, patterns, Frac::one(), &term)
}

/// Whether this holds of x^3, of which these are the pieces of the one pattern.
fn holds_with(
    alloc: Global,
    condition: &[Items<Test>],
    pieces: &[PatternPiece],
) -> Result<bool, AllocError> {
    let patterns = ready(alloc, pieces)?;
    holds_by(alloc, condition, patterns.as_slice())
}

/// Whether this holds of x^3, x^2 being the one pattern.
fn holds_of_cube(alloc: Global, test: Test) -> Result<bool, AllocError> {
    let condition = alone(alloc, test)?;
    let pieces = square(alloc)?;
    holds_with(alloc, condition.as_slice(), pieces.as_slice())
}

/// `count(x,1)`
fn count(alloc: Global) -> Result<Value, AllocError> {
    let mut weights = Vec::new(alloc);
    weights.push(Weighted {
        counted: Counted::Symbol(Id::new(0)),
        weight: 1,
    })?;
    Ok(Value::Count(Weights::from_vec(weights).ok_or(AllocError)?))
}

#[test]
fn a_cube_counts_more_than_two(rt: HostRuntime) -> Result<(), Fail> {
    let alloc = rt.alloc();
    let two = Value::Number(Frac::whole(2));
    let test = Test::Compared(count(alloc)?, Comparison::Greater, two);
    assert!(rt; holds_of_cube(alloc, test)?);
    Ok(())
}

#[test]
fn a_square_matches_a_cube(rt: HostRuntime) -> Result<(), Fail> {
    let alloc = rt.alloc();
    let test = Test::Nonzero(Value::Match(0));
    assert!(rt; holds_of_cube(alloc, test)?);
    Ok(())
}
