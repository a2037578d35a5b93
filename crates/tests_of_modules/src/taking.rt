//! What a pattern finds in one term, and what is taken out of it.

use form_base::Id;
use form_bindings::{Bindings, Wildcard};
use form_expand::{Expansion, Standing, expand_tree};
use form_match::{first_match, first_of};
use form_rewrite::{Taken, take_out};
use form_term::{Monomial, Term};
use form_tree::{Link, Name, Natural, PatternPiece, Piece, Sets, Sort};
use std::alloc::{AllocError, Global};
use std::test::Fail;

/// The only term, none where there is another number of them.
fn only_of(alloc: Global, list: &mut Expansion) -> Option<Monomial> {
    let Ok(Some(first)) = list.next(alloc) else {
        return None;
    };
    let Ok(None) = list.next(alloc) else {
        return None;
    };
    Some(first)
}

/// `f(number)` in a right side.
fn push_of_number(pieces: &mut Vec<Piece>, link: Link, number: u128) -> Result<(), AllocError> {
    pieces.extend_from_slice(&[
        Piece::Function {
            link,
            function: Id::new(2),
            is_commuting: true,
        },
        Piece::Argument,
        Piece::Number {
            link: Link::Plus,
            value: Natural::new(number),
            power: 1,
        },
        Piece::EndOfArgument,
        Piece::EndOfFunction { power: 1 },
    ])
}

/// f(1)*f(2)*f(3).
fn three_functions(alloc: Global) -> Result<Option<Monomial>, AllocError> {
    let mut pieces = Vec::new(alloc);
    push_of_number(&mut pieces, Link::Plus, 1)?;
    push_of_number(&mut pieces, Link::Times, 2)?;
    push_of_number(&mut pieces, Link::Times, 3)?;
    let none = Standing::from_vec(Vec::new(alloc));
    Ok(only_of(alloc, &mut expand_tree(alloc, &pieces, 100, &none)))
}

/// A function whose argument is a wildcard.
fn push_of_wildcard(
    pieces: &mut Vec<PatternPiece>,
    alloc: Global,
    wildcard: u32,
) -> Result<(), AllocError> {
    let any = Name::Wild(Id::new(wildcard), Sets::from_vec(Vec::new(alloc)));
    pieces.push(PatternPiece::Function(Name::Itself(Id::new(2))))?;
    pieces.push(PatternPiece::Any(Sort::Expression, any))?;
    pieces.push(PatternPiece::EndOfArguments)?;
    Ok(())
}

/// `f(x?)*f(y?)`.
fn two_functions(alloc: Global) -> Result<Vec<PatternPiece>, AllocError> {
    let mut pieces = Vec::new(alloc);
    push_of_wildcard(&mut pieces, alloc, 0)?;
    push_of_wildcard(&mut pieces, alloc, 1)?;
    Ok(pieces)
}

/// The numbers that the two wildcards stand for.
fn bound(bindings: &Bindings) -> Option<(i128, i128)> {
    Some((bound_to(bindings, 0)?, bound_to(bindings, 1)?))
}

fn bound_to(bindings: &Bindings, wildcard: u32) -> Option<i128> {
    number_in(bindings.value_of(Wildcard::Name(Id::new(wildcard)))?)
}

/// The number that an argument is.
fn number_in(pieces: &[form_term::Piece]) -> Option<i128> {
    match pieces {
        [_, form_term::Piece::EndOfTerm(number), _] => Some(number.numerator()),
        _ => None,
    }
}

/// What `first_match`, `first_of` and `take_out` find of `f(x?)*f(y?)` in a term.
fn found_in(alloc: Global, term: &Term) -> Result<Option<Findings>, AllocError> {
    let pieces = two_functions(alloc)?;
    let pattern = form_match::Pattern::new(alloc, &pieces, Vec::new(alloc))?;
    let by_match = first_match(alloc, &pattern, term)?;
    let by_place = first_of(alloc, &pattern, term, &[], false)?;
    let take = take_out(alloc, term.clone()?, &[], &pattern, None)?;
    let taken = take.into_taken(alloc)?;
    match (by_match, by_place, taken) {
        (Some(by_match), Some(by_place), Some(taken)) => Ok(Some((
            bound(&by_match.bindings),
            bound(&by_place.bindings),
            left_in(&taken),
        ))),
        _ => Ok(None),
    }
}

/// The numbers that two wildcards stand for, twice, and how much was taken and left.
type Findings = (
    Option<(i128, i128)>,
    Option<(i128, i128)>,
    Option<(usize, i128)>,
);

/// How many matches were taken, and the number that is the argument of the only function left.
fn left_in(taken: &Taken) -> Option<(usize, i128)> {
    match taken.left.functions() {
        [only] => Some((taken.matches.len(), number_in(only.pieces())?)),
        _ => None,
    }
}

fn found_in_three(alloc: Global) -> Result<Option<Findings>, AllocError> {
    match three_functions(alloc)? {
        Some(item) => found_in(alloc, &item.term),
        None => Ok(None),
    }
}

#[test]
fn each_function_is_taken_once(rt: HostRuntime) -> Result<(), Fail> {
    assert_eq!(rt;
        found_in_three(rt.alloc())?,
        Some((Some((1, 2)), Some((1, 2)), Some((1, 3))))
    );
    Ok(())
}
