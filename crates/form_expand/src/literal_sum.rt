//! Sums of products each of which is one term, read at once.
ghost use Rattle.std.specs.Prelude.{◌≡◌, ◌≤◌, IfOk, IfSome};
ghost use Rattle.form_expand.specs.Kept.{listing};
ghost use Rattle.form_expand.specs.Listing.{followed, limited, single};
ghost use Rattle.form_expand.specs.Reading.{list_of_pieces};
ghost use Rattle.form_expand.specs.Walks.{all_of};

use crate::literal::{DEEPEST, read_literal};
use crate::stored::Standing;
use crate::whole::Whole;
use form_term::Monomial;
use form_tree::{Link, Piece};
use std::alloc::{AllocError, Global};

/// How many pieces a sum may have that is read at once, whatever its products are of.
pub const MOST_PIECES: usize = 64;

/// The terms of the sum of these pieces; none where it doesn't come to its end, or has more than `most` products, or others
/// than of numbers and symbols.
pub fn literal_sum(
    alloc: Global,
    names: &Standing,
    pieces: &[Piece],
    limit: u64,
    most: usize,
) -> Result<Option<Vec<Monomial>>, AllocError>
    ensures { IfOk result (λ found. IfSome found (λ terms. list_of_pieces limit names.now pieces.now ≡ all_of terms.items)) }
{
    let Some(count) = products(pieces, most) else {
        return Ok(None);
    };
    let none = Vec::with_capacity(alloc, count)?;
    literal_terms(alloc, names, none, pieces, limit, DEEPEST)
}

/// The list of the sum of these few pieces, where each of its products is a term that is read at once.
pub fn literal_list(
    alloc: Global,
    names: &Standing,
    pieces: &[Piece],
    limit: u64,
) -> Result<Option<Whole<'static>>, AllocError>
    ensures { IfOk result (λ found. IfSome found (λ whole. list_of_pieces limit names.now pieces.now ≡ listing whole)) }
{
    if limit == 0 {
        return Ok(None);
    }
    if pieces.len() > MOST_PIECES {
        return Ok(None);
    }
    let Some((literal, rest)) = read_literal(alloc, pieces, names, limit, DEEPEST)? else {
        return Ok(None);
    };
    let first = literal.into_term();
    if rest.is_empty() {
        return Ok(Some(Whole::single(first)));
    }
    list_behind(alloc, names, first, rest, limit)
}

/// The list of a term and the sum of these pieces behind it, where each of its products is a term that is read at once.
fn list_behind(
    alloc: Global,
    names: &Standing,
    first: Monomial,
    pieces: &[Piece],
    limit: u64,
) -> Result<Option<Whole<'static>>, AllocError>
    ensures { IfOk result (λ found. IfSome found (λ whole. limited limit (followed (single first) (list_of_pieces limit names.now pieces.now)) ≡ listing whole)) }
{
    let mut terms = Vec::with_capacity(alloc, 2)?;
    terms.push(first)?;
    match literal_terms(alloc, names, terms, pieces, limit, DEEPEST)? {
        Some(all) => Ok(Some(Whole::made(all))),
        None => Ok(None),
    }
}

/// These terms and those of the sum of these pieces behind them, where each of its products is a term that is read at once
/// and it comes to its end.
#[cycle(literal)]
pub fn literal_terms(
    alloc: Global,
    names: &Standing,
    terms: Vec<Monomial>,
    pieces: &[Piece],
    limit: u64,
    deeper: u64,
) -> Result<Option<Vec<Monomial>>, AllocError>
    ensures { IfOk result (λ found. IfSome found (λ made. limited limit (followed (all_of terms.items) (list_of_pieces limit names.now pieces.now)) ≡ all_of made.items)) }
{
    let mut made = terms;
    let mut rest = pieces;
    while !rest.is_empty() {
        let Some((literal, behind)) = read_literal(alloc, rest, names, limit, deeper)? else {
            return Ok(None);
        };
        made.push(literal.into_term())?;
        rest = behind;
    }
    if made.len() as u64 > limit {
        return Ok(None);
    }
    Ok(Some(made))
}

/// How many products the sum of these pieces has; none where there are more than `most`, or a factor is neither a number nor
/// a symbol.
fn products(pieces: &[Piece], most: usize) -> Option<usize>
    ensures { IfSome result (λ count. count ≤ most) }
{
    let mut count = 0;
    for piece in pieces {
        let Some(begun) = begun_by(piece) else {
            return None;
        };
        if begun > most - count {
            return None;
        }
        count += begun;
    }
    Some(count)
}

/// How many products a piece begins; none where it is neither a number nor a symbol.
fn begun_by(piece: &Piece) -> Option<usize> {
    match piece {
        Piece::Number { link, .. } | Piece::Symbol { link, .. } => {
            if *link == Link::Times {
                Some(0)
            } else {
                Some(1)
            }
        }
        _ => None,
    }
}
