//! Factors that are one piece, and where a sum in parentheses, a function or an argument ends.
ghost use Rattle.std.specs.Prelude.{◌≡◌, ◌+◌, ◌<◌, ◌^◌, Some, IfOk, IfSome};
ghost use Rattle.form_expand.specs.Closings.{closing_at};
ghost use Rattle.form_expand.specs.Listing.{powers};
ghost use Rattle.form_expand.specs.Meanings.{terms_of};
ghost use Rattle.form_expand.specs.Walks.{all_of};
ghost use Rattle.form_expand.specs.declared.ended.Ended.TheVariants.{Power};
ghost use Rattle.form_joined.specs.Products.{HasList, singles};
ghost use Rattle.form_sides.specs.Pieces.{HasPiece, IsOnePiece, IsLink, IsNested, factor_of};

use crate::products::power_within;
use form_base::Id;
use form_expand::{Standing, whole_list};
use form_gathered::JoinedTerm;
use form_joined::joined_singles;
use form_term::Monomial;
use form_tree::{Link, Piece};
use std::alloc::{AllocError, Global};

/// How what begins with this piece stands to what is before it; none where no factor that is read here does.
pub fn link_of(piece: &Piece) -> Option<Link>
    ensures { IsLink piece.now result }
{
    match piece {
        Piece::Number { link, .. }
        | Piece::Symbol { link, .. }
        | Piece::Stored { link, .. }
        | Piece::Imaginary { link, .. }
        | Piece::Dot { link, .. }
        | Piece::Component { link, .. }
        | Piece::Delta { link, .. }
        | Piece::Function { link, .. }
        | Piece::Open { link } => Some(*link),
        _ => None,
    }
}

/// What a piece does to what is open before it.
#[derive(Clone, Copy)]
pub enum Nested {
    /// It ends it, to this power.
    Ends(u32),
    /// Behind it so many more are open.
    Within(usize),
    /// It isn't read here.
    Other,
}

/// How many pieces there are before the one that ends the sum in parentheses, the function or the argument that is open before
/// them, and its power; none where something stands in it that isn't read here.
pub fn closing(pieces: &[Piece]) -> Option<(usize, u32)>
    ensures { IfSome result (λ found. closing_at 0 0 pieces.now ≡ Some (found.0, Power found.1)) }
{
    let mut depth = 0;
    for (place, piece) in pieces.iter().enumerate() {
        match opened_by(depth, piece) {
            Nested::Ends(power) => return Some((place, power)),
            Nested::Within(more) => depth = more,
            Nested::Other => return None,
        }
    }
    None
}

fn opened_by(depth: usize, piece: &Piece) -> Nested
    requires { depth + 1 < 2 ^ 64 }
    ensures { IsNested depth piece.now result }
{
    match piece {
        Piece::Open { .. } | Piece::Function { .. } | Piece::Argument => Nested::Within(depth + 1),
        Piece::Close { power } | Piece::EndOfFunction { power } => match depth.checked_sub(1) {
            Some(more) => Nested::Within(more),
            None => Nested::Ends(*power),
        },
        Piece::EndOfArgument => match depth.checked_sub(1) {
            Some(more) => Nested::Within(more),
            None => Nested::Ends(1),
        },
        Piece::Number { .. }
        | Piece::Symbol { .. }
        | Piece::Stored { .. }
        | Piece::Imaginary { .. }
        | Piece::Dot { .. }
        | Piece::Component { .. }
        | Piece::Delta { .. }
        | Piece::Index(_)
        | Piece::Vector(_) => Nested::Within(depth),
        _ => Nested::Other,
    }
}

/// The list of a factor that is one piece, joined; none where it isn't certain that it isn't refused.
pub fn piece_list(
    alloc: Global,
    piece: &Piece,
    limit: u64,
    names: &Standing,
) -> Result<Option<Vec<JoinedTerm>>, AllocError>
    ensures { IfOk result (λ made. IfSome made (λ all. HasPiece limit names.now piece.now all.items)) }
{
    match piece {
        Piece::Stored {
            expression,
            power,
            ..
        } => stored_list(alloc, *expression, *power, limit, names),
        _ => factor_list(alloc, piece, limit, names),
    }
}

/// The terms of an expression to a power.
fn stored_list(
    alloc: Global,
    expression: Id,
    power: u32,
    limit: u64,
    names: &Standing,
) -> Result<Option<Vec<JoinedTerm>>, AllocError>
    ensures { IfOk result (λ made. IfSome made (λ all. HasList (powers limit (all_of (terms_of names.now expression)) power) all.items)) }
{
    let terms = names.terms_of(expression);
    joined_singles(terms);
    power_within(alloc, singles_of(alloc, terms)?, power, limit)
}

/// The list of a piece that is one factor: no stored expression, and no wildcard.
fn factor_list(
    alloc: Global,
    piece: &Piece,
    limit: u64,
    names: &Standing,
) -> Result<Option<Vec<JoinedTerm>>, AllocError>
    ensures { IfOk result (λ made. IfSome made (λ all. HasPiece limit names.now piece.now all.items)) }
{
    let Some(added) = added(piece) else {
        return Ok(None);
    };
    let whole = whole_list(alloc, std::slice::from_ref(&added), limit, names)?;
    if whole.end.is_some() {
        return Ok(None);
    }
    joined_singles(whole.terms());
    Ok(Some(singles_of(alloc, whole.terms())?))
}

/// Such a piece as a sum.
fn added(piece: &Piece) -> Option<Piece>
    ensures { IfSome result (IsOnePiece (factor_of piece.now)) }
{
    let link = Link::Plus;
    match *piece {
        Piece::Number { value, power, .. } => Some(Piece::Number { link, value, power }),
        Piece::Symbol { symbol, power, .. } => Some(Piece::Symbol {
            link,
            symbol,
            power,
        }),
        Piece::Imaginary { power, .. } => Some(Piece::Imaginary { link, power }),
        Piece::Dot {
            left,
            right,
            power,
            ..
        } => Some(Piece::Dot {
            link,
            left,
            right,
            power,
        }),
        Piece::Component {
            component,
            power,
            ..
        } => Some(Piece::Component {
            link,
            component,
            power,
        }),
        Piece::Delta {
            first,
            second,
            power,
            ..
        } => Some(Piece::Delta {
            link,
            first,
            second,
            power,
        }),
        _ => None,
    }
}

/// Each of these terms alone.
pub fn singles_of(alloc: Global, terms: &[Monomial]) -> Result<Vec<JoinedTerm>, AllocError>
    ensures { IfOk result (λ all. all.items ≡ singles terms.now) }
{
    let mut all = Vec::with_capacity(alloc, terms.len())?;
    for term in terms {
        all.push(JoinedTerm::single(term.clone()?))?;
    }
    Ok(all)
}
