//! Reading a product from the pieces of a sum.
ghost use Rattle.std.specs.Prelude.{◌≡◌, ◌≤◌, ◌<◌, ◌+◌, ◌^◌, None, IfOk, length};
ghost use Rattle.form_expand.specs.Bound.{powered, powered_by};
ghost use Rattle.form_expand.specs.Closings.{closing_at, deep_behind, power_at_end};
ghost use Rattle.form_expand.specs.Factors.{factor_lists};
ghost use Rattle.form_expand.specs.Kept.{listing};
ghost use Rattle.form_expand.specs.Listing.{limited};
ghost use Rattle.form_expand.specs.Pieces.{list_of_piece, list_of_vectors, listed_alone};
ghost use Rattle.form_expand.specs.Meanings.{terms_of};
ghost use Rattle.form_expand.specs.Reading.{begins_product, calling, link_of_piece};
ghost use Rattle.form_expand.specs.Readers.{BeginsSum, IsRead, IsReadAt, IsReadFunction, IsReadOn, IsSignedFirst, is_minus_piece, list_of_calling};

use crate::bound::{raised_list, wild_list};
use crate::ended::Ended;
use crate::factors::Factors;
use crate::function::function_list;
use crate::number::{number_list, symbol_list};
use crate::power::{call_power, put_ended, put_power};
use crate::scope::Scope;
use crate::single::{component_list, delta_list, dot_list, imaginary_list};
use crate::stored::Standing;
use crate::whole::{Kept, Whole};
use form_base::{Cause, Id};
use form_tree::{Link, Piece};
use std::alloc::{AllocError, Global};

/// A product of a sum, with its sign.
#[derive(Drop)]
pub struct Summand<'a> {
    pub is_minus: bool,
    pub factors: Factors<'a>,
}

/// Reads the product that these pieces begin with. Answers it, and the pieces behind it.
#[cycle(taking)]
pub fn read_product<'a>(
    alloc: Global,
    scope: Scope<'a>,
    pieces: &'a [Piece],
    deeper: u64,
) -> Result<(Summand<'a>, &'a [Piece]), AllocError>
    ensures read { IfOk result (λ read. IsRead scope.entry.limit scope.entry.names.now pieces.now read.0.is_minus
        (factor_lists scope.entry.limit read.0.factors) read.1.now) }
    ensures shorter { 0 < length pieces.now → IfOk result (λ read. length read.1.now < length pieces.now) }
{
    let mut factors = Factors::none(alloc);
    let Some((first, _more)) = pieces.split_first() else {
        return Ok((
            Summand {
                is_minus: false,
                factors,
            },
            pieces,
        ));
    };
    let is_minus = is_subtracted(first);
    let rest = read_factor(alloc, scope, pieces, &mut factors, deeper)?;
    let rest = read_on(alloc, scope, rest, &mut factors, deeper)?;
    Ok((Summand { is_minus, factors }, rest))
}

/// Whether the product that begins with this piece is subtracted.
pub fn is_subtracted(piece: &Piece) -> bool
    ensures { result ≡ is_minus_piece piece.now }
{
    link_of(piece) == Link::Minus
}

/// Whether a product begins with this piece.
pub fn begins(piece: &Piece) -> bool
    ensures { result ≡ begins_product piece.now }
{
    link_of(piece) != Link::Times
}

/// How what begins with this piece stands to what is before it; what begins nothing goes on.
fn link_of(piece: &Piece) -> Link
    ensures { result ≡ link_of_piece piece.now }
{
    match piece {
        Piece::Number { link, .. }
        | Piece::Symbol { link, .. }
        | Piece::Wild { link, .. }
        | Piece::Raised { link, .. }
        | Piece::Stored { link, .. }
        | Piece::Imaginary { link, .. }
        | Piece::Dot { link, .. }
        | Piece::Component { link, .. }
        | Piece::Delta { link, .. }
        | Piece::Function { link, .. }
        | Piece::Open { link } => *link,
        Piece::EndOfFunction { .. }
        | Piece::EndOfRaisedFunction(_)
        | Piece::Field(_)
        | Piece::Index(_)
        | Piece::Vector(_)
        | Piece::Argument
        | Piece::EndOfArgument
        | Piece::Close { .. }
        | Piece::CloseRaised(_) => Link::Times,
    }
}

/// Reads the further factors of a product, and answers the pieces behind it.
#[cycle(taking)]
fn read_on<'a>(
    alloc: Global,
    scope: Scope<'a>,
    pieces: &'a [Piece],
    factors: &mut Factors<'a>,
    deeper: u64,
) -> Result<&'a [Piece], AllocError>
    ensures read { IfOk result (λ rest. IsReadOn scope.entry.limit scope.entry.names.now pieces.now
        (factor_lists scope.entry.limit factors.old) (factor_lists scope.entry.limit factors.new) rest.now) }
    ensures shorter { IfOk result (λ rest. length rest.now ≤ length pieces.now) }
{
    let mut rest = pieces;
    while let Some((piece, _more)) = rest.split_first() {
        if begins(piece) {
            return Ok(rest);
        }
        rest = read_factor(alloc, scope, rest, factors, deeper)?;
    }
    Ok(rest)
}

/// Reads the factor that these pieces begin with, and answers the pieces behind it. There is none where the first piece ends
/// something that isn't open, begins something that isn't ended, or is an argument.
#[cycle(taking)]
fn read_factor<'a>(
    alloc: Global,
    scope: Scope<'a>,
    pieces: &'a [Piece],
    factors: &mut Factors<'a>,
    deeper: u64,
) -> Result<&'a [Piece], AllocError>
    requires { IsSignedFirst pieces.now (factor_lists scope.limit factors.old) }
    ensures read { IfOk result (λ rest. IsReadAt scope.entry.limit scope.entry.names.now pieces.now
        (factor_lists scope.entry.limit factors.old) (factor_lists scope.entry.limit factors.new) rest.now) }
    ensures shorter { 0 < length pieces.now → IfOk result (λ rest. length rest.now < length pieces.now) }
{
    let Some((piece, more)) = pieces.split_first() else {
        return Ok(pieces);
    };
    match piece {
        Piece::Open { .. } => read_parenthesis(alloc, scope, pieces, factors, deeper),
        Piece::Argument => read_parenthesis(alloc, scope, pieces, factors, deeper),
        Piece::Function {
            function,
            is_commuting,
            ..
        } => read_function(
            alloc,
            scope,
            more,
            scope.names.function(*function),
            *is_commuting,
            factors,
            deeper,
        ),
        _ => {
            let Some((whole, power)) = piece_list(alloc, piece, scope.names)? else {
                return Ok(more);
            };
            put_power(alloc, scope, pieces, whole, power, factors, deeper)?;
            Ok(more)
        }
    }
}

/// Reads the factor in parentheses that these pieces begin with, and answers the pieces behind it.
#[cycle(taking)]
fn read_parenthesis<'a>(
    alloc: Global,
    scope: Scope<'a>,
    pieces: &'a [Piece],
    factors: &mut Factors<'a>,
    deeper: u64,
) -> Result<&'a [Piece], AllocError>
    requires begins { BeginsSum pieces.now }
    requires sign { IsSignedFirst pieces.now (factor_lists scope.limit factors.old) }
    ensures read { IfOk result (λ rest. IsReadAt scope.entry.limit scope.entry.names.now pieces.now
        (factor_lists scope.entry.limit factors.old) (factor_lists scope.entry.limit factors.new) rest.now) }
    ensures shorter { 0 < length pieces.now → IfOk result (λ rest. length rest.now < length pieces.now) }
{
    let (_, behind) = pieces.split_at(1);
    let Some((len, end)) = closing(behind) else {
        return Ok(&[]);
    };
    let (within, ended) = behind.split_at(len);
    let (_, rest) = ended.split_at(1);
    let (own, _) = pieces.split_at(pieces.len() - rest.len());
    put_ended(alloc, scope, own, within, end, factors, deeper)?;
    Ok(rest)
}

/// Reads the function whose arguments these pieces begin with, and answers the pieces behind it.
#[cycle(taking)]
fn read_function<'a>(
    alloc: Global,
    scope: Scope<'a>,
    pieces: &'a [Piece],
    function: Id,
    is_commuting: bool,
    factors: &mut Factors<'a>,
    deeper: u64,
) -> Result<&'a [Piece], AllocError>
    ensures read { IfOk result (λ rest. IsReadFunction function is_commuting scope.entry.limit scope.entry.names.now pieces.now
        (factor_lists scope.entry.limit factors.old) (factor_lists scope.entry.limit factors.new) rest.now) }
    ensures shorter { IfOk result (λ rest. length rest.now ≤ length pieces.now) }
{
    let Some((len, end)) = closing(pieces) else {
        return Ok(&[]);
    };
    let (within, behind) = pieces.split_at(len);
    let (_, rest) = behind.split_at(1);
    let whole = function_power(alloc, scope, within, function, is_commuting, end, deeper)?;
    factors.put_whole(alloc, scope.limit, whole)?;
    Ok(rest)
}

/// The list of a function whose arguments have these pieces, to the power to which it ends.
#[cycle(taking)]
fn function_power<'a>(
    alloc: Global,
    scope: Scope<'a>,
    pieces: &'a [Piece],
    function: Id,
    is_commuting: bool,
    end: Ended,
    deeper: u64,
) -> Result<Whole<'a>, AllocError>
    ensures { IfOk result (λ whole. limited scope.entry.limit (listing whole)
        ≡ powered scope.entry.limit (powered_by scope.entry.names.now end (list_of_calling scope.entry.names.now (calling scope.entry.limit function is_commuting) pieces.now))) }
{
    match end.power(alloc, scope.names)? {
        Some(power) => {
            let list = function_list(alloc, scope, pieces, function, is_commuting, deeper)?;
            call_power(alloc, scope.limit, list, power)
        }
        None => Ok(Whole::refused(Cause::PowerRange)),
    }
}

/// The list of a factor that is one piece, and its power.
pub fn piece_list<'a>(
    alloc: Global,
    piece: &Piece,
    stored: &'a Standing,
) -> Result<Option<(Whole<'a>, u128)>, AllocError>
    ensures { IfOk result (λ found. listed_alone found ≡ list_of_piece stored.now piece.now) }
{
    let found = match piece {
        Piece::Number { value, power, .. } => (number_list(alloc, value.get(), *power), 1),
        Piece::Symbol { symbol, power, .. } => (symbol_list(alloc, *symbol, *power)?, 1),
        Piece::Wild {
            symbol,
            is_over,
            power,
            ..
        } => wild_list(alloc, stored, *symbol, *is_over, *power as i128)?,
        Piece::Raised { base, by, .. } => raised_list(alloc, stored, base, by)?,
        Piece::Stored {
            expression,
            power,
            ..
        } => (stored_list(stored, *expression), *power as u128),
        _ => return vector_list(alloc, piece, stored),
    };
    Ok(Some(found))
}

/// The same of `i_`, and of what is made of vectors and indices; none of any other piece.
fn vector_list<'a>(
    alloc: Global,
    piece: &Piece,
    names: &Standing,
) -> Result<Option<(Whole<'a>, u128)>, AllocError>
    ensures { IfOk result (λ found. listed_alone found ≡ list_of_vectors names.now piece.now) }
{
    let found = match piece {
        Piece::Imaginary { power, .. } => (imaginary_list(alloc)?, *power as u128),
        Piece::Dot {
            left,
            right,
            power,
            ..
        } => {
            let (left, right) = (names.vector(*left), names.vector(*right));
            (dot_list(alloc, left, right, *power)?, 1)
        },
        Piece::Component {
            component,
            power,
            ..
        } => (
            component_list(alloc, names.component(*component))?,
            *power as u128,
        ),
        Piece::Delta {
            first,
            second,
            power,
            ..
        } => {
            let (first, second) = (names.index(*first), names.index(*second));
            (delta_list(alloc, first, second)?, *power as u128)
        },
        _ => return Ok(None),
    };
    Ok(Some(found))
}

/// The terms of an expression.
fn stored_list<'a>(stored: &'a Standing, expression: Id) -> Whole<'a>
    ensures { listing result ≡ record { terms = terms_of stored.now expression; end = None } }
{
    Whole {
        kept: Kept::Stored(stored.terms_of(expression)),
        end: None,
    }
}

/// How many pieces there are before the one that ends what is open before them, and its power.
pub fn closing(pieces: &[Piece]) -> Option<(usize, Ended)>
    ensures { result ≡ closing_at 0 0 pieces.now }
{
    let mut depth = 0;
    for (place, piece) in pieces.iter().enumerate() {
        if let Some(end) = ended_by(depth, piece) {
            return Some((place, end));
        }
        depth = depth_behind(depth, piece);
    }
    None
}

/// The power where this piece ends what is open, within which so many are open.
fn ended_by(depth: usize, piece: &Piece) -> Option<Ended>
    ensures { result ≡ power_at_end depth piece.now }
{
    match piece {
        Piece::Close { power } | Piece::EndOfFunction { power } if depth == 0 => {
            Some(Ended::Power(*power))
        }
        Piece::CloseRaised(by) | Piece::EndOfRaisedFunction(by) if depth == 0 => {
            Some(Ended::Raised(*by))
        }
        Piece::EndOfArgument if depth == 0 => Some(Ended::Power(1)),
        _ => None,
    }
}

/// How many are open behind this piece, where it isn't the end.
fn depth_behind(depth: usize, piece: &Piece) -> usize
    requires { depth + 1 < 2 ^ 64 }
    ensures { result ≡ deep_behind depth piece.now }
{
    match piece {
        Piece::Function { .. } | Piece::Argument | Piece::Open { .. } => depth + 1,
        Piece::EndOfFunction { .. }
        | Piece::EndOfRaisedFunction(_)
        | Piece::EndOfArgument
        | Piece::Close { .. }
        | Piece::CloseRaised(_) => depth.saturating_sub(1),
        _ => depth,
    }
}
