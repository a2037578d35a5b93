//! Sums, products, sums in parentheses and functions, read from the front.
ghost use Rattle.std.specs.Prelude.{◌≡◌, List, IfOk, IfSome};
ghost use Rattle.form_tree.specs.declared.tree.Piece.{Piece as TreePiece};
ghost use Rattle.form_expand.specs.Reading.{list_of_pieces};
ghost use Rattle.form_expand.specs.Singles.{list_of_call};
ghost use Rattle.form_joined.specs.Products.{HasList};
ghost use Rattle.form_sides.specs.Arguments.{AreArgued, ReadsArgument, ReadsExpression, HasPowers, ReadsFunction, argues_no_longer, argues_shorter};
ghost use Rattle.form_sides.specs.Collected.{HasTerms};
ghost use Rattle.form_sides.specs.Parts.{HasPowered, IsSigned, ReadsFactor, ReadsOn, ReadsParenthesis, ReadsPart, is_no_longer, is_shorter};

use crate::pieces::{closing, link_of, piece_list, singles_of};
use crate::products::{add_each, negated, power_within, times_within, together_within};
use form_base::Id;
use form_collect::Terms;
use form_collect::laws::collected_lists;
use form_expand::{Standing, call_list};
use form_gathered::laws::joined_lists;
use form_gathered::{Joined, JoinedTerm};
use form_joined::joined_singles;
use form_joined::laws::joined_products;
use form_term::{Arguments, Call};
use form_tree::{Link, Piece};
use std::alloc::{AllocError, Global};

/// What came of reading a factor or a product.
#[derive(Drop)]
pub enum Read<'a> {
    /// Its list, joined, and the pieces behind it.
    Further(Vec<JoinedTerm>, &'a [Piece]),
    /// It isn't certain that nothing in it is refused, or too few terms meet.
    Unknown,
}

/// What the list of a sum of these pieces collects to.
#[cycle(sides)]
pub fn terms_of(
    alloc: Global,
    pieces: &[Piece],
    limit: u64,
    names: &Standing,
    deeper: u64,
) -> Result<Option<Terms>, AllocError>
    ensures { IfOk result (λ made. IfSome made (HasTerms (list_of_pieces limit names.now pieces.now))) }
{
    joined_lists();
    let Some(list) = sum(alloc, pieces, limit, names, deeper)? else {
        return Ok(None);
    };
    let mut table = Joined::new(alloc);
    if !add_each(&mut table, list)? {
        return Ok(None);
    }
    Ok(Some(table.into_terms()?))
}

/// The list of a sum of these pieces. `deeper` counts down with each parenthesis.
#[cycle(sides)]
pub fn sum(
    alloc: Global,
    pieces: &[Piece],
    limit: u64,
    names: &Standing,
    deeper: u64,
) -> Result<Option<Vec<JoinedTerm>>, AllocError>
    ensures { IfOk result (λ made. IfSome made (λ all. HasList (list_of_pieces limit names.now pieces.now) all.items)) }
{
    let mut made = Vec::new(alloc);
    let mut products: u64 = 0;
    let mut rest = pieces;
    while !rest.is_empty() {
        match product(alloc, rest, limit, names, deeper)? {
            Read::Further(list, behind) => {
                let mut list = list;
                made.append(&mut list)?;
                products = products.saturating_add(1);
                rest = behind;
            }
            Read::Unknown => return Ok(None),
        }
    }
    together_within(alloc, products, made, limit)
}

/// Reads the product that these pieces begin with.
#[cycle(sides)]
fn product<'a>(
    alloc: Global,
    pieces: &'a [Piece],
    limit: u64,
    names: &Standing,
    deeper: u64,
) -> Result<Read<'a>, AllocError>
    ensures read { IfOk result (ReadsPart limit names.now pieces.now) }
    ensures shorter { IfOk result (is_shorter pieces.now) }
{
    let Some((piece, more)) = pieces.split_first() else {
        return Ok(Read::Unknown);
    };
    let Some(link) = link_of(piece) else {
        return Ok(Read::Unknown);
    };
    match factor(alloc, piece, more, limit, names, deeper)? {
        Read::Further(front, rest) => {
            let read = further(alloc, front, rest, limit, names, deeper)?;
            signed(alloc, link, read)
        }
        Read::Unknown => Ok(Read::Unknown),
    }
}

/// Reads the further factors of a product behind a front of it. Behind an empty one the definition makes none of them, and so
/// none is read here.
#[cycle(sides)]
fn further<'a>(
    alloc: Global,
    front: Vec<JoinedTerm>,
    pieces: &'a [Piece],
    limit: u64,
    names: &Standing,
    deeper: u64,
) -> Result<Read<'a>, AllocError>
    ensures read { IfOk result (ReadsOn limit names.now front.items pieces.now) }
    ensures shorter { IfOk result (is_no_longer pieces.now) }
{
    let mut front = front;
    let mut rest = pieces;
    while let Some((piece, more)) = rest.split_first() {
        let Some(link) = link_of(piece) else {
            return Ok(Read::Unknown);
        };
        match link {
            Link::Times => {}
            Link::Plus => return Ok(Read::Further(front, rest)),
            Link::Minus => return Ok(Read::Further(front, rest)),
        }
        if front.is_empty() {
            return Ok(Read::Unknown);
        }
        match factor(alloc, piece, more, limit, names, deeper)? {
            Read::Further(list, behind) => {
                let Some(all) = times_within(alloc, front, &list, limit)? else {
                    return Ok(Read::Unknown);
                };
                front = all;
                rest = behind;
            }
            Read::Unknown => return Ok(Read::Unknown),
        }
    }
    Ok(Read::Further(front, rest))
}

/// Reads the factor that begins with this piece.
#[cycle(sides)]
fn factor<'a>(
    alloc: Global,
    piece: &Piece,
    more: &'a [Piece],
    limit: u64,
    names: &Standing,
    deeper: u64,
) -> Result<Read<'a>, AllocError>
    ensures read { IfOk result (ReadsFactor limit names.now piece.now more.now) }
    ensures shorter { IfOk result (is_no_longer more.now) }
{
    match piece {
        Piece::Open { .. } => parenthesis(alloc, more, limit, names, deeper),
        Piece::Function {
            function,
            is_commuting,
            ..
        } => read_call(
            alloc,
            more,
            limit,
            names,
            deeper,
            names.function(*function),
            *is_commuting,
        ),
        _ => one_piece(alloc, piece, more, limit, names),
    }
}

/// Reads a factor that is one piece.
fn one_piece<'a>(
    alloc: Global,
    piece: &Piece,
    more: &'a [Piece],
    limit: u64,
    names: &Standing,
) -> Result<Read<'a>, AllocError>
    ensures read { IfOk result (ReadsFactor limit names.now piece.now more.now) }
    ensures shorter { IfOk result (is_no_longer more.now) }
{
    match piece_list(alloc, piece, limit, names)? {
        Some(list) => Ok(Read::Further(list, more)),
        None => Ok(Read::Unknown),
    }
}

/// Reads a sum in parentheses behind its first piece.
#[cycle(sides)]
fn parenthesis<'a>(
    alloc: Global,
    pieces: &'a [Piece],
    limit: u64,
    names: &Standing,
    deeper: u64,
) -> Result<Read<'a>, AllocError>
    ensures read { IfOk result (ReadsParenthesis limit names.now pieces.now) }
    ensures shorter { IfOk result (is_no_longer pieces.now) }
{
    let Some(deeper) = deeper.checked_sub(1) else {
        return Ok(Read::Unknown);
    };
    let Some((len, power)) = closing(pieces) else {
        return Ok(Read::Unknown);
    };
    let (inner, behind) = pieces.split_at(len);
    let (_, rest) = behind.split_at(1);
    match sum(alloc, inner, limit, names, deeper)? {
        Some(list) => powered(alloc, list, power, limit, rest),
        None => Ok(Read::Unknown),
    }
}

/// Reads a function behind its first piece.
#[cycle(sides)]
fn read_call<'a>(
    alloc: Global,
    pieces: &'a [Piece],
    limit: u64,
    names: &Standing,
    deeper: u64,
    function: Id,
    is_commuting: bool,
) -> Result<Read<'a>, AllocError>
    ensures read { IfOk result (ReadsFunction limit names.now function is_commuting pieces.now) }
    ensures shorter { IfOk result (is_no_longer pieces.now) }
{
    let Some(deeper) = deeper.checked_sub(1) else {
        return Ok(Read::Unknown);
    };
    let Some((len, power)) = closing(pieces) else {
        return Ok(Read::Unknown);
    };
    let (inner, behind) = pieces.split_at(len);
    let (_, rest) = behind.split_at(1);
    let Some(all) = arguments(alloc, inner, limit, names, deeper)? else {
        return Ok(Read::Unknown);
    };
    called(
        alloc,
        all.into_call(function)?,
        is_commuting,
        power,
        limit,
        rest,
    )
}

/// A function with its arguments to a power, with these pieces behind it.
fn called<'a>(
    alloc: Global,
    call: Call,
    is_commuting: bool,
    power: u32,
    limit: u64,
    rest: &'a [Piece],
) -> Result<Read<'a>, AllocError>
    ensures { IfOk result (HasPowers limit (list_of_call is_commuting call) power rest.now) }
{
    let whole = call_list(alloc, call, is_commuting)?;
    if whole.end.is_some() {
        return Ok(Read::Unknown);
    }
    joined_singles(whole.terms());
    powered(alloc, singles_of(alloc, whole.terms())?, power, limit, rest)
}

/// What came of reading an argument.
#[derive(Drop)]
pub enum Argued<'a> {
    /// The arguments so far, and the pieces behind them.
    Further(Arguments, &'a [Piece]),
    /// It isn't certain that it isn't refused.
    Unknown,
}

/// The arguments of a function that have these pieces; none where it isn't certain that none is refused.
#[cycle(sides)]
fn arguments(
    alloc: Global,
    pieces: &[Piece],
    limit: u64,
    names: &Standing,
    deeper: u64,
) -> Result<Option<Arguments>, AllocError>
    ensures { IfOk result (λ made. IfSome made (AreArgued limit names.now pieces.now)) }
{
    let mut all = Arguments::new(alloc);
    let mut rest = pieces;
    while !rest.is_empty() {
        match argument(alloc, all, rest, limit, names, deeper)? {
            Argued::Further(more, behind) => {
                all = more;
                rest = behind;
            }
            Argued::Unknown => return Ok(None),
        }
    }
    Ok(Some(all))
}

/// Reads the argument that these pieces begin with.
#[cycle(sides)]
fn argument<'a>(
    alloc: Global,
    all: Arguments,
    pieces: &'a [Piece],
    limit: u64,
    names: &Standing,
    deeper: u64,
) -> Result<Argued<'a>, AllocError>
    ensures read { IfOk result (ReadsArgument limit names.now pieces.now all) }
    ensures shorter { IfOk result (argues_shorter pieces.now) }
{
    let Some((piece, more)) = pieces.split_first() else {
        return Ok(Argued::Unknown);
    };
    match piece {
        Piece::Index(index) => Ok(Argued::Further(all.with_index(names.index(*index))?, more)),
        Piece::Vector(vector) => {
            Ok(Argued::Further(all.with_vector(names.vector(*vector))?, more))
        }
        Piece::Argument => expression(alloc, all, more, limit, names, deeper),
        _ => Ok(Argued::Unknown),
    }
}

/// Reads an argument that is an expression, behind the piece that begins it. Its list is collected of joined terms.
#[cycle(sides)]
fn expression<'a>(
    alloc: Global,
    all: Arguments,
    pieces: &'a [Piece],
    limit: u64,
    names: &Standing,
    deeper: u64,
) -> Result<Argued<'a>, AllocError>
    ensures read { IfOk result (ReadsExpression limit names.now pieces.now all) }
    ensures shorter { IfOk result (argues_no_longer pieces.now) }
{
    collected_lists();
    let Some((len, _)) = closing(pieces) else {
        return Ok(Argued::Unknown);
    };
    let (inner, behind) = pieces.split_at(len);
    let (_, rest) = behind.split_at(1);
    let Some(terms) = terms_of(alloc, inner, limit, names, deeper)? else {
        return Ok(Argued::Unknown);
    };
    Ok(Argued::Further(all.with_expression(terms.as_slice())?, rest))
}

/// A list to a power, with these pieces behind it.
fn powered<'a>(
    alloc: Global,
    list: Vec<JoinedTerm>,
    power: u32,
    limit: u64,
    rest: &'a [Piece],
) -> Result<Read<'a>, AllocError>
    ensures { IfOk result (HasPowered limit list.items power rest.now) }
{
    match power_within(alloc, list, power, limit)? {
        Some(all) => Ok(Read::Further(all, rest)),
        None => Ok(Read::Unknown),
    }
}

/// A product behind its sign.
fn signed<'a>(alloc: Global, link: Link, read: Read<'a>) -> Result<Read<'a>, AllocError>
    ensures read { IfOk result (IsSigned link read.entry) }
    ensures shorter { (ps : List TreePiece) → is_no_longer ps read.entry → IfOk result (is_no_longer ps) }
{
    joined_products();
    match read {
        Read::Further(list, rest) => match link {
            Link::Minus => Ok(Read::Further(negated(alloc, list)?, rest)),
            Link::Plus => Ok(Read::Further(list, rest)),
            Link::Times => Ok(Read::Further(list, rest)),
        },
        Read::Unknown => Ok(Read::Unknown),
    }
}
