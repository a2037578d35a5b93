//! Arguments of functions that are sums of few products, each of which is one term.
ghost use Rattle.std.specs.Prelude.{◌≡◌, ◌≤◌, ◌*◌, ◌++◌, IfOk, IfSome, length};
ghost use Rattle.form_term.specs.Term.{pieces_of_argument};
ghost use Rattle.form_normal.specs.Product.{number_alone as number_alone_of};
ghost use Rattle.form_expand.specs.Bound.{wild_list};
ghost use Rattle.form_expand.specs.Calls.{AreCollected};
ghost use Rattle.form_expand.specs.Listing.{single};
ghost use Rattle.form_expand.specs.Literals.{AreArgued, IsArgued, IsArguedWithin};
ghost use Rattle.form_expand.specs.Lones.{term_of, argument_of, IsPresent, IsLone, IsLoneArgument};
ghost use Rattle.form_expand.specs.Numbers.{number_list, symbol_list};
ghost use Rattle.form_expand.specs.Reading.{list_of_pieces};
ghost use Rattle.form_expand.specs.Walks.{all_of};

use crate::bound::bound_number;
use crate::literal_sum::{MOST_PIECES, literal_terms};
use crate::number::{LARGEST_EXPONENT, number_alone};
use crate::number_sum::number_sum;
use crate::reader::{closing, is_subtracted};
use crate::stored::Standing;
use form_base::Id;
use form_collect::{collect_short, laws};
use form_frac::Frac;
use form_term::{Arguments, Monomial, Power};
use form_tree::Piece;
use std::alloc::{AllocError, Global};

/// The arguments of a function that have these pieces, where each is a name, one piece or a sum of few products.
#[cycle(literal)]
pub fn literal_arguments(
    alloc: Global,
    names: &Standing,
    pieces: &[Piece],
    limit: u64,
    deeper: u64,
) -> Result<Option<Arguments>, AllocError>
    ensures { IfOk result (λ found. IfSome found (λ arguments. AreArgued limit names.now pieces.now arguments)) }
{
    let mut arguments = Arguments::with_capacity(alloc, room_for(pieces))?;
    let mut rest = pieces;
    while !rest.is_empty() {
        let Some((read, behind)) = read_one(alloc, names, arguments, rest, limit, deeper)? else {
            return Ok(None);
        };
        arguments = read;
        rest = behind;
    }
    Ok(Some(arguments))
}

/// Room for arguments that have these pieces, where they are few: a symbol takes one piece more than here.
fn room_for(pieces: &[Piece]) -> usize
    ensures few { result ≤ 2 * length pieces.now }
    ensures most { result ≤ 2 * 64 }
{
    if pieces.len() > MOST_PIECES {
        return MOST_PIECES;
    }
    let mut room = pieces.len();
    for piece in pieces {
        if let Piece::Symbol { .. } = piece {
            room += 1;
        }
    }
    room
}

/// Reads the argument that these pieces begin with. Answers the arguments with it, and the pieces behind it.
#[cycle(literal)]
fn read_one<'a>(
    alloc: Global,
    names: &Standing,
    arguments: Arguments,
    pieces: &'a [Piece],
    limit: u64,
    deeper: u64,
) -> Result<Option<(Arguments, &'a [Piece])>, AllocError>
    ensures { IfOk result (λ found. IfSome found (λ read. IsArgued limit names.now pieces.now arguments read.0 read.1.now)) }
{
    let Some((piece, more)) = pieces.split_first() else {
        return Ok(None);
    };
    match piece {
        Piece::Index(index) => Ok(Some((arguments.with_index(names.index(*index))?, more))),
        Piece::Vector(vector) => Ok(Some((arguments.with_vector(names.vector(*vector))?, more))),
        Piece::Field(field) => Ok(Some((arguments.with_pieces(names.field(*field))?, more))),
        Piece::Argument => match lone_argument(names, more, limit) {
            Some((lone, rest)) => Ok(Some((with_lone(arguments, lone)?, rest))),
            None => read_sum(alloc, names, arguments, more, limit, deeper),
        },
        _ => Ok(None),
    }
}

/// An argument that is one term: a number, or a power of a symbol.
enum Lone {
    Number(Frac),
    Power(Power),
}

fn with_lone(arguments: Arguments, lone: Lone) -> Result<Arguments, AllocError>
    requires { IsPresent lone }
    ensures { IfOk result (λ all. all ≡ arguments ++ pieces_of_argument (argument_of lone)) }
{
    match lone {
        Lone::Number(number) => arguments.with_number(number),
        Lone::Power(power) => arguments.with_power(power),
    }
}

/// The argument that these pieces begin with, where it is a number or of one piece, and the pieces behind it.
fn lone_argument<'a>(
    names: &Standing,
    pieces: &'a [Piece],
    limit: u64,
) -> Option<(Lone, &'a [Piece])>
    ensures { IfSome result (λ found. IsLoneArgument limit names.now pieces.now found.0 found.1.now) }
{
    if let Some(found) = one_piece(names, pieces, limit) {
        return Some(found);
    }
    match number_sum(names, pieces, limit) {
        Some(found) => Some((Lone::Number(found.0), found.1)),
        None => None,
    }
}

/// The argument that these pieces begin with, where it is of one piece that isn't subtracted, and the pieces behind it.
fn one_piece<'a>(names: &Standing, pieces: &'a [Piece], limit: u64) -> Option<(Lone, &'a [Piece])>
    ensures { IfSome result (λ found. IsLoneArgument limit names.now pieces.now found.0 found.1.now) }
{
    if limit == 0 {
        return None;
    }
    let Some((piece, more)) = pieces.split_first() else {
        return None;
    };
    let Some((end, rest)) = more.split_first() else {
        return None;
    };
    let Piece::EndOfArgument = end else {
        return None;
    };
    if is_subtracted(piece) {
        return None;
    }
    let Some(lone) = of_piece(names, piece) else {
        return None;
    };
    Some((lone, rest))
}

/// The term that a piece is alone.
fn of_piece(names: &Standing, piece: &Piece) -> Option<Lone>
    ensures { IfSome result (λ lone. IsLone names.now piece.now lone) }
{
    match piece {
        Piece::Number { value, power, .. } => of_value(value.get(), *power),
        Piece::Symbol { symbol, power, .. } => of_symbol(*symbol, *power),
        Piece::Wild {
            symbol,
            is_over,
            power,
            ..
        } => of_wild(names, *symbol, *is_over, *power),
        _ => None,
    }
}

/// A whole number to a power.
fn of_value(value: u128, power: i32) -> Option<Lone>
    ensures { IfSome result (λ lone. (number_list value power ≡ single (term_of lone)) × IsPresent lone) }
{
    let Some(number) = number_alone(value, power) else {
        return None;
    };
    of_number(number)
}

/// A symbol to a power.
fn of_symbol(symbol: Id, power: i32) -> Option<Lone>
    ensures { IfSome result (λ lone. (symbol_list symbol power ≡ single (term_of lone)) × IsPresent lone) }
{
    let size = power.unsigned_abs();
    if size == 0 {
        return None;
    }
    if size > LARGEST_EXPONENT {
        return None;
    }
    let power = Power {
        symbol,
        exponent: power,
    };
    Some(Lone::Power(power))
}

/// A wildcard that stands for a number.
fn of_wild(names: &Standing, symbol: Id, is_over: bool, power: i32) -> Option<Lone>
    ensures { IfSome result (λ lone. (wild_list names.now symbol is_over power ≡ (single (term_of lone), 1)) × IsPresent lone) }
{
    let Some(number) = bound_number(names, symbol, is_over, power) else {
        return None;
    };
    of_number(number)
}

/// A number that isn't 0.
fn of_number(number: Frac) -> Option<Lone>
    ensures { IfSome result (λ lone. (number_alone_of number ≡ term_of lone) × IsPresent lone) }
{
    if number.is_zero() {
        return None;
    }
    Some(Lone::Number(number))
}

/// Reads the expression that these pieces begin with, behind the one that begins it. Answers the arguments with it, and the
/// pieces behind it.
#[cycle(literal)]
fn read_sum<'a>(
    alloc: Global,
    names: &Standing,
    arguments: Arguments,
    pieces: &'a [Piece],
    limit: u64,
    deeper: u64,
) -> Result<Option<(Arguments, &'a [Piece])>, AllocError>
    ensures { IfOk result (λ found. IfSome found (λ read. IsArguedWithin limit names.now pieces.now arguments read.0 read.1.now)) }
{
    let Some((len, _)) = closing(pieces) else {
        return Ok(None);
    };
    let (within, behind) = pieces.split_at(len);
    let (_, rest) = behind.split_at(1);
    let Some(terms) = few_collected(alloc, names, within, limit, deeper)? else {
        return Ok(None);
    };
    Ok(Some((arguments.with_expression(&terms)?, rest)))
}

/// The collected terms of the sum of these pieces, where they are few.
#[cycle(literal)]
fn few_collected(
    alloc: Global,
    names: &Standing,
    pieces: &[Piece],
    limit: u64,
    deeper: u64,
) -> Result<Option<Vec<Monomial>>, AllocError>
    ensures { IfOk result (λ found. IfSome found (λ terms. AreCollected terms.items (list_of_pieces limit names.now pieces.now))) }
{
    laws::collected_lists();
    let Some(deeper) = deeper.checked_sub(1) else {
        return Ok(None);
    };
    let Some(terms) = few_terms(alloc, names, pieces, limit, deeper)? else {
        return Ok(None);
    };
    let collected = collect_short(alloc, terms)?;
    Ok(collected)
}

/// The terms of the sum of these pieces, where they are few.
#[cycle(literal)]
fn few_terms(
    alloc: Global,
    names: &Standing,
    pieces: &[Piece],
    limit: u64,
    deeper: u64,
) -> Result<Option<Vec<Monomial>>, AllocError>
    ensures { IfOk result (λ found. IfSome found (λ terms. list_of_pieces limit names.now pieces.now ≡ all_of terms.items)) }
{
    if pieces.len() > MOST_PIECES {
        return Ok(None);
    }
    literal_terms(alloc, names, Vec::new(alloc), pieces, limit, deeper)
}
