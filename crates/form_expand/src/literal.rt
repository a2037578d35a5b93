//! Products that are one term, each read into that term: of numbers, symbols, wildcards that stand for a number, and functions
//! to no power whose arguments are sums of few such products.
ghost use Rattle.std.specs.Prelude.{◌≡◌, true, Some, Ok, IfOk, IfSome};
ghost use Rattle.form_normal.specs.Factors.{HasRoom};
ghost use Rattle.form_expand.specs.Bound.{wild_list};
ghost use Rattle.form_expand.specs.Closings.{closing_at};
ghost use Rattle.form_expand.specs.declared.ended.Ended.TheVariants as ends;
ghost use Rattle.form_expand.specs.Listing.{with_sign};
ghost use Rattle.form_expand.specs.Literals.{IsLiteral, IsTakenAt, IsTakenWithin, IsTimes};
ghost use Rattle.form_expand.specs.Numbers.{number_list, symbol_list};
ghost use Rattle.form_expand.specs.Singles.{list_of_call};

use crate::bound::bound_number;
use crate::ended::Ended;
use crate::literal_arguments::literal_arguments;
use crate::number::{LARGEST_EXPONENT, number_alone};
use crate::reader::{begins, closing, is_subtracted};
use crate::stored::Standing;
use form_base::Id;
use form_normal::{
    ProductError, has_room, laws, multiply_by_number, multiply_by_power, times_function, times_word,
};
use form_term::{Call, Monomial, Power};
use form_tree::Piece;
use std::alloc::{AllocError, Global};
use std::mem;

/// How many sums that are arguments may stand within one another in such a product.
pub const DEEPEST: u64 = 16;

/// What is read of a product: its sign, and its term.
#[derive(Drop)]
pub struct Literal {
    pub is_minus: bool,
    pub term: Monomial,
}

impl Literal {
    /// The term behind its sign.
    pub fn into_term(self) -> Monomial
        ensures { result ≡ with_sign self.is_minus self.term }
    {
        let Literal { is_minus, term } = self;
        if is_minus { term.negated() } else { term }
    }
}

/// Reads the product that these pieces begin with, where it is a term that is made so. Answers it, and the pieces behind it.
/// `deeper` counts down with each sum that is an argument.
#[cycle(literal)]
pub fn read_literal<'a>(
    alloc: Global,
    pieces: &'a [Piece],
    names: &Standing,
    limit: u64,
    deeper: u64,
) -> Result<Option<(Literal, &'a [Piece])>, AllocError>
    ensures { IfOk result (λ found. IfSome found (λ read. IsLiteral limit names.now pieces.now read.0 read.1.now)) }
{
    let Some((first, more)) = pieces.split_first() else {
        return Ok(None);
    };
    let is_minus = is_subtracted(first);
    let mut term = Monomial::unit(alloc);
    let Some(mut rest) = take(alloc, &mut term, first, more, names, limit, deeper)? else {
        return Ok(None);
    };
    while let Some((piece, more)) = rest.split_first() {
        if begins(piece) {
            return Ok(Some((Literal { is_minus, term }, rest)));
        }
        let Some(behind) = take(alloc, &mut term, piece, more, names, limit, deeper)? else {
            return Ok(None);
        };
        rest = behind;
    }
    Ok(Some((Literal { is_minus, term }, rest)))
}

/// Multiplies by the factor that begins with this piece, where the product is a term. Answers the pieces behind it.
#[cycle(literal)]
fn take<'a>(
    alloc: Global,
    front: &mut Monomial,
    piece: &Piece,
    more: &'a [Piece],
    names: &Standing,
    limit: u64,
    deeper: u64,
) -> Result<Option<&'a [Piece]>, AllocError>
    ensures { IfOk result (λ found. IfSome found (λ rest. IsTakenAt limit names.now piece.now more.now front.old front.new rest.now)) }
{
    match piece {
        Piece::Number { value, power, .. } => {
            Ok(behind(take_number(alloc, front, value.get(), *power)?, more))
        }
        Piece::Symbol { symbol, power, .. } => {
            Ok(behind(take_symbol(alloc, front, *symbol, *power)?, more))
        }
        Piece::Wild {
            symbol,
            is_over,
            power,
            ..
        } => Ok(behind(
            take_wild(alloc, front, names, *symbol, *is_over, *power)?,
            more,
        )),
        Piece::Function {
            function,
            is_commuting,
            ..
        } => {
            let function = names.function(*function);
            take_function(
                alloc,
                front,
                more,
                names,
                limit,
                function,
                *is_commuting,
                deeper,
            )
        }
        _ => Ok(None),
    }
}

/// These pieces, where what is before them is taken.
fn behind(is_taken: bool, pieces: &[Piece]) -> Option<&[Piece]>
    ensures { IfSome result (λ rest. (is_taken ≡ true) × (rest.now ≡ pieces.now)) }
{
    if is_taken { Some(pieces) } else { None }
}

fn take_number(
    alloc: Global,
    front: &mut Monomial,
    value: u128,
    power: i32,
) -> Result<bool, AllocError>
    ensures { result ≡ Ok true → IsTimes (number_list value power) front.old front.new }
{
    laws::single_factors();
    let Some(number) = number_alone(value, power) else {
        return Ok(false);
    };
    made(multiply_by_number(alloc, front, number))
}

fn take_symbol(
    alloc: Global,
    front: &mut Monomial,
    symbol: Id,
    power: i32,
) -> Result<bool, AllocError>
    ensures { result ≡ Ok true → IsTimes (symbol_list symbol power) front.old front.new }
{
    laws::single_factors();
    if power.unsigned_abs() > LARGEST_EXPONENT {
        return Ok(false);
    }
    let power = Power {
        symbol,
        exponent: power,
    };
    made(multiply_by_power(alloc, front, power))
}

/// A wildcard that stands for a number.
fn take_wild(
    alloc: Global,
    front: &mut Monomial,
    names: &Standing,
    symbol: Id,
    is_over: bool,
    power: i32,
) -> Result<bool, AllocError>
    ensures one { result ≡ Ok true → wild_list names.now symbol is_over power ≡ ((wild_list names.now symbol is_over power).0, 1) }
    ensures times { result ≡ Ok true → IsTimes (wild_list names.now symbol is_over power).0 front.old front.new }
{
    laws::single_factors();
    let Some(number) = bound_number(names, symbol, is_over, power) else {
        return Ok(false);
    };
    made(multiply_by_number(alloc, front, number))
}

/// A function, behind the piece that begins it.
#[cycle(literal)]
fn take_function<'a>(
    alloc: Global,
    front: &mut Monomial,
    pieces: &'a [Piece],
    names: &Standing,
    limit: u64,
    function: Id,
    is_commuting: bool,
    deeper: u64,
) -> Result<Option<&'a [Piece]>, AllocError>
    ensures { IfOk result (λ found. IfSome found (λ rest. IsTakenWithin function is_commuting limit names.now pieces.now front.old front.new rest.now)) }
{
    let Some(len) = closing_once(pieces) else {
        return Ok(None);
    };
    let (within, behind) = pieces.split_at(len);
    let Some(arguments) = literal_arguments(alloc, names, within, limit, deeper)? else {
        return Ok(None);
    };
    let call = arguments.into_call(function)?;
    if !take_call(alloc, front, call, is_commuting)? {
        return Ok(None);
    }
    let (_, rest) = behind.split_at(1);
    Ok(Some(rest))
}

/// How many pieces there are before the one that ends what is open before them, where its power is 1.
pub fn closing_once(pieces: &[Piece]) -> Option<usize>
    ensures { IfSome result (λ len. closing_at 0 0 pieces.now ≡ Some (len, ends.Power 1)) }
{
    match closing(pieces) {
        Some((len, Ended::Power(1))) => Some(len),
        _ => None,
    }
}

fn take_call(
    alloc: Global,
    front: &mut Monomial,
    call: Call,
    is_commuting: bool,
) -> Result<bool, AllocError>
    ensures { result ≡ Ok true → IsTimes (list_of_call is_commuting call) front.old front.new }
{
    if !has_room(front, &call) {
        return Ok(false);
    }
    let old = mem::replace(front, Monomial::unit(alloc));
    *front = with_call(alloc, old, call, is_commuting)?;
    Ok(true)
}

/// A term times a function for which it has room.
fn with_call(
    alloc: Global,
    front: Monomial,
    call: Call,
    is_commuting: bool,
) -> Result<Monomial, AllocError>
    requires { HasRoom front.term call }
    ensures { IfOk result (λ term. IsTimes (list_of_call is_commuting call) front term) }
{
    if is_commuting {
        times_function(alloc, front, call)
    } else {
        times_word(alloc, front, call)
    }
}

/// Whether there is a product, which is neither refused nor 0.
fn made(answer: Result<bool, ProductError>) -> Result<bool, AllocError>
    ensures { result ≡ Ok true → answer ≡ Ok true }
{
    match answer {
        Ok(is_made) => Ok(is_made),
        Err(error) => unmade(error),
    }
}

/// There is none where it is refused.
fn unmade(error: ProductError) -> Result<bool, AllocError>
    ensures { result ≡ Ok true → ⊥ }
{
    match error {
        ProductError::Refused(_) => Ok(false),
        ProductError::Memory => Err(AllocError),
    }
}
