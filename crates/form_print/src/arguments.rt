ghost use Rattle.std.specs.Prelude.{◌≡◌, ◌≤◌, ◌∷◌, ◌++◌, OnOk, length, string_bytes};
ghost use Rattle.form_print.specs.Arguments as printing;
ghost use Rattle.form_print.specs.Texts.{first_sign, later_sign};

use crate::call::push_times;
use crate::factor::{Factor, push_index, text_of};
use crate::size::{is_one_inside, push_size_inside};
use form_base::Id;
use form_names::Names;
use form_term::{Coefficient, DotPower, Piece, Power};
use std::alloc::{AllocError, Global};
use std::cmp::Ordering;

/// Puts a function's arguments, whose pieces these are, in one pass. Equal neighbours among commuting functions are
/// passed over but for the last one, which has their power.
pub fn push_arguments(
    alloc: Global,
    text: &mut String,
    names: &Names,
    pieces: &[Piece],
) -> Result<(), AllocError>
    ensures { OnOk result (string_bytes text.new
        ≡ string_bytes text.old ++ printing.arguments_text names.now pieces.now) }
{
    let mut opened: Vec<usize> = Vec::new(alloc);
    let mut before = Piece::Function(Id::new(0));
    let mut passed: usize = 0;
    let mut times: usize = 1;
    let mut rest = pieces;
    while let Some((piece, later)) = rest.split_first() {
        if passed > 0 {
            passed -= 1;
        } else if is_repeated(rest) {
            passed = length_of_arguments(later);
            times += 1;
        } else {
            push_piece(alloc, text, names, &before, &opened, piece, later)?;
            put_open(&mut opened, times, piece)?;
            before = *piece;
            times = 1;
        }
        rest = later;
    }
    Ok(())
}

/// Keeps how often each open function stands, behind a piece.
fn put_open(opened: &mut Vec<usize>, times: usize, piece: &Piece) -> Result<(), AllocError>
    ensures { OnOk result (opened.new.items ≡ printing.open_behind opened.old.items times piece.now) }
{
    match piece {
        Piece::Function(_) => {
            opened.push(times)?;
        }
        Piece::NonCommuting(_) => {
            opened.push(1)?;
        }
        Piece::EndOfArguments => {
            let _ = opened.pop();
        }
        _ => {}
    }
    Ok(())
}

/// Whether a commuting function begins that stands there once more right behind its end.
fn is_repeated(pieces: &[Piece]) -> bool
    ensures { result ≡ printing.is_repeated pieces.now }
{
    match pieces {
        [Piece::Function(_), later @ ..] => stand_twice(pieces, 1 + length_of_arguments(later)),
        _ => false,
    }
}

/// Whether the pieces before a place stand there once more right behind it.
fn stand_twice(pieces: &[Piece], place: usize) -> bool
    requires { place ≤ length pieces.now }
    ensures { result ≡ printing.stand_twice place pieces.now }
{
    let (front, behind) = pieces.split_at(place);
    if behind.len() < place {
        return false;
    }
    let (next, _) = behind.split_at(place);
    front.cmp(&next) == Ordering::Equal
}

/// How many pieces the arguments of a function have, whose end counts too.
fn length_of_arguments(pieces: &[Piece]) -> usize
    ensures length { result ≡ printing.length_in 0 pieces.now }
    ensures within { result ≤ length pieces.now }
{
    let mut level: usize = 0;
    let mut length: usize = 0;
    for piece in pieces {
        length += 1;
        match piece {
            Piece::Function(_) | Piece::NonCommuting(_) => level += 1,
            Piece::EndOfArguments => {
                if level == 0 {
                    return length;
                }
                level -= 1;
            }
            _ => {}
        }
    }
    length
}

/// The coefficient of the term whose further factors these are; so many functions are open in it.
fn coefficient_in(functions: usize, pieces: &[Piece]) -> Coefficient
    requires { functions ≤ 1 }
    ensures { printing.fraction_of result ≡ printing.coefficient_in functions pieces.now }
{
    let mut level = functions;
    for piece in pieces {
        match piece {
            Piece::EndOfTerm(coefficient) => {
                if level == 0 {
                    return *coefficient;
                }
            }
            Piece::Function(_) | Piece::NonCommuting(_) => level += 1,
            Piece::EndOfArguments => level = level.saturating_sub(1),
            _ => {}
        }
    }
    Coefficient::new(1, 1)
}

/// Puts a piece, by the one before it and those that follow.
fn push_piece(
    alloc: Global,
    text: &mut String,
    names: &Names,
    before: &Piece,
    opened: &[usize],
    piece: &Piece,
    later: &[Piece],
) -> Result<(), AllocError>
    ensures { OnOk result (string_bytes text.new
        ≡ string_bytes text.old ++ printing.piece_text names.now before.now opened.now piece.now later.now) }
{
    match piece {
        Piece::EndOfArguments => {
            push_closing(text, before)?;
            push_times(text, innermost(opened))
        }
        Piece::EndOfSum => push_zero(text, before),
        Piece::EndOfTerm(coefficient) => push_number(text, before, coefficient),
        Piece::Sum => push_comma(text, before),
        Piece::Index(index) => {
            push_comma(text, before)?;
            push_index(text, names, index)
        }
        Piece::Vector(vector) => {
            push_comma(text, before)?;
            text.push_str(text_of(names, *vector))
        }
        Piece::Function(function) | Piece::NonCommuting(function) => {
            push_before_factor(text, before, 1, later)?;
            text.push_str(text_of(names, *function))?;
            push_opening(text, later)
        }
        _ => {
            push_before_factor(text, before, 0, later)?;
            push_factor(alloc, text, names, piece)
        }
    }
}

/// Puts a factor that has no arguments.
fn push_factor(
    alloc: Global,
    text: &mut String,
    names: &Names,
    piece: &Piece,
) -> Result<(), AllocError>
    ensures { OnOk result (string_bytes text.new
        ≡ string_bytes text.old ++ printing.factor_piece_text names.now piece.now) }
{
    match piece {
        Piece::Negative(power) => power.push(alloc, text, names),
        Piece::NegativeDot(dot) => dot.push(alloc, text, names),
        Piece::Delta(delta) => delta.push(alloc, text, names),
        Piece::Component(component) => component.push(alloc, text, names),
        Piece::PositiveDot(left, right, exponent) => DotPower {
            left: left.0,
            right: right.0,
            exponent: *exponent,
        }
        .push(alloc, text, names),
        Piece::Positive(symbol, exponent) => Power {
            symbol: symbol.0,
            exponent: *exponent,
        }
        .push(alloc, text, names),
        Piece::Imaginary => text.push_str("i_"),
        _ => Ok(()),
    }
}

/// How often the innermost open function stands.
fn innermost(opened: &[usize]) -> usize
    ensures { result ≡ printing.innermost opened.now }
{
    match opened.last() {
        Some(times) => *times,
        None => 1,
    }
}

/// Puts a comma behind an argument.
fn push_comma(text: &mut String, before: &Piece) -> Result<(), AllocError>
    ensures { OnOk result (string_bytes text.new ≡ string_bytes text.old ++ printing.before_argument before.now) }
{
    match before {
        Piece::Index(_) | Piece::Vector(_) | Piece::EndOfSum => text.push(','),
        _ => Ok(()),
    }
}

/// Parentheses stand only around arguments.
fn push_opening(text: &mut String, later: &[Piece]) -> Result<(), AllocError>
    ensures { OnOk result (string_bytes text.new ≡ string_bytes text.old ++ printing.opening later.now) }
{
    match later {
        [Piece::EndOfArguments, ..] => Ok(()),
        _ => text.push('('),
    }
}

fn push_closing(text: &mut String, before: &Piece) -> Result<(), AllocError>
    ensures { OnOk result (string_bytes text.new ≡ string_bytes text.old ++ printing.closing_behind before.now) }
{
    match before {
        Piece::Function(_) | Piece::NonCommuting(_) => Ok(()),
        _ => text.push(')'),
    }
}

/// A sum without terms is 0.
fn push_zero(text: &mut String, before: &Piece) -> Result<(), AllocError>
    ensures { OnOk result (string_bytes text.new ≡ string_bytes text.old ++ printing.zero_behind before.now) }
{
    match before {
        Piece::Sum => text.push('0'),
        _ => Ok(()),
    }
}

/// Puts `*` behind a factor, or at the beginning of a term its sign and size. Only there is its coefficient looked for,
/// which stands behind its factors; so many functions are open in these.
fn push_before_factor(
    text: &mut String,
    before: &Piece,
    functions: usize,
    later: &[Piece],
) -> Result<(), AllocError>
    requires { functions ≤ 1 }
    ensures { OnOk result (string_bytes text.new ≡ string_bytes text.old
        ++ printing.before_factor before.now (printing.coefficient_in functions later.now)) }
{
    match before {
        Piece::Sum => {
            let coefficient = coefficient_in(functions, later);
            push_first_sign(text, &coefficient)?;
            push_shown_size(text, &coefficient)
        }
        Piece::EndOfTerm(_) => {
            let coefficient = coefficient_in(functions, later);
            push_later_sign(text, &coefficient)?;
            push_shown_size(text, &coefficient)
        }
        _ => text.push('*'),
    }
}

/// A term without factors is a number.
fn push_number(
    text: &mut String,
    before: &Piece,
    coefficient: &Coefficient,
) -> Result<(), AllocError>
    ensures { OnOk result (string_bytes text.new ≡ string_bytes text.old
        ++ printing.number_behind before.now (printing.fraction_of coefficient.now)) }
{
    match before {
        Piece::Sum => {
            push_first_sign(text, coefficient)?;
            push_size_inside(text, coefficient)
        }
        Piece::EndOfTerm(_) => {
            push_later_sign(text, coefficient)?;
            push_size_inside(text, coefficient)
        }
        _ => Ok(()),
    }
}

/// The first term of a sum has a sign where it is negative.
fn push_first_sign(text: &mut String, coefficient: &Coefficient) -> Result<(), AllocError>
    ensures { OnOk result (string_bytes text.new ≡ string_bytes text.old
        ++ first_sign (printing.fraction_of coefficient.now)) }
{
    if coefficient.numerator() < 0 {
        text.push('-')
    } else {
        Ok(())
    }
}

/// A later term always has a sign.
fn push_later_sign(text: &mut String, coefficient: &Coefficient) -> Result<(), AllocError>
    ensures { OnOk result (string_bytes text.new ≡ string_bytes text.old
        ++ 32 ∷ later_sign (printing.fraction_of coefficient.now)) }
{
    if coefficient.numerator() < 0 {
        text.push_str(" - ")
    } else {
        text.push_str(" + ")
    }
}

/// Puts a size before a factor, but for 1.
fn push_shown_size(text: &mut String, coefficient: &Coefficient) -> Result<(), AllocError>
    ensures { OnOk result (string_bytes text.new ≡ string_bytes text.old
        ++ printing.shown_size (printing.fraction_of coefficient.now)) }
{
    if is_one_inside(coefficient) {
        return Ok(());
    }
    push_size_inside(text, coefficient)?;
    text.push('*')
}
