//! Powers that are names.
ghost use Rattle.std.specs.Prelude.{◌≡◌, ◌∷◌, [], option_map};
ghost use Rattle.form_right_side.specs.Refusal.{Gives};
ghost use Rattle.form_right_side.specs.RightSide as definition;
ghost use Rattle.form_right_side.specs.Walking as walking;
ghost use Rattle.form_tree.specs.Tree as tree;

use crate::CheckError;
use crate::ahead::power_at;
use crate::kinds::{found, wrong_kind, wrong_name};
use crate::known::Known;
use crate::powers::{LARGEST_POWER, size_of};
use crate::resolved::{End, Linked};
use form_ast::{Named, Piece, Sign};
use form_base::Id;
use form_names::{Kind, Names};
use form_term::{Component, Index};
use form_tree::{Base, Exponent, Piece as Closing};
use std::alloc::Global;

/// The sign and the name of such a power, where a piece is one.
fn name_power_of(piece: &Piece) -> Option<(Option<Sign>, &Named)>
    ensures { option_map (λ by. (by.0, by.1.now)) result ≡ walking.name_power_of piece.now }
{
    match piece {
        Piece::RaisedByName(sign, named) => Some((*sign, named)),
        _ => None,
    }
}

/// The sign and the name that are the power of the factor that ends before these, where it has such a one.
pub fn name_power(rest: &[Piece]) -> Option<(Option<Sign>, &Named)>
    ensures { option_map (λ by. (by.0, by.1.now)) result ≡ walking.name_power_at rest.now }
{
    match rest {
        [first, ..] => name_power_of(first),
        [] => None,
    }
}

fn is_minus(sign: Option<Sign>) -> bool
    ensures { result ≡ definition.is_minus sign }
{
    sign == Some(Sign::Minus)
}

/// The name of a symbol.
pub fn symbol_named(alloc: Global, names: &Names, named: &Named) -> Result<Id, CheckError>
    ensures { Gives (λ id. id) result (definition.symbol_named names.now named.now) }
{
    match named {
        Named::Imaginary(_) => Err(wrong_name(alloc, named)?),
        Named::Declared(spelled) => {
            let found = found(alloc, names, spelled)?;
            match found.kind {
                Kind::Symbol => Ok(found.id),
                _ => Err(wrong_kind(alloc, spelled)?),
            }
        }
    }
}

/// A symbol as the base of such a power.
pub fn symbol_base(known: &Known, id: Id) -> Base
    ensures { walking.base_of result ≡ definition.symbol_base (definition.is_wildcard known.now id) id }
{
    if known.is_wildcard(id) {
        Base::Wild(id)
    } else {
        Base::Symbol(id)
    }
}

/// Such a power of a symbol.
pub fn exponent_of(is_over: bool, sign: Option<Sign>, symbol: Id) -> Exponent
    ensures { result ≡ tree.exponent is_over (definition.is_minus sign) symbol }
{
    Exponent {
        is_over,
        is_minus: is_minus(sign),
        symbol,
    }
}

/// A base that is one piece, to such a power.
pub fn raised(link: form_tree::Link, base: Base, by: Exponent) -> Closing
    ensures { result ∷ [] ≡ tree.pieces_of_base link (walking.base_of base) by }
{
    Closing::Raised { link, base, by }
}

/// Such a power, behind what stands after `/` or not.
fn exponent_by(
    alloc: Global,
    names: &Names,
    is_over: bool,
    sign: Option<Sign>,
    named: &Named,
) -> Result<Exponent, CheckError>
    ensures { Gives (λ e. e) result (walking.exponent_by names.now is_over (sign, named.now)) }
{
    let symbol = symbol_named(alloc, names, named)?;
    Ok(exponent_of(is_over, sign, symbol))
}

/// The end of a function with its power.
pub fn end_of_function(alloc: Global, names: &Names, rest: &[Piece]) -> Result<Closing, CheckError>
    ensures { Gives (λ p. p) result (walking.end_of_function names.now rest.now) }
{
    let Some((sign, named)) = name_power(rest) else {
        let power = size_of(power_at(rest), LARGEST_POWER)?;
        return Ok(Closing::EndOfFunction { power });
    };
    let by = exponent_by(alloc, names, false, sign, named)?;
    Ok(Closing::EndOfRaisedFunction(by))
}

/// The end of a sum in parentheses with its power.
pub fn end_of_parenthesis(
    alloc: Global,
    names: &Names,
    rest: &[Piece],
) -> Result<Closing, CheckError>
    ensures { Gives (λ p. p) result (walking.end_of_parenthesis names.now rest.now) }
{
    let Some((sign, named)) = name_power(rest) else {
        let power = size_of(power_at(rest), LARGEST_POWER)?;
        return Ok(Closing::Close { power });
    };
    let by = exponent_by(alloc, names, false, sign, named)?;
    Ok(Closing::CloseRaised(by))
}

/// An index and an end as the base of such a power.
fn linked_index_base(index: Index, end: End) -> Base
    ensures { walking.base_of result ≡ definition.linked_index_base index end }
{
    match end {
        End::Vector(vector) => Base::Component(Component { vector, index }),
        End::Fixed(value) => Base::Delta(index, Index::Fixed(value)),
        End::Index(other) => Base::Delta(index, Index::Declared(other)),
    }
}

/// Two ends as the base of such a power.
pub fn linked_base(a: End, b: End) -> Linked
    ensures { walking.linked_of result ≡ definition.linked_base a b }
{
    match a {
        End::Vector(left) => match b {
            End::Vector(right) => Linked::Dot(left, right),
            End::Fixed(value) => Linked::Piece(linked_index_base(Index::Fixed(value), a)),
            End::Index(index) => Linked::Piece(linked_index_base(Index::Declared(index), a)),
        },
        End::Fixed(value) => Linked::Piece(linked_index_base(Index::Fixed(value), b)),
        End::Index(index) => Linked::Piece(linked_index_base(Index::Declared(index), b)),
    }
}
