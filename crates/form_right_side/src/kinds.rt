//! What names stand for, and what can't stand there.
ghost use Rattle.std.specs.Prelude.{◌≡◌, Some, Ok, IfOk, IfSome, is_some};
ghost use Rattle.form_base.specs.declared.cause.Cause.TheVariants.{WrongKind, Undeclared};
ghost use Rattle.form_names.specs.Names.{lookup, kind_at};
ghost use Rattle.form_right_side.specs.Plain.{is_symbol, is_plain_call};
ghost use Rattle.form_right_side.specs.Refusal.{Gives, GivesWithin, error_of};
ghost use Rattle.form_right_side.specs.RightSide.{spelled_of, wrong, delta_at, misplaced as misplaced_name, found as found_of, vector as vector_named, named_end as end_named, fixed_end as end_fixed, head as head_named, lone_named};
ghost use Rattle.form_right_side.specs.Walking.{alone_piece, entry_piece, alone_end as end_alone, IsLone};

use crate::powers::within;
use crate::resolved::{End, Found, Head};
use crate::{CheckError, PastLimit};
use form_ast::{Link, Named, Piece, Spelled};
use form_base::{Cause, Id, Name, Spot};
use form_names::{Kind, Names};
use form_number::Number;
use form_term::Index;
use std::alloc::{AllocError, Global};

/// The largest fixed index.
const LARGEST_INDEX: u32 = 127;

/// A copy of a name, for a cause or to be declared.
pub fn copy_of(alloc: Global, spelled: &Spelled) -> Result<Name, AllocError>
    ensures { IfOk result (λ name. name ≡ spelled.now.name) }
{
    Name::new(alloc, spelled.name.as_str())
}

/// A refusal of a name whose kind can't stand there.
pub fn wrong_kind(alloc: Global, spelled: &Spelled) -> Result<CheckError, AllocError>
    ensures { IfOk result (λ e. e ≡ error_of (wrong spelled.now)) }
{
    let name = copy_of(alloc, spelled)?;
    Ok(CheckError::Refused(Cause::WrongKind(name), spelled.spot))
}

/// The same of a name of the language.
fn wrong_built_in(alloc: Global, name: &str, spot: Spot) -> Result<CheckError, AllocError>
    ensures { IfOk result (λ e. e ≡ CheckError.Refused (WrongKind name.now) spot) }
{
    let name = Name::new(alloc, name)?;
    Ok(CheckError::Refused(Cause::WrongKind(name), spot))
}

/// A refusal of `d_` where it can't stand.
pub fn wrong_delta(alloc: Global, spot: Spot) -> Result<CheckError, AllocError>
    ensures { IfOk result (λ e. e ≡ error_of (wrong (delta_at spot))) }
{
    wrong_built_in(alloc, "d_", spot)
}

/// A refusal of a name that is declared, or of `i_`, where it can't stand.
pub fn wrong_name(alloc: Global, named: &Named) -> Result<CheckError, AllocError>
    ensures { IfOk result (λ e. e ≡ error_of (wrong (spelled_of named.now))) }
{
    match named {
        Named::Declared(spelled) => wrong_kind(alloc, spelled),
        Named::Imaginary(spot) => wrong_built_in(alloc, "i_", *spot),
    }
}

/// A refusal of a name where none of its kind can stand.
pub fn misplaced(alloc: Global, names: &Names, named: &Named) -> Result<CheckError, AllocError>
    ensures { IfOk result (λ e. e ≡ error_of (misplaced_name names.now named.now)) }
{
    match named {
        Named::Imaginary(_) => wrong_name(alloc, named),
        Named::Declared(spelled) => match names.lookup(spelled.name.as_str()) {
            Some(_) => wrong_kind(alloc, spelled),
            None => {
                let name = copy_of(alloc, spelled)?;
                Ok(CheckError::Refused(Cause::Undeclared(name), spelled.spot))
            }
        },
    }
}

/// A symbol, where the name is declared as one.
#[inline(always)]
pub fn plain_symbol(names: &Names, spelled: &Spelled) -> Option<Id>
    ensures stands { IfSome result (λ id. lookup names.now spelled.now.name ≡ Some id) }
    ensures kind { IfSome result (λ id. kind_at names.now id ≡ Some Kind.Symbol) }
    ensures exactly { is_some result ≡ is_symbol names.now spelled.now }
{
    let id = names.lookup(spelled.name.as_str())?;
    if matches!(names.kind(id), Kind::Symbol) {
        Some(id)
    } else {
        None
    }
}

/// A function, and whether it commutes, where the name is declared as one.
#[inline(always)]
pub fn plain_head(names: &Names, spelled: &Spelled) -> Option<(Id, bool)>
    ensures some { IfSome result (λ f. head_named names.now (Named.Declared spelled.now) ≡ Ok (Head.Function f.0 f.1)) }
    ensures exactly { is_some result ≡ is_plain_call names.now (Named.Declared spelled.now) }
{
    let id = names.lookup(spelled.name.as_str())?;
    match names.kind(id) {
        Kind::Function => Some((id, false)),
        Kind::CommutingFunction => Some((id, true)),
        _ => None,
    }
}

/// What a name is declared as.
pub fn found(alloc: Global, names: &Names, spelled: &Spelled) -> Result<Found, CheckError>
    ensures { Gives (λ f. f) result (found_of names.now spelled.now) }
{
    match names.lookup(spelled.name.as_str()) {
        Some(id) => Ok(Found {
            id,
            kind: names.kind(id),
        }),
        None => {
            let name = copy_of(alloc, spelled)?;
            Err(CheckError::Refused(Cause::Undeclared(name), spelled.spot))
        }
    }
}

/// A vector.
pub fn vector(alloc: Global, names: &Names, named: &Named) -> Result<Id, CheckError>
    ensures { Gives (λ id. id) result (vector_named names.now named.now) }
{
    match named {
        Named::Imaginary(_) => Err(wrong_name(alloc, named)?),
        Named::Declared(spelled) => {
            let found = found(alloc, names, spelled)?;
            match found.kind {
                Kind::Vector => Ok(found.id),
                _ => Err(wrong_kind(alloc, spelled)?),
            }
        }
    }
}

/// An index or a vector.
fn named_end(alloc: Global, names: &Names, named: &Named) -> Result<End, CheckError>
    ensures { Gives (λ end. end) result (end_named names.now named.now) }
{
    match named {
        Named::Imaginary(_) => Err(wrong_name(alloc, named)?),
        Named::Declared(spelled) => {
            let found = found(alloc, names, spelled)?;
            match found.kind {
                Kind::Index(_) => Ok(End::Index(found.id)),
                Kind::Vector => Ok(End::Vector(found.id)),
                _ => Err(wrong_kind(alloc, spelled)?),
            }
        }
    }
}

/// A fixed index.
fn fixed_end(number: &Number) -> Result<End, PastLimit>
    ensures { GivesWithin (λ end. end) result (end_fixed number.now) }
{
    let value = within(number, u128::from(LARGEST_INDEX))?;
    Ok(End::Fixed(value as u32))
}

/// An argument of `d_`, where a piece is that.
pub fn entry_end(alloc: Global, names: &Names, piece: &Piece) -> Result<Option<End>, CheckError>
    ensures { Gives (λ end. end) result (end_alone names.now (entry_piece piece.now)) }
{
    match piece {
        Piece::EntryNumber(number) => Ok(Some(fixed_end(number)?)),
        Piece::EntryName(named) => { Ok(Some(named_end(alloc, names, named)?)) }
        _ => Ok(None),
    }
}

/// What stands alone in the parentheses of a vector, where a piece is that.
pub fn alone_end(alloc: Global, names: &Names, piece: &Piece) -> Result<Option<End>, CheckError>
    ensures { Gives (λ end. end) result (end_alone names.now (alone_piece piece.now)) }
{
    match piece {
        Piece::Number(Link::First, number) => Ok(Some(fixed_end(number)?)),
        Piece::Name(Link::First, named) => { Ok(Some(named_end(alloc, names, named)?)) }
        _ => Ok(None),
    }
}

/// A function or a vector.
pub fn head(alloc: Global, names: &Names, named: &Named) -> Result<Head, CheckError>
    ensures { Gives (λ head. head) result (head_named names.now named.now) }
{
    match named {
        Named::Imaginary(_) => Err(wrong_name(alloc, named)?),
        Named::Declared(spelled) => {
            let found = found(alloc, names, spelled)?;
            match found.kind {
                Kind::Function => Ok(Head::Function(found.id, false)),
                Kind::CommutingFunction => Ok(Head::Function(found.id, true)),
                Kind::Vector => Ok(Head::Vector(found.id)),
                _ => Err(wrong_kind(alloc, spelled)?),
            }
        }
    }
}

/// An argument that is a name alone of an index or a vector.
pub fn lone(names: &Names, named: &Named) -> Option<form_tree::Piece>
    ensures { IsLone result (lone_named names.now named.now) }
{
    let Named::Declared(spelled) = named else {
        return None;
    };
    let id = names.lookup(spelled.name.as_str())?;
    match names.kind(id) {
        Kind::Index(_) => Some(form_tree::Piece::Index(Index::Declared(id))),
        Kind::Vector => Some(form_tree::Piece::Vector(id)),
        _ => None,
    }
}
