//! Factors of a pattern as they are written, their names, powers and numbers looked at from the left.
ghost use Rattle.std.specs.Prelude.{◌≡◌, take, drop, length, IfOk};
ghost use Rattle.std.specs.List.{list_any};
ghost use Rattle.form_pattern.specs.PatternWalking as walking;
ghost use Rattle.form_right_side.specs.Walking as Walking;
ghost use Rattle.form_right_side.specs.Refusal.{Gives, GivesWithin, error_of};
ghost use Rattle.form_right_side.specs.RightSide.{first_misplaced, wrong, spelled_of};

use crate::joining::{Pieces, Raw, begun, ended};
use crate::sets::sets;
use form_ast::{Named, Piece, Spelled};
use form_base::Id;
use form_names::{Kind, Names};
use form_right_side::{
    CheckError, End, LARGEST_EXPONENT, LARGEST_POWER, PastLimit, Power, alone_end, entry_end,
    exponent, found, is_inverted, misplaced, power_at, size_of, symbol_named, vector, wrong_delta,
    wrong_kind, wrong_name,
};
use form_tree::{IndexName, Name, PatternPiece};
use std::alloc::{AllocError, Global};

/// An end of a dot product, a component or a delta.
#[derive(Drop)]
pub enum PatternEnd {
    Index(IndexName),
    Vector(Name),
}

/// What stands behind the mark of a wildcard, where this stands next.
pub fn behind_mark(rest: &[Piece]) -> &[Piece]
    ensures { result.now ≡ walking.behind_mark rest.now }
{
    match rest {
        [Piece::Marked(_), others @ ..] => others,
        _ => rest,
    }
}

/// How many pieces the argument has that these begin with.
#[tactic(auto, unfolding(crate::specs::PatternWalking::front))]
pub fn front_len(list: &[Piece]) -> usize
    ensures front { take result list.now ≡ walking.front 0 list.now }
    ensures len { result ≡ length (walking.front 0 list.now) }
{
    let mut opened: usize = 0;
    let mut rest = list;
    while let [piece, others @ ..] = rest {
        match piece {
            Piece::Call(_, _) => opened += 1,
            Piece::Comma if opened == 0 => break,
            Piece::EndOfCall if opened == 0 => break,
            Piece::EndOfCall => opened -= 1,
            _ => {}
        }
        rest = others;
    }
    list.len() - rest.len()
}

fn is_wild(piece: &Piece) -> bool
    ensures { result ≡ walking.is_wild piece.now }
{
    matches!(piece, Piece::Marked(_) | Piece::Field(_))
}

/// Whether a wildcard or a field stands in these.
pub fn has_wildcard(list: &[Piece]) -> bool
    ensures { result ≡ list_any walking.is_wild list.now }
{
    list.iter().any(is_wild)
}

/// A name whose Id is known: itself, or a wildcard, where its mark stands next.
pub fn marked(alloc: Global, names: &Names, rest: &[Piece], id: Id) -> Result<Name, CheckError>
    ensures { Gives (λ n. n) result (walking.marked names.now (walking.mark_at rest.now) id) }
{
    match rest {
        [Piece::Marked(restriction), ..] => { Ok(Name::Wild(id, sets(alloc, names, restriction)?)) }
        _ => Ok(Name::Itself(id)),
    }
}

fn symbol_put(name: Name, power: Option<Power>) -> Result<Raw, PastLimit>
    ensures { GivesWithin (λ r. r) result (walking.symbol_put power name) }
{
    let size = size_of(power, LARGEST_EXPONENT)?;
    Ok(Raw::Symbol(name, i64::from(exponent(false, power, size))))
}

/// A function that ends, so often.
pub fn function_put(
    is_commuting: bool,
    power: Option<Power>,
    pieces: Pieces,
) -> Result<Raw, CheckError>
    ensures { Gives (λ r. r) result (walking.function_put is_commuting power pieces) }
{
    let size = size_of(power, LARGEST_POWER)?;
    Ok(ended(is_commuting, pieces, size)?)
}

/// A function without parentheses, behind which these stand.
fn lone_function_put(
    alloc: Global,
    names: &Names,
    spelled: &Spelled,
    rest: &[Piece],
    id: Id,
    is_commuting: bool,
) -> Result<Raw, CheckError>
    ensures { Gives (λ r. r) result (walking.lone_function_put names.now spelled.now (walking.mark_at rest.now) (Walking.power_at (walking.behind_mark rest.now)) id is_commuting) }
{
    let power = power_at(behind_mark(rest));
    if is_inverted(false, power) {
        return Err(wrong_kind(alloc, spelled)?);
    }
    let name = marked(alloc, names, rest, id)?;
    function_put(is_commuting, power, begun(alloc, is_commuting, name)?)
}

/// A name alone, behind which these stand.
fn name_put(alloc: Global, names: &Names, named: &Named, rest: &[Piece]) -> Result<Raw, CheckError>
    ensures { Gives (λ r. r) result (walking.name_put names.now named.now (walking.mark_at rest.now) (Walking.power_at (walking.behind_mark rest.now))) }
{
    let Named::Declared(spelled) = named else {
        return Err(wrong_name(alloc, named)?);
    };
    let found = found(alloc, names, spelled)?;
    match found.kind {
        Kind::Symbol => {
            let name = marked(alloc, names, rest, found.id)?;
            Ok(symbol_put(name, power_at(behind_mark(rest)))?)
        }
        Kind::Function => lone_function_put(alloc, names, spelled, rest, found.id, false),
        Kind::CommutingFunction => lone_function_put(alloc, names, spelled, rest, found.id, true),
        _ => Err(wrong_kind(alloc, spelled)?),
    }
}

fn symbol_name(
    alloc: Global,
    names: &Names,
    named: &Named,
    rest: &[Piece],
) -> Result<Name, CheckError>
    ensures { Gives (λ n. n) result (walking.symbol_name names.now named.now (walking.mark_at rest.now)) }
{
    let id = symbol_named(alloc, names, named)?;
    marked(alloc, names, rest, id)
}

/// A name to the power that a wildcard stands for.
fn whole_put(
    alloc: Global,
    names: &Names,
    named: &Named,
    rest: &[Piece],
    by: &Named,
    behind: &[Piece],
) -> Result<Raw, CheckError>
    ensures { Gives (λ r. r) result (walking.whole_put names.now named.now (walking.mark_at rest.now) by.now (walking.mark_at behind.now)) }
{
    let name = symbol_name(alloc, names, named, rest)?;
    let exponent = symbol_name(alloc, names, by, behind)?;
    Ok(Raw::Other(
        Pieces::single(alloc, PatternPiece::Whole(name, exponent))?,
        1,
    ))
}

/// A name, to a power or alone, behind which these stand.
pub fn powered_put(
    alloc: Global,
    names: &Names,
    named: &Named,
    rest: &[Piece],
) -> Result<Raw, CheckError>
    ensures { Gives (λ r. r) result (walking.powered_put names.now named.now (walking.mark_at rest.now) (walking.behind_mark rest.now) (Walking.name_power_at (walking.behind_mark rest.now))) }
{
    match behind_mark(rest) {
        [Piece::RaisedByName(_, by), behind @ ..] => {
            whole_put(alloc, names, named, rest, by, behind)
        }
        _ => name_put(alloc, names, named, rest),
    }
}

fn vector_name(
    alloc: Global,
    names: &Names,
    named: &Named,
    rest: &[Piece],
) -> Result<Name, CheckError>
    ensures { Gives (λ n. n) result (walking.vector_name names.now named.now (walking.mark_at rest.now)) }
{
    let id = vector(alloc, names, named)?;
    marked(alloc, names, rest, id)
}

/// A dot product of two names, behind which these stand.
pub fn dot_put(
    alloc: Global,
    names: &Names,
    first: &Named,
    rest: &[Piece],
    second: &Named,
    behind: &[Piece],
) -> Result<Raw, CheckError>
    ensures { Gives (λ r. r) result (walking.dot_put names.now first.now (walking.mark_at rest.now) second.now (walking.mark_at behind.now) (Walking.power_at (walking.behind_mark behind.now))) }
{
    let left = vector_name(alloc, names, first, rest)?;
    let right = vector_name(alloc, names, second, behind)?;
    let power = power_at(behind_mark(behind));
    let size = size_of(power, LARGEST_EXPONENT)?;
    Ok(Raw::Dot(left, right, i64::from(exponent(false, power, size))))
}

/// An end, behind which these stand.
fn marked_end(
    alloc: Global,
    names: &Names,
    rest: &[Piece],
    end: End,
) -> Result<PatternEnd, CheckError>
    ensures { Gives (λ e. e) result (walking.marked_end names.now (walking.mark_at rest.now) end) }
{
    match end {
        End::Fixed(value) => Ok(PatternEnd::Index(IndexName::Fixed(value))),
        End::Index(id) => Ok(PatternEnd::Index(IndexName::Name(marked(alloc, names, rest, id)?))),
        End::Vector(id) => Ok(PatternEnd::Vector(marked(alloc, names, rest, id)?)),
    }
}

fn marked_given(
    alloc: Global,
    names: &Names,
    rest: &[Piece],
    end: Option<End>,
) -> Result<Option<PatternEnd>, CheckError>
    ensures { Gives (λ e. e) result (walking.marked_given names.now (walking.mark_at rest.now) end) }
{
    match end {
        Some(end) => Ok(Some(marked_end(alloc, names, rest, end)?)),
        None => Ok(None),
    }
}

/// An argument of `d_`.
pub fn entry_taken(
    alloc: Global,
    names: &Names,
    list: &[Piece],
) -> Result<Option<PatternEnd>, CheckError>
    ensures { Gives (λ e. e) result (walking.entry_taken names.now list.now) }
{
    match list {
        [piece, rest @ ..] => {
            let end = entry_end(alloc, names, piece)?;
            marked_given(alloc, names, rest, end)
        }
        [] => Ok(None),
    }
}

/// What stands behind such an argument.
pub fn behind_entry(list: &[Piece]) -> &[Piece]
    ensures { result.now ≡ walking.behind_entry list.now }
{
    match list {
        [_, rest @ ..] => behind_mark(rest),
        [] => list,
    }
}

/// Two ends, so often.
fn linked(alloc: Global, a: PatternEnd, b: PatternEnd, size: u32) -> Result<Raw, AllocError>
    ensures { IfOk result (λ r. r ≡ walking.linked a b size) }
{
    match a {
        PatternEnd::Vector(p) => match b {
            PatternEnd::Vector(q) => Ok(Raw::Dot(p, q, i64::from(size))),
            PatternEnd::Index(i) => Ok(Raw::Other(
                Pieces::single(alloc, PatternPiece::Component(p, i))?,
                size,
            )),
        },
        PatternEnd::Index(i) => match b {
            PatternEnd::Vector(p) => Ok(Raw::Other(
                Pieces::single(alloc, PatternPiece::Component(p, i))?,
                size,
            )),
            PatternEnd::Index(j) => Ok(Raw::Other(
                Pieces::single(alloc, PatternPiece::Delta(i, j))?,
                size,
            )),
        },
    }
}

/// Two ends, as often as a power says.
pub fn linked_put(
    alloc: Global,
    a: PatternEnd,
    b: PatternEnd,
    power: Option<Power>,
) -> Result<Raw, CheckError>
    ensures { Gives (λ r. r) result (walking.linked_put a b power) }
{
    let size = size_of(power, LARGEST_POWER)?;
    Ok(linked(alloc, a, b, size)?)
}

/// One name or one number, where the parentheses of a vector have only this.
fn alone_in(alloc: Global, names: &Names, list: &[Piece]) -> Result<Option<PatternEnd>, CheckError>
    ensures { Gives (λ e. e) result (walking.alone_in names.now list.now) }
{
    let [piece, rest @ ..] = list else {
        return Ok(None);
    };
    if !behind_mark(rest).is_empty() {
        return Ok(None);
    }
    let end = alone_end(alloc, names, piece)?;
    marked_given(alloc, names, rest, end)
}

/// A refusal of the first name in an argument of a vector, or of the vector where it has none.
#[tactic(auto, unfolding(form_right_side::specs::RightSide::first_misplaced))]
fn misplaced_in(
    alloc: Global,
    names: &Names,
    list: &[Piece],
    owner: &Named,
) -> Result<CheckError, AllocError>
    ensures { IfOk result (λ e. e ≡ error_of (first_misplaced names.now list.now (wrong (spelled_of owner.now)))) }
{
    let mut rest = list;
    while let [piece, others @ ..] = rest {
        match piece {
            Piece::Name(_, named) => return misplaced(alloc, names, named),
            Piece::Dot(_, named) => return misplaced(alloc, names, named),
            Piece::Call(_, named) => return misplaced(alloc, names, named),
            Piece::Delta(_, spot) => return wrong_delta(alloc, *spot),
            _ => {}
        }
        rest = others;
    }
    wrong_name(alloc, owner)
}

/// What stands in the parentheses of a vector.
fn only_end(
    alloc: Global,
    names: &Names,
    named: &Named,
    list: &[Piece],
) -> Result<PatternEnd, CheckError>
    ensures { Gives (λ e. e) result (walking.only_end names.now named.now list.now) }
{
    match alone_in(alloc, names, list)? {
        Some(end) => Ok(end),
        None => Err(misplaced_in(alloc, names, list, named)?),
    }
}

/// Whether the first piece is the `)` that ends arguments.
fn ends_call_at(list: &[Piece]) -> bool
    ensures { result ≡ walking.ends_call_at list.now }
{
    match list {
        [first, ..] => matches!(first, Piece::EndOfCall),
        [] => false,
    }
}

/// Whether these are one argument, and no other stands behind it.
fn is_only(list: &[Piece], rest: &[Piece]) -> bool
    ensures { result ≡ walking.is_only list.now rest.now }
{
    match list {
        [_, ..] => ends_call_at(rest),
        [] => false,
    }
}

/// A vector behind which these stand, with its argument, and what stands behind this.
pub fn component_put(
    alloc: Global,
    names: &Names,
    named: &Named,
    rest: &[Piece],
    id: Id,
    list: &[Piece],
    behind: &[Piece],
) -> Result<Raw, CheckError>
    ensures { Gives (λ r. r) result (walking.component_put names.now named.now (walking.mark_at rest.now) id list.now behind.now) }
{
    if !is_only(list, behind) {
        return Err(wrong_name(alloc, named)?);
    }
    let vector = marked(alloc, names, rest, id)?;
    let end = only_end(alloc, names, named, list)?;
    linked_put(alloc, PatternEnd::Vector(vector), end, power_behind(behind))
}

/// The power behind the first of these pieces.
pub fn power_behind(list: &[Piece]) -> Option<Power>
    ensures { result ≡ Walking.power_at (drop 1 list.now) }
{
    match list {
        [_, rest @ ..] => power_at(rest),
        [] => None,
    }
}
