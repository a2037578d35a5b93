//! A term times a right side that is one commuting function.
ghost use Rattle.std.specs.Prelude.{◌↔◌, ◌≤◌, IfOk, IfSome, IsTrue, length};
ghost use Rattle.form_expand.specs.LoneFunctions.{IsLoneFunction, IsTimed};

use crate::literal::{DEEPEST, closing_once};
use crate::literal_arguments::literal_arguments;
use crate::stored::Standing;
use form_normal::{has_room, times_function};
use form_term::{Call, Monomial};
use form_tree::{Link, Piece};
use std::alloc::{AllocError, Global};

/// What a term becomes times a right side, or the same term where it isn't made so.
#[derive(Drop)]
pub enum Timed {
    Made(Monomial),
    Same(Monomial),
}

/// A term times the right side that these pieces are, where that is one commuting function whose arguments are short.
pub fn times_lone_function(
    alloc: Global,
    left: Monomial,
    pieces: &[Piece],
    limit: u64,
    names: &Standing,
) -> Result<Timed, AllocError>
    ensures { IfOk result (λ timed. IsTimed limit names.now pieces.now left timed) }
{
    let Some(call) = lone_function(alloc, pieces, limit, names)? else {
        return Ok(Timed::Same(left));
    };
    if !has_room(&left, &call) {
        return Ok(Timed::Same(left));
    }
    let made = times_function(alloc, left, call)?;
    Ok(Timed::Made(made))
}

/// The function that these pieces are, where a row may have a term.
fn lone_function(
    alloc: Global,
    pieces: &[Piece],
    limit: u64,
    names: &Standing,
) -> Result<Option<Call>, AllocError>
    ensures { IfOk result (λ found. IfSome found (λ call. IsLoneFunction limit names.now pieces.now call)) }
{
    if limit == 0 {
        return Ok(None);
    }
    let Some((piece, more)) = pieces.split_first() else {
        return Ok(None);
    };
    let Piece::Function {
        link: Link::Plus,
        function,
        is_commuting: true,
    } = piece
    else {
        return Ok(None);
    };
    let Some(len) = closing_once(more) else {
        return Ok(None);
    };
    let (within, end) = more.split_at(len);
    if !is_last(end) {
        return Ok(None);
    }
    let Some(arguments) = literal_arguments(alloc, names, within, limit, DEEPEST)? else {
        return Ok(None);
    };
    let call = arguments.into_call(names.function(*function))?;
    Ok(Some(call))
}

/// Whether nothing is behind the first of these pieces.
fn is_last(pieces: &[Piece]) -> bool
    ensures { IsTrue result ↔ length pieces.now ≤ 1 }
{
    pieces.len() <= 1
}
