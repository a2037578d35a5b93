//! Arguments that stand alone, as those of a pattern without wildcards do.
ghost use Rattle.std.specs.Prelude.{◌≡◌, IfOk, IfSome, option_map};
ghost use Rattle.form_tree.specs.Tree.{Argument, pieces_of_argument};
ghost use Rattle.form_expand.specs.Alone.{arguments_alone, expression_alone, pieces_unless_refused};
ghost use Rattle.form_expand.specs.Expanding.{arguments_in};

use crate::function::collected;
use crate::scope::Scope;
use crate::stored::Standing;
use crate::stream::Stream;
use form_base::Id;
use form_term::{Arguments, Call};
use form_tree::Piece;
use std::alloc::{AllocError, Global};

/// An argument as that of a function, which is the name 0: what it is where its lists have at most `limit` terms, and none
/// where it is refused.
pub fn argument_pieces(
    alloc: Global,
    tree: &[Piece],
    limit: u64,
    names: &Standing,
) -> Result<Option<Call>, AllocError>
    ensures pieces { (a : Argument) → tree.now ≡ pieces_of_argument a →
        IfOk result (λ call. option_map (λ c. c.pieces) call ≡ pieces_unless_refused (arguments_in limit names.now a)) }
    ensures name { IfOk result (λ call. IfSome call (λ c. c.function ≡ 0)) }
{
    match arguments(alloc, tree, limit, names)? {
        Some(arguments) => Ok(Some(arguments.into_call(Id::new(0))?)),
        None => Ok(None),
    }
}

/// The arguments that these pieces of one give.
fn arguments(
    alloc: Global,
    tree: &[Piece],
    limit: u64,
    names: &Standing,
) -> Result<Option<Arguments>, AllocError>
    ensures { IfOk result (λ found. found ≡ pieces_unless_refused (arguments_alone limit names.now tree.now)) }
{
    let none = Arguments::new(alloc);
    match tree {
        [Piece::Index(index), ..] => Ok(Some(none.with_index(names.index(*index))?)),
        [Piece::Vector(vector), ..] => Ok(Some(none.with_vector(names.vector(*vector))?)),
        [Piece::Field(field), ..] => Ok(Some(none.with_pieces(names.field(*field))?)),
        [Piece::Argument, within @ ..] => expression(alloc, within, limit, names),
        _ => Ok(Some(none)),
    }
}

/// The expression of these pieces and the mark of its end.
fn expression(
    alloc: Global,
    pieces: &[Piece],
    limit: u64,
    names: &Standing,
) -> Result<Option<Arguments>, AllocError>
    ensures { IfOk result (λ found. found ≡ pieces_unless_refused (expression_alone limit names.now pieces.now)) }
{
    let (within, _) = pieces.split_at(pieces.len().saturating_sub(1));
    let mut list = Stream::new(alloc, Scope::new(limit, names), within);
    match collected(alloc, &mut list, u64::MAX)? {
        Ok(terms) => Ok(Some(Arguments::new(alloc).with_expression(&terms)?)),
        Err(_) => Ok(None),
    }
}
