//! Functions, whose arguments are written out and collected.
ghost use Rattle.std.specs.Prelude.{◌≡◌, IfOk};
ghost use Rattle.form_expand.specs.Calls.{ReadsArgument, ReadsExpression, IsCollected, IsCollectedFrom, is_shorter, is_no_longer};
ghost use Rattle.form_expand.specs.Factors.{IsOneAtMost};
ghost use Rattle.form_expand.specs.Kept.{listing};
ghost use Rattle.form_expand.specs.Reading.{calling};
ghost use Rattle.form_expand.specs.Readers.{list_of_calling};
ghost use Rattle.form_expand.specs.Streams.{stream_left};

use crate::ExpandError;
use crate::reader::closing;
use crate::refusal::Refusal;
use crate::scope::Scope;
use crate::single::call_list;
use crate::stream::Stream;
use crate::whole::Whole;
use form_base::{Cause, Id};
use form_collect::{CollectError, Collector, laws};
use form_term::{Arguments, Monomial};
use form_tree::Piece;
use std::alloc::{AllocError, Global};

/// What came of reading an argument.
#[derive(Drop)]
pub enum Read<'a> {
    /// The arguments so far, and the pieces that aren't read yet.
    Further(Arguments, &'a [Piece]),
    /// It is refused.
    Refused(Refusal),
}

/// The list of a function whose arguments have these pieces.
#[cycle(taking)]
pub fn function_list<'a>(
    alloc: Global,
    scope: Scope<'a>,
    pieces: &'a [Piece],
    function: Id,
    is_commuting: bool,
    deeper: u64,
) -> Result<Whole<'a>, AllocError>
    ensures list { IfOk result (λ whole. listing whole ≡ list_of_calling scope.entry.names.now (calling scope.entry.limit function is_commuting) pieces.now) }
    ensures one { IfOk result (λ whole. IsOneAtMost (listing whole)) }
{
    let mut arguments = Arguments::new(alloc);
    let mut rest = pieces;
    while !rest.is_empty() {
        match read_argument(alloc, scope, arguments, rest, deeper)? {
            Read::Further(read, behind) => {
                arguments = read;
                rest = behind;
            }
            Read::Refused(refusal) => return Ok(Whole::refused(refusal.into_cause())),
        }
    }
    call_list(alloc, arguments.into_call(function)?, is_commuting)
}

/// Reads the argument that these pieces begin with.
#[cycle(taking)]
fn read_argument<'a>(
    alloc: Global,
    scope: Scope<'a>,
    arguments: Arguments,
    pieces: &'a [Piece],
    deeper: u64,
) -> Result<Read<'a>, AllocError>
    ensures read { IfOk result (λ read. ReadsArgument scope.entry.limit scope.entry.names.now pieces.now arguments read) }
    ensures shorter { IfOk result (λ read. is_shorter pieces.now read) }
{
    let Some((piece, more)) = pieces.split_first() else {
        return Ok(Read::Further(arguments, pieces));
    };
    match piece {
        Piece::Index(index) => {
            Ok(Read::Further(arguments.with_index(scope.names.index(*index))?, more))
        }
        Piece::Vector(vector) => {
            Ok(Read::Further(arguments.with_vector(scope.names.vector(*vector))?, more))
        }
        Piece::Field(field) => {
            Ok(Read::Further(arguments.with_pieces(scope.names.field(*field))?, more))
        }
        Piece::Argument => read_expression(alloc, scope, arguments, more, deeper),
        Piece::Open { .. } => read_expression(alloc, scope, arguments, more, deeper),
        Piece::Function { .. } => read_expression(alloc, scope, arguments, more, deeper),
        _ => Ok(Read::Further(arguments, more)),
    }
}

/// Reads an argument that is an expression, behind the piece that begins it.
#[cycle(taking)]
fn read_expression<'a>(
    alloc: Global,
    scope: Scope<'a>,
    arguments: Arguments,
    pieces: &'a [Piece],
    deeper: u64,
) -> Result<Read<'a>, AllocError>
    ensures read { IfOk result (λ read. ReadsExpression scope.entry.limit scope.entry.names.now pieces.now arguments read) }
    ensures shorter { IfOk result (λ read. is_no_longer pieces.now read) }
{
    let Some((len, _)) = closing(pieces) else {
        return Ok(Read::Further(arguments, &[]));
    };
    let (within, behind) = pieces.split_at(len);
    let (_, rest) = behind.split_at(1);
    let mut list = Stream::new(alloc, scope, within);
    match collected(alloc, &mut list, deeper)? {
        Ok(terms) => Ok(Read::Further(arguments.with_expression(&terms)?, rest)),
        Err(refusal) => Ok(Read::Refused(refusal)),
    }
}

/// The collected terms of a list, or why it is refused.
#[cycle(taking)]
pub fn collected(
    alloc: Global,
    list: &mut Stream,
    deeper: u64,
) -> Result<Result<Vec<Monomial>, Refusal>, AllocError>
    ensures { IfOk result (λ found. IsCollected found (stream_left list.old)) }
{
    let Some(deeper) = deeper.checked_sub(1) else {
        return Err(AllocError);
    };
    let mut collector = Collector::new(alloc);
    'turns: loop {
        match list.next(alloc, deeper) {
            Ok(Some(term)) => collector.add(term)?,
            Ok(None) => return terms_of(collector),
            Err(ExpandError::Refused(cause)) => return Ok(Err(Refusal { cause })),
            Err(ExpandError::Memory) => return Err(AllocError),
        }
    }
}

/// The terms that were collected.
fn terms_of(collector: Collector) -> Result<Result<Vec<Monomial>, Refusal>, AllocError>
    ensures { IfOk result (λ found. IsCollectedFrom found collector) }
{
    laws::collected_lists();
    match collector.into_terms() {
        Ok(terms) => Ok(Ok(terms.into_vec())),
        Err(CollectError::Overflow) => Ok(Err(Refusal {
            cause: Cause::Overflow,
        })),
        Err(CollectError::Memory) => Err(AllocError),
    }
}
