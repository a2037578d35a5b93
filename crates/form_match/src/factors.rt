//! Pieces of a pattern where the factors of a term are open.
ghost use Rattle.std.specs.Prelude.{◌≡◌, ◌≢◌, ◌∷◌, ◌+◌, ◌<◌, ◌^◌, List, Option, IfSome, slice_get};
ghost use Rattle.form_term.specs.Term.{AreArguments};
ghost use Rattle.form_term.specs.declared.piece.Piece.{Piece};
ghost use Rattle.form_tree.specs.declared.pattern.PatternPiece.TheVariants as of_pattern;
ghost use Rattle.form_match.specs.declared.places.Frame.TheVariants as frames;
ghost use Rattle.form_match.specs.Candidates.{candidates};
ghost use Rattle.form_match.specs.Factors.{IsLawfulUse, IsNextFree, IsSmallUse, frame_of_use};
ghost use Rattle.form_match.specs.Places.{ground_of, pieces_of, uses_at};
ghost use Rattle.form_match.specs.Running.{IsLess, IsSomewhere, IsStep};

use crate::Use;
use crate::choices::{ask, next_candidate, use_of};
use crate::host::Host;
use crate::places::{Frame, Span, Terms, lawful_arguments};
use crate::trail::{Standing, Trail};
use crate::whole::is_taken_whole;
use form_tree::PatternPiece;
use std::alloc::{AllocError, Global};

/// Takes the first of these pieces, where the factors of a term are open.
pub fn in_factors(
    alloc: Global,
    terms: &Terms,
    trail: &mut Trail,
    at: &Standing,
    number: usize,
    pieces: &[PatternPiece],
) -> Result<Option<Standing>, AllocError>
    requires framed { at.now.frame ≡ frames.Factors number }
    requires stands { IsSomewhere (ground_of terms.now) trail.old.takes.items at.now pieces.now }
    ensures goes_on { (table : List (Option (List Piece))) →
        IsStep result table pieces.now at.now (ground_of terms.now) (ground_of terms.now) trail.old trail.new }
    ensures less { IsLess result pieces.now at.now trail.old trail.new }
{
    let Some((piece, behind)) = pieces.split_first() else {
        return Ok(None);
    };
    match piece {
        PatternPiece::EndOfProduct => end_of_product(alloc, terms, trail, at, number, behind),
        _ => factor(terms, trail, at, number, piece, behind),
    }
}

/// A factor: its first candidate that isn't taken yet, and the next one is left as a choice.
fn factor(
    terms: &Terms,
    trail: &mut Trail,
    at: &Standing,
    number: usize,
    piece: &PatternPiece,
    behind: &[PatternPiece],
) -> Result<Option<Standing>, AllocError>
    requires framed { at.now.frame ≡ frames.Factors number }
    requires stands { IsSomewhere (ground_of terms.now) trail.old.takes.items at.now (piece.now ∷ behind.now) }
    requires no_end { piece.now ≢ of_pattern.EndOfProduct }
    ensures goes_on { (table : List (Option (List Piece))) →
        IsStep result table (piece.now ∷ behind.now) at.now (ground_of terms.now) (ground_of terms.now) trail.old trail.new }
    ensures less { IsLess result (piece.now ∷ behind.now) at.now trail.old trail.new }
{
    let host = terms.host(number);
    let first = free_candidate(trail, &host, number, piece, behind, at.candidate);
    let Some((candidate, made)) = first else {
        return Ok(None);
    };
    let second = next_candidate(&host, piece, behind, candidate + 1);
    trail.keep_next(at, second, terms.count())?;
    if !ask(&mut trail.bindings, &host, piece, candidate)? {
        return Ok(None);
    }
    trail.take(number, made)?;
    Ok(Some(at.ahead(1, opened(&host, number, &made))))
}

/// The first candidate of a factor from one on that isn't taken yet, with what it takes.
fn free_candidate(
    trail: &Trail,
    host: &Host,
    number: usize,
    piece: &PatternPiece,
    behind: &[PatternPiece],
    from: usize,
) -> Option<(usize, Use)>
    ensures first { IsNextFree host.now piece.now behind.now (uses_at trail.now.takes.items number) (candidates host.now piece.now) from result }
    ensures small { IfSome result (λ found. found.0 + 1 < 2 ^ 64) }
    ensures small_use { IfSome result (λ found. IsSmallUse found.1) }
{
    let mut from = from;
    while let Some(candidate) = next_candidate(host, piece, behind, from) {
        let made = use_of(host, piece, candidate);
        if trail.is_free(number, &made) {
            return Some((candidate, made));
        }
        from = candidate + 1;
    }
    None
}

/// What is open once this is taken of a term.
fn opened(host: &Host, number: usize, made: &Use) -> Frame
    requires { IsSmallUse made.now }
    ensures frame { result ≡ frame_of_use number made.now }
    ensures lawful { IsLawfulUse host.now made.now }
{
    match made {
        Use::Function(place) => {
            lawful_function(host, *place);
            Frame::Arguments(Span::of_function(number, *place))
        }
        Use::Stretch(start, _) => Frame::Calls(number, *start as usize),
        _ => Frame::Factors(number),
    }
}

/// What holds of the arguments of a function of a term, for the proofs of callers; it does nothing.
fn lawful_function(host: &Host, place: usize)
    ensures { AreArguments (pieces_of (slice_get host.now.term.others.functions place)) }
{
    if let Some(call) = host.term().functions().get(place) {
        lawful_arguments(call);
    }
}

/// The factors of an argument end: they have to have taken it whole, and the arguments behind it go on.
fn end_of_product(
    alloc: Global,
    terms: &Terms,
    trail: &Trail,
    at: &Standing,
    number: usize,
    behind: &[PatternPiece],
) -> Result<Option<Standing>, AllocError>
    requires framed { at.now.frame ≡ frames.Factors number }
    requires stands { IsSomewhere (ground_of terms.now) trail.now.takes.items at.now (of_pattern.EndOfProduct ∷ behind.now) }
    ensures goes_on { (table : List (Option (List Piece))) →
        IsStep result table (of_pattern.EndOfProduct ∷ behind.now) at.now (ground_of terms.now) (ground_of terms.now) trail.now trail.now }
    ensures less { IsLess result (of_pattern.EndOfProduct ∷ behind.now) at.now trail.now trail.now }
{
    let _ = behind;
    let Some(inner) = terms.inner(number) else {
        return Ok(None);
    };
    let uses = trail.uses_of(alloc, number)?;
    if !is_taken_whole(&inner.term, uses.as_slice()) {
        return Ok(None);
    }
    Ok(Some(at.ahead(1, Frame::Arguments(inner.behind))))
}
