//! Pieces of a pattern where the word of a term is open.
ghost use Rattle.std.specs.Prelude.{◌≡◌, ◌+◌, ◌<◌, ◌^◌, ◌∷◌, [], List, MatchOption, Option};
ghost use Rattle.form_term.specs.declared.piece.Piece.{Piece};
ghost use Rattle.form_tree.specs.declared.pattern.PatternPiece.TheVariants as of_pattern;
ghost use Rattle.form_match.specs.declared.places.Frame.TheVariants as frames;
ghost use Rattle.form_match.specs.Leading.{word_end};
ghost use Rattle.form_match.specs.Places.{ground_of};
ghost use Rattle.form_match.specs.Running.{IsLess, IsSomewhere, IsStep};

use crate::asking::ask_function;
use crate::places::{Frame, Span, Terms, lawful_arguments};
use crate::trail::{Standing, Trail};
use form_term::Call;
use form_tree::PatternPiece;
use std::alloc::AllocError;

/// Functions of a word, as far as they have no arguments, and the next one's name.
pub fn in_word(
    terms: &Terms,
    trail: &mut Trail,
    at: &Standing,
    host: usize,
    from: usize,
    pieces: &[PatternPiece],
) -> Result<Option<Standing>, AllocError>
    requires framed { at.now.frame ≡ frames.Calls host from }
    requires stands { IsSomewhere (ground_of terms.now) trail.old.takes.items at.now pieces.now }
    ensures goes_on { (table : List (Option (List Piece))) →
        IsStep result table pieces.now at.now (ground_of terms.now) (ground_of terms.now) trail.old trail.new }
    ensures less { IsLess result pieces.now at.now trail.old trail.new }
{
    let word = terms.term(host).word();
    let mut now = *at;
    let mut place = from;
    let mut asked = pieces;
    while let Some((piece, behind)) = asked.split_first() {
        let PatternPiece::Call(name) = piece else {
            return Ok(end_of_word(&now, host, piece));
        };
        let Some(call) = word.get(place) else {
            return Ok(None);
        };
        lawful_arguments(call);
        if !ask_function(&mut trail.bindings, name, call.function())? {
            return Ok(None);
        }
        let Some(later) = without_arguments(call, behind) else {
            return Ok(Some(now.ahead(1, Frame::Arguments(Span::of_word(host, place)))));
        };
        place += 1;
        now = now.ahead(2, Frame::Calls(host, place));
        asked = later;
    }
    Ok(Some(now))
}

/// The pieces behind a function, where it has no arguments and these ask for none.
fn without_arguments<'a>(call: &Call, pieces: &'a [PatternPiece]) -> Option<&'a [PatternPiece]>
    ensures { MatchOption result (Unit {0})
        (λ later. (call.now.pieces ≡ []) × (pieces.now ≡ of_pattern.EndOfArguments ∷ later.now)) }
{
    if !call.pieces().is_empty() {
        return None;
    }
    match pieces {
        [PatternPiece::EndOfArguments, later @ ..] => Some(later),
        _ => None,
    }
}

/// The functions in a row end: the factors around them go on.
fn end_of_word(now: &Standing, host: usize, piece: &PatternPiece) -> Option<Standing>
    requires { now.now.piece + 1 < 2 ^ 64 }
    ensures { result ≡ word_end now.now host piece.now }
{
    match piece {
        PatternPiece::EndOfWord => Some(now.ahead(1, Frame::Factors(host))),
        _ => None,
    }
}
