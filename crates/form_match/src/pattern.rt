ghost use Rattle.std.specs.Prelude.{◌≡◌, map, option_map, IfOk};
ghost use Rattle.std.specs.List.{list_all, list_any};
ghost use Rattle.form_match.specs.Ready.{is_itself, is_plain_piece, is_whole_piece, ready};

use form_term::Call;
use form_tree::{Name, PatternPiece};
use std::alloc::{AllocError, Global};
use std::marker::Model;

/// A pattern made ready for a module, with what its arguments without wildcards are, each as a function's arguments, by
/// their numbers: none where an argument is refused, and then nothing equals it.
pub struct Pattern<'a> {
    pieces: &'a [PatternPiece],
    fixed: Vec<Option<Call>>,
}

impl Drop for Pattern<'_> {
    fn drop(self) {
        let Pattern {
            pieces: _,
            fixed: _,
        } = self;
    }
}

impl<'a> Model for Pattern<'a> {
    ghost use Rattle.form_match.specs.Ready.{ReadyPattern, ready};

    ghost Value = { ReadyPattern };

    ghost view = { λ p. ready p.pieces.now p.fixed.items };
}

impl<'a> Pattern<'a> {
    pub fn new(
        alloc: Global,
        pieces: &'a [PatternPiece],
        fixed: Vec<Option<Call>>,
    ) -> Result<Pattern<'a>, AllocError>
        ensures { IfOk result (λ p. p ≡ ready pieces.now fixed.items) }
    {
        let _ = alloc;
        Ok(Pattern { pieces, fixed })
    }

    pub fn pieces(&self) -> &'a [PatternPiece]
        ensures { result.now ≡ self.now.pieces }
    {
        self.pieces
    }

    /// What its arguments without wildcards are.
    pub(crate) fn fixed(&self) -> &[Option<Call>]
        ensures { map (option_map (λ c. c.pieces)) result.now ≡ self.now.fixed }
    {
        self.fixed.as_slice()
    }

    /// Whether it has symbols and dot products alone, without wildcards.
    pub fn is_plain(&self) -> bool
        ensures { result ≡ list_all is_plain_piece self.now.pieces }
    {
        self.pieces.iter().all(|piece| is_plain(piece))
    }

    /// Whether a wildcard stands for an exponent in it, in an argument too.
    pub fn has_power(&self) -> bool
        ensures { result ≡ list_any is_whole_piece self.now.pieces }
    {
        self.pieces.iter().any(|piece| is_whole(piece))
    }
}

fn is_itself(name: &Name) -> bool
    ensures { result ≡ is_itself name.now }
{
    match name {
        Name::Itself(_) => true,
        Name::Wild(_, _) => false,
    }
}

fn is_plain(piece: &PatternPiece) -> bool
    ensures { result ≡ is_plain_piece piece.now }
{
    match piece {
        PatternPiece::Symbol(symbol, _) => is_itself(symbol),
        PatternPiece::Dot(left, right, _) => is_itself(left) && is_itself(right),
        _ => false,
    }
}

fn is_whole(piece: &PatternPiece) -> bool
    ensures { result ≡ is_whole_piece piece.now }
{
    match piece {
        PatternPiece::Whole(_, _) => true,
        _ => false,
    }
}
