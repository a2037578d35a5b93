//! Where the search stands: what is open at a piece of the pattern, and the terms that this is of.
ghost use Rattle.std.specs.Prelude.{◌≡◌, ◌+◌, ◌<◌, ◌^◌, ◌++◌, ◌∷◌, [], true, false, OnOk, drop, length, option_map};
ghost use Rattle.form_term.specs.Term.{AreArguments};
ghost use Rattle.form_match.specs.declared.places.Frame.TheVariants as frames;
ghost use Rattle.form_match.specs.Matching.{outer};
ghost use Rattle.form_match.specs.Places.{behind as behind_span, cut, ground_of, host_at, inner_at, pieces_at};

use crate::host::Host;
use form_term::laws::lawful_pieces;
use form_term::{Call, Piece, Term};
use std::alloc::{AllocError, Global};

/// Arguments of a function from a piece on: those of a function of a term, or of one of its word.
#[derive(Clone, Copy)]
pub struct Span {
    /// The term, by its number.
    pub host: usize,
    pub in_word: bool,
    pub place: usize,
    pub from: usize,
}

impl Span {
    /// All arguments of a function of a term.
    pub fn of_function(host: usize, place: usize) -> Span
        ensures { result ≡ record { host = host; in_word = false; place = place; from = 0 } }
    {
        Span {
            host,
            in_word: false,
            place,
            from: 0,
        }
    }

    /// All arguments of a function of a word.
    pub fn of_word(host: usize, place: usize) -> Span
        ensures { result ≡ record { host = host; in_word = true; place = place; from = 0 } }
    {
        Span {
            host,
            in_word: true,
            place,
            from: 0,
        }
    }

    /// These arguments without so many pieces.
    pub fn without(&self, count: usize) -> Span
        requires { self.now.from + count < 2 ^ 64 }
        ensures { result ≡ record self.now { from = self.now.from + count } }
    {
        Span {
            host: self.host,
            in_word: self.in_word,
            place: self.place,
            from: self.from + count,
        }
    }

    /// What goes on once all these arguments are taken.
    pub fn around(&self) -> Frame
        requires { self.now.place + 1 < 2 ^ 64 }
        ensures { result ≡ behind_span self.now }
    {
        if self.in_word {
            Frame::Calls(self.host, self.place + 1)
        } else {
            Frame::Factors(self.host)
        }
    }
}

/// What is open where a piece of the pattern is tried.
#[derive(Clone, Copy)]
pub enum Frame {
    /// The factors of a term, by its number.
    Factors(usize),
    /// The arguments that are left of a function.
    Arguments(Span),
    /// The word of a term from a place on.
    Calls(usize, usize),
}

/// A term in an argument, and the arguments behind that.
#[derive(Drop)]
pub struct Inner {
    pub term: Term,
    pub behind: Span,
}

/// The terms that factors are tried on, by their numbers: the term itself first, then those in arguments.
#[derive(Drop)]
pub struct Terms<'a> {
    term: &'a Term,
    cuts: &'a [u32],
    is_exact: bool,
    inners: Vec<Inner>,
}

impl<'a> Terms<'a> {
    pub fn new(alloc: Global, term: &'a Term, cuts: &'a [u32], is_exact: bool) -> Terms<'a>
        ensures { ground_of result ≡ record { outer = outer term.now cuts.now is_exact; inners = [] } }
    {
        Terms {
            term,
            cuts,
            is_exact,
            inners: Vec::new(alloc),
        }
    }

    /// How many terms in arguments there are, and so the number of the last one.
    pub fn count(&self) -> usize
        ensures { result ≡ length (ground_of self.now).inners }
    {
        self.inners.len()
    }

    pub fn push(&mut self, inner: Inner) -> Result<(), AllocError>
        ensures { OnOk result (ground_of self.new ≡ record (ground_of self.old) { inners = (ground_of self.old).inners ++ inner ∷ [] }) }
    {
        self.inners.push(inner)?;
        Ok(())
    }

    pub fn cut_to(&mut self, count: usize)
        ensures { ground_of self.new ≡ cut (ground_of self.old) count }
    {
        self.inners.truncate(count);
    }

    /// A term in an argument, none for the term itself.
    pub fn inner(&self, number: usize) -> Option<&Inner>
        ensures { option_map (λ i. i.now) result ≡ inner_at (ground_of self.now) number }
    {
        if number == 0 {
            return None;
        }
        self.inners.get(number - 1)
    }

    pub fn term(&self, number: usize) -> &Term
        ensures { result.now ≡ (host_at (ground_of self.now) number).term }
    {
        match self.inner(number) {
            Some(inner) => &inner.term,
            None => self.term,
        }
    }

    pub fn host(&self, number: usize) -> Host<'_>
        ensures { result ≡ host_at (ground_of self.now) number }
    {
        if self.inner(number).is_none() {
            return Host::outer(self.term, self.cuts, self.is_exact);
        }
        Host::inner(self.term(number))
    }

    /// The pieces of these arguments.
    pub fn pieces(&self, span: &Span) -> &[Piece]
        ensures value { result.now ≡ pieces_at (ground_of self.now) span.now }
        ensures room { span.now.from + length result.now < 2 ^ 64 }
    {
        let term = self.term(span.host);
        let calls = if span.in_word {
            term.word()
        } else {
            term.functions()
        };
        match calls.get(span.place) {
            Some(call) => from_piece(call.pieces(), span.from),
            None => from_piece(&[], span.from),
        }
    }
}

/// What holds of a function's arguments, for the proofs of callers; it does nothing.
pub fn lawful_arguments(call: &Call)
    ensures { AreArguments call.now.pieces }
{
    let _ = call.pieces();
    lawful_pieces();
}

fn from_piece(pieces: &[Piece], from: usize) -> &[Piece]
    ensures value { result.now ≡ drop from pieces.now }
    ensures room { from + length result.now < 2 ^ 64 }
{
    if from < pieces.len() {
        &pieces[from..]
    } else {
        &[]
    }
}
