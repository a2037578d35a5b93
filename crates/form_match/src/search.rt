//! The search for a match: the pieces of the pattern are tried in order. A piece goes on with its first candidate, and where
//! it has a second one, that is left as a choice; where a piece has none, the last choice is tried.
ghost use Rattle.std.specs.Prelude.{◌≡◌, [], IfOk};
ghost use Rattle.form_match.specs.declared.places.Frame.TheVariants as frames;
ghost use Rattle.form_match.specs.Matching.{outer};
ghost use Rattle.form_match.specs.Parts.{table_of};
ghost use Rattle.form_match.specs.Places.{ground_of, uses_at};
ghost use Rattle.form_match.specs.Running.{Finds, IsFewer, IsLess, IsRetreat, IsRunning, IsSomewhere, IsStep, IsTurn};
ghost use Rattle.form_match.specs.States.{first_found, reach, start};

use crate::Match;
use crate::arguments::in_arguments;
use crate::factors::in_factors;
use crate::in_words::in_word;
use crate::places::{Frame, Terms};
use crate::trail::{Standing, Trail};
use form_term::{Call, Term};
use form_tree::PatternPiece;
use std::alloc::{AllocError, Global};

/// A search: the terms that it has come to, what it has taken and bound, and the choices that are left to it.
#[derive(Drop)]
pub struct Search<'a> {
    terms: Terms<'a>,
    trail: Trail,
}

impl<'a> Search<'a> {
    pub fn new(alloc: Global, term: &'a Term, cuts: &'a [u32], is_exact: bool) -> Search<'a>
        ensures terms { ground_of result.terms ≡ record { outer = outer term.now cuts.now is_exact; inners = [] } }
        ensures takes { result.trail.takes.items ≡ [] }
        ensures bindings { result.trail.bindings ≡ [] }
        ensures choices { result.trail.choices.items ≡ [] }
    {
        Search {
            terms: Terms::new(alloc, term, cuts, is_exact),
            trail: Trail::new(alloc),
        }
    }

    /// Whether there is a way through all pieces, from a candidate of the first one on; the first one is then made.
    pub fn run(
        &mut self,
        alloc: Global,
        pieces: &[PatternPiece],
        fixed: &[Option<Call>],
        first: usize,
    ) -> Result<bool, AllocError>
        requires { IsRunning (table_of fixed.now) pieces.now
            (first_found (reach (table_of fixed.now) pieces.now (start (ground_of self.old.terms).outer)))
            (ground_of self.old.terms) self.old.trail.takes.items self.old.trail.bindings self.old.trail.choices.items
            (record { piece = 0; candidate = first; frame = frames.Factors 0 }) }
        ensures { IfOk result (λ b. Finds b
            (first_found (reach (table_of fixed.now) pieces.now (start (ground_of self.old.terms).outer)))
            (uses_at self.new.trail.takes.items 0) self.new.trail.bindings) }
    {
        let mut at = Standing::first(first);
        while at.piece < pieces.len() {
            let turn = self.turn(alloc, &at, &pieces[at.piece..], fixed)?;
            let Some(next) = turn else {
                return Ok(false);
            };
            at = next;
        }
        Ok(true)
    }

    /// Where the search goes on: behind the first of these pieces, or by the last choice, and none where there is none any
    /// more.
    fn turn(
        &mut self,
        alloc: Global,
        at: &Standing,
        pieces: &[PatternPiece],
        fixed: &[Option<Call>],
    ) -> Result<Option<Standing>, AllocError>
        requires { IsSomewhere (ground_of self.old.terms) self.old.trail.takes.items at.now pieces.now }
        ensures goes_on { IsTurn result (table_of fixed.now) pieces.now at.now (ground_of self.old.terms)
            (ground_of self.new.terms) self.old.trail self.new.trail }
        ensures less { IsFewer result pieces.now at.now self.old.trail self.new.trail }
    {
        let ahead = self.advance(alloc, at, pieces, fixed)?;
        match ahead {
            Some(next) => Ok(Some(next)),
            None => Ok(self.retreat()),
        }
    }

    /// The last choice that is left, none where there is none any more.
    fn retreat(&mut self) -> Option<Standing>
        ensures { IsRetreat result (ground_of self.old.terms) (ground_of self.new.terms) self.old.trail self.new.trail }
    {
        let choice = self.trail.retreat()?;
        self.terms.cut_to(choice.terms);
        Some(choice.at)
    }

    /// Takes the first of these pieces, and those behind it that have one candidate each: where the search goes on, none
    /// where one of them can't be taken.
    fn advance(
        &mut self,
        alloc: Global,
        at: &Standing,
        pieces: &[PatternPiece],
        fixed: &[Option<Call>],
    ) -> Result<Option<Standing>, AllocError>
        requires { IsSomewhere (ground_of self.old.terms) self.old.trail.takes.items at.now pieces.now }
        ensures goes_on { IsStep result (table_of fixed.now) pieces.now at.now (ground_of self.old.terms)
            (ground_of self.new.terms) self.old.trail self.new.trail }
        ensures less { IsLess result pieces.now at.now self.old.trail self.new.trail }
    {
        let terms = &mut self.terms;
        let trail = &mut self.trail;
        match &at.frame {
            Frame::Factors(host) => in_factors(alloc, terms, trail, at, *host, pieces),
            Frame::Arguments(span) => in_arguments(alloc, terms, trail, at, span, pieces, fixed),
            Frame::Calls(host, from) => in_word(terms, trail, at, *host, *from, pieces),
        }
    }

    /// What is taken of the term itself, and what is bound.
    pub fn into_match(self, alloc: Global) -> Result<Match, AllocError>
        ensures { IfOk result (λ m. m ≡ record { takes = uses_at self.entry.trail.takes.items 0; bindings = self.entry.trail.bindings }) }
    {
        let Search { terms: _, trail } = self;
        trail.into_match(alloc)
    }
}
