ghost use Rattle.std.specs.Prelude.{◌≡◌, ◌↔◌, ◌+◌, ◌<◌, ◌^◌, Some, None, IfOk, IsTrue, OnSome, length};
ghost use Rattle.form_term.specs.declared.monomial.Monomial.{Monomial as Item};
ghost use Rattle.form_expand.specs.Listing.{nothing, single, refusal};
ghost use Rattle.form_expand.specs.Kept.{kept_terms, listing, end_of, ended_by, BeginsAt};
ghost use Rattle.form_expand.specs.Walks.{IsAlone};

use crate::ExpandError;
use crate::refusal::Refusal;
use form_base::Cause;
use form_term::Monomial;
use std::alloc::AllocError;

/// Where the terms of a list are kept.
#[derive(Drop)]
pub enum Kept<'a> {
    None,
    One(Monomial),
    Made(Vec<Monomial>),
    Stored(&'a [Monomial]),
}

impl Kept<'_> {
    fn as_slice(&self) -> &[Monomial]
        ensures { result.now ≡ kept_terms self.now }
    {
        match self {
            Kept::None => &[],
            Kept::One(term) => std::slice::from_ref(term),
            Kept::Made(terms) => terms.as_slice(),
            Kept::Stored(terms) => terms,
        }
    }
}

/// A list that is there as a whole, with its end: in a clause `listing` says which.
#[derive(Drop)]
pub struct Whole<'a> {
    pub kept: Kept<'a>,
    pub end: Option<Refusal>,
}

impl Whole<'_> {
    /// The list without terms.
    pub fn nothing<'a>() -> Whole<'a>
        ensures { listing result ≡ nothing }
    {
        Whole {
            kept: Kept::None,
            end: None,
        }
    }

    pub fn single<'a>(term: Monomial) -> Whole<'a>
        ensures { listing result ≡ single term }
    {
        Whole {
            kept: Kept::One(term),
            end: None,
        }
    }

    pub fn made<'a>(terms: Vec<Monomial>) -> Whole<'a>
        ensures { listing result ≡ record { terms = terms.items; end = None } }
    {
        Whole {
            kept: Kept::Made(terms),
            end: None,
        }
    }

    /// The list of these terms, which stay where they are.
    pub fn lent<'a>(terms: &'a [Monomial]) -> Whole<'a>
        ensures { listing result ≡ record { terms = terms.now; end = None } }
    {
        Whole {
            kept: Kept::Stored(terms),
            end: None,
        }
    }

    pub fn refused<'a>(cause: Cause) -> Whole<'a>
        ensures { listing result ≡ refusal cause }
    {
        Whole {
            kept: Kept::None,
            end: Some(Refusal { cause }),
        }
    }

    /// The list of these terms, which is refused behind them.
    pub fn refused_behind<'a>(terms: Vec<Monomial>, cause: Cause) -> Whole<'a>
        ensures { listing result ≡ record { terms = terms.items; end = Some cause } }
    {
        Whole {
            kept: Kept::Made(terms),
            end: Some(Refusal { cause }),
        }
    }

    /// The terms before its end.
    pub fn terms(&self) -> &[Monomial]
        ensures { result.now ≡ (listing self.now).terms }
    {
        self.kept.as_slice()
    }

    pub fn len(&self) -> usize
        ensures { result ≡ length (kept_terms self.now.kept) }
    {
        self.kept.as_slice().len()
    }

    pub fn at(&self, place: usize) -> Option<&Monomial>
        ensures first { BeginsAt (listing self.now) place result }
        ensures room { OnSome result (place + 1 < 2 ^ 64) }
    {
        self.kept.as_slice().get(place)
    }

    /// Its first term.
    pub fn into_first(self) -> Result<Option<Monomial>, AllocError>
        ensures { (m : Item) → listing self.entry ≡ single m → IfOk result (λ first. first ≡ Some m) }
    {
        let Whole { kept, end: _ } = self;
        match kept {
            Kept::One(term) => Ok(Some(term)),
            Kept::None => Ok(None),
            other => match other.as_slice() {
                [term, ..] => Ok(Some(term.clone()?)),
                [] => Ok(None),
            },
        }
    }

    /// Whether it has one term, isn't refused behind it, and may have one.
    pub fn is_alone(&self, limit: u64) -> bool
        ensures { IsTrue result ↔ IsAlone limit self.now }
    {
        limit != 0 && self.end.is_none() && self.len() == 1
    }

    /// What comes behind the last term: nothing, or the refusal, which goes.
    pub fn ended(&mut self) -> Result<Option<Monomial>, ExpandError>
        ensures value { result ≡ ended_by (end_of self.old.end) }
        ensures same { end_of self.old.end ≡ None → self.new ≡ self.old }
        ensures kept { self.new.kept ≡ self.old.kept }
        ensures gone { end_of self.new.end ≡ None }
    {
        match self.end.take() {
            Some(refusal) => Err(ExpandError::Refused(refusal.into_cause())),
            None => Ok(None),
        }
    }
}
