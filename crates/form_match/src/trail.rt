//! What the search has taken and bound, and the choices that are left to it.
ghost use Rattle.std.specs.Prelude.{◌≡◌, ◌+◌, ◌<◌, ◌^◌, ◌++◌, ◌∷◌, [], not, option_to_list, IfOk, OnOk, length};
ghost use Rattle.std.specs.List.{list_any};
ghost use Rattle.form_match.specs.declared.places.Frame.TheVariants as frames;
ghost use Rattle.form_match.specs.Matching.{clashes};
ghost use Rattle.form_match.specs.Places.{use_of, uses_at};
ghost use Rattle.form_match.specs.Running.{IsBack, keeping};

use crate::places::Frame;
use crate::{Match, Use, Uses};
use form_bindings::Bindings;
use smallvec::SmallVec;
use std::alloc::{AllocError, Global};

/// A place of the search: a piece of the pattern, what is open there, and from which of its candidates on it is tried.
#[derive(Clone, Copy)]
pub struct Standing {
    pub piece: usize,
    pub candidate: usize,
    pub frame: Frame,
}

impl Standing {
    /// At the first piece, where the factors of the term are open, from a candidate on.
    pub fn first(candidate: usize) -> Standing
        ensures { result ≡ record { piece = 0; candidate = candidate; frame = frames.Factors 0 } }
    {
        Standing {
            piece: 0,
            candidate,
            frame: Frame::Factors(0),
        }
    }

    /// So many pieces further, where this is open.
    pub fn ahead(&self, count: usize, frame: Frame) -> Standing
        requires { self.now.piece + count < 2 ^ 64 }
        ensures { result ≡ record { piece = self.now.piece + count; candidate = 0; frame = frame } }
    {
        Standing {
            piece: self.piece + count,
            candidate: 0,
            frame,
        }
    }
}

/// A use, and the number of the term that it takes something of.
#[derive(Clone, Copy)]
pub struct Taken {
    pub host: usize,
    pub made: Use,
}

impl Default for Taken {
    fn default() -> Taken {
        Taken {
            host: 0,
            made: Use::default(),
        }
    }
}

/// A choice that is left: where the search goes on, and how many terms, uses and bindings there are then.
#[derive(Clone, Copy)]
pub struct Choice {
    pub at: Standing,
    pub terms: usize,
    taken: usize,
    bound: usize,
}

impl Default for Choice {
    fn default() -> Choice {
        Choice {
            at: Standing::first(0),
            terms: 0,
            taken: 0,
            bound: 0,
        }
    }
}

/// What is taken and bound on the way to a place, and the choices that are left on it, the last of them first tried.
#[derive(Drop)]
pub struct Trail {
    takes: SmallVec<Taken, 2>,
    pub bindings: Bindings,
    choices: SmallVec<Choice, 2>,
}

impl Trail {
    pub fn new(alloc: Global) -> Trail
        ensures takes { result.takes.items ≡ [] }
        ensures bindings { result.bindings ≡ [] }
        ensures choices { result.choices.items ≡ [] }
    {
        Trail {
            takes: SmallVec::new(alloc),
            bindings: Bindings::new(alloc),
            choices: SmallVec::new(alloc),
        }
    }

    /// Leaves a choice: this piece is to be tried again from a candidate on.
    pub fn keep(&mut self, at: &Standing, candidate: usize, terms: usize) -> Result<(), AllocError>
        ensures choices { OnOk result (self.new.choices.items ≡ self.old.choices.items ++ record {
          at = record at.now { candidate = candidate };
          terms = terms;
          taken = length self.old.takes.items;
          bound = length self.old.bindings;
        } ∷ []) }
        ensures takes { self.new.takes ≡ self.old.takes }
        ensures bindings { self.new.bindings ≡ self.old.bindings }
    {
        let choice = Choice {
            at: Standing {
                piece: at.piece,
                candidate,
                frame: at.frame,
            },
            terms,
            taken: self.takes.len(),
            bound: self.bindings.count(),
        };
        self.choices.push(choice)?;
        Ok(())
    }

    /// Leaves a second candidate as a choice, where there is one.
    pub fn keep_next(
        &mut self,
        at: &Standing,
        second: Option<usize>,
        terms: usize,
    ) -> Result<(), AllocError>
        ensures choices { OnOk result (self.new.choices.items ≡
            keeping second at.now terms (length self.old.takes.items) (length self.old.bindings) self.old.choices.items) }
        ensures takes { self.new.takes ≡ self.old.takes }
        ensures bindings { self.new.bindings ≡ self.old.bindings }
    {
        match second {
            Some(candidate) => self.keep(at, candidate, terms),
            None => Ok(()),
        }
    }

    /// Takes the last choice, and gives back what was taken and bound since.
    pub fn retreat(&mut self) -> Option<Choice>
        ensures { IsBack result self.old self.new }
    {
        let choice = self.choices.pop()?;
        self.takes.truncate(choice.taken);
        self.bindings.cut_to(choice.bound);
        Some(choice)
    }

    pub fn take(&mut self, host: usize, made: Use) -> Result<(), AllocError>
        ensures takes { OnOk result (self.new.takes.items ≡ self.old.takes.items ++ record { host = host; made = made } ∷ []) }
        ensures bindings { self.new.bindings ≡ self.old.bindings }
        ensures choices { self.new.choices ≡ self.old.choices }
    {
        self.takes.push(Taken { host, made })?;
        Ok(())
    }

    /// Whether nothing that is taken of a term clashes with this.
    pub fn is_free(&self, host: usize, one: &Use) -> bool
        ensures { result ≡ not (list_any (λ u. clashes u one.now) (uses_at self.now.takes.items host)) }
    {
        for taken in self.takes.as_slice() {
            if is_taken_by(taken, host, one) {
                return false;
            }
        }
        true
    }

    /// What is taken of a term, in order.
    pub fn uses_of(&self, alloc: Global, host: usize) -> Result<Uses, AllocError>
        ensures { IfOk result (λ uses. uses ≡ uses_at self.now.takes.items host) }
    {
        let mut uses = Uses::new(alloc);
        for taken in self.takes.as_slice() {
            put_use(&mut uses, taken, host)?;
        }
        Ok(uses)
    }

    /// The match that this makes of the term itself.
    pub fn into_match(self, alloc: Global) -> Result<Match, AllocError>
        ensures { IfOk result (λ m. m ≡ record { takes = uses_at self.takes.items 0; bindings = self.bindings }) }
    {
        let takes = self.uses_of(alloc, 0)?;
        let Trail {
            takes: _,
            bindings,
            choices: _,
        } = self;
        Ok(Match { takes, bindings })
    }
}

/// Whether this is taken of a term, and clashes with something.
fn is_taken_by(taken: &Taken, host: usize, one: &Use) -> bool
    ensures { result ≡ list_any (λ u. clashes u one.now) (option_to_list (use_of host taken.now)) }
{
    taken.host == host && taken.made.clashes(one)
}

/// Puts what is taken last, where it is taken of this term.
fn put_use(uses: &mut Uses, taken: &Taken, host: usize) -> Result<(), AllocError>
    ensures { OnOk result (uses.new ≡ uses.old ++ option_to_list (use_of host taken.now)) }
{
    if taken.host == host {
        uses.push(taken.made)?;
    }
    Ok(())
}
