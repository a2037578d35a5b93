ghost use Rattle.std.specs.Prelude.{◌≡◌, ◌↔◌, ℕ, IsTrue, OnOk};
ghost use Rattle.form_expand.specs.Kept.{listing};
ghost use Rattle.form_expand.specs.Left.{times_by};
ghost use Rattle.form_expand.specs.Next.{Gives};
ghost use Rattle.form_expand.specs.Walks.{HasOne, all_left, walk_left, walk_whole};

use crate::ExpandError;
use crate::times::{times, times_onto};
use crate::whole::Whole;
use form_base::Cause;
use form_term::Monomial;
use std::alloc::Global;

/// A list that is there as a whole, whose terms are taken one by one, again and again.
#[derive(Drop)]
pub struct Walk<'a> {
    pub whole: Whole<'a>,
    /// The place of the next term.
    pub place: usize,
}

impl<'a> Walk<'a> {
    pub fn new(whole: Whole<'a>) -> Walk<'a>
        ensures { result ≡ record { whole = whole.entry; place = 0 } }
    {
        Walk { whole, place: 0 }
    }

    /// Begins again.
    pub fn restart(&mut self)
        ensures same { self.new ≡ record self.old { place = 0 } }
        ensures left { (max : ℕ) → walk_left max self.new ≡ walk_whole max self.old }
    {
        self.place = 0;
    }

    /// A front of a product times the next term with which it isn't 0. With the last term the front is changed in place, and
    /// goes.
    pub fn next_times(
        &mut self,
        alloc: Global,
        limit: u64,
        left: &mut Option<Monomial>,
    ) -> Result<Option<Monomial>, ExpandError>
        ensures next { Gives result (times_by left.old (walk_left limit self.old)) (times_by left.new (walk_left limit self.new)) }
        ensures whole { OnOk result (listing self.new.whole ≡ listing self.old.whole) }
    {
        if self.has_one(limit) {
            if let Some(front) = left.take() {
                return self.last_times(alloc, front);
            }
        }
        self.further_times(alloc, limit, left)
    }

    /// The same where each of its terms is given.
    pub fn next_of_all(
        &mut self,
        alloc: Global,
        left: &mut Option<Monomial>,
    ) -> Result<Option<Monomial>, ExpandError>
        ensures next { Gives result (times_by left.old (all_left self.old)) (times_by left.new (all_left self.new)) }
        ensures whole { OnOk result (listing self.new.whole ≡ listing self.old.whole) }
    {
        let all = self.whole.len() as u64;
        self.next_times(alloc, all, left)
    }

    /// Whether it has one term left, and isn't refused before or behind it.
    fn has_one(&self, limit: u64) -> bool
        ensures { IsTrue result ↔ HasOne limit self.now }
    {
        self.whole.end.is_none()
            && self.whole.len().saturating_sub(self.place) == 1
            && (self.place as u64) < limit
    }

    /// A term times the last one, behind which nothing is left.
    fn last_times(
        &mut self,
        alloc: Global,
        front: Monomial,
    ) -> Result<Option<Monomial>, ExpandError>
        ensures next { (max : ℕ) → HasOne max self.old → Gives result (times_by (Some front) (walk_left max self.old)) (walk_left max self.new) }
        ensures whole { listing self.new.whole ≡ listing self.old.whole }
    {
        let Some(term) = self.whole.at(self.place) else {
            return Ok(None);
        };
        let made = times_onto(alloc, front, term)?;
        self.place += 1;
        Ok(made)
    }

    /// A front of a product, which stays, times the next term with which it isn't 0.
    fn further_times(
        &mut self,
        alloc: Global,
        limit: u64,
        left: &Option<Monomial>,
    ) -> Result<Option<Monomial>, ExpandError>
        ensures next { Gives result (times_by left.now (walk_left limit self.old)) (times_by left.now (walk_left limit self.new)) }
        ensures whole { OnOk result (listing self.new.whole ≡ listing self.old.whole) }
    {
        while let Some(term) = self.whole.at(self.place) {
            if self.place as u64 >= limit {
                return Err(ExpandError::Refused(Cause::ExpandLimit));
            }
            let made = times(alloc, left, term)?;
            self.place += 1;
            if let Some(made) = made {
                return Ok(Some(made));
            }
        }
        self.whole.ended()
    }
}
