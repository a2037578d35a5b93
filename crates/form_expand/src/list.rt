ghost use Rattle.std.specs.Prelude.{◌≡◌, ℕ, OnOk};
ghost use Rattle.form_expand.specs.Left.{times_by};
ghost use Rattle.form_expand.specs.Lists.{list_left, list_whole};
ghost use Rattle.form_expand.specs.Next.{Gives};

use crate::ExpandError;
use crate::again::Again;
use crate::walk::Walk;
use form_term::Monomial;
use std::alloc::Global;

/// A list of a product, whose terms are taken one by one, again and again.
#[cycle(list)]
#[derive(Drop)]
pub enum List<'a> {
    /// One that has at most as many terms as a list may have, and then is refused.
    Whole(Walk<'a>),
    /// One that has all its terms.
    Unlimited(Walk<'a>),
    Again(Box<Again<'a>>),
}

impl<'a> List<'a> {
    /// Begins again.
    pub fn restart(&mut self, alloc: Global)
        ensures whole { (max : ℕ) → list_whole max self.new ≡ list_whole max self.old }
        ensures left { (max : ℕ) → list_left max self.new ≡ list_whole max self.old }
    {
        match self {
            List::Whole(walk) => walk.restart(),
            List::Unlimited(walk) => walk.restart(),
            List::Again(again) => again.restart(alloc),
        }
    }

    /// A front of a product times the next term with which it isn't 0. `deeper` counts down with each list within another.
    #[cycle(taking)]
    pub fn next_times(
        &mut self,
        alloc: Global,
        limit: u64,
        left: &mut Option<Monomial>,
        deeper: u64,
    ) -> Result<Option<Monomial>, ExpandError>
        ensures next { Gives result (times_by left.old (list_left limit self.old)) (times_by left.new (list_left limit self.new)) }
        ensures whole { OnOk result (list_whole limit self.new ≡ list_whole limit self.old) }
    {
        match self {
            List::Whole(walk) => walk.next_times(alloc, limit, left),
            List::Unlimited(walk) => walk.next_of_all(alloc, left),
            List::Again(again) => again.next_times(alloc, left, deeper),
        }
    }
}
