//! Branches on levels: a condition that doesn't ask for the coefficient parts the joined terms.
ghost use Rattle.std.specs.Prelude.{◌≡◌, [], map, option_map, IfOk, IfSome};
ghost use Rattle.form_flow.specs.Statements.{action as action_of, branch_by, first_branch};
ghost use Rattle.form_flow.specs.Ways.{Acting, acts_of};
ghost use Rattle.form_levels.specs.Heaps.{RunsInto, limits_of};
ghost use Rattle.form_levels.specs.Parting.{IsParted};

use crate::asking::{asks_coefficient, is_so};
use crate::heap::Heap;
use crate::level::behind;
use crate::levels::Levels;
use crate::pace::Pace;
use form_flow::{Question, ReadyBlock, ReadyBranch};
use form_gathered::JoinedTerm;
use std::alloc::{AllocError, Global};

/// The joined terms of which a condition holds, and the others.
#[derive(Drop)]
pub struct Parted {
    pub taken: Vec<JoinedTerm>,
    pub passed: Vec<JoinedTerm>,
}

impl<'m, 'a> Levels<'m, 'a> {
    /// The first branch whose condition holds, for each term.
    #[cycle(levels)]
    #[tactic(auto, using(form_base::proofs::Branches::branch_at_most))]
    pub fn choose(
        &self,
        branches: &[ReadyBranch<'a>],
        last: &Option<ReadyBlock<'a>>,
        terms: Vec<JoinedTerm>,
        acted: &mut Heap,
        pace: &mut Pace,
    ) -> Result<Option<Vec<JoinedTerm>>, AllocError>
        ensures { (act : Acting) → act ≡ action_of (limits_of self.now) →
            IfOk result (λ made. IfSome made (λ idle. RunsInto (first_branch (map (branch_by act) branches.now) (option_map (acts_of act) last.now)) terms.items idle.items acted.old acted.new)) }
    {
        let mut idle = Vec::new(self.alloc);
        let mut rest = terms;
        for branch in branches {
            if asks_coefficient(&branch.condition) {
                return Ok(None);
            }
            let Parted { taken, passed } = part(self.alloc, &branch.condition, rest)?;
            let Some(more) = self.block(&branch.block, taken, acted, pace)? else {
                return Ok(None);
            };
            idle = behind(idle, more)?;
            rest = passed;
        }
        let Some(more) = self.otherwise(last, rest, acted, pace)? else {
            return Ok(None);
        };
        Ok(Some(behind(idle, more)?))
    }

    /// What stands behind `else`, where it is written.
    #[cycle(levels)]
    fn otherwise(
        &self,
        last: &Option<ReadyBlock<'a>>,
        terms: Vec<JoinedTerm>,
        acted: &mut Heap,
        pace: &mut Pace,
    ) -> Result<Option<Vec<JoinedTerm>>, AllocError>
        ensures { (act : Acting) → act ≡ action_of (limits_of self.now) →
            IfOk result (λ made. IfSome made (λ idle. RunsInto (first_branch [] (option_map (acts_of act) last.now)) terms.items idle.items acted.old acted.new)) }
    {
        match last {
            Some(block) => self.block(block, terms, acted, pace),
            None => Ok(Some(terms)),
        }
    }
}

/// Joined terms parted by a condition.
fn part(alloc: Global, condition: &Question, terms: Vec<JoinedTerm>) -> Result<Parted, AllocError>
    ensures { IfOk result (IsParted condition.now terms.items) }
{
    let mut taken = Vec::new(alloc);
    let mut passed = Vec::new(alloc);
    for term in terms {
        if is_so(alloc, condition, &term)? {
            taken.push(term)?;
        } else {
            passed.push(term)?;
        }
    }
    Ok(Parted { taken, passed })
}
