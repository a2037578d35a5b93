ghost use Rattle.std.specs.Prelude.{◌≡◌, ℕ, IfOk, IfSome};
ghost use Rattle.std.specs.Bool.{OnTrue};
ghost use Rattle.form_flow.specs.Outcome.{turns as turns_of};
ghost use Rattle.form_flow.specs.Statements.{action as action_of, run};
ghost use Rattle.form_levels.specs.Heaps.{AllInto, BothInto, RunsInto, limits_of};
ghost use Rattle.form_levels.specs.Runs.{Runs};

use crate::heap::Heap;
use crate::level::Level;
use crate::pace::Pace;
use form_flow::{CompiledModule, ReadyAction, ReadyBlock};
use form_gathered::JoinedTerm;
use std::alloc::{AllocError, Global};

/// The statements of a module, which are carried out on levels. What is made of joined terms on which something acted is put into a
/// heap, and the others are answered; or none, where something may be refused.
#[derive(Drop)]
pub struct Levels<'m, 'a> {
    pub alloc: Global,
    pub compiled: &'m CompiledModule<'a>,
}

impl<'m, 'a> Levels<'m, 'a> {
    /// All statements of a block, one after the other. What the last one makes goes into the heap at once.
    #[cycle(levels)]
    pub fn block(
        &self,
        block: &ReadyBlock<'a>,
        terms: Vec<JoinedTerm>,
        acted: &mut Heap,
        pace: &mut Pace,
    ) -> Result<Option<Vec<JoinedTerm>>, AllocError>
        ensures { IfOk result (λ made. IfSome made (λ idle. RunsInto (run (limits_of self.now) block.now) terms.items idle.items acted.old acted.new)) }
    {
        let Some((last, others)) = block.as_slice().split_last() else {
            return Ok(Some(terms));
        };
        let Some(level) = self.all(others, terms, pace)? else {
            return Ok(None);
        };
        self.act_on_both(last, level, acted, pace)
    }

    /// The level behind statements.
    #[cycle(levels)]
    fn all(
        &self,
        block: &[ReadyAction<'a>],
        terms: Vec<JoinedTerm>,
        pace: &mut Pace,
    ) -> Result<Option<Level>, AllocError>
        ensures { IfOk result (λ made. IfSome made (λ level. Runs (run (limits_of self.now) block.now) terms.items level.idle.items level.acted.items)) }
    {
        let mut level = Level {
            idle: terms,
            acted: Vec::new(self.alloc),
        };
        for action in block {
            let mut heap = Heap::new(self.alloc, pace.is_likely());
            let Some(idle) = self.act_on_both(action, level, &mut heap, pace)? else {
                return Ok(None);
            };
            let acted = heap.into_vec(pace)?;
            level = Level { idle, acted };
        }
        Ok(Some(level))
    }

    /// A statement on the terms on whose way nothing acted, and on the others.
    #[cycle(levels)]
    fn act_on_both(
        &self,
        action: &ReadyAction<'a>,
        level: Level,
        acted: &mut Heap,
        pace: &mut Pace,
    ) -> Result<Option<Vec<JoinedTerm>>, AllocError>
        ensures { IfOk result (λ made. IfSome made (λ idle. BothInto (action_of (limits_of self.now) action.now) level idle.items acted.old acted.new)) }
    {
        let Some(idle) = self.act(action, level.idle, acted, pace)? else {
            return Ok(None);
        };
        let Some(untouched) = self.act(action, level.acted, acted, pace)? else {
            return Ok(None);
        };
        if !acted.put_untouched(untouched)? {
            return Ok(None);
        }
        Ok(Some(idle))
    }

    /// A statement.
    #[cycle(levels)]
    pub fn act(
        &self,
        action: &ReadyAction<'a>,
        terms: Vec<JoinedTerm>,
        acted: &mut Heap,
        pace: &mut Pace,
    ) -> Result<Option<Vec<JoinedTerm>>, AllocError>
        ensures { IfOk result (λ made. IfSome made (λ idle. RunsInto (action_of (limits_of self.now) action.now) terms.items idle.items acted.old acted.new)) }
    {
        if terms.is_empty() {
            return Ok(Some(terms));
        }
        match action {
            ReadyAction::Plain(leaf) => self.leaf(leaf, terms, acted, pace),
            ReadyAction::Repeat(block) => self.repeat(block, terms, acted, pace),
            ReadyAction::Choose(branches, last) => {
                self.choose(branches.as_slice(), last, terms, acted, pace)
            }
            ReadyAction::Within(_, _) => Ok(None),
        }
    }

    /// A block that is repeated, turn by turn: a term leaves after one in which nothing acted on its way.
    #[cycle(levels)]
    fn repeat(
        &self,
        block: &ReadyBlock<'a>,
        terms: Vec<JoinedTerm>,
        acted: &mut Heap,
        pace: &mut Pace,
    ) -> Result<Option<Vec<JoinedTerm>>, AllocError>
        ensures { IfOk result (λ made. IfSome made (λ idle. RunsInto (turns_of (limits_of self.now).turns (run (limits_of self.now) block.now)) terms.items idle.items acted.old acted.new)) }
    {
        let turns = self.compiled.turns();
        if turns == 0 {
            return Ok(None);
        }
        let mut next = Heap::new(self.alloc, pace.is_likely());
        let Some(idle) = self.block(block, terms, &mut next, pace)? else {
            return Ok(None);
        };
        let next = next.into_vec(pace)?;
        if !self.turns(block, turns - 1, next, acted, pace)? {
            return Ok(None);
        }
        Ok(Some(idle))
    }

    /// So many further turns at most. What leaves goes into the heap. Answers false where something may be refused.
    #[cycle(levels)]
    fn turns(
        &self,
        block: &ReadyBlock<'a>,
        most: u64,
        terms: Vec<JoinedTerm>,
        acted: &mut Heap,
        pace: &mut Pace,
    ) -> Result<bool, AllocError>
        ensures { IfOk result (λ all. OnTrue all (AllInto (turns_of most (run (limits_of self.now) block.now)) terms.items acted.old acted.new)) }
    {
        let mut terms = terms;
        for _begun in 0..most {
            if terms.is_empty() {
                return Ok(true);
            }
            let mut next = Heap::new(self.alloc, pace.is_likely());
            let Some(leaving) = self.block(block, terms, &mut next, pace)? else {
                return Ok(false);
            };
            if !acted.put(leaving)? {
                return Ok(false);
            }
            terms = next.into_vec(pace)?;
        }
        Ok(terms.is_empty())
    }
}
