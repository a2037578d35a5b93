//! What a term becomes, depth first.
//!
//! A term on its way has its path: what is left of each block that is open, from the innermost. The frames are terms that
//! wait behind it, each with the source that it comes from and its path. A frame goes when its last term goes on, so that
//! memory doesn't grow with the turns of a `repeat`.
ghost use Rattle.std.specs.Prelude.{◌≡◌, ℕ, ◌*◌, ◌≤◌, [], false, suc, length, IfOk, Ok, Some, None, map, option_map};
ghost use Rattle.form_expand.specs.Listing.{Listing};
ghost use Rattle.form_flow.specs.Arguments.{in_arguments as in_arguments_of};
ghost use Rattle.form_flow.specs.Frames.{Advances, Takes, TakesFrame, TakesLast};
ghost use Rattle.form_flow.specs.Left.{Begins, Follows, Foresees, Gives, Moves, Passes, Steps, going, left, left_of_frame, limits_of, now, on_way, pending, step_of};
ghost use Rattle.form_flow.specs.Nearing.{Ends, IsMost, Lessens, Nears, Spends, Starts, Waits, ahead, two_to, waiting_ahead, way_weight};
ghost use Rattle.form_flow.specs.Outcome.{Outcome, and_then, made, turns, without_marks};
ghost use Rattle.form_flow.specs.Paths.{ways};
ghost use Rattle.form_flow.specs.Sources.{HasEffect, listed};
ghost use Rattle.form_flow.specs.Statement.{Limits};
ghost use Rattle.form_flow.specs.Statements.{action as action_of, branch_by, first_branch, is_so as is_so_of, leaf as leaf_of, run, taken};
ghost use Rattle.form_flow.specs.Ways.{Acting, acts_of, finish};
ghost use Rattle.form_flow.specs.Weight.{block_weight, branches_weight, most_made, taken_weight, weight_of};

use crate::compiled::{CompiledModule, Question, ReadyAction, ReadyBlock, ReadyBranch, ReadyLeaf};
use crate::effect::{Effect, Source};
use crate::leaf::effect_of;
use crate::path::{Left, Path};
use crate::within::in_arguments;
use form_base::Cause;
use form_check::PickedList;
use form_cond::holds;
use form_expand::ExpandError;
use form_term::Monomial;
use std::alloc::{AllocError, Global};
use std::mem;

/// A term that waits, and what comes behind it from the same source.
#[derive(Drop)]
pub struct Frame<'m, 'a> {
    next: Monomial,
    path: Path<'m, 'a>,
    source: Source<'m>,
}

/// What one step makes of a term.
#[derive(Drop)]
pub enum Step {
    /// This term goes on.
    On(Monomial),
    /// It is an output.
    Out(Monomial),
    /// It is gone, or what comes of it waits.
    Gone,
}

/// What a term becomes, one by one, however many there are: in a clause `left` says what is left.
#[derive(Drop)]
pub struct Descent<'m, 'a> {
    compiled: &'m CompiledModule<'a>,
    /// The term, where it hasn't gone on its way yet.
    first: Option<Monomial>,
    /// That of the term that is on its way.
    path: Path<'m, 'a>,
    /// What waits behind the term that is on its way, the innermost last.
    frames: Vec<Frame<'m, 'a>>,
    /// The refusal that stands behind all frames.
    end: Option<Cause>,
    /// Whether a statement acted, also where nothing came of it.
    has_acted: bool,
}

impl<'m, 'a> Descent<'m, 'a> {
    pub fn new(
        alloc: Global,
        compiled: &'m CompiledModule<'a>,
        block: &'m ReadyBlock<'a>,
        item: Monomial,
    ) -> Descent<'m, 'a>
        ensures left { left result ≡ without_marks (run compiled.now.limits block.now item) }
        ensures ahead { ahead result ≡ two_to (suc (block_weight compiled.now.limits block.now)) }
    {
        let path = Path::new(alloc, block);
        let frames = Vec::new(alloc);
        Descent {
            compiled,
            first: Some(item),
            path,
            frames,
            end: None,
            has_acted: false,
        }
    }

    /// Whether a statement has acted.
    pub fn has_acted(&self) -> bool
        ensures { result ≡ self.now.has_acted }
    {
        self.has_acted
    }

    /// The next output. The first refusal ends them; once it or want of memory was answered it isn't asked again.
    #[cycle(outputs)]
    pub fn next(&mut self, alloc: Global) -> Result<Option<Monomial>, ExpandError>
        ensures gives { Gives result (left self.old) self.new }
        ensures ahead { Lessens result self.old self.new }
    {
        loop {
            let item = match self.next_waiting(alloc) {
                Ok(Some(item)) => item,
                Ok(None) => return Ok(None),
                Err(error) => return Err(error),
            };
            match self.through(alloc, item) {
                Ok(Some(output)) => return Ok(Some(output)),
                Ok(None) => {}
                Err(error) => return Err(error),
            }
        }
    }

    /// Goes so many steps ahead at most, which are counted down: a refusal that these come to stands at the end of what is left.
    pub fn go_ahead(&mut self, alloc: Global, steps: &mut u32) -> Result<(), ExpandError>
        ensures { Foresees result (left self.old) }
    {
        let mut item = match self.next_waiting(alloc) {
            Ok(Some(first)) => first,
            Ok(None) => return Ok(()),
            Err(error) => return Err(error),
        };
        while *steps > 0 {
            *steps -= 1;
            item = match self.follow(alloc, item) {
                Ok(Some(next)) => next,
                Ok(None) => return Ok(()),
                Err(error) => return Err(error),
            };
        }
        Ok(())
    }

    /// A step of a term on its way, and the term that is on its way then; outputs are passed over.
    fn follow(&mut self, alloc: Global, item: Monomial) -> Result<Option<Monomial>, ExpandError>
        requires { self.old.first ≡ None }
        ensures { Follows result (on_way item self.old) self.new }
    {
        match self.step(alloc, item) {
            Ok(Step::On(next)) => Ok(Some(next)),
            Ok(Step::Out(_)) => self.next_waiting(alloc),
            Ok(Step::Gone) => self.next_waiting(alloc),
            Err(error) => Err(error),
        }
    }

    /// The next term that goes on, with its path: the first one, or that of the innermost frame.
    fn next_waiting(&mut self, alloc: Global) -> Result<Option<Monomial>, ExpandError>
        ensures begins { Begins result (left self.old) self.new }
        ensures ahead { Starts result self.old self.new }
    {
        if let Some(item) = self.first.take() {
            return Ok(Some(item));
        }
        self.next_of_frame(alloc)
    }

    /// The next term of the innermost frame, in which another one then waits. Where none does, the frame goes.
    fn next_of_frame(&mut self, alloc: Global) -> Result<Option<Monomial>, ExpandError>
        requires { self.old.first ≡ None }
        ensures begins { Begins result (left self.old) self.new }
        ensures ahead { Starts result self.old self.new }
    {
        let waiting = self.frames.len();
        if waiting == 0 {
            return self.ended();
        }
        match advance_frame(alloc, &mut self.frames[waiting - 1], &mut self.path) {
            Ok(Some(item)) => Ok(Some(item)),
            Ok(None) => Ok(self.take_frame()),
            Err(ExpandError::Refused(cause)) => Ok(self.take_last(cause)),
            Err(ExpandError::Memory) => Err(ExpandError::Memory),
        }
    }

    /// The end, where nothing waits.
    fn ended(&mut self) -> Result<Option<Monomial>, ExpandError>
        requires first { self.old.first ≡ None }
        requires frames { self.old.frames.items ≡ [] }
        ensures begins { Begins result (left self.old) self.new }
        ensures ahead { Starts result self.old self.new }
    {
        match self.end.take() {
            Some(cause) => Err(ExpandError::Refused(cause)),
            None => Ok(None),
        }
    }

    /// The innermost frame goes, and its term goes by its path.
    fn take_frame(&mut self) -> Option<Monomial>
        ensures { TakesFrame result self.old self.new }
    {
        let Some(frame) = self.frames.pop() else {
            return None;
        };
        let Frame { next, path, .. } = frame;
        self.path = path;
        Some(next)
    }

    /// The innermost frame goes, and its term goes by its path; behind that a refusal comes.
    fn take_last(&mut self, cause: Cause) -> Option<Monomial>
        ensures { TakesLast result cause self.old self.new }
    {
        let item = self.take_frame();
        self.refuse(cause);
        item
    }

    /// Behind the term that is on its way a refusal comes, and nothing stands behind that.
    fn refuse(&mut self, cause: Cause)
        ensures same { self.new ≡ record self.old { frames = self.new.frames; end = Some cause } }
        ensures none { self.new.frames.items ≡ [] }
    {
        self.frames.clear();
        self.end = Some(cause);
    }

    /// A term goes through one statement after the other, as long as one goes on, up to an output.
    #[cycle(outputs)]
    fn through(&mut self, alloc: Global, item: Monomial) -> Result<Option<Monomial>, ExpandError>
        requires { self.old.first ≡ None }
        ensures passes { Passes result (on_way item self.old) self.new }
        ensures ahead { Ends result self.old self.new }
    {
        let mut item = item;
        loop {
            item = match self.step(alloc, item) {
                Ok(Step::On(next)) => next,
                Ok(Step::Out(output)) => return Ok(Some(output)),
                Ok(Step::Gone) => return Ok(None),
                Err(error) => return Err(error),
            };
        }
    }

    /// One step of a term on its way: the next statement of the innermost block, or its end.
    #[cycle(outputs)]
    fn step(&mut self, alloc: Global, item: Monomial) -> Result<Step, ExpandError>
        requires { self.old.first ≡ None }
        ensures steps { Steps result (on_way item self.old) self.new }
        ensures nearer { Nears result self.old self.new }
    {
        let Some(action) = self.path.next() else {
            return self.leave(item);
        };
        stepped(self.act(alloc, action, item))
    }

    /// The innermost block ends.
    fn leave(&mut self, item: Monomial) -> Result<Step, ExpandError>
        requires first { self.old.first ≡ None }
        requires end { self.old.path.here.rest.now ≡ [] }
        ensures steps { Steps result (on_way item self.old) self.new }
        ensures nearer { Nears result self.old self.new }
    {
        match self.path.leave() {
            Left::Inside => Ok(Step::On(item)),
            Left::Outside => Ok(Step::Out(item)),
            Left::Exhausted => Err(ExpandError::Refused(Cause::RepeatBudget)),
        }
    }

    /// A statement is carried out. Answers the term that goes on.
    #[cycle(outputs)]
    fn act(
        &mut self,
        alloc: Global,
        action: &'m ReadyAction<'a>,
        item: Monomial,
    ) -> Result<Option<Monomial>, ExpandError>
        requires { self.old.first ≡ None }
        ensures moves { Moves result (pending (action_of (limits_of self.old) action.now item) self.old) self.new }
        ensures ahead { Spends result (weight_of (limits_of self.old) action.now) self.old self.new }
    {
        match action {
            ReadyAction::Plain(leaf) => self.carry_out(alloc, leaf, item),
            ReadyAction::Repeat(block) => self.repeat(block, item),
            ReadyAction::Choose(branches, last) => {
                self.choose(alloc, branches.as_slice(), last, item)
            }
            ReadyAction::Within(functions, block) => self.act_within(alloc, functions, block, item),
        }
    }

    /// A statement that is no block.
    fn carry_out(
        &mut self,
        alloc: Global,
        leaf: &'m ReadyLeaf<'a>,
        item: Monomial,
    ) -> Result<Option<Monomial>, ExpandError>
        requires { self.old.first ≡ None }
        ensures moves { Moves result (pending (leaf_of (limits_of self.old) leaf.now item) self.old) self.new }
        ensures ahead { Spends result (most_made (limits_of self.old) leaf.now) self.old self.new }
    {
        match effect_of(alloc, self.compiled, leaf, item) {
            Ok(effect) => self.take(alloc, effect),
            Err(error) => Err(error),
        }
    }

    /// A block that is carried out within arguments.
    #[cycle(outputs)]
    fn act_within(
        &mut self,
        alloc: Global,
        functions: &'m PickedList,
        block: &'m ReadyBlock<'a>,
        item: Monomial,
    ) -> Result<Option<Monomial>, ExpandError>
        requires { self.old.first ≡ None }
        ensures moves { Moves result (pending (in_arguments_of (limits_of self.old).terms functions.now (run (limits_of self.old) block.now) item) self.old) self.new }
        ensures ahead { Spends result (suc (suc (block_weight (limits_of self.old) block.now))) self.old self.new }
    {
        match in_arguments(alloc, self.compiled, functions.as_slice(), block, item) {
            Ok(effect) => self.take(alloc, effect),
            Err(error) => Err(error),
        }
    }

    /// A repeated block begins, where a turn may begin.
    fn repeat(
        &mut self,
        block: &'m ReadyBlock<'a>,
        item: Monomial,
    ) -> Result<Option<Monomial>, ExpandError>
        requires { self.old.first ≡ None }
        ensures moves { Moves result (pending (turns (limits_of self.old).turns (run (limits_of self.old) block.now) item) self.old) self.new }
        ensures ahead { Spends result ((limits_of self.old).turns * suc (block_weight (limits_of self.old) block.now)) self.old self.new }
    {
        let most = self.compiled.turns();
        if most == 0 {
            return Err(ExpandError::Refused(Cause::RepeatBudget));
        }
        self.path.enter_repeat(block, most - 1)?;
        Ok(Some(item))
    }

    /// The block of the first branch that holds begins.
    fn choose(
        &mut self,
        alloc: Global,
        branches: &'m [ReadyBranch<'a>],
        last: &'m Option<ReadyBlock<'a>>,
        item: Monomial,
    ) -> Result<Option<Monomial>, ExpandError>
        requires { self.old.first ≡ None }
        ensures moves { (act : Acting) → act ≡ action_of (limits_of self.old) →
            Moves result (pending (first_branch (map (branch_by act) branches.now) (option_map (acts_of act) last.now) item) self.old) self.new }
        ensures ahead { Spends result (suc (branches_weight (limits_of self.old) branches.now last.now)) self.old self.new }
    {
        match chosen(alloc, branches, last, &item)? {
            Some(block) => {
                self.path.enter(block)?;
                Ok(Some(item))
            }
            None => Ok(Some(item)),
        }
    }

    /// Notes whether a statement acted, and takes over what came of it. Answers the term that goes on.
    fn take(&mut self, alloc: Global, effect: Effect<'m>) -> Result<Option<Monomial>, ExpandError>
        requires { self.old.first ≡ None }
        ensures moves { (o : Outcome) → HasEffect (Ok effect.entry) o → Moves result (pending o self.old) self.new }
        ensures ahead { (n : ℕ) → IsMost effect.entry n → Waits result n self.old self.new }
    {
        match effect {
            Effect::None(item) => Ok(Some(item)),
            Effect::Discarded => Ok(None),
            Effect::One(item) => {
                self.mark();
                Ok(Some(item))
            }
            Effect::Nothing => {
                self.mark();
                Ok(None)
            }
            Effect::Source(source) => {
                self.mark();
                self.begin(alloc, source)
            }
        }
    }

    fn mark(&mut self)
        ensures marked { (l : Listing) → pending (made l) self.old ≡ now self.new (λ act. going (ways act self.new.path) l) }
        ensures first { self.new.first ≡ self.old.first }
        ensures weight { way_weight self.new ≡ way_weight self.old }
        ensures waiting { waiting_ahead self.new ≡ waiting_ahead self.old }
    {
        self.path.mark();
        self.has_acted = true;
    }

    /// The first term of a source goes on, and what comes behind it waits.
    fn begin(&mut self, alloc: Global, source: Source<'m>) -> Result<Option<Monomial>, ExpandError>
        requires { self.old.first ≡ None }
        ensures moves { Moves result (now self.old (λ act. going (ways act self.old.path) (listed source.entry))) self.new }
        ensures ahead { Waits result (length (listed source.entry).terms) self.old self.new }
    {
        let mut source = source;
        let item = match source.next(alloc) {
            Ok(Some(item)) => item,
            Ok(None) => return Ok(None),
            Err(error) => return Err(error),
        };
        self.wait(alloc, item, source)
    }

    /// This term goes on. What comes behind it from the same source waits in a frame, where there is more.
    fn wait(
        &mut self,
        alloc: Global,
        item: Monomial,
        source: Source<'m>,
    ) -> Result<Option<Monomial>, ExpandError>
        requires { self.old.first ≡ None }
        ensures moves { Moves result (now self.old (λ act. and_then (finish (ways act self.old.path) false item) (going (ways act self.old.path) (listed source.entry)))) self.new }
        ensures ahead { Waits result (length (listed source.entry).terms) self.old self.new }
    {
        let mut source = source;
        match source.next(alloc) {
            Ok(Some(next)) => {
                let path = self.path.copied(alloc)?;
                self.frames.push(Frame { next, path, source })?;
                Ok(Some(item))
            }
            Ok(None) => Ok(Some(item)),
            Err(ExpandError::Refused(cause)) => {
                self.refuse(cause);
                Ok(Some(item))
            }
            Err(ExpandError::Memory) => Err(ExpandError::Memory),
        }
    }
}

/// The term of a frame goes by its path, and the next one from its source waits.
fn advance_frame<'m, 'a>(
    alloc: Global,
    frame: &mut Frame<'m, 'a>,
    path: &mut Path<'m, 'a>,
) -> Result<Option<Monomial>, ExpandError>
    ensures advances { (act : Acting) → Advances act result (left_of_frame act frame.old) path.new frame.new }
    ensures ahead { (at : Limits) → Takes at result frame.old path.new frame.new }
{
    match frame.source.next(alloc) {
        Ok(Some(later)) => {
            path.set(&frame.path)?;
            Ok(Some(mem::replace(&mut frame.next, later)))
        }
        Ok(None) => Ok(None),
        Err(error) => Err(error),
    }
}

/// The step that a statement is, which answers the term that goes on.
fn stepped(made: Result<Option<Monomial>, ExpandError>) -> Result<Step, ExpandError>
    ensures { result ≡ step_of made }
{
    match made {
        Ok(Some(next)) => Ok(Step::On(next)),
        Ok(None) => Ok(Step::Gone),
        Err(error) => Err(error),
    }
}

/// The first branch whose condition holds of a term, else the last one, where there is one.
fn chosen<'m, 'a>(
    alloc: Global,
    branches: &'m [ReadyBranch<'a>],
    last: &'m Option<ReadyBlock<'a>>,
    item: &Monomial,
) -> Result<Option<&'m ReadyBlock<'a>>, AllocError>
    ensures weight { (at : Limits) → IfOk result (λ block. taken_weight at block ≤ branches_weight at branches.now last.now) }
    ensures taken { (act : Acting) → IfOk result (λ block. first_branch (map (branch_by act) branches.now) (option_map (acts_of act) last.now) item.now ≡ taken act block item.now) }
{
    for branch in branches {
        let truth = is_so(alloc, &branch.condition, item)?;
        if truth {
            return Ok(Some(&branch.block));
        }
    }
    match last {
        Some(block) => Ok(Some(block)),
        None => Ok(None),
    }
}

fn is_so(alloc: Global, question: &Question<'_>, item: &Monomial) -> Result<bool, AllocError>
    ensures holds { IfOk result (λ truth. truth ≡ is_so_of question.now item.now) }
{
    holds(
        alloc,
        question.alternatives().as_slice(),
        question.patterns(),
        item.coefficient,
        &item.term,
    )
}
