//! The way of a term: what is left of each block that is open around it.
ghost use Rattle.std.specs.Prelude.{◌≡◌, ◌+◌, ◌*◌, ◌<◌, ◌∷◌, ◌||◌, [], false, true, suc, reverse, IfOk, Some, None};
ghost use Rattle.form_term.specs.declared.monomial.Monomial.{Monomial};
ghost use Rattle.form_flow.specs.Outcome.{bind, turns, without_marks};
ghost use Rattle.form_flow.specs.Statement.{Limits};
ghost use Rattle.form_flow.specs.Ways.{Acting, acts_of, fresh, finish, mark, out, run_each};
ghost use Rattle.form_flow.specs.Weight.{Weighs, Weighs_less, block_weight, layer_weight, path_weight};
ghost use Rattle.form_flow.specs.Paths.{IsNext, IsUnchanged, Splits, Leaves, outer_layers, way, ways};

use crate::compiled::{ReadyAction, ReadyBlock};
use std::alloc::{AllocError, Global};

/// A block that is open: what is left of it.
#[derive(Clone, Copy)]
pub struct Layer<'m, 'a> {
    rest: &'m [ReadyAction<'a>],
    /// The block, where it is repeated.
    body: Option<&'m [ReadyAction<'a>]>,
    /// How many further turns of it may begin.
    left: u64,
    /// Whether something acted in the block, of a repeated one in this turn.
    has_acted: bool,
    /// Whether something acted in an earlier turn.
    acted_before: bool,
}

/// What is left for a term to go through: the innermost block that is open, and those around it.
#[derive(Drop)]
pub struct Path<'m, 'a> {
    here: Layer<'m, 'a>,
    /// The next one around it, where there is one, which takes no memory.
    outer: Option<Layer<'m, 'a>>,
    /// Those around that, the outermost first; without it they tell nothing.
    around: Vec<Layer<'m, 'a>>,
}

/// What leaving a block comes to.
#[derive(Clone, Copy, PartialEq, Eq)]
pub enum Left {
    /// Another block, or a further turn.
    Inside,
    /// No statement is left.
    Outside,
    /// A further turn may not begin.
    Exhausted,
}

impl<'m, 'a> Layer<'m, 'a> {
    fn plain(block: &'m ReadyBlock<'a>) -> Layer<'m, 'a>
        ensures plain { (act : Acting) → way act result ≡ fresh (acts_of act block.now) None 0 false }
        ensures weight { (at : Limits) → layer_weight at result ≡ suc (block_weight at block.now) }
    {
        Layer {
            rest: block.as_slice(),
            body: None,
            left: 0,
            has_acted: false,
            acted_before: false,
        }
    }

    #[tactic(auto, using(crate::proofs::Weighing::repeated_weight))]
    fn repeated(block: &'m ReadyBlock<'a>, left: u64) -> Layer<'m, 'a>
        ensures repeated { (act : Acting) → way act result ≡ fresh (acts_of act block.now) (Some (acts_of act block.now)) left false }
        ensures weight { (at : Limits) → layer_weight at result ≡ suc left * suc (block_weight at block.now) }
    {
        let actions = block.as_slice();
        Layer {
            rest: actions,
            body: Some(actions),
            left,
            has_acted: false,
            acted_before: false,
        }
    }

    /// The next statement, and the block behind it.
    fn split(self) -> Option<(&'m ReadyAction<'a>, Layer<'m, 'a>)>
        ensures splits { (act : Acting) → Splits act self.entry result }
        ensures weight { (at : Limits) → Weighs_less at result (layer_weight at self.entry) }
    {
        let (first, rest) = self.rest.split_first()?;
        let layer = Layer {
            rest,
            body: self.body,
            left: self.left,
            has_acted: self.has_acted,
            acted_before: self.acted_before,
        };
        Some((first, layer))
    }

    /// Whether something acted in it, in one of its turns.
    fn acted(&self) -> bool
        ensures { result ≡ (self.now.has_acted || self.now.acted_before) }
    {
        self.has_acted || self.acted_before
    }

    /// Something acted in it, or nothing further.
    fn marked(self, acted: bool) -> Layer<'m, 'a>
        ensures marked { (act : Acting) → way act result ≡ mark acted (way act self.entry) }
        ensures weight { (at : Limits) → layer_weight at result ≡ layer_weight at self.entry }
    {
        let mut layer = self;
        layer.has_acted = self.has_acted || acted;
        layer
    }
}

impl<'m, 'a> Path<'m, 'a> {
    /// That of a term before a block.
    pub fn new(alloc: Global, block: &'m ReadyBlock<'a>) -> Path<'m, 'a>
        ensures begins { (act : Acting) (m : Monomial) →
            finish (ways act result) false m ≡ without_marks (run_each (acts_of act block.now) m) }
        ensures weight { (at : Limits) → path_weight at result ≡ suc (block_weight at block.now) }
    {
        let here = Layer::plain(block);
        let around = Vec::new(alloc);
        Path {
            here,
            outer: None,
            around,
        }
    }

    /// The next statement of the block, which is passed.
    pub fn next(&mut self) -> Option<&'m ReadyAction<'a>>
        ensures next { (act : Acting) → IsNext act result self.old self.new }
        ensures weight { (at : Limits) → Weighs at result (path_weight at self.old) (path_weight at self.new) }
    {
        let Some((first, behind)) = self.here.split() else {
            return None;
        };
        self.here = behind;
        Some(first)
    }

    /// Something acts.
    pub fn mark(&mut self)
        ensures marks { (act : Acting) (m : Monomial) → finish (ways act self.new) false m ≡ finish (ways act self.old) true m }
        ensures weight { (at : Limits) → path_weight at self.new ≡ path_weight at self.old }
    {
        self.here.has_acted = true;
    }

    /// The path of another term.
    pub fn copied(&self, alloc: Global) -> Result<Path<'m, 'a>, AllocError>
        ensures ways { (act : Acting) → IfOk result (λ path. ways act path ≡ ways act self.now) }
        ensures weight { (at : Limits) → IfOk result (λ path. path_weight at path ≡ path_weight at self.now) }
    {
        Ok(Path {
            here: self.here,
            outer: self.outer,
            around: Vec::from_slice(alloc, self.around.as_slice())?,
        })
    }

    /// Becomes another one, whose term goes on.
    pub fn set(&mut self, other: &Path<'m, 'a>) -> Result<(), AllocError>
        ensures ways { (act : Acting) → IfOk result (λ _. ways act self.new ≡ ways act other.now) }
        ensures weight { (at : Limits) → IfOk result (λ _. path_weight at self.new ≡ path_weight at other.now) }
    {
        self.here = other.here;
        self.outer = other.outer;
        self.around.clear();
        self.around.extend_from_slice(other.around.as_slice())
    }

    /// A block begins.
    pub fn enter(&mut self, block: &'m ReadyBlock<'a>) -> Result<(), AllocError>
        ensures enters { (act : Acting) (m : Monomial) → IfOk result (λ _.
            finish (ways act self.new) false m ≡ bind (out (ways act self.old)) (run_each (acts_of act block.now) m)) }
        ensures weight { (at : Limits) → IfOk result (λ _. path_weight at self.new ≡ suc (block_weight at block.now) + path_weight at self.old) }
    {
        self.begin(Layer::plain(block))?;
        Ok(())
    }

    /// A block begins that is repeated, of which so many turns may begin behind the first one.
    pub fn enter_repeat(&mut self, block: &'m ReadyBlock<'a>, left: u64) -> Result<(), AllocError>
        ensures repeats { (act : Acting) (m : Monomial) → IfOk result (λ _.
            finish (ways act self.new) false m ≡ bind (out (ways act self.old)) (turns (suc left) (run_each (acts_of act block.now)) m)) }
        ensures weight { (at : Limits) → IfOk result (λ _. path_weight at self.new ≡ suc left * suc (block_weight at block.now) + path_weight at self.old) }
    {
        self.begin(Layer::repeated(block, left))?;
        Ok(())
    }

    fn begin(&mut self, layer: Layer<'m, 'a>) -> Result<(), AllocError>
        ensures begins { (act : Acting) → IfOk result (λ _. ways act self.new ≡ way act layer.entry ∷ ways act self.old) }
        ensures weight { (at : Limits) → IfOk result (λ _. path_weight at self.new ≡ layer_weight at layer.entry + path_weight at self.old) }
    {
        keep_outer(&mut self.around, self.outer)?;
        self.outer = Some(self.here);
        self.here = layer;
        Ok(())
    }

    /// The block ends: where something acted in it and it is repeated a further turn begins, else what is around it goes on.
    pub fn leave(&mut self) -> Left
        requires { self.old.here.rest.now ≡ [] }
        ensures leaves { (act : Acting) (m : Monomial) → Leaves result (finish (ways act self.old) false m) (finish (ways act self.new) false m) m }
        ensures weight { (at : Limits) → result ≡ Left.Inside → path_weight at self.new < path_weight at self.old }
    {
        match self.here.body {
            Some(body) if self.here.has_acted => self.turn_again(body),
            _ => self.go_out(),
        }
    }

    fn turn_again(&mut self, body: &'m [ReadyAction<'a>]) -> Left
        requires end { self.old.here.rest.now ≡ [] }
        requires repeated { self.old.here.body ≡ Some body }
        requires acted { self.old.here.has_acted ≡ true }
        ensures leaves { (act : Acting) (m : Monomial) → Leaves result (finish (ways act self.old) false m) (finish (ways act self.new) false m) m }
        ensures weight { (at : Limits) → result ≡ Left.Inside → path_weight at self.new < path_weight at self.old }
    {
        if self.here.left == 0 {
            return Left::Exhausted;
        }
        self.here = Layer {
            rest: body,
            body: Some(body),
            left: self.here.left - 1,
            has_acted: false,
            acted_before: true,
        };
        Left::Inside
    }

    fn go_out(&mut self) -> Left
        requires end { self.old.here.rest.now ≡ [] }
        requires unchanged { IsUnchanged self.old.here }
        ensures leaves { (act : Acting) (m : Monomial) → Leaves result (finish (ways act self.old) false m) (finish (ways act self.new) false m) m }
        ensures weight { (at : Limits) → result ≡ Left.Inside → path_weight at self.new < path_weight at self.old }
    {
        let Some(outer) = self.outer else {
            return Left::Outside;
        };
        self.outer = self.around.pop();
        self.here = outer.marked(self.here.acted());
        Left::Inside
    }
}

/// The next block around one joins those around that; without it there are none.
fn keep_outer<'m, 'a>(
    around: &mut Vec<Layer<'m, 'a>>,
    outer: Option<Layer<'m, 'a>>,
) -> Result<(), AllocError>
    ensures { IfOk result (λ _. reverse around.new.items ≡ outer_layers outer.entry around.old.items) }
{
    match outer {
        Some(outer) => {
            around.push(outer)?;
            Ok(())
        }
        None => {
            around.clear();
            Ok(())
        }
    }
}
