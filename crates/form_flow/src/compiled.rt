ghost use Rattle.std.specs.Prelude.{◌≡◌, ◌∷◌, ◌<◌, [], All, IfOk, IfSome, map};
ghost use Rattle.form_cond.specs.Condition.{AreReady};
ghost use Rattle.form_expand.specs.Expanding.{list_of_sum};
ghost use Rattle.form_expand.specs.Meanings.{no_meanings};
ghost use Rattle.form_expand.specs.Walks.{all_of};
ghost use Rattle.form_flow.specs.Left.{outputs_left};
ghost use Rattle.form_flow.specs.Making.{HasAllTrees, HasTree, compiled};
ghost use Rattle.form_flow.specs.Ready.{IsBuilt, kept_of, part_in, pattern_in};
ghost use Rattle.form_flow.specs.Statements.{outputs as outputs_of};
ghost use Rattle.form_term.specs.Term.{is_nil};
ghost use Rattle.form_tree.specs.Building.{sum_of};
ghost use Rattle.form_tree.specs.Tree.{pieces_of_sum};

use crate::compiling::block_of;
use crate::outputs::Outputs;
use form_ast::Side;
use form_base::{Action, Block, Branch, Id, Taking};
use form_check::{CheckedBlock, IdList, PickedList, ValueList};
use form_expand::{Standing, fixed_list};
use form_match::Pattern;
use form_term::Monomial;
use form_tree::{Alternatives, Condition, Piece, Tree};
use std::alloc::{AllocError, Global};
use std::marker::Model;

/// What names stand for where nothing is bound. It takes no memory.
pub fn nothing_bound(alloc: Global) -> Standing
    ensures { result ≡ no_meanings }
{
    Standing::from_vec(Vec::new(alloc))
}

/// A list that is made once has fewer terms.
const MOST_FIXED: usize = 256;

/// A right side made ready, in a clause its tree. Where its list within a limit is short and isn't refused, it has that.
#[derive(Drop)]
pub struct ReadySide<'a> {
    pieces: &'a [Piece],
    limit: u64,
    fixed: Option<Vec<Monomial>>,
    /// What names stand for where nothing is bound.
    nothing: Standing,
}

impl<'a> Model for ReadySide<'a> {
    ghost use Rattle.std.specs.Prelude.{◌≡◌};
    ghost use Rattle.form_expand.specs.Meanings.{no_meanings};
    ghost use Rattle.form_flow.specs.Codes.{sum_code};
    ghost use Rattle.form_flow.specs.Ready.{IsListOf};
    ghost use Rattle.form_tree.specs.Building.{sum_of};
    ghost use Rattle.form_tree.specs.Tree.{Sum, pieces_of_sum};

    ghost Value = { Sum };

    ghost coded = { sum_code };

    ghost view = { λ s. sum_of s.pieces.now };

    ghost invariant = { λ s. (s.pieces.now ≡ pieces_of_sum (sum_of s.pieces.now)) × IsListOf s.limit (sum_of s.pieces.now) s.fixed × (s.nothing ≡ no_meanings) };
}

/// An `id` or an `also` made ready for a module.
#[derive(Drop)]
pub struct CompiledPart<'a> {
    option: Option<Taking>,
    pattern: Pattern<'a>,
    right: ReadySide<'a>,
}

impl<'a> Model for CompiledPart<'a> {
    ghost use Rattle.form_flow.specs.Codes.{part_code};
    ghost use Rattle.form_flow.specs.Ready.{IsBuilt, Part, part_in};

    ghost Value = { Part };

    ghost coded = { part_code };

    ghost view = { λ p. part_in p.option p.pattern p.right };

    ghost invariant = { λ p. IsBuilt p.pattern };
}

/// An `id` with the `also`s behind it, in a clause their list.
#[derive(Drop)]
pub struct Group<'a> {
    parts: Vec<CompiledPart<'a>>,
}

impl<'a> Model for Group<'a> {
    ghost use Rattle.std.specs.Coded.{coded_list};
    ghost use Rattle.std.specs.Prelude.{List};
    ghost use Rattle.form_flow.specs.Codes.{part_code};
    ghost use Rattle.form_flow.specs.Ready.{Part};

    ghost Value = { List Part };

    ghost coded = { coded_list part_code };

    ghost view = { λ g. g.parts.items };
}

/// A condition with its patterns made ready.
#[derive(Drop)]
pub struct Question<'a> {
    condition: &'a Condition,
    patterns: Vec<Pattern<'a>>,
}

impl<'a> Model for Question<'a> {
    ghost use Rattle.std.specs.Prelude.{All, map};
    ghost use Rattle.form_flow.specs.Codes.{choice_code};
    ghost use Rattle.form_flow.specs.Ready.{Choice, IsBuilt, pattern_in};

    ghost Value = { Choice };

    ghost coded = { choice_code };

    ghost view = { λ q. record { patterns = map pattern_in q.patterns.items; condition = q.condition.now.alternatives } };

    ghost invariant = { λ q. All IsBuilt q.patterns.items };
}

/// A statement made ready that is no block.
#[derive(Drop)]
pub enum ReadyLeaf<'a> {
    Rewrite(Group<'a>),
    Multiply(Side, ReadySide<'a>),
    /// Indices that become dummies.
    Sum(IdList),
    /// An index that takes these values.
    SumOver(Id, ValueList),
    Discard,
}

pub type ReadyBlock<'a> = Block<ReadyLeaf<'a>, Question<'a>, PickedList>;

pub type ReadyAction<'a> = Action<ReadyLeaf<'a>, Question<'a>, PickedList>;

pub type ReadyBranch<'a> = Branch<Question<'a>, ReadyBlock<'a>>;

/// The statements of a module made ready.
#[derive(Drop)]
struct Statements<'a> {
    block: ReadyBlock<'a>,
}

/// The statements of a module that are carried out on terms, made ready once: in a clause with their limits.
pub struct CompiledModule<'a> {
    limit: u64,
    turns: u64,
    statements: Statements<'a>,
}

impl Drop for CompiledModule<'_> {
    fn drop(self) {
        let CompiledModule {
            limit: _,
            turns: _,
            statements: _,
        } = self;
    }
}

impl<'a> Model for CompiledModule<'a> {
    ghost use Rattle.form_flow.specs.ModuleCode.{compiled_code};
    ghost use Rattle.form_flow.specs.Statement.{Compiled};

    ghost Value = { Compiled };

    ghost coded = { compiled_code };

    ghost view = { λ c. record { limits = record { terms = c.limit; turns = c.turns }; statements = c.statements.block } };
}

impl<'a> ReadySide<'a> {
    /// A right side with its list within this limit, where that is short and isn't refused.
    pub fn new(alloc: Global, limit: u64, right: &'a Tree) -> Result<ReadySide<'a>, AllocError>
        requires { HasTree right.now }
        ensures { IfOk result (λ made. made ≡ sum_of right.now) }
    {
        let nothing = nothing_bound(alloc);
        let pieces = right.as_slice();
        let fixed = fixed_list(alloc, pieces, limit, &nothing, MOST_FIXED)?;
        Ok(ReadySide {
            pieces,
            limit,
            fixed,
            nothing,
        })
    }

    /// Its pieces.
    pub fn pieces(&self) -> &'a [Piece]
        ensures { result.now ≡ pieces_of_sum self.now }
    {
        self.pieces
    }

    /// What names stand for in it where nothing is bound.
    pub fn nothing(&self) -> &Standing
        ensures { result.now ≡ no_meanings }
    {
        &self.nothing
    }

    /// Its list within this limit, where it has that and a term may stand there.
    pub fn list_within(&self, limit: u64) -> Option<&[Monomial]>
        ensures list { IfSome result (λ list. list_of_sum limit no_meanings self.now ≡ all_of list.now) }
        ensures some { IfSome result (λ _. 0 < limit) }
    {
        if limit == 0 {
            return None;
        }
        if limit != self.limit {
            return None;
        }
        match &self.fixed {
            Some(list) => Some(list.as_slice()),
            None => None,
        }
    }
}

impl<'a> CompiledPart<'a> {
    pub fn new(
        option: Option<Taking>,
        pattern: Pattern<'a>,
        right: ReadySide<'a>,
    ) -> CompiledPart<'a>
        requires { IsBuilt pattern }
        ensures { result ≡ part_in option pattern.entry right.entry }
    {
        CompiledPart {
            option,
            pattern,
            right,
        }
    }

    pub fn option(&self) -> Option<Taking>
        ensures { result ≡ self.now.option }
    {
        self.option
    }

    pub fn pattern(&self) -> &Pattern<'a>
        ensures { result.now ≡ kept_of self.now }
    {
        &self.pattern
    }

    pub fn right(&self) -> &ReadySide<'a>
        ensures { result.now ≡ self.now.right }
    {
        &self.right
    }
}

impl<'a> Group<'a> {
    pub fn from_vec(parts: Vec<CompiledPart<'a>>) -> Group<'a>
        ensures { result ≡ parts.entry.items }
    {
        Group { parts }
    }

    /// Its only part, where it has one.
    pub fn only(&self) -> Option<&CompiledPart<'a>>
        ensures { IfSome result (λ part. self.now ≡ part.now ∷ []) }
    {
        match self.parts.as_slice() {
            [part] => Some(part),
            _ => None,
        }
    }

    pub fn as_slice(&self) -> &[CompiledPart<'a>]
        ensures { result.now ≡ self.now }
    {
        self.parts.as_slice()
    }
}

impl<'a> Question<'a> {
    pub fn new(condition: &'a Condition, patterns: Vec<Pattern<'a>>) -> Question<'a>
        requires { All IsBuilt patterns.items }
        ensures { result ≡ record { patterns = map pattern_in patterns.entry.items; condition = condition.now.alternatives } }
    {
        Question {
            condition,
            patterns,
        }
    }

    pub fn alternatives(&self) -> &Alternatives
        ensures { result.now ≡ self.now.condition }
    {
        &self.condition.alternatives
    }

    pub fn patterns(&self) -> &[Pattern<'a>]
        ensures { AreReady result.now self.now.patterns }
    {
        self.patterns.as_slice()
    }
}

impl<'a> CompiledModule<'a> {
    /// `checked` within these limits: the most terms of a list, and the most turns of a `repeat`.
    pub fn new(
        alloc: Global,
        limit: u64,
        turns: u64,
        checked: &'a CheckedBlock,
    ) -> Result<CompiledModule<'a>, AllocError>
        requires { All HasAllTrees checked.now }
        ensures { IfOk result (λ made. made ≡ compiled limit turns checked.now) }
    {
        let block = block_of(alloc, limit, checked)?;
        let statements = Statements { block };
        Ok(CompiledModule {
            limit,
            turns,
            statements,
        })
    }

    /// Whether there are no such statements.
    pub fn is_empty(&self) -> bool
        ensures { result ≡ is_nil self.now.statements }
    {
        self.statements.block.as_slice().is_empty()
    }

    /// What a term becomes, one by one.
    pub fn outputs<'m>(&'m self, alloc: Global, item: Monomial) -> Outputs<'m, 'a>
        ensures { outputs_left result ≡ outputs_of self.now item }
    {
        Outputs::new(alloc, self, &self.statements.block, item)
    }

    /// The most terms of a list.
    pub fn limit(&self) -> u64
        ensures { result ≡ self.now.limits.terms }
    {
        self.limit
    }

    /// The most turns of a `repeat`.
    pub fn turns(&self) -> u64
        ensures { result ≡ self.now.limits.turns }
    {
        self.turns
    }

    /// The statements.
    pub fn block(&self) -> &ReadyBlock<'a>
        ensures { result.now ≡ self.now.statements }
    {
        &self.statements.block
    }
}
