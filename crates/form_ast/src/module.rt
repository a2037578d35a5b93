ghost use Rattle.std.specs.Prelude.{◌≡◌};

use crate::{
    Condition, Declared, Dimension, Expr, IndexList, LongExpr, NameList, Numbers, PickedList,
    Rewrite, Side, Spelled, WrittenElements,
};
use form_base::{Action, Block, Branch, Spot};
use sqlite_items::Items;
use std::marker::Model;

/// A statement that is carried out on terms and is no block.
#[derive(Drop)]
pub enum WrittenLeaf {
    /// An `id` and its `also`s.
    Rewrite(Rewrite, Items<Rewrite>),
    /// A `multiply`: from this side, by this right side.
    Multiply(Side, Expr),
    /// A `sum` of indices that become dummies.
    Sum(NameList),
    /// A `sum` of an index over these numbers.
    SumOver(Spelled, Numbers),
    Discard,
}

pub type WrittenBlock = Block<WrittenLeaf, Condition, PickedList>;

pub type WrittenAction = Action<WrittenLeaf, Condition, PickedList>;

pub type WrittenBranch = Branch<Condition, WrittenBlock>;

/// A statement that stands in no block. No names at `Drop`, `Skip` and `Print` means all expressions.
#[derive(Drop)]
pub enum Outer {
    /// Names that are declared, other than indices.
    Names(Declared, NameList),
    Indices(IndexList),
    /// The dimension of the indices that are declared from here on without one.
    Dimension(Dimension),
    /// A set with its elements.
    Set(Spelled, WrittenElements),
    /// `On statistics` or `Off statistics`, which changes nothing.
    Statistics,
    Drop(NameList),
    Skip(NameList),
    Local(Spelled, LongExpr),
    Print(NameList),
}

/// A statement of a module.
#[derive(Drop)]
pub enum ModulePart {
    Outer(Outer),
    Action(WrittenAction),
}

/// A statement of a module, and where its first token stands.
#[derive(Drop)]
pub struct PlacedPart {
    pub spot: Spot,
    pub part: ModulePart,
}

/// What stands up to a module instruction: in a clause the list of its statements, in the order of the text, where blocks
/// are trees. Empty statements are left out.
#[derive(Drop)]
pub struct Module {
    parts: Vec<PlacedPart>,
}

impl Model for Module {
    ghost use Rattle.std.specs.Coded.{coded_list};
    ghost use Rattle.std.specs.Prelude.{List};
    ghost use Rattle.form_ast.specs.contracts.module.PlacedPart as part;
    ghost use Rattle.form_ast.specs.declared.module.PlacedPart.{PlacedPart};

    ghost Value = { List PlacedPart };

    ghost coded = { coded_list part.the_row.coded };

    ghost view = { λ m. m.parts.items };
}

impl Module {
    pub fn from_vec(parts: Vec<PlacedPart>) -> Module
        ensures { result ≡ parts.items }
    {
        Module { parts }
    }

    pub fn as_slice(&self) -> &[PlacedPart]
        ensures { result.now ≡ self.now }
    {
        self.parts.as_slice()
    }

    pub fn into_vec(self) -> Vec<PlacedPart>
        ensures { result.items ≡ self }
    {
        let Module { parts } = self;
        parts
    }
}
