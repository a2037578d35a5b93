ghost use Rattle.std.specs.Prelude.{◌≡◌};

use crate::{
    Condition, Dimension, Expr, IndexList, LongExpr, NameList, NumberList, Numbers, PickedList,
    Spelled,
};
use form_base::{Spot, Taking};
use std::marker::Model;

/// What names are declared as.
#[derive(Clone, Copy, PartialEq, Eq)]
pub enum Declared {
    Symbols,
    Vectors,
    /// Functions that don't commute with each other.
    Functions,
    /// Commuting functions.
    CFunctions,
}

/// The elements of a set, at least one: names, or whole numbers with their signs.
#[derive(Drop)]
pub enum WrittenElements {
    Names(NameList),
    Numbers(NumberList),
}

/// From which side a term is multiplied.
#[derive(Clone, Copy, PartialEq, Eq)]
pub enum Side {
    Left,
    Right,
}

/// An `id` or an `also`.
#[derive(Drop)]
pub struct Rewrite {
    pub is_also: bool,
    /// Its option, where one is written.
    pub option: Option<Taking>,
    pub pattern: Expr,
    pub right: Expr,
}

/// A statement as it is written. No names at `Drop`, `Skip` and `Print` means all expressions.
#[derive(Drop)]
pub enum Statement {
    /// Names that are declared, other than indices.
    Names(Declared, NameList),
    Indices(IndexList),
    /// The dimension of the indices that are declared from here on without one.
    Dimension(Dimension),
    /// A set with its elements.
    Set(Spelled, WrittenElements),
    /// `On statistics` or `Off statistics`, which changes nothing.
    Statistics,
    Drop(NameList),
    Skip(NameList),
    Local(Spelled, LongExpr),
    Rewrite(Rewrite),
    /// A `multiply`: from this side, by this right side.
    Multiply(Side, Expr),
    /// A `sum` of indices that become dummies.
    Sum(NameList),
    /// A `sum` of an index over these numbers.
    SumOver(Spelled, Numbers),
    Discard,
    /// A block begins: what stands up to its end is repeated. A `repeat` that stands before a single statement or block
    /// has the end of its block behind that.
    Repeat,
    EndRepeat,
    /// A block begins, with its first branch. An `if` that stands before a single statement or block has the end of its
    /// block behind that.
    If(Condition),
    /// A further branch begins.
    ElseIf(Condition),
    /// The last branch begins.
    Else,
    EndIf,
    /// A block begins that takes arguments of these functions, of all where none is written.
    Argument(PickedList),
    EndArgument,
    Print(NameList),
}

/// A statement, and where its first token stands.
#[derive(Drop)]
pub struct Placed {
    pub spot: Spot,
    pub statement: Statement,
}
