//! Statements as they are written: names with their spots, and right sides and patterns piece by piece.
#![tactic(auto)]

mod condition;
mod expr;
mod index_list;
pub mod laws;
mod long_expr;
mod module;
mod name_list;
mod number_list;
mod numbers;
mod picked;
mod setting;
mod statement;
mod weight;

pub use condition::{Condition, Test, Value, Weighted, WeightedList};
pub use expr::{Expr, Link, Named, Piece, Power, Restriction, Sign, SignedNumber, Spelled};
pub use index_list::{Dimension, IndexList, SpelledIndex};
pub use long_expr::{LongExpr, append};
pub use module::{
    Module, ModulePart, Outer, PlacedPart, WrittenAction, WrittenBlock, WrittenBranch, WrittenLeaf,
};
pub use name_list::NameList;
pub use number_list::NumberList;
pub use numbers::Numbers;
pub use picked::{Picked, PickedList};
pub use setting::Setting;
pub use statement::{Declared, Placed, Rewrite, Side, Statement, WrittenElements};
pub use weight::{Key, Weight};
