//! The list of a right side: its terms in the order in which it is written out, made one by one as they are asked for.
//!
//! A sum is read product by product (`stream`, `reader`). A product is paired from the left, deepest first, with one level
//! for each list (`product`, `list`), so that none of its terms is kept. A list is there as a whole (`whole`, `walk`), or is
//! made anew, in the same way, for each term of the front before it (`again`). Lists of one term are multiplied as they are
//! read, up to the first of another kind (`factors`), and a power is its list so many times, or one term (`power`). The
//! arguments of a function are written out and collected as it is read (`function`). So recursion goes as deep as parentheses
//! and functions stand within one another.
//!
//! A term that stands behind a front many times makes many products at once (`repeated`). A term and lists behind it are a
//! row (`row`); a right side that is a function goes onto the term without a list (`lone_function`). A short list in which
//! nothing is bound is made once (`fixed`).
//!
//! Names go through what a match bound them to (`stored`, `value`): a symbol to the list of an expression, and a power to a
//! whole number (`bound`, `ended`), an index, a vector and a function to others, and a field to arguments.
#![tactic(auto)]

mod again;
mod argument;
mod bound;
mod ended;
mod error;
mod expansion;
mod factors;
mod fixed;
mod function;
pub mod laws;
mod list;
mod literal;
mod literal_arguments;
mod literal_sum;
mod lone_function;
mod number;
mod number_sum;
mod power;
mod product;
mod reader;
mod refusal;
mod repeated;
mod row;
mod scope;
mod single;
mod stored;
mod stream;
mod times;
mod value;
mod walk;
mod whole;

pub use argument::argument_pieces;
pub use error::ExpandError;
pub use expansion::{Expansion, expand_tree, whole_list};
pub use fixed::fixed_list;
pub use row::{Paired, Part, Row, Run, pair, times_list};
pub use single::call_list;
pub use stored::{Standing, Stored};
pub use whole::Whole;
