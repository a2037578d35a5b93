//! Reading right sides and patterns: which tokens are one, and which tree it is.
#![tactic(auto)]

mod balance;
mod brackets;
mod depth;
mod effect;
mod error;
mod known;
pub mod laws;
mod reader;
mod right_side;
mod shape;
mod terminal;
mod texts;
mod weights;

pub use error::ReadError;
pub use right_side::RightSide;
pub use terminal::Terminal;
pub use texts::{read_expr, read_pattern, read_pattern_within, read_right};
