//! Right sides and conditions as they are carried out, and patterns as they are matched: every name stands as its Id, and a
//! division as a negative power.
#![tactic(auto)]

mod condition;
pub mod laws;
mod pattern;
mod tree;

pub use condition::{Alternatives, Condition, Counted, Test, Value, Weighted, Weights};
pub use form_term::Natural;
pub use pattern::{IndexName, Name, Pattern, PatternPiece, Sets, Sort};
pub use tree::{Base, Exponent, Link, Piece, Tree};
