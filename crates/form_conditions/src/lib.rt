//! Reading conditions: which tokens are one, and which one it is.
#![tactic(auto)]

mod condition;
pub mod laws;
mod tokens;
mod value;
mod word;

pub use condition::{read_condition, take_condition};
