//! Whether a condition holds of a term with its coefficient.
#![tactic(auto)]

mod condition;
mod count;
pub mod laws;
mod occurring;
mod value;

pub use condition::holds;
