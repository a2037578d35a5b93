//! Products of several factors in a row.
#![tactic(auto)]

pub mod laws;
mod reach;

pub use reach::Reach;
