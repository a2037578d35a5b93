//! Joined terms: equal terms meet before the lists in which they stand are collected. A joined term stands for equal terms
//! of one list or of several, with their sum, how large that can become on the way, and how many of one list they are.
#![tactic(auto)]

mod batch;
mod joined;
pub mod laws;
mod tally;

pub use batch::{counted, joined_inputs, together};
pub use joined::{Joined, JoinedTerm};
