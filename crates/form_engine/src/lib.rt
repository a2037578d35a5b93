//! The whole of `tform`: from the words of a command line and a library of texts to what is printed and a status.
#![tactic(auto)]

mod answer;
mod call;
mod carry;
mod decide;
pub mod laws;
mod stop;

pub use call::tform;
