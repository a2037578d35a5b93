//! What an `id` takes out of a term, by its option.
#![tactic(auto)]

mod cuts;
pub mod laws;
mod often;
mod take;
mod taken;
mod weight;

pub use take::take_out;
pub use taken::{Cut, Cuts, Matches, Origin, Single, Take, Taken};
