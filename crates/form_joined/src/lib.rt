//! Products of terms that stand for several: where what they stand for is multiplied, and nothing of it is refused.
#![tactic(auto)]

pub mod laws;
mod powers;
mod products;

pub use powers::Powers;
pub use products::{Factors, joined_singles, times_joined, times_list};
