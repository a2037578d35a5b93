//! Collecting: equal terms are brought together, and their coefficients added.
#![tactic(auto)]

mod again;
mod collector;
pub mod laws;
mod short;
mod sorting;
mod terms;

pub use again::is_collected;
pub use collector::{CollectError, Collector};
pub use short::collect_short;
pub use sorting::sorted;
pub use terms::Terms;
