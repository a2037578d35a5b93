//! Patterns and sets over Ids, and what a right side knows of its pattern.
#![tactic(auto)]

mod joining;
mod knowing;
mod putting;
mod reading;
mod sets;

pub use knowing::known_of;
pub use reading::pattern;
pub use sets::elements;
