//! Patterns against terms: the first match of a pattern, what its wildcards stand for, and what is left of the term.
#![tactic(auto)]

mod arguments;
mod asking;
mod choices;
mod factors;
mod host;
mod in_words;
pub mod laws;
mod left;
mod matching;
mod pattern;
mod places;
mod search;
mod sets;
mod taken;
mod trail;
mod uses;
mod values;
mod whole;

pub use left::left_of;
pub use matching::{Match, first_match, first_of};
pub use pattern::Pattern;
pub use uses::{Use, Uses};
