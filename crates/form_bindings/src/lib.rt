//! What the wildcards of a pattern stand for once it matched.
#![tactic(auto)]

mod bindings;
mod values;

pub use bindings::{Bindings, Wildcard};
pub use values::is_same;
