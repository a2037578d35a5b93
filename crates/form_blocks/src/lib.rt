//! The blocks of a module: which of its statements begin and end them, and what of that is refused.
#![tactic(auto)]

mod group;
mod growing;
pub mod laws;
mod module;
mod open;
mod open_blocks;
mod opens;
mod reading;
mod role;
mod tree_part;

pub use growing::parts_of;
pub use module::ModuleText;
pub use open::{BlockKind, Fault, Open};
pub use reading::Reading;
