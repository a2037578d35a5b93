//! The names that a program declares, in the order of declaration.
#![tactic(auto)]

mod elements;
mod facts;
mod kind;
pub mod laws;
mod names;
mod restriction;

pub use elements::{Elements, Ids, Numbers};
pub(crate) use facts::Facts;
pub use kind::{Dimension, Kind};
pub use names::{DeclareError, Names};
pub use restriction::Restriction;
