//! What the product is lent from outside: a library of texts, a sink for what is printed, stores for sorted runs,
//! and a gate that a seat passes before each bucket.
//!
//! What an object holds is told or not: an object in memory tells it, one over a disk doesn't. Every count of
//! faults is told, and never falls.
#![tactic(auto)]

mod gate;
mod library;
mod sink;
mod store;

pub use gate::Gate;
pub use library::{Library, LibraryErr};
pub use sink::{Sink, SinkErr};
pub use store::{Store, StoreErr};
