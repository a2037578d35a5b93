//! The objects that the product is lent, in memory: each tells all that it holds.
#![tactic(auto)]

mod calls;
mod gate;
mod library;
mod sink;
mod store;
mod stores;
mod text_map;

pub use gate::OpenGate;
pub use library::{MemLibrary, SureLibrary};
pub use sink::{MemSink, SureSink};
pub use store::MemStore;
pub use stores::fresh_stores;
