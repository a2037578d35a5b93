//! The preprocessor: from a library of texts to the lines that are handed on to be split into statements.
#![tactic(auto)]

mod acting;
mod braces;
mod bytes;
mod calling;
mod choosing;
mod error;
mod expander;
mod file;
mod frame;
mod handed;
mod instruction;
mod journal;
mod key;
pub mod laws;
mod links;
mod looping;
mod machine;
mod nesting;
mod parts;
mod procedures;
mod putting;
mod source;
mod stop;
mod turns;
mod variables;

pub use file::{Expanded, FileError, expand};
pub use handed::Handed;
