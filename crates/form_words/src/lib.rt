//! Reads the words of a command line: the settings of a run, and the file that it names.
#![tactic(auto)]

mod command;
mod job;
pub mod laws;
mod numbers;
mod words;

pub use job::{Job, WordsError};
pub use words::read_words;
