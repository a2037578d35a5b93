//! Statements and modules: from the lines of a program to its statements as they are written.
#![tactic(auto)]

mod elements;
mod error;
mod indices;
mod instruction;
mod keyword;
pub mod laws;
mod line;
mod multiply;
mod names;
mod picked;
mod program;
mod rewrite;
mod statement;
mod sum;

pub use error::ProgramError;
pub use keyword::Keyword;
pub use line::Line;
pub use program::read_program;
