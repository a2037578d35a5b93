//! The lines of a text.
#![tactic(auto)]

mod line;
mod lines;

pub use line::Line;
pub use lines::{LinesError, last_line, lines_of};
