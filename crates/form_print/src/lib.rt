//! Printing: the text of an expression, put into a sink piece by piece.
#![tactic(auto)]

mod arguments;
mod call;
mod factor;
pub mod laws;
mod print;
mod size;

pub use factor::text_of;
pub use print::print_expression;
