//! The tokens of a line: numbers, names, marks, and what is none of these.
#![tactic(auto)]

pub mod laws;
mod lexer;
mod mark;
mod shape;
mod token;

pub use lexer::{kind, lex, next_token};
pub use mark::{BuiltIn, Mark};
pub use shape::Shape;
pub use token::{Token, TokenKind};
