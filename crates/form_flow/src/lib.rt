//! What a module's statements make of terms.
//!
//! A module is made ready once (`compiling`), as a tree of blocks (`compiled`). An `id` with its `also`s takes out of a term
//! what its parts match, one after the other, and what is left is paired with the right sides (`rest`); other statements that
//! are no blocks are in `leaf`. `sum` is in `summing`, over the indices of a term (`indices`), whether it stays as it is
//! (`staying`), and what becomes of it with others (`renaming`). What comes of a term goes through the later statements, depth first, by its path through the blocks
//! (`path`, `descent`, `outputs`). A block that takes arguments is carried out on their terms (`within`).
#![tactic(auto)]

mod between;
mod carry;
mod collecting;
mod compiled;
mod compiling;
mod descent;
mod effect;
mod indices;
pub mod laws;
mod leaf;
mod outputs;
mod path;
mod renaming;
mod rest;
mod staying;
mod summing;
mod within;
mod words;

pub use carry::{Emit, End, Go};
pub use compiled::{
    CompiledModule, CompiledPart, Group, Question, ReadyAction, ReadyBlock, ReadyBranch, ReadyLeaf,
    ReadySide,
};
pub use outputs::Outputs;
pub use words::{with_front, word_of};
