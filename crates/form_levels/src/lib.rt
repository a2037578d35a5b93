//! What statements make of many terms at once, statement by statement, where equal terms meet on the way.
//!
//! A level is all that stands between two statements, and in a `repeat` what goes into one turn: joined terms, those on whose
//! way something acted apart from the others (`level`). Equal ones that were made are brought together where that gains
//! something (`heap`, `pace`). A statement that is no block is carried out on each joined term (`leaf`, `rewriting`, `groups`),
//! by products with the lists of right sides (`fronts`, `right_sides`), and blocks on whole levels (`levels`, `choosing`). All of
//! it either comes to an answer, and then nothing is refused, or to none, and then nothing is known (`outputs`). What can't come
//! to an answer isn't tried, nor what gains nothing by it (`gathering`).
#![tactic(auto)]

mod asking;
mod choosing;
mod fronts;
mod gathering;
mod groups;
mod heap;
pub mod laws;
mod leaf;
mod level;
mod levels;
mod outputs;
mod pace;
mod rewriting;
mod right_sides;

pub use outputs::{joined_outputs, outputs_of_joined};
pub use pace::Pace;
