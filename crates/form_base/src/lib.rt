//! What every layer speaks of: names and their numbers, causes of refusals, places, statuses with
//! their codes, settings, conditions, and the options of statements.
#![tactic(auto)]

mod block;
mod cause;
mod comparison;
mod condition;
mod id;
mod name;
mod place;
mod settings;
mod spot;
mod status;
mod taking;

pub use block::{Action, Block, Branch};
pub use cause::Cause;
pub use comparison::Comparison;
pub use condition::{Condition, Test};
pub use id::Id;
pub use name::Name;
pub use place::Place;
pub use settings::Settings;
pub use spot::Spot;
pub use status::Status;
pub use taking::Taking;
