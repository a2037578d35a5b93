//! Right sides over Ids: their names, kinds, numbers and powers looked at from the left, or the first refusal.
#![tactic(auto)]

mod ahead;
mod alone;
mod error;
mod kinds;
mod known;
pub mod laws;
mod linking;
mod plain;
mod powers;
mod raised;
mod resolved;
mod sides;
mod standing;
mod walk;

pub use ahead::{ends_argument, power_at};
pub use error::{CheckError, PastLimit};
pub use kinds::{
    alone_end, copy_of, entry_end, found, head, misplaced, vector, wrong_delta, wrong_kind,
    wrong_name,
};
pub use known::Known;
pub use powers::{
    LARGEST_EXPONENT, LARGEST_NUMBER, LARGEST_POWER, Power, exponent, is_inverted, size_of, within,
};
pub use raised::symbol_named;
pub use resolved::{End, Found, Head};
pub use sides::{argument, right_side, right_side_of_list, right_side_of_pattern};
pub use standing::Standing;
