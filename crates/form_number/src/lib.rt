//! Whole numbers as they are written, which may have any size.
#![tactic(auto)]

mod digits;
mod number;
mod total;
mod whole_number;

pub use number::{Capped, Number};
pub use total::Total;
pub use whole_number::WholeNumber;
