#![tactic(auto)]

mod blanks;
mod calculation;
mod condition;
mod error;
pub mod laws;
mod marks;
mod number;
mod numerals;
mod operand;
mod operands;
mod operator;
mod row;
mod stack;
mod text;

pub use calculation::calculate;
pub use condition::holds;
pub use error::CalcError;
pub use number::Number;
pub use operand::number_of;
pub use row::Row;
pub use stack::Stack;
pub use text::Text;
