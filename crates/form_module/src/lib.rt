//! Carries out a module: its definitions over the expressions that stand at its start, and its statements on the terms of
//! each expression.
#![tactic(auto)]

mod carry_error;
mod error;
mod expression_set;
mod inputs;
mod joined;
pub mod laws;
mod module;
mod report;
mod result;
mod result_error;
mod settled;
mod works;

pub use error::ModuleError;
pub use expression_set::{ExpressionSet, printed};
pub use report::{Division, Report, run_module};
