//! Statements and modules: a program as it is written becomes one over Ids, or is refused where it first breaks a rule of
//! names, kinds, numbers or the order of statements.
#![tactic(auto)]

mod acting;
mod carried;
mod checked;
mod checker;
mod condition;
pub mod laws;
mod naming;
mod program;
mod standing;

pub use checked::{
    Checked, CheckedAction, CheckedBlock, CheckedBranch, CheckedLeaf, IdList, Module, Picked,
    PickedList, Rewriting, RewritingList, Selection, ValueList, WholeList,
};
pub use checker::check;
pub use form_right_side::CheckError;
pub use program::Program;
