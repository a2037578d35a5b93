//! Tests of the calls on modules: statements on a term, and modules over expressions.
#![tactic(auto)]

#[cfg(test)]
mod carrying;
#[cfg(test)]
mod levels;
#[cfg(test)]
mod modules;
#[cfg(test)]
mod statements;
#[cfg(test)]
mod taking;
