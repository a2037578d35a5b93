//! Tests of the top call over objects in memory.
#![tactic(auto)]

#[cfg(test)]
mod faults;
