//! Tests of the calls on texts: words, lines, calculations, tokens, right sides, conditions, statements, names, checked
//! programs, what the preprocessor makes of a text, and what is printed.
#![tactic(auto)]

#[cfg(test)]
mod calculations;
#[cfg(test)]
mod conditions;
#[cfg(test)]
mod devices;
#[cfg(test)]
mod lines;
#[cfg(test)]
mod names;
#[cfg(test)]
mod preprocessor;
#[cfg(test)]
mod printing;
#[cfg(test)]
mod programs;
#[cfg(test)]
mod right_sides;
#[cfg(test)]
mod statements;
#[cfg(test)]
mod statuses;
#[cfg(test)]
mod tokens;
#[cfg(test)]
mod words;
