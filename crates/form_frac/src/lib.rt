//! Coefficients: fractions in lowest terms whose parts are at most 2^127-1 in size. A result out of that range is
//! refused, and never wrapped or rounded. A weight says how large sums of fractions and of their products can become, in whatever
//! order they are added: where it is in range, none of them overflows.
#![tactic(auto)]

mod divisor;
mod frac;
mod frac_error;
pub mod laws;
mod range;
mod weight;

pub use divisor::gcd;
pub use frac::Frac;
pub use frac_error::FracError;
pub use weight::Weight;
