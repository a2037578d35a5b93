//! Terms: what stands beside a coefficient, with their order and their size.
#![tactic(auto)]

mod arguments;
mod call;
mod factor;
mod index;
mod integer;
pub mod laws;
mod monomial;
mod natural;
mod order;
mod others;
mod packed;
mod piece;
mod power;
mod reading;
mod term;

pub use arguments::Arguments;
pub use call::Call;
pub use index::{Component, Delta, Index};
pub use integer::Integer;
pub use monomial::Monomial;
pub use natural::Natural;
pub use order::compare;
pub use others::Others;
pub use piece::{Coefficient, Piece};
pub use power::{DotPower, Power};
pub use reading::{number_in, part_len, terms_in};
pub use term::Term;
