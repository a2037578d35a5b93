//! The list of a right side with equal terms joined: sums, products and powers of what stands in it, so that each distinct term
//! of a power or a product of sums is made once. It is answered where it is certain that nothing in it is refused.
//!
//! A sum is read product by product, a product factor by factor, and sums in parentheses and arguments of functions by recursion
//! (`sums`, `pieces`). Fronts are multiplied by the next list as joined terms (`products`). Nothing is read where that isn't
//! likely to gain anything, which is seen of the pieces alone (`gains`).
#![tactic(auto)]

mod gains;
mod pieces;
mod products;
mod sums;

pub use gains::{joined_list, joined_terms};
