//! The normal form of products: coefficients multiplied, exponents added, lists joined in order, and the limits kept.
#![tactic(auto)]

mod anew;
mod factors;
pub mod laws;
mod merging;
mod products;
mod several;

pub use anew::made_anew;
pub use factors::{
    has_room, multiply, multiply_by_number, multiply_by_power, product_onto, times_function,
    times_word,
};
pub use products::{ProductError, product};
pub use several::product_of_all;
