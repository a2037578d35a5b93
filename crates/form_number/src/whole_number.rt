ghost use Rattle.std.specs.Prelude.{◌≡◌, ◌<◌, ◌==◌, ◌^◌, IfOk};
ghost use Rattle.form_number.specs.Numbers.{value_of};

use crate::digits::{Digits, PAST_LIMITS, capped_value};
use std::alloc::{AllocError, Global};
use std::marker::Model;

/// How a number is kept: a short one takes no memory of its own.
#[derive(Drop)]
pub(crate) enum Held {
    /// One below 2^127, by its value.
    Small(u128),
    /// Any other, by its digits.
    Long(Box<Digits>),
}

/// A whole number of any size: in a clause its value.
#[derive(Drop)]
pub struct WholeNumber {
    pub(crate) held: Held,
}

impl Model for WholeNumber {
    ghost use Rattle.std.specs.Prelude.{ℕ};

    ghost Value = { ℕ };

    ghost use Rattle.form_number.specs.Numbers.{whole_value, IsHeld};

    ghost view = { λ n. whole_value n.held };

    ghost invariant = { λ n. IsHeld n.held };
}

impl WholeNumber {
    /// A number below 2^127, which takes no memory.
    pub fn small(value: u128) -> WholeNumber
        requires { value < 2 ^ 127 }
        ensures { result ≡ value }
    {
        WholeNumber {
            held: Held::Small(value),
        }
    }

    /// The number that these digits are.
    pub fn read(alloc: Global, digits: &[u8]) -> Result<WholeNumber, AllocError>
        ensures { IfOk result (λ number. number ≡ value_of digits.now) }
    {
        let value = capped_value(digits);
        if value < PAST_LIMITS {
            return Ok(WholeNumber::small(value));
        }
        let digits = Digits::new(alloc, digits)?;
        Ok(WholeNumber {
            held: Held::Long(Box::new(alloc, digits)?),
        })
    }

    pub fn is_zero(&self) -> bool
        ensures { result ≡ (self.now == 0) }
    {
        match &self.held {
            Held::Small(value) => *value == 0,
            Held::Long(_) => false,
        }
    }
}
