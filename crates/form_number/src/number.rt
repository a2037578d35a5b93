ghost use Rattle.std.specs.Prelude.{◌≡◌, ◌<◌, ◌==◌, ◌^◌, nat_le, if◌then◌else◌, Some, None, IfOk};
ghost use Rattle.form_number.specs.Numbers.{capped};

use crate::WholeNumber;
use crate::digits::{Digits, PAST_LIMITS};
use crate::whole_number::Held;
use form_base::Spot;
use std::alloc::{AllocError, Global};
use std::marker::Model;

/// How a number with its spot is kept: so it takes 32 bytes, and 48 if the spot stood behind the number.
#[derive(Drop)]
pub(crate) enum Written {
    /// One below 2^127, by its value.
    Small(Spot, u128),
    /// Any other, by its digits.
    Long(Spot, Box<Digits>),
}

/// A whole number as it is written, of any size, and where it stands.
#[derive(Drop)]
pub struct Number {
    written: Written,
}

const _: () = prove!(size_of::<Number>() == 32);

impl Model for Number {
    ghost use Rattle.form_number.specs.Records.{WrittenNumber};

    ghost Value = { WrittenNumber };

    ghost use Rattle.form_number.specs.Numbers.{written_number, IsWritten};

    ghost view = { λ n. written_number n.written };

    ghost invariant = { λ n. IsWritten n.written };
}

/// A written number as far as limits ask: one past 2^127-1, which is past each of them, counts as 2^127.
#[derive(Clone, Copy)]
pub struct Capped {
    pub value: u128,
    pub spot: Spot,
}

impl Number {
    pub fn new(value: WholeNumber, spot: Spot) -> Number
        ensures { result ≡ record { value = value; spot = spot } }
    {
        let written = match value.held {
            Held::Small(value) => Written::Small(spot, value),
            Held::Long(digits) => Written::Long(spot, digits),
        };
        Number { written }
    }

    pub fn spot(&self) -> Spot
        ensures { result ≡ self.now.spot }
    {
        match &self.written {
            Written::Small(spot, _) => *spot,
            Written::Long(spot, _) => *spot,
        }
    }

    pub fn is_zero(&self) -> bool
        ensures { result ≡ (self.now.value == 0) }
    {
        match &self.written {
            Written::Small(_, value) => *value == 0,
            Written::Long(_, _) => false,
        }
    }

    /// Its value, where that is at most so much.
    pub fn up_to(&self, most: u128) -> Option<u128>
        requires { most < 2 ^ 127 }
        ensures { result ≡ (if nat_le self.now.value most then Some self.now.value else None) }
    {
        match &self.written {
            Written::Small(_, value) if *value <= most => Some(*value),
            _ => None,
        }
    }

    /// As far as limits ask.
    pub fn capped(&self) -> Capped
        ensures { result ≡ capped self.now }
    {
        match &self.written {
            Written::Small(spot, value) => Capped {
                value: *value,
                spot: *spot,
            },
            Written::Long(spot, _) => Capped {
                value: PAST_LIMITS,
                spot: *spot,
            },
        }
    }

    /// Its value.
    pub fn value(&self, alloc: Global) -> Result<WholeNumber, AllocError>
        ensures { IfOk result (λ value. value ≡ self.now.value) }
    {
        let held = match &self.written {
            Written::Small(_, value) => Held::Small(*value),
            Written::Long(_, digits) => {
                let digits = Digits::new(alloc, digits.as_slice())?;
                Held::Long(Box::new(alloc, digits)?)
            }
        };
        Ok(WholeNumber { held })
    }
}
