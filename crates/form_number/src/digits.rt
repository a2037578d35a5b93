ghost use Rattle.std.specs.Prelude.{◌≡◌, IfOk, IfSome};
ghost use Rattle.form_number.specs.Numbers.{value_of, capped_value as capped};

use std::alloc::{AllocError, Global};
use std::marker::Model;

/// What a number past every limit counts as where limits alone are asked: 2^127.
pub(crate) const PAST_LIMITS: u128 = 1 << 127;

/// The digits of a number, the highest first.
#[derive(Drop)]
pub struct Digits {
    bytes: Vec<u8>,
}

impl Model for Digits {
    ghost use Rattle.std.specs.Prelude.{List, ℕ};

    ghost Value = { List ℕ };

    ghost view = { λ d. d.bytes.items };
}

impl Digits {
    pub fn new(alloc: Global, bytes: &[u8]) -> Result<Digits, AllocError>
        ensures { IfOk result (λ digits. digits ≡ bytes.now) }
    {
        Ok(Digits {
            bytes: Vec::from_slice(alloc, bytes)?,
        })
    }

    pub fn as_slice(&self) -> &[u8]
        ensures { result.now ≡ self.now }
    {
        self.bytes.as_slice()
    }
}

/// The value of digits, at most 2^127.
pub(crate) fn capped_value(digits: &[u8]) -> u128
    ensures { result ≡ capped (value_of digits.now) }
{
    match small_value(digits) {
        Some(value) => u128::from(value),
        None => large_value(digits),
    }
}

/// The value of digits, where it fits 64 bits, as it mostly does.
fn small_value(digits: &[u8]) -> Option<u64>
    ensures { IfSome result (λ value. value ≡ value_of digits.now) }
{
    let mut value: u64 = 0;
    for digit in digits {
        value = value
            .checked_mul(10)?
            .checked_add(u64::from(digit.saturating_sub(b'0')))?;
    }
    Some(value)
}

/// The value of any digits, at most 2^127.
fn large_value(digits: &[u8]) -> u128
    ensures { result ≡ capped (value_of digits.now) }
{
    let mut value: u128 = 0;
    for digit in digits {
        value = value
            .saturating_mul(10)
            .saturating_add(u128::from(digit.saturating_sub(b'0')))
            .min(PAST_LIMITS);
    }
    value
}
