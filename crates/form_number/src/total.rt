//! Sums of numbers of any size.
ghost use Rattle.std.specs.Prelude.{◌≡◌, ◌+◌, ◌/◌, ◌%◌, ◌^◌, ◌==◌, ◌<◌, ◌≤◌, max, get_or, length, take, drop, IfOk};
ghost use Rattle.form_number.specs.Numbers.{value_of};
ghost use Rattle.form_number.specs.Totals.{units, units_below, with_digit, AreDigits};

use crate::WholeNumber;
use crate::whole_number::Held;
use std::alloc::{AllocError, Global};
use std::marker::Model;

/// A sum of whole numbers, kept by its digits, the lowest first: in a clause its value.
#[derive(Drop)]
pub struct Total {
    digits: Vec<u8>,
}

impl Model for Total {
    ghost use Rattle.std.specs.Prelude.{ℕ};
    ghost use Rattle.form_number.specs.Totals.{units, AreDigits};

    ghost Value = { ℕ };

    ghost view = { λ t. units t.digits.items };

    ghost invariant = { λ t. AreDigits t.digits.items };
}

impl Total {
    pub fn zero(alloc: Global) -> Total
        ensures { result ≡ 0 }
    {
        Total {
            digits: Vec::new(alloc),
        }
    }

    /// The sum with a further number: it costs that one's digits, and on as far as a carry goes.
    pub fn plus(self, number: &WholeNumber) -> Result<Total, AllocError>
        ensures { IfOk result (λ total. total ≡ self + number.now) }
    {
        let mut digits = self.digits;
        match &number.held {
            Held::Small(value) => add_value(&mut digits, 0, *value)?,
            Held::Long(bytes) => add_bytes(&mut digits, bytes.as_slice())?,
        }
        Ok(Total { digits })
    }

    /// Whether two sums are equal.
    pub fn is_equal(&self, other: &Total) -> bool
        ensures { result ≡ (self.now == other.now) }
    {
        let length = self.digits.len().max(other.digits.len());
        for place in 0..length {
            if digit_at(self.digits.as_slice(), place) != digit_at(other.digits.as_slice(), place) {
                return false;
            }
        }
        true
    }
}

/// Adds what bytes write, the highest digit first: one that is no digit may count as more than 9.
#[tactic(auto, using(crate::proofs::Places::byte_carried, crate::proofs::Places::digit_below))]
fn add_bytes(digits: &mut Vec<u8>, bytes: &[u8]) -> Result<(), AllocError>
    requires { AreDigits digits.old.items }
    ensures value { IfOk result (λ done. units digits.new.items ≡ units digits.old.items + value_of bytes.now) }
    ensures digits { IfOk result (λ done. AreDigits digits.new.items) }
{
    let mut carry = 0;
    for place in 0..bytes.len() {
        let digit = bytes[bytes.len() - 1 - place].saturating_sub(b'0');
        carry = add_at(digits, place, carry + u128::from(digit))?;
    }
    add_value(digits, bytes.len(), carry)
}

/// Adds a value to the digits, the lowest first, from a place on.
#[tactic(auto, using(crate::proofs::Places::carried, crate::proofs::Places::carry_falls, crate::proofs::Places::digit_below, crate::proofs::Places::units_parted))]
fn add_value(digits: &mut Vec<u8>, start: usize, value: u128) -> Result<(), AllocError>
    requires digits { AreDigits digits.old.items }
    requires start { start ≤ length digits.old.items }
    requires value { value < 2 ^ 127 }
    ensures value { IfOk result (λ done. units digits.new.items ≡ units_below (take start digits.old.items) (value + units (drop start digits.old.items))) }
    ensures digits { IfOk result (λ done. AreDigits digits.new.items) }
{
    let mut place = start;
    let mut rest = value;
    while rest > 0 {
        rest = add_at(digits, place, rest)?;
        place += 1;
    }
    Ok(())
}

/// Adds a value to the digit at a place, or behind the last one, and gives the carry.
fn add_at(digits: &mut Vec<u8>, place: usize, value: u128) -> Result<u128, AllocError>
    requires digits { AreDigits digits.old.items }
    requires place { place ≤ length digits.old.items }
    requires value { value < 2 ^ 127 }
    ensures carry { IfOk result (λ carry. carry ≡ (get_or digits.old.items place 0 + value) / 10) }
    ensures items { IfOk result (λ carry. digits.new.items ≡ with_digit digits.old.items place ((get_or digits.old.items place 0 + value) % 10)) }
    ensures digits { IfOk result (λ carry. AreDigits digits.new.items) }
    ensures length { IfOk result (λ carry. length digits.new.items ≡ max (length digits.old.items) (place + 1)) }
{
    let column = u128::from(digit_at(digits.as_slice(), place)) + value;
    put(digits, place, (column % 10) as u8)?;
    Ok(column / 10)
}

/// Puts a digit at a place, or behind the last one.
fn put(digits: &mut Vec<u8>, place: usize, digit: u8) -> Result<(), AllocError>
    requires { place ≤ length digits.old.items }
    ensures items { IfOk result (λ done. digits.new.items ≡ with_digit digits.old.items place digit) }
    ensures length { IfOk result (λ done. length digits.new.items ≡ max (length digits.old.items) (place + 1)) }
{
    if place < digits.len() {
        digits[place] = digit;
        return Ok(());
    }
    digits.push(digit)?;
    Ok(())
}

/// The digit at a place, 0 behind the last one.
fn digit_at(digits: &[u8], place: usize) -> u8
    ensures { result ≡ get_or digits.now place 0 }
{
    match digits.get(place) {
        Some(digit) => *digit,
        None => 0,
    }
}
