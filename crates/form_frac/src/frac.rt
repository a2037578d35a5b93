ghost use Rattle.std.specs.Prelude.{◌≡◌, ◌≤◌, ◌*◌, nat_eq, nat_abs, pos};
ghost use Rattle.std.specs.Option.{ok_or};
ghost use Rattle.form_frac.specs.Fraction as fraction;
ghost use Rattle.std.specs.Ordering.{nat_cmp};
ghost use Rattle.form_frac.specs.Fraction.{IsLowest, largest, in_range, signed as signed_of};

use crate::divisor::quotient;
use crate::range::{self, LARGEST, product_size, scaled, signed};
use crate::{FracError, gcd};
use std::cmp::Ordering;
use std::marker::Model;

/// A fraction in lowest terms, over a denominator of at least 1, both parts at most 2^127-1 in size.
#[derive(Clone, Copy, PartialEq, Eq)]
pub struct Frac {
    numerator: i128,
    denominator: u128,
}

impl Model for Frac {
    ghost use Rattle.form_frac.specs.Fraction.{Fraction, IsLowest};

    ghost Value = { Fraction };

    ghost view = { λ f. record { numerator = f.numerator; denominator = f.denominator } };

    ghost invariant = { λ f. IsLowest (record { numerator = f.numerator; denominator = f.denominator }) };

    ghost inverse = { λ f. record { numerator = f.numerator; denominator = f.denominator } };
}

impl Frac {
    pub fn zero() -> Frac
        ensures { result ≡ fraction.whole (pos 0) }
    {
        Frac::whole(0)
    }

    pub fn one() -> Frac
        ensures { result ≡ fraction.whole (pos 1) }
    {
        Frac::whole(1)
    }

    /// A whole number.
    pub fn whole(n: i128) -> Frac
        requires { nat_abs n ≤ largest }
        ensures { result ≡ fraction.whole n }
    {
        Frac {
            numerator: n,
            denominator: 1,
        }
    }

    /// n over d.
    pub fn make(n: i128, d: i128) -> Result<Frac, FracError>
        ensures { result ≡ fraction.make n d }
    {
        if d == 0 {
            return Err(FracError::DivideByZero);
        }
        Frac::reduced((n < 0) != (d < 0), n.unsigned_abs(), d.unsigned_abs()).ok_or(
            FracError::Overflow,
        )
    }

    /// The fraction of these parts, brought to lowest terms.
    fn reduced(is_negative: bool, size: u128, denominator: u128) -> Option<Frac>
        requires { 1 ≤ denominator }
        ensures { result ≡ in_range (fraction.reduced (signed_of is_negative size) denominator) }
    {
        let divisor = gcd(size, denominator);
        Frac::from_parts(
            is_negative,
            quotient(size, divisor),
            quotient(denominator, divisor),
        )
    }

    /// The fraction of these parts, which are in lowest terms.
    fn from_parts(is_negative: bool, size: u128, denominator: u128) -> Option<Frac>
        requires is_over_some { 1 ≤ denominator }
        requires is_coprime { fraction.gcd size denominator ≡ 1 }
        ensures { result ≡ in_range (record { numerator = signed_of is_negative size; denominator = denominator }) }
    {
        if size > LARGEST || denominator > LARGEST {
            return None;
        }
        Some(Frac {
            numerator: signed(is_negative, size),
            denominator,
        })
    }

    pub fn is_zero(self) -> bool
        ensures { result ≡ fraction.is_zero self }
    {
        self.numerator == 0
    }

    /// Whether it is a whole number.
    pub fn is_whole(self) -> bool
        ensures { result ≡ nat_eq self.denominator 1 }
    {
        self.denominator == 1
    }

    /// Whether it is below 0.
    pub fn is_negative(self) -> bool
        ensures { result ≡ fraction.is_below_zero self }
    {
        self.numerator < 0
    }

    pub fn numerator(self) -> i128
        ensures value { result ≡ self.numerator }
        ensures lowest { IsLowest self }
    {
        self.numerator
    }

    /// The numerator without its sign.
    pub fn numerator_size(self) -> u128
        ensures value { result ≡ nat_abs self.numerator }
        ensures range { result ≤ largest }
    {
        self.numerator.unsigned_abs()
    }

    pub fn denominator(self) -> u128
        ensures value { result ≡ self.denominator }
        ensures lowest { IsLowest self }
    {
        self.denominator
    }

    /// The sum, over the least common multiple of the denominators and then reduced.
    pub fn add(self, other: Frac) -> Result<Frac, FracError>
        ensures { result ≡ ok_or (fraction.add self other) FracError.Overflow }
    {
        if self.is_whole() && other.is_whole() {
            self.whole_sum(other).ok_or(FracError::Overflow)
        } else {
            self.sum(other).ok_or(FracError::Overflow)
        }
    }

    /// The product in lowest terms.
    pub fn mul(self, other: Frac) -> Result<Frac, FracError>
        ensures { result ≡ ok_or (fraction.multiply self other) FracError.Overflow }
    {
        if self.is_whole() && other.is_whole() {
            self.whole_product(other).ok_or(FracError::Overflow)
        } else {
            self.product(other).ok_or(FracError::Overflow)
        }
    }

    /// The sum of whole numbers, where most of the work is and no divisor is needed.
    fn whole_sum(self, other: Frac) -> Option<Frac>
        requires left { self.denominator ≡ 1 }
        requires right { other.denominator ≡ 1 }
        ensures { result ≡ fraction.add self other }
    {
        let numerator = range::sum(self.numerator(), other.numerator())?;
        Some(Frac::whole(numerator))
    }

    fn whole_product(self, other: Frac) -> Option<Frac>
        requires left { self.denominator ≡ 1 }
        requires right { other.denominator ≡ 1 }
        ensures { result ≡ fraction.multiply self other }
    {
        let numerator = range::product(self.numerator(), other.numerator())?;
        Some(Frac::whole(numerator))
    }

    fn sum(self, other: Frac) -> Option<Frac>
        ensures { result ≡ fraction.add self other }
    {
        let left_denominator = self.denominator();
        let right_denominator = other.denominator();
        let divisor = gcd(left_denominator, right_denominator);
        let left_factor = quotient(right_denominator, divisor);
        let right_factor = quotient(left_denominator, divisor);
        let common = product_size(left_denominator, left_factor)?;
        let left = scaled(self.numerator(), left_factor)?;
        let right = scaled(other.numerator(), right_factor)?;
        let sum = range::sum(left, right)?;
        Frac::reduced(sum < 0, sum.unsigned_abs(), common)
    }

    /// The product. What a numerator and the other denominator have in common goes first, so that only a result out of
    /// range overflows.
    fn product(self, other: Frac) -> Option<Frac>
        ensures { result ≡ fraction.multiply self other }
    {
        let left_size = self.numerator_size();
        let left_denominator = self.denominator();
        let right_size = other.numerator_size();
        let right_denominator = other.denominator();
        let left = gcd(left_size, right_denominator);
        let right = gcd(right_size, left_denominator);
        let size = product_size(quotient(left_size, left), quotient(right_size, right))?;
        let denominator = product_size(
            quotient(left_denominator, right),
            quotient(right_denominator, left),
        )?;
        let is_negative = self.is_negative() != other.is_negative();
        Frac::from_parts(is_negative, size, denominator)
    }

    pub fn neg(self) -> Frac
        ensures { result ≡ fraction.negate self }
    {
        Frac {
            numerator: -self.numerator,
            denominator: self.denominator,
        }
    }

    /// One over it.
    pub fn recip(self) -> Result<Frac, FracError>
        ensures { result ≡ ok_or (fraction.reciprocal self) FracError.DivideByZero }
    {
        if self.is_zero() {
            return Err(FracError::DivideByZero);
        }
        Ok(Frac {
            numerator: signed(self.is_negative(), self.denominator()),
            denominator: self.numerator_size(),
        })
    }

    /// The order by value.
    pub fn cmp(self, other: Frac) -> Ordering
        ensures { result ≡ fraction.compare self other }
    {
        match (self.numerator() < 0, other.numerator() < 0) {
            (false, true) => Ordering::Greater,
            (true, false) => Ordering::Less,
            (false, false) => self.cmp_sizes(other),
            (true, true) => other.cmp_sizes(self),
        }
    }

    /// The order without signs, by the two cross products in full.
    fn cmp_sizes(self, other: Frac) -> Ordering
        ensures { result ≡ nat_cmp (nat_abs self.numerator * other.denominator) (nat_abs other.numerator * self.denominator) }
    {
        let (left_low, left_high) = self.numerator_size().carrying_mul(other.denominator(), 0);
        let (right_low, right_high) = other.numerator_size().carrying_mul(self.denominator(), 0);
        left_high.cmp(&right_high).then(left_low.cmp(&right_low))
    }
}
