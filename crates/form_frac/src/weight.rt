ghost use Rattle.std.specs.Prelude.{◌≡◌};
ghost use Rattle.form_frac.specs.Weight as weights;

use crate::divisor::gcd;
use crate::frac::Frac;
use crate::range;
use std::marker::Model;

/// How large the sum of some fractions can become: a number that their denominators divide, and what the sizes of their
/// numerators add up to at most, once they are brought to it. Both are at most 2^127-1.
#[derive(Clone, Copy, PartialEq, Eq)]
pub struct Weight {
    denominator: u128,
    size: u128,
}

impl Model for Weight {
    ghost use Rattle.form_frac.specs.Weight as weights;

    ghost Value = { weights.Weight };

    ghost view = { λ w. record { denominator = w.denominator; size = w.size } };

    ghost invariant = { λ w. weights.IsWeight (record { denominator = w.denominator; size = w.size }) };

    ghost inverse = { λ w. record { denominator = w.denominator; size = w.size } };
}

impl Weight {
    /// That of one fraction.
    pub fn of(f: Frac) -> Weight
        ensures { result ≡ weights.of f }
    {
        Weight {
            denominator: f.denominator(),
            size: f.numerator_size(),
        }
    }

    /// That of fractions and others. None exactly where it is out of range.
    pub fn join(self, other: Weight) -> Option<Weight>
        ensures { result ≡ weights.join self other }
    {
        if self.denominator == 1 && other.denominator == 1 {
            self.whole_join(other)
        } else {
            self.joined(other)
        }
    }

    /// That of the products of each of some fractions with each of others. None exactly where it is out of range.
    pub fn times(self, other: Weight) -> Option<Weight>
        ensures { result ≡ weights.times self other }
    {
        if self.denominator == 1 && other.denominator == 1 {
            self.whole_times(other)
        } else {
            self.multiplied(other)
        }
    }

    /// The same of whole numbers, where most of the work is and no divisor is needed.
    fn whole_join(self, other: Weight) -> Option<Weight>
        requires left { self.denominator ≡ 1 }
        requires right { other.denominator ≡ 1 }
        ensures { result ≡ weights.join self other }
    {
        let size = range::sum_size(self.size, other.size)?;
        Some(Weight {
            denominator: 1,
            size,
        })
    }

    fn whole_times(self, other: Weight) -> Option<Weight>
        requires left { self.denominator ≡ 1 }
        requires right { other.denominator ≡ 1 }
        ensures { result ≡ weights.times self other }
    {
        let size = range::product_size(self.size, other.size)?;
        Some(Weight {
            denominator: 1,
            size,
        })
    }

    fn joined(self, other: Weight) -> Option<Weight>
        ensures { result ≡ weights.join self other }
    {
        let divisor = gcd(self.denominator, other.denominator);
        let left_factor = other.denominator / divisor;
        let right_factor = self.denominator / divisor;
        let denominator = range::product_size(self.denominator, left_factor)?;
        let left = range::product_size(self.size, left_factor)?;
        let right = range::product_size(other.size, right_factor)?;
        let size = range::sum_size(left, right)?;
        Some(Weight { denominator, size })
    }

    fn multiplied(self, other: Weight) -> Option<Weight>
        ensures { result ≡ weights.times self other }
    {
        let denominator = range::product_size(self.denominator, other.denominator)?;
        let size = range::product_size(self.size, other.size)?;
        Some(Weight { denominator, size })
    }
}
