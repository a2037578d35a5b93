ghost use Rattle.std.specs.Prelude.{◌≡◌, nat_abs, sum_by, IfSome};
ghost use Rattle.std.specs.List.{AllByRecursion};
ghost use Rattle.form_frac.specs.Fraction.{Fraction};
ghost use Rattle.form_term.specs.declared.monomial.Monomial.{Monomial as MonomialValue};
ghost use Rattle.form_reach.specs.Reach.{IsInLimits, IsUnder, IsWithin, both};

use form_frac::{Frac, Weight};
use form_term::{DotPower, Monomial, Power, Term};

/// How far terms with their coefficients reach at most: the exponents of symbols, and of dot products in all, the number of factors,
/// and the coefficient.
#[derive(Clone, Copy)]
pub struct Reach {
    exponents: u64,
    size: u64,
    weight: Weight,
}

/// The largest size of an exponent, and the most factors of a term.
const LARGEST_EXPONENT: u64 = 1_000_000_000;

const LARGEST_SIZE: u64 = 4096;

impl Reach {
    /// That of a term, with coefficients of this weight.
    pub fn of(term: &Term, weight: Weight) -> Option<Reach>
        ensures { IfSome result (λ r. (c : Fraction) → IsUnder weight c → IsWithin r (record { coefficient = c; term = term.now })) }
    {
        let powers = degree_of_powers(term.powers())?;
        let dots = degree_of_dots(term.dots())?;
        Some(Reach {
            exponents: powers.max(dots),
            size: term.size() as u64,
            weight,
        })
    }

    /// That of no term.
    fn none() -> Reach {
        Reach {
            exponents: 0,
            size: 0,
            weight: Weight::of(Frac::zero()),
        }
    }

    /// That of all terms of a list; none where it can't be told.
    pub fn of_list(list: &[Monomial]) -> Option<Reach>
        ensures { IfSome result (λ r. AllByRecursion (IsWithin r) list.now) }
    {
        let mut all = Reach::none();
        for item in list {
            all = all.with(Reach::of_item(item)?)?;
        }
        Some(all)
    }

    /// That of one term.
    fn of_item(item: &Monomial) -> Option<Reach>
        ensures { IfSome result (λ r. IsWithin r item.now) }
    {
        item.laws();
        Reach::of(&item.term, Weight::of(item.coefficient))
    }

    /// That of terms within these and others.
    fn with(self, other: Reach) -> Option<Reach>
        ensures { IfSome result (λ r. (m : MonomialValue) → (IsWithin self m → IsWithin r m) × (IsWithin other m → IsWithin r m)) }
    {
        Some(Reach {
            exponents: self.exponents.max(other.exponents),
            size: self.size.max(other.size),
            weight: self.weight.join(other.weight)?,
        })
    }

    /// That of the products of terms within this with others; none where they may be past a limit.
    pub fn times(&self, other: &Reach) -> Option<Reach>
        ensures { IfSome result (λ r. (r ≡ both self.now other.now) × IsInLimits r) }
    {
        let exponents = self.exponents.checked_add(other.exponents)?;
        let size = self.size.checked_add(other.size)?;
        if exponents > LARGEST_EXPONENT || size > LARGEST_SIZE {
            return None;
        }
        Some(Reach {
            exponents,
            size,
            weight: self.weight.times(other.weight)?,
        })
    }
}

/// The sizes of the exponents of these powers in all; none past a u64.
fn degree_of_powers(powers: &[Power]) -> Option<u64>
    ensures { IfSome result (λ n. n ≡ sum_by (λ p. nat_abs p.exponent) powers.now) }
{
    let mut sum: u64 = 0;
    for power in powers {
        sum = sum.checked_add(u64::from(power.exponent.unsigned_abs()))?;
    }
    Some(sum)
}

/// The same of dot products.
fn degree_of_dots(dots: &[DotPower]) -> Option<u64>
    ensures { IfSome result (λ n. n ≡ sum_by (λ d. nat_abs d.exponent) dots.now) }
{
    let mut sum: u64 = 0;
    for dot in dots {
        sum = sum.checked_add(u64::from(dot.exponent.unsigned_abs()))?;
    }
    Some(sum)
}
