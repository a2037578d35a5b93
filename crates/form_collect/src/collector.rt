ghost use Rattle.std.specs.Prelude.{◌≡◌, List, [], ◌∷◌, ◌++◌, Some, None, Err, OnOk, OnErr, IfOk};
ghost use Rattle.std.specs.Option.{ok_or};
ghost use Rattle.form_frac.specs.Fraction.{IsLowest, add};
ghost use Rattle.form_frac.specs.declared.frac_error.FracError.{FracError};
ghost use Rattle.form_term.specs.declared.monomial.Monomial.{Monomial};
ghost use Rattle.form_collect.specs.Collecting.{collected};

use crate::Terms;
use crate::sorting::sorted;
use form_frac::{Frac, FracError};
use form_term::{Monomial, Term};
use std::alloc::{AllocError, AllocFailed, Global};
use std::collections::HashMap;

/// The distinct terms of a list with the sums of their coefficients, as it comes term by term.
#[derive(Drop)]
pub struct Collector {
    alloc: Global,
    sums: HashMap<Term, Frac>,
    has_overflowed: bool,
}

/// Why nothing is collected.
#[derive(Drop)]
pub enum CollectError {
    /// A sum of coefficients is out of range.
    Overflow,
    Memory,
}

impl From<AllocError> for CollectError {
    ghost use Rattle.std.specs.Prelude.{◌≡◌};
    ghost use Rattle.form_collect.specs.declared.collector.CollectError.TheVariants.{Memory};

    ghost from_gives = { λ _ e. e ≡ Memory };

    fn from(_: AllocError) -> Self {
        CollectError::Memory
    }
}

impl<T: Drop> From<AllocFailed<T>> for CollectError {
    ghost use Rattle.std.specs.Prelude.{◌≡◌};
    ghost use Rattle.form_collect.specs.declared.collector.CollectError.TheVariants.{Memory};

    ghost from_gives = { λ _ e. e ≡ Memory };

    fn from(_: AllocFailed<T>) -> Self {
        CollectError::Memory
    }
}

impl Collector {
    ghost use Rattle.form_collect.specs.Collector.{IsCollectionOf};

    pub fn new(alloc: Global) -> Collector
        ensures { IsCollectionOf result [] }
    {
        Collector {
            alloc,
            sums: HashMap::new(alloc),
            has_overflowed: false,
        }
    }

    /// Adds a term with its coefficient to the list. A term that is there already takes no memory.
    pub fn add(&mut self, item: Monomial) -> Result<(), AllocError>
        ensures ok { OnOk result ((list : List Monomial) → IsCollectionOf self.old list →
            IsCollectionOf self.new (list ++ item ∷ [])) }
        ensures err { OnErr result ((list : List Monomial) → IsCollectionOf self.old list →
            IsCollectionOf self.new list) }
    {
        if self.has_overflowed {
            return Ok(());
        }
        item.laws();
        let sum = self.sums.entry(item.term)?.or_insert(Frac::zero());
        match raised_by(*sum, item.coefficient) {
            Ok(raised) => *sum = raised,
            Err(_) => self.has_overflowed = true,
        }
        Ok(())
    }

    /// The collected list: the terms in their order, each with its sum, without those of sum 0.
    pub fn into_terms(self) -> Result<Terms, CollectError>
        ensures ok { IfOk result (λ terms. (list : List Monomial) → IsCollectionOf self list →
            collected list ≡ Some terms) }
        ensures overflow { result ≡ Err CollectError.Overflow → (list : List Monomial) → IsCollectionOf self list →
            collected list ≡ None }
    {
        if self.has_overflowed {
            return Err(CollectError::Overflow);
        }
        let alloc = self.alloc;
        let mut terms = Vec::with_capacity(alloc, self.sums.len())?;
        for (term, coefficient) in self.sums {
            if coefficient.is_zero() {
                continue;
            }
            terms.push(Monomial { coefficient, term })?;
        }
        Ok(sorted(alloc, terms)?)
    }
}

/// A sum of coefficients and one more, which is all of it where the sum is 0, as it is of a new term.
fn raised_by(sum: Frac, coefficient: Frac) -> Result<Frac, FracError>
    requires { IsLowest coefficient }
    ensures { result ≡ ok_or (add sum coefficient) FracError.Overflow }
{
    if sum == Frac::zero() {
        return Ok(coefficient);
    }
    sum.add(coefficient)
}
