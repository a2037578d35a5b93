ghost use Rattle.std.specs.Prelude.{◌≡◌};
ghost use Rattle.form_frac.specs.Fraction.{IsLowest};
ghost use Rattle.form_term.specs.Monomial.{unit, negated};
ghost use Rattle.form_term.specs.Term.{IsTerm};

use crate::Term;
use form_frac::Frac;
use std::alloc::Global;

/// A term with its coefficient.
#[derive(Clone, Drop)]
pub struct Monomial {
    pub coefficient: Frac,
    pub term: Term,
}

impl Monomial {
    /// 1, which takes no memory.
    pub fn unit(alloc: Global) -> Monomial
        ensures { result ≡ unit }
    {
        Monomial {
            coefficient: Frac::whole(1),
            term: Term::one(alloc),
        }
    }

    /// What holds of its parts, for the proofs of callers; it does nothing.
    pub fn laws(&self)
        ensures lowest { IsLowest self.now.coefficient }
        ensures lawful { IsTerm self.now.term }
    {
        let _ = self.coefficient.numerator();
        let _ = self.term.powers();
    }

    pub fn negated(self) -> Monomial
        ensures { result ≡ negated self }
    {
        Monomial {
            coefficient: self.coefficient.neg(),
            term: self.term,
        }
    }
}
