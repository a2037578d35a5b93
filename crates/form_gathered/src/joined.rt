ghost use Rattle.std.specs.Prelude.{◌≡◌, ℕ, true, false, List, [], ◌∷◌, ◌++◌, length, Some, Ok, OnErr, IfOk};
ghost use Rattle.form_term.specs.declared.monomial.Monomial.{Monomial};
ghost use Rattle.form_collect.specs.Collecting.{collected};
ghost use Rattle.form_gathered.specs.Joined.{IsJoined, HaveSums, AreApart, NeverBoth, single};
ghost use Rattle.form_gathered.specs.Tally.{IsPut};

use crate::tally::Tally;
use form_collect::{Terms, sorted};
use form_frac::{Frac, Weight};
use form_term::{Monomial, Term};
use std::alloc::{AllocError, Global};
use std::collections::HashMap;
use std::collections::hash_map::Entry;
use std::marker::Model;

/// A term that stands for some of a list, or of several lists, with the sum of their coefficients, 0 too, how large that
/// can become on the way, and how many of one list they are at most.
#[derive(Drop)]
pub struct JoinedTerm {
    pub term: Term,
    pub sum: Frac,
    pub weight: Weight,
    pub count: u64,
}

impl JoinedTerm {
    /// One term alone.
    pub fn single(item: Monomial) -> JoinedTerm
        ensures single { result ≡ single item }
        ensures stands { IsJoined 1 (result ∷ []) (λ k. item ∷ []) }
    {
        item.laws();
        JoinedTerm {
            term: item.term,
            sum: item.coefficient,
            weight: Weight::of(item.coefficient),
            count: 1,
        }
    }
}

/// Joined terms, none twice: in a clause their list.
#[derive(Drop)]
pub struct Joined {
    alloc: Global,
    shares: HashMap<Term, Tally>,
}

impl Model for Joined {
    ghost use Rattle.std.specs.Prelude.{List, map};
    ghost use Rattle.form_gathered.specs.declared.joined.JoinedTerm.{JoinedTerm};
    ghost use Rattle.form_gathered.specs.Tally.{entry_of, AreLawful};

    ghost Value = { List JoinedTerm };

    ghost view = { λ j. map entry_of j.shares.entries };

    ghost invariant = { λ j. AreLawful j.shares.entries };
}

impl Joined {
    pub fn new(alloc: Global) -> Joined
        ensures { result ≡ [] }
    {
        Joined {
            alloc,
            shares: HashMap::new(alloc),
        }
    }

    /// Adds a joined term of the same lists. Answers false, and changes nothing, where weights, sums or counts don't
    /// join.
    pub fn add(&mut self, item: JoinedTerm) -> Result<bool, AllocError>
        ensures lists { result ≡ Ok true → (n : ℕ) (a b : ℕ → List Monomial) → IsJoined n self.old a →
            IsJoined n (item ∷ []) b → IsJoined n self.new (λ k. a k ++ b k) }
        ensures sums { result ≡ Ok true → (a b : List Monomial) → HaveSums self.old a → HaveSums (item ∷ []) b →
            HaveSums self.new (a ++ b) }
        ensures unchanged { result ≡ Ok false → self.new ≡ self.old }
        ensures failed { OnErr result (self.new ≡ self.old) }
    {
        self.put(item, false)
    }

    /// The same for one that stands for nothing in those lists for which the others stand: what it counts isn't added.
    pub(crate) fn add_further(&mut self, item: JoinedTerm) -> Result<bool, AllocError>
        ensures lists { result ≡ Ok true → (n : ℕ) (a b : ℕ → List Monomial) → NeverBoth n a b → IsJoined n self.old a →
            IsJoined n (item ∷ []) b → IsJoined n self.new (λ k. a k ++ b k) }
        ensures sums { result ≡ Ok true → (a b : List Monomial) → HaveSums self.old a → HaveSums (item ∷ []) b →
            HaveSums self.new (a ++ b) }
        ensures unchanged { result ≡ Ok false → self.new ≡ self.old }
        ensures failed { OnErr result (self.new ≡ self.old) }
    {
        self.put(item, true)
    }

    fn put(&mut self, item: JoinedTerm, is_further: bool) -> Result<bool, AllocError>
        ensures put { IfOk result (IsPut is_further item self.old self.new) }
        ensures failed { OnErr result (self.new ≡ self.old) }
    {
        let _ = item.term.powers();
        let tally = Tally {
            sum: item.sum,
            weight: item.weight,
            count: item.count,
        };
        match self.shares.entry(item.term)? {
            Entry::Vacant(place) => {
                place.insert(tally);
            }
            Entry::Occupied(place) => {
                return Ok(place.into_mut().take_in(tally, is_further));
            }
        }
        Ok(true)
    }

    pub fn len(&self) -> usize
        ensures { result ≡ length self.now }
    {
        self.shares.len()
    }

    /// Its joined terms.
    pub fn into_vec(self) -> Result<Vec<JoinedTerm>, AllocError>
        ensures items { IfOk result (λ all. all.items ≡ self) }
        ensures apart { IfOk result (λ all. AreApart all.items) }
    {
        let mut all = Vec::with_capacity(self.alloc, self.shares.len())?;
        for (term, tally) in self.shares {
            let Tally { sum, weight, count } = tally;
            all.push(JoinedTerm {
                term,
                sum,
                weight,
                count,
            })?;
        }
        Ok(all)
    }

    /// What a list of which it has the sums collects to: the terms in their order, each with its sum, without those of
    /// sum 0.
    pub fn into_terms(self) -> Result<Terms, AllocError>
        ensures { IfOk result (λ terms. (list : List Monomial) → HaveSums self list → collected list ≡ Some terms) }
    {
        let alloc = self.alloc;
        let mut terms = Vec::with_capacity(alloc, self.shares.len())?;
        for (term, tally) in self.shares {
            if tally.sum.is_zero() {
                continue;
            }
            terms.push(Monomial {
                coefficient: tally.sum,
                term,
            })?;
        }
        Ok(sorted(alloc, terms)?)
    }
}
