//! The factors of a product while they are read.
ghost use Rattle.std.specs.Prelude.{◌≡◌, ◌↔◌, [], ◌∷◌, ◌++◌, ℕ, IfOk, IsTrue, OnOk, replicate};
ghost use Rattle.std.specs.Bool.{OnTrue};
ghost use Rattle.form_term.specs.declared.monomial.Monomial.{Monomial as Item};
ghost use Rattle.form_expand.specs.Factors.{AreMade, IsSameRow, factor_lists};
ghost use Rattle.form_expand.specs.Kept.{listing};
ghost use Rattle.form_expand.specs.Left.{product_by};
ghost use Rattle.form_expand.specs.Listing.{Listing, limited, single};
ghost use Rattle.form_expand.specs.Lists.{list_whole};
ghost use Rattle.form_expand.specs.Next.{IsMade};
ghost use Rattle.form_expand.specs.Walks.{all_of};

use crate::ExpandError;
use crate::list::List;
use crate::repeated::times_often;
use crate::times::times_onto;
use crate::walk::Walk;
use crate::whole::Whole;
use form_term::Monomial;
use std::alloc::{AllocError, Global};

/// The factors of a product from the left: what its lists of one term come to up to the first of another kind, none where there
/// is none, and the lists behind.
#[derive(Drop)]
pub struct Factors<'a> {
    pub front: Option<Monomial>,
    pub lists: Vec<List<'a>>,
}

impl<'a> Factors<'a> {
    pub fn none(alloc: Global) -> Factors<'a>
        ensures { (max : ℕ) → factor_lists max result ≡ [] }
    {
        Factors {
            front: None,
            lists: Vec::new(alloc),
        }
    }

    /// A term as the first factor.
    pub fn of_term(alloc: Global, limit: u64, term: Monomial) -> Result<Factors<'a>, AllocError>
        ensures { IfOk result (λ factors. IsSameRow limit (single term ∷ []) (factor_lists limit factors)) }
    {
        let mut factors = Factors::none(alloc);
        factors.put_whole(alloc, limit, Whole::single(term))?;
        Ok(factors)
    }

    /// Whether there is no factor yet.
    pub fn is_none(&self) -> bool
        ensures { (max : ℕ) → IsTrue result ↔ (factor_lists max self.now ≡ []) }
    {
        self.front.is_none() && self.lists.is_empty()
    }

    /// Whether the next list is gone through once at most.
    pub fn is_at_front(&self) -> bool {
        self.lists.is_empty()
    }

    /// Asks for room for so many lists, of which the allocator refuses more than there may be.
    pub fn reserve(&mut self, more: u128) -> Result<(), AllocError>
        ensures { (max : ℕ) → factor_lists max self.new ≡ factor_lists max self.old }
    {
        let room = if more < usize::MAX as u128 {
            more as usize
        } else {
            usize::MAX
        };
        self.lists.reserve(room)?;
        Ok(())
    }

    /// Adds a list.
    pub fn put(&mut self, list: List<'a>) -> Result<(), AllocError>
        ensures { OnOk result ((max : ℕ) → IsSameRow max (factor_lists max self.old ++ list_whole max list.entry ∷ []) (factor_lists max self.new)) }
    {
        self.lists.push(list)?;
        Ok(())
    }

    /// Adds a list that is there as a whole. One term is multiplied at once, where no list of another kind is before it.
    pub fn put_whole(
        &mut self,
        alloc: Global,
        limit: u64,
        whole: Whole<'a>,
    ) -> Result<(), AllocError>
        ensures { OnOk result (IsSameRow limit (factor_lists limit self.old ++ limited limit (listing whole.entry) ∷ []) (factor_lists limit self.new)) }
    {
        if !self.lists.is_empty() || !whole.is_alone(limit) {
            return self.put(List::Whole(Walk::new(whole)));
        }
        let made = front_times(alloc, self.front.take(), whole);
        self.settle(made)
    }

    /// Is this product from here on, where there are no lists behind the front.
    fn settle(&mut self, made: Result<Option<Monomial>, ExpandError>) -> Result<(), AllocError>
        requires { (max : ℕ) → factor_lists max self.old ≡ [] }
        ensures { OnOk result ((max : ℕ) → AreMade max made (factor_lists max self.new)) }
    {
        match made {
            Ok(Some(term)) => {
                self.front = Some(term);
                Ok(())
            }
            Ok(None) => self.put(List::Whole(Walk::new(Whole::nothing()))),
            Err(ExpandError::Refused(cause)) => {
                self.put(List::Whole(Walk::new(Whole::refused(cause))))
            }
            Err(ExpandError::Memory) => Err(AllocError),
        }
    }

    /// Adds the list of these terms, so many times.
    pub fn put_often(
        &mut self,
        alloc: Global,
        limit: u64,
        terms: &'a [Monomial],
        times: u32,
    ) -> Result<(), AllocError>
        ensures { OnOk result (IsSameRow limit (factor_lists limit self.old ++ replicate times (limited limit (all_of terms.now))) (factor_lists limit self.new)) }
    {
        if terms.is_empty() {
            return self.put_copies(terms, times.min(1));
        }
        let [term] = terms else {
            return self.put_copies(terms, times);
        };
        if limit == 0 || !self.lists.is_empty() {
            return self.put_copies(terms, times);
        }
        let Some(front) = self.front.take() else {
            return self.put_copies(terms, times);
        };
        self.settle(times_often(alloc, front, term, u128::from(times)))
    }

    fn put_copies(&mut self, terms: &'a [Monomial], times: u32) -> Result<(), AllocError>
        ensures { OnOk result ((max : ℕ) → IsSameRow max (factor_lists max self.old ++ replicate times (limited max (all_of terms.now))) (factor_lists max self.new)) }
    {
        for _made in 0..times {
            if self.is_ended() {
                return Ok(());
            }
            self.put(List::Whole(Walk::new(Whole::lent(terms))))?;
        }
        Ok(())
    }

    /// Whether its last list has no terms, so that lists behind it change nothing.
    pub fn is_ended(&self) -> bool
        ensures { OnTrue result ((max : ℕ) (list : Listing) → IsSameRow max (factor_lists max self.now ++ list ∷ []) (factor_lists max self.now)) }
    {
        match self.lists.last() {
            Some(List::Whole(walk)) => walk.whole.terms().is_empty(),
            _ => false,
        }
    }
}

/// A front times the term of a list that has one: that term where there is no front.
fn front_times(
    alloc: Global,
    front: Option<Monomial>,
    whole: Whole,
) -> Result<Option<Monomial>, ExpandError>
    ensures { (t : Item) → listing whole.entry ≡ single t → IsMade result (product_by front t) }
{
    match front {
        Some(front) => match whole.at(0) {
            Some(term) => times_onto(alloc, front, term),
            None => Ok(None),
        },
        None => Ok(whole.into_first()?),
    }
}
