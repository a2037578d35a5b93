ghost use Rattle.std.specs.Prelude.{◌≡◌, suc, List, IfOk, IfSome};
ghost use Rattle.std.specs.Bool.{OnTrue};
ghost use Rattle.std.specs.List.{AllByRecursion};
ghost use Rattle.form_term.specs.declared.monomial.Monomial.{Monomial as MonomialValue};
ghost use Rattle.form_reach.specs.Rows.{IsRight};
ghost use Rattle.form_joined.specs.Powers.{AreKept, AreRight, HasRoom, IsPower, IsPowerOf};

use crate::products::{Factors, joined_singles, times_list};
use form_frac::laws::weights;
use form_gathered::{JoinedTerm, together};
use form_reach::Reach;
use form_term::Monomial;
use std::alloc::{AllocError, Global};

/// The most factors of a power.
const MOST_FACTORS: usize = 64;

/// A power of a list, joined: the list with itself so many times behind it.
#[derive(Drop)]
struct Power {
    further: usize,
    /// How many terms the last factor made, before equal ones were brought together.
    brought: u64,
    factors: Factors,
}

/// The powers of a list, joined, as far as they were asked for.
#[derive(Drop)]
pub struct Powers {
    alloc: Global,
    /// How many terms may still be kept.
    room: usize,
    /// How far the terms of the list reach, where they may stand in a row.
    reach: Option<Reach>,
    /// From the list itself on.
    made: Vec<Power>,
    /// How many terms were brought together in the powers that were asked for, and how many were left of them.
    added: u64,
    left: u64,
}

impl Powers {
    /// Those of a list, of which so many terms are kept at most.
    pub fn new(alloc: Global, list: &[Monomial], room: usize) -> Powers
        ensures { AreKept list.now result }
    {
        Powers {
            room,
            reach: reach_of(list),
            ..Powers::none(alloc)
        }
    }

    /// None are kept.
    pub fn none(alloc: Global) -> Powers
        ensures { (list : List MonomialValue) → AreKept list result }
    {
        Powers {
            alloc,
            room: 0,
            reach: None,
            made: Vec::new(alloc),
            added: 0,
            left: 0,
        }
    }

    /// Makes them up to one, if they can be kept.
    pub fn make(&mut self, list: &[Monomial], further: usize) -> Result<(), AllocError>
        requires { AreKept list.now self.old }
        ensures { AreKept list.now self.new }
    {
        if self.reach.is_none() {
            return Ok(());
        }
        let wanted = further.saturating_add(1).min(MOST_FACTORS);
        let missing = wanted.saturating_sub(self.made.len());
        for _made in 0..missing {
            let Some(next) = self.next(list)? else {
                self.room = 0;
                return Ok(());
            };
            self.room = self.room.saturating_sub(next.factors.len());
            self.made.push(next)?;
        }
        self.note(further);
        Ok(())
    }

    /// A power was asked for.
    fn note(&mut self, further: usize)
        ensures made { self.new.made ≡ self.old.made }
        ensures reach { self.new.reach ≡ self.old.reach }
    {
        if let Some(power) = self.made.get(further) {
            self.added = self.added.saturating_add(power.brought);
            self.left = self.left.saturating_add(power.factors.len() as u64);
        }
    }

    /// How many terms were brought together in the powers that were asked for.
    pub fn added(&self) -> u64 {
        self.added
    }

    /// How many terms were left of them.
    pub fn left(&self) -> u64 {
        self.left
    }

    /// The one that is to be made next; none where something may be refused, or it can't be kept.
    fn next(&self, list: &[Monomial]) -> Result<Option<Power>, AllocError>
        requires { AreKept list.now self.now }
        ensures { IfOk result (λ made. IfSome made (IsPowerOf list.now)) }
    {
        match self.made.last() {
            None => first_power(self.alloc, list, self.room),
            Some(last) => next_power(self.alloc, last, list, self.room),
        }
    }

    /// One that may stand behind a joined term.
    pub fn behind(&self, front: &JoinedTerm, further: usize) -> Option<&Factors>
        ensures { (list : List MonomialValue) → AreKept list self.now → IfSome result (λ power. HasRoom (suc further) list front.now × IsPower list further power.now) }
    {
        let power = self.made.get(further)?;
        let Some(factor) = &self.reach else {
            return None;
        };
        if power.further != further || !has_room(front, factor, further.checked_add(1)?) {
            return None;
        }
        Some(&power.factors)
    }
}

/// How far the terms of a list reach, where they may stand in a row.
fn reach_of(list: &[Monomial]) -> Option<Reach>
    ensures { IfSome result (AreRight list.now) }
{
    if !are_right(list) {
        return None;
    }
    Reach::of_list(list)
}

/// Whether the terms of a list may stand in a row.
fn are_right(list: &[Monomial]) -> bool
    ensures { OnTrue result (AllByRecursion IsRight list.now) }
{
    for item in list {
        if !is_right(item) {
            return false;
        }
    }
    true
}

/// Whether a term has neither `i_` nor deltas.
fn is_right(item: &Monomial) -> bool
    ensures { OnTrue result (IsRight item.now) }
{
    let _ = item.term.powers();
    !item.term.is_imaginary() && item.term.deltas().is_empty()
}

/// Whether a joined term with so many factors behind it stays within the limits.
fn has_room(front: &JoinedTerm, factor: &Reach, times: usize) -> bool
    ensures { OnTrue result ((list : List MonomialValue) → AreRight list factor.now → HasRoom times list front.now) }
{
    let Some(first) = Reach::of(&front.term, front.weight) else {
        return false;
    };
    let mut reach = first;
    for _made in 0..times {
        let Some(more) = reach.times(factor) else {
            return false;
        };
        reach = more;
    }
    true
}

/// The list itself; none where it can't be kept.
fn first_power(alloc: Global, list: &[Monomial], room: usize) -> Result<Option<Power>, AllocError>
    ensures { IfOk result (λ made. IfSome made (IsPowerOf list.now)) }
{
    joined_singles(list);
    if list.len() > room {
        return Ok(None);
    }
    let factors = Factors::of_list(alloc, list)?;
    Ok(Some(Power {
        further: 0,
        brought: list.len() as u64,
        factors,
    }))
}

/// The one with a further factor; none where something may be refused, or it can't be kept.
fn next_power(
    alloc: Global,
    last: &Power,
    list: &[Monomial],
    room: usize,
) -> Result<Option<Power>, AllocError>
    requires { IsPowerOf list.now last.now }
    ensures { IfOk result (λ made. IfSome made (IsPowerOf list.now)) }
{
    weights();
    joined_singles(list);
    if last.factors.len().saturating_mul(list.len()) > room {
        return Ok(None);
    }
    let Some(further) = last.further.checked_add(1) else {
        return Ok(None);
    };
    let fronts = last.factors.terms(alloc)?;
    let Some(products) = times_list(alloc, fronts, list)? else {
        return Ok(None);
    };
    let brought = products.len() as u64;
    let Some(all) = together(alloc, products)? else {
        return Ok(None);
    };
    if all.len() > room {
        return Ok(None);
    }
    let factors = Factors::new(alloc, &all)?;
    Ok(Some(Power {
        further,
        brought,
        factors,
    }))
}
