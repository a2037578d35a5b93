//! What an `id` with its `also`s makes of joined terms. Where it has `also`s and a word is cut, nothing is told.
ghost use Rattle.std.specs.Prelude.{◌≡◌, ◌≤◌, ◌++◌, [], ◌∷◌, flat_map, replicate, true, false, IfOk, IfSome};
ghost use Rattle.form_expand.specs.Kept.{listing};
ghost use Rattle.form_expand.specs.Walks.{all_of};
ghost use Rattle.form_flow.specs.Rewriting.{and_part as and_part_of, and_taken as and_taken_of, rest_of, right_with};
ghost use Rattle.form_flow.specs.Statement.{Limits};
ghost use Rattle.form_levels.specs.Becoming.{AreFor, IsRowOf};
ghost use Rattle.form_levels.specs.Groups.{IsRest, lists_behind, rest_in};
ghost use Rattle.form_levels.specs.RightSides.{IsWhole};
ghost use Rattle.form_levels.specs.Rows.{IsBehind};
ghost use Rattle.form_levels.specs.Rules.{IsRewritten};

use crate::fronts::Fronts;
use crate::rewriting::{Known, Rewritten, Rule};
use crate::right_sides::{bound, list_by};
use form_bindings::Bindings;
use form_expand::Whole;
use form_flow::{CompiledPart, Group};
use form_gathered::JoinedTerm;
use form_joined::Powers;
use form_rewrite::{Cut, Take, Taken, take_out};
use form_term::Term;
use std::alloc::{AllocError, Global};

/// An `id` with its `also`s.
#[derive(Drop)]
pub struct Rules<'r, 'a> {
    pub alloc: Global,
    /// The most terms of a list.
    pub limit: u64,
    pub group: &'r Group<'a>,
}

/// A list that stands so many times behind what is left of a term.
#[derive(Drop)]
pub struct Repeated<'r> {
    pub list: Whole<'r>,
    pub times: u32,
}

/// What is left of a term whose word wasn't cut, what stands behind it, and whether a part matched.
#[derive(Drop)]
pub struct Remaining<'r> {
    pub left: Term,
    pub behind: Vec<Repeated<'r>>,
    pub has_matched: bool,
}

impl<'r, 'a> Rules<'r, 'a> {
    /// What becomes of a joined term.
    pub fn on(&self, joined: JoinedTerm, powers: &mut Powers) -> Result<Rewritten, AllocError>
        requires some { 1 ≤ self.now.limit }
        requires kept { AreFor self.now.limit self.now.group.now powers.old }
        ensures kept { AreFor self.now.limit self.now.group.now powers.new }
        ensures rewritten { (at : Limits) → at.terms ≡ self.now.limit → IfOk result (IsRewritten at self.now.group.now joined) }
    {
        let group = self.group;
        match group.only() {
            Some(part) => self.by_one(part, joined, powers),
            None => self.by_several(joined),
        }
    }

    /// What a part without `also`s makes of it.
    fn by_one(
        &self,
        part: &CompiledPart<'a>,
        joined: JoinedTerm,
        powers: &mut Powers,
    ) -> Result<Rewritten, AllocError>
        requires some { 1 ≤ self.now.limit }
        requires kept { AreFor self.now.limit (part.now ∷ []) powers.old }
        ensures kept { AreFor self.now.limit (part.now ∷ []) powers.new }
        ensures rewritten { (at : Limits) → at.terms ≡ self.now.limit → IfOk result (IsRewritten at (part.now ∷ []) joined) }
    {
        let rule = Rule {
            alloc: self.alloc,
            limit: self.limit,
            part,
        };
        rule.on(joined, powers)
    }

    /// What several parts make of it.
    fn by_several(&self, joined: JoinedTerm) -> Result<Rewritten, AllocError>
        requires { 1 ≤ self.now.limit }
        ensures { (at : Limits) → at.terms ≡ self.now.limit → IfOk result (IsRewritten at self.now.group.now joined) }
    {
        let JoinedTerm {
            term,
            sum,
            weight,
            count,
        } = joined;
        let known = Known { sum, weight, count };
        let Some(rest) = self.rest(term)? else {
            return Ok(Rewritten::Unknown);
        };
        let Remaining {
            left,
            behind,
            has_matched,
        } = rest;
        let front = known.with(left);
        if !has_matched {
            return Ok(Rewritten::Untouched(front));
        }
        self.with_all(front, behind)
    }

    /// What is left of a term once all parts took from it.
    fn rest(&self, term: Term) -> Result<Option<Remaining<'r>>, AllocError>
        ensures { IsRest (rest_of self.now.limit self.now.group.now term) result }
    {
        let group = self.group;
        let parts = group.as_slice();
        let mut rest = Remaining {
            left: term,
            behind: Vec::new(self.alloc),
            has_matched: false,
        };
        for part in parts {
            let Some(more) = self.and_part(part, rest)? else {
                return Ok(None);
            };
            rest = more;
        }
        Ok(Some(rest))
    }

    /// What is left once a part took from it.
    fn and_part(
        &self,
        part: &'r CompiledPart<'a>,
        rest: Remaining<'r>,
    ) -> Result<Option<Remaining<'r>>, AllocError>
        ensures { IsRest (and_part_of self.now.limit (rest_in rest.entry) part.now) result }
    {
        let option = part.option();
        let pattern = part.pattern();
        let Remaining {
            left,
            behind,
            has_matched,
        } = rest;
        match take_out(self.alloc, left, &[], pattern, option)? {
            Take::Untaken(left) => Ok(Some(Remaining {
                left,
                behind,
                has_matched,
            })),
            Take::Single(single) => {
                let taken = single.into_taken(self.alloc)?;
                self.and_taken(part, behind, taken)
            }
            Take::Several(taken) => self.and_taken(part, behind, taken),
        }
    }

    /// What is left, with the right side for each match behind other lists.
    fn and_taken(
        &self,
        part: &'r CompiledPart<'a>,
        behind: Vec<Repeated<'r>>,
        taken: Taken,
    ) -> Result<Option<Remaining<'r>>, AllocError>
        ensures { IsRest (and_taken_of self.now.limit part.now.right
            (record { left = taken.left; cuts = []; behind = lists_behind behind.entry.items; has_matched = false }) (Some taken)) result }
    {
        let Taken {
            left,
            cuts,
            matches,
            times,
        } = taken;
        if !is_uncut(cuts.as_slice()) {
            return Ok(None);
        }
        let matches = matches.into_vec();
        let Some(lists) = self.put_all(part, matches, times, behind)? else {
            return Ok(None);
        };
        Ok(Some(Remaining {
            left,
            behind: lists,
            has_matched: true,
        }))
    }

    /// The right side with the bindings of each match, so many times each, behind other lists.
    fn put_all(
        &self,
        part: &'r CompiledPart<'a>,
        matches: Vec<Bindings>,
        times: u32,
        behind: Vec<Repeated<'r>>,
    ) -> Result<Option<Vec<Repeated<'r>>>, AllocError>
        ensures { IfOk result (λ made. IfSome made (λ lists. lists_behind lists.items
            ≡ lists_behind behind.entry.items ++ flat_map (λ bs. replicate times (right_with self.now.limit part.now.right bs)) matches.items)) }
    {
        let mut behind = behind;
        for bindings in matches {
            let Some(more) = self.put_one(part, bindings, times, behind)? else {
                return Ok(None);
            };
            behind = more;
        }
        Ok(Some(behind))
    }

    /// The right side with the bindings of a match, so many times, behind other lists.
    fn put_one(
        &self,
        part: &'r CompiledPart<'a>,
        bindings: Bindings,
        times: u32,
        behind: Vec<Repeated<'r>>,
    ) -> Result<Option<Vec<Repeated<'r>>>, AllocError>
        ensures { IfOk result (λ made. IfSome made (λ lists. lists_behind lists.items
            ≡ lists_behind behind.entry.items ++ replicate times (right_with self.now.limit part.now.right bindings))) }
    {
        let Some(list) = self.list_of(part, bindings)? else {
            return Ok(None);
        };
        let mut behind = behind;
        behind.push(Repeated { list, times })?;
        Ok(Some(behind))
    }

    /// The right side with the bindings of a match.
    fn list_of(
        &self,
        part: &'r CompiledPart<'a>,
        bindings: Bindings,
    ) -> Result<Option<Whole<'r>>, AllocError>
        ensures { IsWhole (right_with self.now.limit part.now.right bindings) result }
    {
        let names = bound(self.alloc, bindings);
        let right = part.right();
        list_by(self.alloc, self.limit, right, &names)
    }

    /// A front, and these lists behind it.
    fn with_all(
        &self,
        front: JoinedTerm,
        behind: Vec<Repeated<'r>>,
    ) -> Result<Rewritten, AllocError>
        requires { 1 ≤ self.now.limit }
        ensures { IfOk result (IsRowOf self.now.limit (lists_behind behind.entry.items) front) }
    {
        let mut fronts = Fronts::new(self.alloc, self.limit, front)?;
        for one in behind {
            let Some(more) = with_one(fronts, &one)? else {
                return Ok(Rewritten::Unknown);
            };
            fronts = more;
        }
        Ok(Rewritten::Acted(fronts.into_vec()))
    }
}

/// A list so many times behind fronts.
fn with_one(fronts: Fronts, one: &Repeated) -> Result<Option<Fronts>, AllocError>
    ensures fronts { IsBehind fronts one.now.times (all_of (listing one.now.list).terms) result }
    ensures limit { IfOk result (λ made. IfSome made (λ more. more.limit ≡ fronts.limit)) }
{
    fronts.times_often(one.list.terms(), one.times as usize)
}

/// Whether a word isn't cut. (Where it is said to be, nothing is claimed.)
fn is_uncut(cuts: &[Cut]) -> bool
    ensures { result ≡ true → cuts.now ≡ [] }
{
    match cuts {
        [] => true,
        [_, ..] => false,
    }
}
