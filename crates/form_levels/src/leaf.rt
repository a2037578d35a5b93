ghost use Rattle.std.specs.Prelude.{◌≡◌, List, [], ◌∷◌, Some, IfOk, IfSome};
ghost use Rattle.std.specs.Bool.{OnTrue};
ghost use Rattle.form_expand.specs.Expanding.{list_of_sum};
ghost use Rattle.form_expand.specs.Meanings.{no_meanings};
ghost use Rattle.form_expand.specs.Walks.{all_of};
ghost use Rattle.form_tree.specs.Tree.{Sum};
ghost use Rattle.form_flow.specs.declared.compiled.ReadyLeaf.TheVariants.{Rewrite, Multiply};
ghost use Rattle.form_flow.specs.Ready.{Part};
ghost use Rattle.form_flow.specs.Statement.{Limits};
ghost use Rattle.form_flow.specs.Statements.{leaf as leaf_of};
ghost use Rattle.form_gathered.specs.declared.joined.JoinedTerm.{JoinedTerm as Joined};
ghost use Rattle.form_joined.specs.Products.{singles};
ghost use Rattle.form_levels.specs.Becoming.{AreFor, IsListOf};
ghost use Rattle.form_levels.specs.Heaps.{OneMore, RunsInto, limits_of};
ghost use Rattle.form_levels.specs.Rules.{IsRewritten};
ghost use Rattle.form_levels.specs.Sides.{paired_from};

use crate::groups::Rules;
use crate::heap::Heap;
use crate::levels::Levels;
use crate::pace::Pace;
use crate::rewriting::Rewritten;
use crate::right_sides::unbound_list;
use form_ast::Side;
use form_flow::{Group, ReadyLeaf, ReadySide};
use form_frac::laws::weights;
use form_gathered::JoinedTerm;
use form_joined::{Powers, joined_singles, times_joined, times_list};
use form_term::Monomial;
use std::alloc::{AllocError, Global};

/// For fewer terms no powers are kept.
const FEW: usize = 4;

/// The most terms of powers that are kept.
const MOST_KEPT: usize = 4096;

impl<'m, 'a> Levels<'m, 'a> {
    /// A statement that is no block, on each term.
    pub fn leaf(
        &self,
        leaf: &ReadyLeaf<'a>,
        terms: Vec<JoinedTerm>,
        acted: &mut Heap,
        pace: &mut Pace,
    ) -> Result<Option<Vec<JoinedTerm>>, AllocError>
        ensures { IfOk result (λ made. IfSome made (λ idle. RunsInto (leaf_of (limits_of self.now) leaf.now) terms.items idle.items acted.old acted.new)) }
    {
        match leaf {
            ReadyLeaf::Rewrite(group) => self.rewrite(group, terms, acted, pace),
            ReadyLeaf::Multiply(side, right) => self.multiply(*side, right, terms, acted, pace),
            ReadyLeaf::Discard => Ok(Some(Vec::new(self.alloc))),
            _ => Ok(None),
        }
    }

    /// An `id` with its `also`s.
    fn rewrite(
        &self,
        group: &Group<'a>,
        terms: Vec<JoinedTerm>,
        acted: &mut Heap,
        pace: &mut Pace,
    ) -> Result<Option<Vec<JoinedTerm>>, AllocError>
        ensures { IfOk result (λ made. IfSome made (λ idle. RunsInto (leaf_of (limits_of self.now) (Rewrite group.now)) terms.items idle.items acted.old acted.new)) }
    {
        let alloc = self.alloc;
        let limit = self.compiled.limit();
        if limit == 0 {
            return Ok(None);
        }
        let rules = Rules {
            alloc,
            limit,
            group,
        };
        let mut powers = powers_for(alloc, limit, group, terms.len());
        let mut idle = Vec::new(alloc);
        for term in terms {
            let rewritten = rules.on(term, &mut powers)?;
            if !put_rewritten(rewritten, &mut idle, acted, pace)? {
                return Ok(None);
            }
        }
        pace.note(powers.added(), powers.left());
        Ok(Some(idle))
    }

    /// A right side behind each term or before it.
    fn multiply(
        &self,
        side: Side,
        right: &ReadySide<'a>,
        terms: Vec<JoinedTerm>,
        acted: &mut Heap,
        pace: &mut Pace,
    ) -> Result<Option<Vec<JoinedTerm>>, AllocError>
        ensures { IfOk result (λ made. IfSome made (λ idle. RunsInto (leaf_of (limits_of self.now) (Multiply side right.now)) terms.items idle.items acted.old acted.new)) }
    {
        let limit = self.compiled.limit();
        let Some(list) = unbound_list(self.alloc, limit, right)? else {
            return Ok(None);
        };
        for term in terms {
            if !self.multiply_one(side, term, list.terms(), acted, pace)? {
                return Ok(None);
            }
        }
        Ok(Some(Vec::new(self.alloc)))
    }

    /// A list behind a term or before it, into the heap. Answers false where something may be refused.
    fn multiply_one(
        &self,
        side: Side,
        term: JoinedTerm,
        list: &[Monomial],
        acted: &mut Heap,
        pace: &mut Pace,
    ) -> Result<bool, AllocError>
        ensures { (s : Sum) → list_of_sum (limits_of self.now).terms no_meanings s ≡ all_of list.now →
            IfOk result (λ all. OnTrue all (RunsInto (leaf_of (limits_of self.now) (Multiply side s)) (term ∷ []) [] acted.old acted.new)) }
    {
        weights();
        joined_singles(list);
        let Some(made) = products(self.alloc, side, term, list)? else {
            return Ok(false);
        };
        Ok(acted.put_made(made, pace)?)
    }
}

/// The powers that are kept for so many terms, of the list of a right side that has no `also`s beside it: none for a few.
fn powers_for(alloc: Global, limit: u64, group: &Group, terms: usize) -> Powers
    ensures { AreFor limit group.now result }
{
    if terms < FEW {
        return Powers::none(alloc);
    }
    match list_of_only(limit, group) {
        Some(list) => Powers::new(alloc, list, MOST_KEPT),
        None => Powers::none(alloc),
    }
}

/// The list of the right side of a group's only part, where that has one.
fn list_of_only<'l>(limit: u64, group: &'l Group<'_>) -> Option<&'l [Monomial]>
    ensures { IfSome result (λ list. IsListOf limit group.now list.now) }
{
    let part = group.only()?;
    part.right().list_within(limit)
}

/// A term times each of a list, or each of these times the term; none where something may be refused.
fn products(
    alloc: Global,
    side: Side,
    term: JoinedTerm,
    list: &[Monomial],
) -> Result<Option<Vec<JoinedTerm>>, AllocError>
    ensures { IfOk result (λ made. IfSome made (λ all. paired_from side (term ∷ []) (singles list.now) ≡ Some all.items)) }
{
    let mut terms = Vec::with_capacity(alloc, 1)?;
    terms.push(term)?;
    match side {
        Side::Right => times_list(alloc, terms, list),
        Side::Left => {
            let left = each_alone(alloc, list)?;
            times_joined(alloc, left, &terms)
        }
    }
}

/// Each of a list alone.
fn each_alone(alloc: Global, list: &[Monomial]) -> Result<Vec<JoinedTerm>, AllocError>
    ensures { IfOk result (λ made. made.items ≡ singles list.now) }
{
    let mut made = Vec::with_capacity(alloc, list.len())?;
    for item in list {
        made.push(JoinedTerm::single(item.clone()?))?;
    }
    Ok(made)
}

/// What became of a term is put where it belongs. Answers false where something may be refused.
fn put_rewritten(
    rewritten: Rewritten,
    idle: &mut Vec<JoinedTerm>,
    acted: &mut Heap,
    pace: &mut Pace,
) -> Result<bool, AllocError>
    ensures { (at : Limits) (ps : List Part) (j : Joined) → IsRewritten at ps j rewritten →
        IfOk result (λ all. OnTrue all (OneMore (leaf_of at (Rewrite ps)) j idle.old.items acted.old idle.new.items acted.new)) }
{
    match rewritten {
        Rewritten::Untouched(term) => {
            idle.push(term)?;
            Ok(true)
        }
        Rewritten::Acted(made) => Ok(acted.put_made(made, pace)?),
        Rewritten::Unknown => Ok(false),
    }
}
