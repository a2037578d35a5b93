//! What is left of a term while the parts of a statement take from it, and the row that comes of that.
ghost use Rattle.std.specs.List.{range_with_len};
ghost use Rattle.std.specs.Prelude.{◌≡◌, ◌++◌, ◌∷◌, [], ℕ, IfOk, List, Some, false, flat_map, length, map, replicate};
ghost use Rattle.form_term.specs.declared.monomial.Monomial.{Monomial as Item};
ghost use Rattle.form_expand.specs.Expanding.{list_of_sum};
ghost use Rattle.form_expand.specs.Left.{row};
ghost use Rattle.form_expand.specs.Listing.{Listing, limited, single};
ghost use Rattle.form_expand.specs.Meanings.{bound_to, no_meanings};
ghost use Rattle.form_expand.specs.Paired.{IsPaired};
ghost use Rattle.form_expand.specs.Parts.{part_list};
ghost use Rattle.form_expand.specs.Runs.{lists_of};
ghost use Rattle.form_expand.specs.Walks.{all_of};
ghost use Rattle.form_flow.specs.Outcome.{made};
ghost use Rattle.form_flow.specs.Ready.{Part as AsTrees};
ghost use Rattle.form_flow.specs.Rests.{cut_list, names_in, numbers_given, rest_in};
ghost use Rattle.form_flow.specs.Rewriting.{and_part as and_part_of, and_taken as and_taken_of, rest_of, rewritten as rewritten_of, right_with, untouched};
ghost use Rattle.form_flow.specs.Sources.{HasEffect};
ghost use Rattle.form_flow.specs.Statements.{or_unchanged};

use crate::between::{Inserted, all_bound, is_any_by_match, places, put_between, row_of};
use crate::compiled::{CompiledPart, Group, ReadySide};
use crate::effect::{Effect, Source, times_each};
use form_ast::Side;
use form_bindings::Bindings;
use form_expand::{
    ExpandError, Paired, Part, Run, Standing, Whole, laws, pair, times_list, whole_list,
};
use form_frac::Frac;
use form_rewrite::{Single, Take, Taken, take_out};
use form_term::{Monomial, Term};
use std::alloc::{AllocError, Global};

/// What is left of a term, what is put in between the parts of its word and behind it, and whether a part matched.
#[derive(Drop)]
pub struct Remaining<'a> {
    pub limit: u64,
    pub left: Term,
    pub between: Vec<Inserted<'a>>,
    pub behind: Vec<Run<'a>>,
    pub has_matched: bool,
}

/// What a statement makes of a term: the same, where no part matched.
pub fn rewritten<'a>(
    alloc: Global,
    limit: u64,
    group: &'a Group<'a>,
    item: Monomial,
) -> Result<Effect<'a>, ExpandError>
    ensures { HasEffect result (or_unchanged item (rewritten_of limit group.now item)) }
{
    match group.only() {
        Some(part) => by_one(alloc, limit, part, item),
        None => by_several(alloc, limit, group, item),
    }
}

/// What several parts make of a term.
#[inline(never)]
fn by_several<'a>(
    alloc: Global,
    limit: u64,
    group: &'a Group<'a>,
    item: Monomial,
) -> Result<Effect<'a>, ExpandError>
    ensures { HasEffect result (or_unchanged item (rewritten_of limit group.now item)) }
{
    let Monomial { coefficient, term } = item;
    let rest = rest(alloc, limit, group, term)?;
    put_together(alloc, coefficient, rest)
}

/// What comes of what is left: the term as it was, where no part matched, and else the row of that and what is put in.
fn put_together<'a>(
    alloc: Global,
    coefficient: Frac,
    rest: Remaining<'a>,
) -> Result<Effect<'a>, ExpandError>
    ensures { (ps : List AsTrees) (m : Item) → m.coefficient ≡ coefficient → rest_in rest.entry ≡ rest_of rest.entry.limit ps m.term →
        HasEffect result (or_unchanged m (rewritten_of rest.entry.limit ps m)) }
{
    let Remaining {
        limit,
        left,
        between,
        behind,
        has_matched,
    } = rest;
    let left = Monomial {
        coefficient,
        term: left,
    };
    if !has_matched {
        return Ok(Effect::None(left));
    }
    let row = row_of(alloc, limit, left, between, behind)?;
    Ok(Effect::Source(Source::Row(Box::new(alloc, row)?)))
}

/// What a part that has no `also` beside it makes of a term.
fn by_one<'a>(
    alloc: Global,
    limit: u64,
    part: &'a CompiledPart<'a>,
    item: Monomial,
) -> Result<Effect<'a>, ExpandError>
    ensures { HasEffect result (or_unchanged item (rewritten_of limit (part.now ∷ []) item)) }
{
    let option = part.option();
    let pattern = part.pattern();
    let right = part.right();
    let Monomial { coefficient, term } = item;
    match take_out(alloc, term, &[], pattern, option)? {
        Take::Untaken(term) => Ok(Effect::None(Monomial { coefficient, term })),
        Take::Single(single) => {
            let Single { left, bindings } = single;
            let left = Monomial {
                coefficient,
                term: left,
            };
            times_right_side(alloc, limit, right, left, bindings)
        }
        Take::Several(taken) => put_taken(alloc, limit, right, coefficient, taken),
    }
}

/// What comes of a term by all that was taken from it.
#[inline(never)]
fn put_taken<'a>(
    alloc: Global,
    limit: u64,
    right: &'a ReadySide<'a>,
    coefficient: Frac,
    taken: Taken,
) -> Result<Effect<'a>, ExpandError>
    requires { numbers_given taken.cuts ≡ [] }
    ensures { (p : AsTrees) (m : Item) → right.now ≡ p.right → m.coefficient ≡ coefficient →
        and_taken_of limit p.right (untouched m.term) (Some taken) ≡ and_part_of limit (untouched m.term) p →
        HasEffect result (or_unchanged m (rewritten_of limit (p ∷ []) m)) }
{
    let between = Vec::new(alloc);
    let behind = Vec::new(alloc);
    let rest = and_taken(alloc, limit, right, between, behind, taken)?;
    put_together(alloc, coefficient, rest)
}

/// A term before any part took from it.
fn untaken<'a>(alloc: Global, limit: u64, term: Term) -> Remaining<'a>
    ensures rest { rest_in result ≡ untouched term }
    ensures limit { result.limit ≡ limit }
{
    Remaining {
        limit,
        left: term,
        between: Vec::new(alloc),
        behind: Vec::new(alloc),
        has_matched: false,
    }
}

/// A term, and the right side by the bindings of a match behind it.
fn times_right_side<'a>(
    alloc: Global,
    limit: u64,
    right: &'a ReadySide<'a>,
    left: Monomial,
    bindings: Bindings,
) -> Result<Effect<'a>, ExpandError>
    ensures { HasEffect result (made (row limit (single left ∷ right_with limit right.now bindings ∷ []))) }
{
    laws::lists_of_trees();
    let Some(names) = bound(alloc, bindings) else {
        return times_side(alloc, limit, right, left);
    };
    effect_of_pair(times_list(alloc, limit, right.pieces(), left, &names)?)
}

/// A term, and a right side behind it in which nothing is bound.
#[inline(never)]
fn times_side<'a>(
    alloc: Global,
    limit: u64,
    right: &'a ReadySide<'a>,
    left: Monomial,
) -> Result<Effect<'a>, ExpandError>
    ensures { HasEffect result (made (row limit (single left ∷ list_of_sum limit no_meanings right.now ∷ []))) }
{
    laws::lists_of_trees();
    match right.list_within(limit) {
        Some(list) => times_each(alloc, Side::Right, left, list),
        None => {
            let list = Part::Tree(right.pieces(), right.nothing());
            effect_of_pair(pair(alloc, limit, left, list)?)
        }
    }
}

/// What is left of a term once all parts took from it.
fn rest<'a>(
    alloc: Global,
    limit: u64,
    group: &'a Group<'a>,
    term: Term,
) -> Result<Remaining<'a>, AllocError>
    ensures rest { IfOk result (λ rest. rest_in rest ≡ rest_of limit group.now term) }
    ensures limit { IfOk result (λ rest. rest.limit ≡ limit) }
{
    let parts = group.as_slice();
    let mut rest = untaken(alloc, limit, term);
    for part in parts {
        rest = and_part(alloc, part, rest)?;
    }
    Ok(rest)
}

/// What is left once a part took from it.
fn and_part<'a>(
    alloc: Global,
    part: &'a CompiledPart<'a>,
    rest: Remaining<'a>,
) -> Result<Remaining<'a>, AllocError>
    ensures rest { IfOk result (λ after. rest_in after ≡ and_part_of rest.entry.limit (rest_in rest.entry) part.now) }
    ensures limit { IfOk result (λ after. after.limit ≡ rest.entry.limit) }
{
    let option = part.option();
    let pattern = part.pattern();
    let right = part.right();
    let cuts = places(alloc, &rest.between)?;
    let Remaining {
        limit,
        left,
        between,
        behind,
        has_matched,
    } = rest;
    match take_out(alloc, left, &cuts, pattern, option)? {
        Take::Untaken(left) => Ok(Remaining {
            limit,
            left,
            between,
            behind,
            has_matched,
        }),
        Take::Single(single) => {
            let taken = single.into_taken(alloc)?;
            and_taken(alloc, limit, right, between, behind, taken)
        }
        Take::Several(taken) => and_taken(alloc, limit, right, between, behind, taken),
    }
}

/// What is left, with the right side for each match: in between where the match took a stretch of the word, else behind
/// other lists.
fn and_taken<'a>(
    alloc: Global,
    limit: u64,
    right: &'a ReadySide<'a>,
    between: Vec<Inserted<'a>>,
    behind: Vec<Run<'a>>,
    taken: Taken,
) -> Result<Remaining<'a>, AllocError>
    requires { numbers_given taken.cuts ≡ range_with_len 0 (length between.items) }
    ensures rest { IfOk result (λ after.
        rest_in after ≡ and_taken_of limit right.now (record { left = taken.left; cuts = map (cut_list limit) between.entry.items; behind = lists_of limit behind.entry.items; has_matched = false }) (Some taken)) }
    ensures limit { IfOk result (λ after. after.limit ≡ limit) }
{
    let Taken {
        left,
        cuts,
        matches,
        times,
    } = taken;
    let cuts = cuts.as_slice();
    let matches = matches.into_vec();
    if is_any_by_match(cuts) {
        let names = all_bound(alloc, matches)?;
        let between = put_between(alloc, limit, right, &names, cuts, between)?;
        return Ok(Remaining {
            limit,
            left,
            between,
            behind,
            has_matched: true,
        });
    }
    let between = put_between(alloc, limit, right, &[], cuts, between)?;
    let behind = put_all(alloc, limit, right, matches, times, behind)?;
    Ok(Remaining {
        limit,
        left,
        between,
        behind,
        has_matched: true,
    })
}

/// The right side with the bindings of each match, so many times each, behind other lists.
fn put_all<'a>(
    alloc: Global,
    limit: u64,
    right: &'a ReadySide<'a>,
    matches: Vec<Bindings>,
    times: u32,
    behind: Vec<Run<'a>>,
) -> Result<Vec<Run<'a>>, AllocError>
    ensures { IfOk result (λ lists. lists_of limit lists.items
        ≡ lists_of limit behind.entry.items ++ flat_map (λ bs. replicate times (right_with limit right.now bs)) matches.items) }
{
    let mut behind = behind;
    for bindings in matches {
        behind = put_behind(alloc, limit, right, bindings, times, behind)?;
    }
    Ok(behind)
}

/// The right side with the bindings of a match, so many times, behind other lists.
fn put_behind<'a>(
    alloc: Global,
    limit: u64,
    right: &'a ReadySide<'a>,
    bindings: Bindings,
    times: u32,
    behind: Vec<Run<'a>>,
) -> Result<Vec<Run<'a>>, AllocError>
    ensures { IfOk result (λ lists.
        lists_of limit lists.items ≡ lists_of limit behind.entry.items ++ replicate times (right_with limit right.now bindings)) }
{
    let names = bound(alloc, bindings);
    put_times(alloc, limit, right, &names, times, behind)
}

fn put_times<'a>(
    alloc: Global,
    limit: u64,
    right: &'a ReadySide<'a>,
    names: &Option<Standing>,
    times: u32,
    behind: Vec<Run<'a>>,
) -> Result<Vec<Run<'a>>, AllocError>
    ensures { IfOk result (λ lists. lists_of limit lists.items
        ≡ lists_of limit behind.entry.items ++ replicate times (list_of_sum limit (names_in names.now) right.now)) }
{
    match names {
        Some(_) => put_copies(alloc, limit, right, names, times, behind),
        None => put_unbound(alloc, limit, right, times, behind),
    }
}

/// The right side, in which nothing is bound, so many times, behind other lists.
fn put_unbound<'a>(
    alloc: Global,
    limit: u64,
    right: &'a ReadySide<'a>,
    times: u32,
    behind: Vec<Run<'a>>,
) -> Result<Vec<Run<'a>>, AllocError>
    ensures { IfOk result (λ lists. lists_of limit lists.items
        ≡ lists_of limit behind.entry.items ++ replicate times (list_of_sum limit no_meanings right.now)) }
{
    laws::lists_of_trees();
    match right.list_within(limit) {
        Some(list) => put_run(behind, list, times),
        None => put_copies(alloc, limit, right, &None, times, behind),
    }
}

/// The list of these terms, so many times, behind other lists.
fn put_run<'a>(
    behind: Vec<Run<'a>>,
    list: &'a [Monomial],
    times: u32,
) -> Result<Vec<Run<'a>>, AllocError>
    ensures { IfOk result (λ lists. (max : ℕ) → lists_of max lists.items
        ≡ lists_of max behind.entry.items ++ replicate times (limited max (all_of list.now))) }
{
    let mut behind = behind;
    behind.push(Run::Often(list, times))?;
    Ok(behind)
}

/// The right side by what names stand for, so many times, behind other lists, each as a list of its own.
fn put_copies<'a>(
    alloc: Global,
    limit: u64,
    right: &'a ReadySide<'a>,
    names: &Option<Standing>,
    times: u32,
    behind: Vec<Run<'a>>,
) -> Result<Vec<Run<'a>>, AllocError>
    ensures { IfOk result (λ lists. lists_of limit lists.items
        ≡ lists_of limit behind.entry.items ++ replicate times (list_of_sum limit (names_in names.now) right.now)) }
{
    let mut behind = behind;
    for _made in 0..times {
        behind.push(Run::Once(right_side(alloc, limit, right, names)?))?;
    }
    Ok(behind)
}

/// What names stand for by the bindings of a match, where there are some.
pub fn bound(alloc: Global, bindings: Bindings) -> Option<Standing>
    ensures { names_in result ≡ bound_to bindings }
{
    if bindings.is_empty() {
        return None;
    }
    Some(Standing::bound(alloc, bindings))
}

/// A right side as a list of a row: streamed where nothing is bound, and else written out whole.
pub fn right_side<'a>(
    alloc: Global,
    limit: u64,
    right: &'a ReadySide<'a>,
    names: &Option<Standing>,
) -> Result<Part<'a>, AllocError>
    ensures { IfOk result (λ list. part_list limit list ≡ list_of_sum limit (names_in names.now) right.now) }
{
    laws::lists_of_trees();
    match names {
        None => Ok(unbound_side(limit, right)),
        Some(names) => {
            let whole = whole_list(alloc, right.pieces(), limit, names)?;
            Ok(Part::List(whole))
        }
    }
}

/// A right side in which nothing is bound, as a list of a row.
fn unbound_side<'a>(limit: u64, right: &'a ReadySide<'a>) -> Part<'a>
    ensures { part_list limit result ≡ list_of_sum limit no_meanings right.now }
{
    laws::lists_of_trees();
    match right.list_within(limit) {
        Some(list) => Part::List(Whole::lent(list)),
        None => Part::Tree(right.pieces(), right.nothing()),
    }
}

/// What came of a term that a row was made of.
fn effect_of_pair<'a>(paired: Paired<'a>) -> Result<Effect<'a>, ExpandError>
    ensures { (l : Listing) → IsPaired l paired.entry → HasEffect result (made l) }
{
    match paired {
        Paired::One(item) => Ok(Effect::One(item)),
        Paired::Row(row) => Ok(Effect::Source(Source::Row(row))),
    }
}
