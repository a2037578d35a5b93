//! What is put in between the parts of a word that was cut.
ghost use Rattle.std.specs.List.{range_with_len};
ghost use Rattle.std.specs.Prelude.{◌≡◌, ◌<◌, ◌+◌, ◌++◌, ℕ, IfOk, List, drop, length, map, slice_index_or, take, None, false, true};
ghost use Rattle.std.specs.Vec.Iter.{into_iter_items, into_iter_len};
ghost use Rattle.form_term.specs.Term.{IsTerm};
ghost use Rattle.form_expand.specs.Expanding.{list_of_sum};
ghost use Rattle.form_expand.specs.Listing.{Listing};
ghost use Rattle.form_expand.specs.Meanings.{bound_to};
ghost use Rattle.form_expand.specs.Parts.{part_list};
ghost use Rattle.form_expand.specs.Runs.{lists_of};
ghost use Rattle.form_flow.specs.Rests.{ComesAt, cut_list, first_cut, names_in, numbers_given, place_of, put_in_named, taken_after};
ghost use Rattle.form_flow.specs.Rewriting.{any_match, from_cuts, is_by_match, list_of_rest, no_list, word_factor};

use crate::compiled::ReadySide;
use crate::rest::{bound, right_side};
use crate::words::{with_front, word_of};
use form_bindings::Bindings;
use form_expand::{Part, Row, Run, Standing};
use form_rewrite::{Cut, Origin};
use form_term::{Monomial, Term};
use std::alloc::{AllocError, Global};
use std::vec::IntoIter;

/// A place at which the word that is left of a term is cut, and what is put in there.
#[derive(Drop)]
pub struct Inserted<'a> {
    pub place: u32,
    pub list: Part<'a>,
}

/// The places of these cuts.
pub fn places(alloc: Global, between: &[Inserted]) -> Result<Vec<u32>, AllocError>
    ensures { IfOk result (λ places. places.items ≡ map place_of between.now) }
{
    let mut places = Vec::new(alloc);
    for one in between {
        places.push(one.place)?;
    }
    Ok(places)
}

/// Whether a match took a stretch of the word.
pub fn is_any_by_match(cuts: &[Cut]) -> bool
    ensures { result ≡ any_match cuts.now }
{
    cuts.iter().any(|cut| by_match(cut.origin))
}

fn by_match(origin: Origin) -> bool
    ensures { result ≡ is_by_match origin }
{
    match origin {
        Origin::Given(_) => false,
        Origin::TakenBy(_) => true,
    }
}

/// What names stand for by the bindings of each match.
pub fn all_bound(alloc: Global, matches: Vec<Bindings>) -> Result<Vec<Option<Standing>>, AllocError>
    ensures { IfOk result (λ names. map names_in names.items ≡ map bound_to matches.items) }
{
    let mut names = Vec::new(alloc);
    for bindings in matches {
        names.push(bound(alloc, bindings))?;
    }
    Ok(names)
}

/// What is put in at cuts: what was there before, or the right side by what names stand for in the match. Cuts keep their
/// order.
pub fn put_between<'a>(
    alloc: Global,
    limit: u64,
    right: &'a ReadySide<'a>,
    names: &[Option<Standing>],
    cuts: &[Cut],
    before: Vec<Inserted<'a>>,
) -> Result<Vec<Inserted<'a>>, AllocError>
    requires { numbers_given cuts.now ≡ range_with_len 0 (length before.items) }
    ensures { IfOk result (λ made. map (cut_list limit) made.items
        ≡ map (λ c. (c.place, put_in_named limit right.now (map (cut_list limit) before.entry.items) names.now c.origin)) cuts.now) }
{
    let mut earlier = before.into_iter();
    let mut between = Vec::new(alloc);
    let mut ahead = cuts;
    while let Some((cut, behind)) = ahead.split_first() {
        let list = put_in(alloc, limit, right, names, cut, &mut earlier)?;
        between.push(Inserted {
            place: cut.place,
            list,
        })?;
        ahead = behind;
    }
    Ok(between)
}

/// What is put in at a cut.
fn put_in<'a>(
    alloc: Global,
    limit: u64,
    right: &'a ReadySide<'a>,
    names: &[Option<Standing>],
    cut: &Cut,
    earlier: &mut IntoIter<Inserted<'a>>,
) -> Result<Part<'a>, AllocError>
    requires { is_by_match cut.now.origin ≡ false → 0 < into_iter_len earlier.old }
    ensures { (taken : ℕ) (all : List (ℕ × Listing)) → map (cut_list limit) (into_iter_items earlier.old) ≡ drop taken all → ComesAt taken cut.now.origin →
        IfOk result (λ list. (map (cut_list limit) (into_iter_items earlier.new) ≡ drop (taken_after cut.now.origin taken) all)
        × (part_list limit list ≡ put_in_named limit right.now all names.now cut.now.origin)) }
{
    match cut.origin {
        Origin::Given(_) => Ok(next_earlier(earlier)),
        Origin::TakenBy(number) => right_side_by(alloc, limit, right, names, number),
    }
}

/// What was put in at the next earlier cut.
fn next_earlier<'a>(earlier: &mut IntoIter<Inserted<'a>>) -> Part<'a>
    requires { 0 < into_iter_len earlier.old }
    ensures { (max taken : ℕ) (all : List (ℕ × Listing)) → map (cut_list max) (into_iter_items earlier.old) ≡ drop taken all →
        (map (cut_list max) (into_iter_items earlier.new) ≡ drop (taken + 1) all) × (part_list max result ≡ (slice_index_or all taken no_list).1) }
{
    let Some(one) = earlier.next() else {
        unreachable!()
    };
    let Inserted { place: _, list } = one;
    list
}

/// The right side by what names stand for in a match.
fn right_side_by<'a>(
    alloc: Global,
    limit: u64,
    right: &'a ReadySide<'a>,
    names: &[Option<Standing>],
    number: usize,
) -> Result<Part<'a>, AllocError>
    ensures { IfOk result (λ list. part_list limit list ≡ list_of_sum limit (names_in (slice_index_or names.now number None)) right.now) }
{
    match names.get(number) {
        Some(names) => right_side(alloc, limit, right, names),
        None => right_side(alloc, limit, right, &None),
    }
}

/// The row of what is left of a term, with what is put in between the parts of its word and behind it.
pub fn row_of<'a>(
    alloc: Global,
    limit: u64,
    item: Monomial,
    between: Vec<Inserted<'a>>,
    behind: Vec<Run<'a>>,
) -> Result<Row<'a>, AllocError>
    ensures { IfOk result (λ row. row ≡ list_of_rest limit item (record { left = item.term; cuts = map (cut_list limit) between.entry.items; behind = lists_of limit behind.entry.items; has_matched = true })) }
{
    let Some(start) = first_place(&between) else {
        return Row::of_runs(alloc, limit, item, behind);
    };
    let Monomial { coefficient, term } = item;
    let _ = term.powers();
    let lists = with_words(alloc, &term, start, between)?;
    let front = with_front(alloc, term, start)?;
    let first = Monomial {
        coefficient,
        term: front,
    };
    let runs = runs_of(alloc, lists)?;
    Row::of_runs(alloc, limit, first, with_behind(runs, behind)?)
}

/// The place of the first cut.
fn first_place(between: &[Inserted]) -> Option<usize>
    ensures { result ≡ first_cut between.now }
{
    let [first, ..] = between else {
        return None;
    };
    Some(first.place as usize)
}

/// The parts of a word from a place on, and what is put in between them.
fn with_words<'a>(
    alloc: Global,
    term: &Term,
    start: usize,
    between: Vec<Inserted<'a>>,
) -> Result<Vec<Part<'a>>, AllocError>
    requires { IsTerm term.now }
    ensures { (max : ℕ) → IfOk result (λ made. map (part_list max) made.items
        ≡ from_cuts term.now.others.word start (map (cut_list max) between.entry.items)) }
{
    let mut start = start;
    let mut lists = Vec::new(alloc);
    for one in between {
        let Inserted { place, list } = one;
        let end = place as usize;
        lists = with_word(alloc, term, start, end.saturating_sub(start), lists)?;
        lists.push(list)?;
        start = end;
    }
    with_word(alloc, term, start, term.word().len(), lists)
}

/// Lists, and behind them so many functions of a word from a place on, where there are some.
fn with_word<'a>(
    alloc: Global,
    term: &Term,
    start: usize,
    count: usize,
    lists: Vec<Part<'a>>,
) -> Result<Vec<Part<'a>>, AllocError>
    requires { IsTerm term.now }
    ensures { (max : ℕ) → IfOk result (λ made. map (part_list max) made.items
        ≡ map (part_list max) lists.entry.items ++ word_factor (take count (drop start term.now.others.word))) }
{
    let mut lists = lists;
    if let Some(word) = word_of(alloc, term, start, count)? {
        lists.push(Part::Word(word))?;
    }
    Ok(lists)
}

/// Lists as runs, each once.
fn runs_of<'a>(alloc: Global, lists: Vec<Part<'a>>) -> Result<Vec<Run<'a>>, AllocError>
    ensures { IfOk result (λ runs. (max : ℕ) → lists_of max runs.items ≡ map (part_list max) lists.entry.items) }
{
    let mut runs = Vec::new(alloc);
    for list in lists {
        runs.push(Run::Once(list))?;
    }
    Ok(runs)
}

/// Runs of lists, and others behind them.
fn with_behind<'a>(runs: Vec<Run<'a>>, behind: Vec<Run<'a>>) -> Result<Vec<Run<'a>>, AllocError>
    ensures { IfOk result (λ all. all.items ≡ runs.entry.items ++ behind.entry.items) }
{
    let mut runs = runs;
    for run in behind {
        runs.push(run)?;
    }
    Ok(runs)
}
