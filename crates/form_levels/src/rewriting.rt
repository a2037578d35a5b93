ghost use Rattle.std.specs.Prelude.{◌≡◌, ◌≤◌, ◌^◌, ℕ, List, [], ◌∷◌, ◌++◌, None, length, map, replicate, slice_index_or, IfOk, IfSome};
ghost use Rattle.std.specs.Bool.{OnTrue};
ghost use Rattle.std.specs.List.{list_all};
ghost use Rattle.form_term.specs.Term.{IsTerm, Term as TermValue, is_nil};
ghost use Rattle.form_expand.specs.Expanding.{list_of_sum};
ghost use Rattle.form_expand.specs.Listing.{Listing};
ghost use Rattle.form_expand.specs.Meanings.{bound_to};
ghost use Rattle.form_expand.specs.Walks.{all_of};
ghost use Rattle.form_rewrite.specs.Taking.{taken_so_far};
ghost use Rattle.form_flow.specs.Rests.{names_in, numbers_given};
ghost use Rattle.form_flow.specs.Rewriting.{right_with, word_factor};
ghost use Rattle.form_flow.specs.Statement.{Limits};
ghost use Rattle.form_flow.specs.Words.{front as front_of};
ghost use Rattle.form_gathered.specs.declared.joined.JoinedTerm.{JoinedTerm as Joined};
ghost use Rattle.form_joined.specs.Powers.{AreKept};
ghost use Rattle.form_levels.specs.Rows.{AreFronts, IsBehind};
ghost use Rattle.form_levels.specs.Becoming.{AreFor, Becomes, IsRowOf, joined_by, put_named, right_by_each};
ghost use Rattle.form_levels.specs.Rules.{IsRewritten};
ghost use Rattle.form_levels.specs.Stretches.{end_before as end_of, first_cut, list_if, stretch_at, stretches_at, with_origin, with_each};

use crate::fronts::Fronts;
use crate::right_sides::{all_bound, bound, list_by, unbound_list};
use form_bindings::Bindings;
use form_expand::Standing;
use form_flow::{CompiledPart, with_front, word_of};
use form_frac::laws::weights;
use form_frac::{Frac, Weight};
use form_gathered::JoinedTerm;
use form_joined::Powers;
use form_rewrite::{Cut, Origin, Single, Take, Taken, take_out};
use form_term::{Monomial, Term};
use std::alloc::{AllocError, Global};

/// What an `id` with its `also`s makes of a joined term.
#[derive(Drop)]
pub enum Rewritten {
    Untouched(JoinedTerm),
    Acted(Vec<JoinedTerm>),
    /// Something may be refused.
    Unknown,
}

/// An `id` without `also`s.
#[derive(Drop)]
pub struct Rule<'r, 'a> {
    pub alloc: Global,
    /// The most terms of a list.
    pub limit: u64,
    pub part: &'r CompiledPart<'a>,
}

/// A stretch of a word behind a cut, where there is one.
#[derive(Drop)]
pub struct Stretch {
    /// Why the word is cut in front of it.
    pub origin: Origin,
    pub item: Option<Monomial>,
}

impl<'r, 'a> Rule<'r, 'a> {
    /// What becomes of a joined term.
    pub fn on(&self, joined: JoinedTerm, powers: &mut Powers) -> Result<Rewritten, AllocError>
        requires some { 1 ≤ self.now.limit }
        requires kept { AreFor self.now.limit (self.now.part.now ∷ []) powers.old }
        ensures kept { AreFor self.now.limit (self.now.part.now ∷ []) powers.new }
        ensures rewritten { (at : Limits) → at.terms ≡ self.now.limit → IfOk result (IsRewritten at (self.now.part.now ∷ []) joined) }
    {
        let option = self.part.option();
        let pattern = self.part.pattern();
        let JoinedTerm {
            term,
            sum,
            weight,
            count,
        } = joined;
        let known = Known { sum, weight, count };
        match take_out(self.alloc, term, &[], pattern, option)? {
            Take::Untaken(term) => Ok(Rewritten::Untouched(known.with(term))),
            Take::Single(single) => self.on_single(known, single),
            Take::Several(taken) => self.on_taken(known, taken, powers),
        }
    }

    /// What becomes of a term out of which one match was taken.
    fn on_single(&self, known: Known, single: Single) -> Result<Rewritten, AllocError>
        requires { 1 ≤ self.now.limit }
        ensures { IfOk result (Becomes self.now known (taken_so_far single.left [] (single.bindings ∷ []) 1)) }
    {
        let Single { left, bindings } = single;
        let fronts = Fronts::new(self.alloc, self.limit, known.with(left))?;
        let Some(all) = self.with_match(fronts, bindings, 1)? else {
            return Ok(Rewritten::Unknown);
        };
        Ok(Rewritten::Acted(all.into_vec()))
    }

    /// What becomes of a term out of which this was taken.
    fn on_taken(
        &self,
        known: Known,
        taken: Taken,
        powers: &mut Powers,
    ) -> Result<Rewritten, AllocError>
        requires some { 1 ≤ self.now.limit }
        requires kept { AreFor self.now.limit (self.now.part.now ∷ []) powers.old }
        requires uncut { numbers_given taken.cuts ≡ [] }
        ensures kept { AreFor self.now.limit (self.now.part.now ∷ []) powers.new }
        ensures becomes { IfOk result (Becomes self.now known taken) }
    {
        let Taken {
            left,
            cuts,
            matches,
            times,
        } = taken;
        let cuts = cuts.as_slice();
        let matches = matches.into_vec();
        let Some(start) = first_place(cuts) else {
            return self.for_each(known.with(left), matches, times, powers);
        };
        let names = names_of(self.alloc, matches)?;
        self.at_cuts(known, left, start, cuts, &names)
    }

    /// A front, and the right side so many times behind it for each match.
    fn for_each(
        &self,
        front: JoinedTerm,
        matches: Vec<Bindings>,
        times: u32,
        powers: &mut Powers,
    ) -> Result<Rewritten, AllocError>
        requires some { 1 ≤ self.now.limit }
        requires kept { AreFor self.now.limit (self.now.part.now ∷ []) powers.old }
        ensures kept { AreFor self.now.limit (self.now.part.now ∷ []) powers.new }
        ensures row { IfOk result (IsRowOf self.now.limit (right_by_each self.now times matches.items) front) }
    {
        if !bind_nothing(&matches) {
            return self.by_each(front, matches, times);
        }
        match matches.len().checked_mul(times as usize) {
            Some(all) => self.by_none(front, all, powers),
            None => Ok(Rewritten::Unknown),
        }
    }

    /// The same, one match after the other.
    fn by_each(
        &self,
        front: JoinedTerm,
        matches: Vec<Bindings>,
        times: u32,
    ) -> Result<Rewritten, AllocError>
        requires { 1 ≤ self.now.limit }
        ensures { IfOk result (IsRowOf self.now.limit (right_by_each self.now times matches.items) front) }
    {
        let mut fronts = Fronts::new(self.alloc, self.limit, front)?;
        for bindings in matches {
            let Some(more) = self.with_match(fronts, bindings, times as usize)? else {
                return Ok(Rewritten::Unknown);
            };
            fronts = more;
        }
        Ok(Rewritten::Acted(fronts.into_vec()))
    }

    /// A front, and the right side so many times behind it, where nothing is bound.
    fn by_none(
        &self,
        front: JoinedTerm,
        times: usize,
        powers: &mut Powers,
    ) -> Result<Rewritten, AllocError>
        requires some { 1 ≤ self.now.limit }
        requires kept { AreFor self.now.limit (self.now.part.now ∷ []) powers.old }
        ensures kept { AreFor self.now.limit (self.now.part.now ∷ []) powers.new }
        ensures row { IfOk result (IsRowOf self.now.limit (replicate times (right_with self.now.limit self.now.part.now.right [])) front) }
    {
        let right = self.part.right();
        let Some(list) = unbound_list(self.alloc, self.limit, right)? else {
            return Ok(Rewritten::Unknown);
        };
        self.times(front, list.terms(), times, powers)
    }

    /// A front, and a list so many times behind it: at once, where that power is kept and has room.
    fn times(
        &self,
        front: JoinedTerm,
        list: &[Monomial],
        times: usize,
        powers: &mut Powers,
    ) -> Result<Rewritten, AllocError>
        requires some { 1 ≤ self.now.limit }
        requires kept { AreKept list.now powers.old }
        ensures kept { AreKept list.now powers.new }
        ensures row { IfOk result (IsRowOf self.now.limit (replicate times (all_of list.now)) front) }
    {
        weights();
        if times < 2 || !is_short(list, times, self.limit) {
            return self.one_by_one(front, list, times);
        }
        powers.make(list, times - 1)?;
        let Some(power) = powers.behind(&front, times - 1) else {
            return self.one_by_one(front, list, times);
        };
        match power.times(self.alloc, front)? {
            Some(made) => Ok(Rewritten::Acted(made)),
            None => Ok(Rewritten::Unknown),
        }
    }

    /// The same, one after the other.
    fn one_by_one(
        &self,
        front: JoinedTerm,
        list: &[Monomial],
        times: usize,
    ) -> Result<Rewritten, AllocError>
        requires { 1 ≤ self.now.limit }
        ensures { IfOk result (IsRowOf self.now.limit (replicate times (all_of list.now)) front) }
    {
        let fronts = Fronts::new(self.alloc, self.limit, front)?;
        let Some(all) = fronts.times_often(list, times)? else {
            return Ok(Rewritten::Unknown);
        };
        Ok(Rewritten::Acted(all.into_vec()))
    }

    /// What is left up to the first cut, and behind it at each cut the right side by what names stand for, and the stretch of
    /// the word there.
    fn at_cuts(
        &self,
        known: Known,
        left: Term,
        start: usize,
        cuts: &[Cut],
        names: &[Option<Standing>],
    ) -> Result<Rewritten, AllocError>
        requires { 1 ≤ self.now.limit }
        ensures { IfOk result (IsRowOf self.now.limit
            (with_each (put_named self.now names.now) (stretches_at left.others.word cuts.now)) (joined_by known (front_of start left))) }
    {
        let _ = left.powers();
        let stretches = stretches(self.alloc, &left, cuts)?;
        let front = with_front(self.alloc, left, start)?;
        self.between(known.with(front), &stretches, names)
    }

    /// A front, and behind it the right side before each of these stretches.
    fn between(
        &self,
        front: JoinedTerm,
        stretches: &[Stretch],
        names: &[Option<Standing>],
    ) -> Result<Rewritten, AllocError>
        requires { 1 ≤ self.now.limit }
        ensures { IfOk result (IsRowOf self.now.limit (with_each (put_named self.now names.now) (map with_origin stretches.now)) front) }
    {
        let mut fronts = Fronts::new(self.alloc, self.limit, front)?;
        for stretch in stretches {
            let Some(more) = self.with_stretch(fronts, stretch, names)? else {
                return Ok(Rewritten::Unknown);
            };
            fronts = more;
        }
        Ok(Rewritten::Acted(fronts.into_vec()))
    }

    /// The right side behind fronts, and a stretch of a word behind it.
    fn with_stretch(
        &self,
        fronts: Fronts,
        stretch: &Stretch,
        names: &[Option<Standing>],
    ) -> Result<Option<Fronts>, AllocError>
        ensures fronts { (t : TermValue) (lists : List Listing) (j : Joined) → AreFronts t lists j fronts →
            IfOk result (λ made. IfSome made (AreFronts t (lists ++ put_named self.now names.now stretch.now.origin ∷ list_if stretch.now.item) j)) }
        ensures limit { IfOk result (λ made. IfSome made (λ more. more.limit ≡ fronts.limit)) }
    {
        let Some(more) = self.at_cut(fronts, stretch.origin, names)? else {
            return Ok(None);
        };
        match &stretch.item {
            Some(item) => more.times(std::slice::from_ref(item)),
            None => Ok(Some(more)),
        }
    }

    /// What is put in at a cut, behind fronts.
    fn at_cut(
        &self,
        fronts: Fronts,
        origin: Origin,
        names: &[Option<Standing>],
    ) -> Result<Option<Fronts>, AllocError>
        ensures fronts { IsBehind fronts 1 (put_named self.now names.now origin) result }
        ensures limit { IfOk result (λ made. IfSome made (λ more. more.limit ≡ fronts.limit)) }
    {
        match origin {
            Origin::Given(_) => Ok(None),
            Origin::TakenBy(number) => self.by_number(fronts, names, number),
        }
    }

    /// The right side by what names stand for in a match, behind fronts.
    fn by_number(
        &self,
        fronts: Fronts,
        names: &[Option<Standing>],
        number: usize,
    ) -> Result<Option<Fronts>, AllocError>
        ensures fronts { IsBehind fronts 1 (list_of_sum self.now.limit (names_in (slice_index_or names.now number None)) self.now.part.now.right) result }
        ensures limit { IfOk result (λ made. IfSome made (λ more. more.limit ≡ fronts.limit)) }
    {
        match names.get(number) {
            Some(names) => self.with_list(fronts, names, 1),
            None => self.with_list(fronts, &None, 1),
        }
    }

    /// The right side with the bindings of a match, so many times behind fronts.
    fn with_match(
        &self,
        fronts: Fronts,
        bindings: Bindings,
        times: usize,
    ) -> Result<Option<Fronts>, AllocError>
        ensures fronts { IsBehind fronts times (right_with self.now.limit self.now.part.now.right bindings) result }
        ensures limit { IfOk result (λ made. IfSome made (λ more. more.limit ≡ fronts.limit)) }
    {
        let names = bound(self.alloc, bindings);
        self.with_list(fronts, &names, times)
    }

    /// The right side by what names stand for, so many times behind fronts; none where something may be refused, or it is long.
    fn with_list(
        &self,
        fronts: Fronts,
        names: &Option<Standing>,
        times: usize,
    ) -> Result<Option<Fronts>, AllocError>
        ensures fronts { IsBehind fronts times (list_of_sum self.now.limit (names_in names.now) self.now.part.now.right) result }
        ensures limit { IfOk result (λ made. IfSome made (λ more. more.limit ≡ fronts.limit)) }
    {
        let right = self.part.right();
        let Some(list) = list_by(self.alloc, self.limit, right, names)? else {
            return Ok(None);
        };
        fronts.times_often(list.terms(), times)
    }
}

/// What is known of a joined term besides the term.
#[derive(Clone, Copy)]
pub struct Known {
    pub sum: Frac,
    pub weight: Weight,
    pub count: u64,
}

impl Known {
    /// The joined term of which it is known.
    pub fn with(self, term: Term) -> JoinedTerm
        ensures { result ≡ joined_by self term }
    {
        JoinedTerm {
            term,
            sum: self.sum,
            weight: self.weight,
            count: self.count,
        }
    }
}

/// What names stand for in each match. Where nothing is bound in any, nothing is kept.
fn names_of(alloc: Global, matches: Vec<Bindings>) -> Result<Vec<Option<Standing>>, AllocError>
    ensures { IfOk result (λ names. (n : ℕ) → names_in (slice_index_or names.items n None) ≡ bound_to (slice_index_or matches.items n [])) }
{
    if bind_nothing(&matches) {
        return Ok(Vec::new(alloc));
    }
    all_bound(alloc, matches)
}

fn bind_nothing(matches: &[Bindings]) -> bool
    ensures { result ≡ list_all is_nil matches.now }
{
    matches.iter().all(|bindings| bindings.is_empty())
}

/// Whether so many factors out of a list come to no more products than a limit.
fn is_short(list: &[Monomial], times: usize, limit: u64) -> bool
    ensures { OnTrue result (length list.now ^ times ≤ limit) }
{
    let Ok(times) = u32::try_from(times) else {
        return false;
    };
    let Some(products) = (list.len() as u64).checked_pow(times) else {
        return false;
    };
    products <= limit
}

/// The place of the first cut.
fn first_place(cuts: &[Cut]) -> Option<usize>
    ensures { result ≡ first_cut cuts.now }
{
    let [first, ..] = cuts else {
        return None;
    };
    Some(first.place as usize)
}

/// The parts of a word behind each cut, up to the next one.
fn stretches(alloc: Global, term: &Term, cuts: &[Cut]) -> Result<Vec<Stretch>, AllocError>
    requires { IsTerm term.now }
    ensures { IfOk result (λ made. map with_origin made.items ≡ stretches_at term.now.others.word cuts.now) }
{
    let mut made = Vec::with_capacity(alloc, cuts.len())?;
    let mut ahead = cuts;
    while let Some((cut, behind)) = ahead.split_first() {
        let item = stretch_behind(alloc, term, cut, behind)?;
        made.push(Stretch {
            origin: cut.origin,
            item,
        })?;
        ahead = behind;
    }
    Ok(made)
}

/// The part of a word behind a cut, up to the next one, where there is one.
fn stretch_behind(
    alloc: Global,
    term: &Term,
    cut: &Cut,
    behind: &[Cut],
) -> Result<Option<Monomial>, AllocError>
    requires { IsTerm term.now }
    ensures { IfOk result (λ item. list_if item ≡ word_factor (stretch_at term.now.others.word cut.now behind.now)) }
{
    let start = cut.place as usize;
    let end = end_before(term, behind);
    let Some(word) = word_of(alloc, term, start, end.saturating_sub(start))? else {
        return Ok(None);
    };
    Ok(Some(Monomial {
        coefficient: Frac::one(),
        term: word,
    }))
}

/// Where a stretch of a word ends before these cuts.
fn end_before(term: &Term, cuts: &[Cut]) -> usize
    ensures { result ≡ end_of term.now.others.word cuts.now }
{
    match cuts {
        [next, ..] => next.place as usize,
        [] => term.word().len(),
    }
}
