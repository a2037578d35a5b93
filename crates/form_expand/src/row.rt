//! A term, and lists of several kinds behind it, paired from the left.
ghost use Rattle.std.specs.Prelude.{◌≡◌, ◌∷◌, ◌++◌, [], IfOk, OnOk};
ghost use Rattle.form_expand.specs.Factors.{IsSameRow, factor_lists};
ghost use Rattle.form_expand.specs.Left.{row};
ghost use Rattle.form_expand.specs.Listing.{single};
ghost use Rattle.form_expand.specs.Next.{Gives};
ghost use Rattle.form_expand.specs.Paired.{IsPaired};
ghost use Rattle.form_expand.specs.Parts.{part_list};
ghost use Rattle.form_expand.specs.Reading.{list_of_pieces};
ghost use Rattle.form_expand.specs.Runs.{lists_of, run_lists};

use crate::ExpandError;
use crate::expansion::list_of;
use crate::factors::Factors;
use crate::lone_function::{Timed, times_lone_function};
use crate::power::put_list;
use crate::product::Product;
use crate::scope::Scope;
use crate::stored::Standing;
use crate::whole::Whole;
use form_frac::Frac;
use form_term::{Monomial, Term};
use form_tree::Piece;
use std::alloc::{AllocError, Global};
use std::marker::Model;

/// A list of a row: in a clause `part_list` says which.
#[derive(Drop)]
pub enum Part<'a> {
    /// A sum, by its pieces, and what names stand for in it.
    Tree(&'a [Piece], &'a Standing),
    List(Whole<'a>),
    /// A term with the coefficient 1.
    Word(Term),
}

/// Lists of a row: in a clause `run_lists` says which.
#[derive(Drop)]
pub enum Run<'a> {
    Once(Part<'a>),
    /// The list of these terms, so many times.
    Often(&'a [Monomial], u32),
}

/// Lists that are paired from the left, whose terms are made one by one as they are asked for: in a clause what is left.
pub struct Row<'a> {
    limit: u64,
    product: Product<'a>,
}

impl Drop for Row<'_> {
    fn drop(self) {
        let Row {
            limit: _,
            product: _,
        } = self;
    }
}

impl<'a> Model for Row<'a> {
    ghost use Rattle.form_expand.specs.Listing.{Listing};

    ghost Value = { Listing };

    ghost use Rattle.form_expand.specs.Products.{product_left};

    ghost view = { λ r. product_left r.limit r.product };
}

impl<'a> Row<'a> {
    /// A term, and runs of lists behind it. Each front of the row has at most `limit` terms.
    pub fn of_runs(
        alloc: Global,
        limit: u64,
        first: Monomial,
        runs: Vec<Run<'a>>,
    ) -> Result<Row<'a>, AllocError>
        ensures { IfOk result (λ made. made ≡ row limit (single first ∷ lists_of limit runs.entry.items)) }
    {
        let mut factors = Factors::of_term(alloc, limit, first)?;
        for run in runs {
            put_run(alloc, limit, run, &mut factors)?;
        }
        let product = Product::new(alloc, limit, factors)?;
        Ok(Row { limit, product })
    }

    /// The next term. The first refusal ends the list; once it or want of memory was answered it isn't asked again.
    pub fn next(&mut self, alloc: Global) -> Result<Option<Monomial>, ExpandError>
        ensures { Gives result self.old self.new }
    {
        self.product.next(alloc, self.limit, u64::MAX)
    }
}

/// Adds lists as further factors.
fn put_run<'a>(
    alloc: Global,
    limit: u64,
    run: Run<'a>,
    factors: &mut Factors<'a>,
) -> Result<(), AllocError>
    ensures { OnOk result (IsSameRow limit (factor_lists limit factors.old ++ run_lists limit run.entry) (factor_lists limit factors.new)) }
{
    match run {
        Run::Once(part) => put_part(alloc, limit, part, factors),
        Run::Often(terms, times) => factors.put_often(alloc, limit, terms, times),
    }
}

/// Adds a list as a further factor.
fn put_part<'a>(
    alloc: Global,
    limit: u64,
    part: Part<'a>,
    factors: &mut Factors<'a>,
) -> Result<(), AllocError>
    ensures { OnOk result (IsSameRow limit (factor_lists limit factors.old ++ part_list limit part.entry ∷ []) (factor_lists limit factors.new)) }
{
    match part {
        Part::Tree(pieces, names) => {
            put_list(alloc, Scope::new(limit, names), pieces, factors, u64::MAX)
        }
        Part::List(whole) => factors.put_whole(alloc, limit, whole),
        Part::Word(term) => {
            let word = Monomial {
                coefficient: Frac::one(),
                term,
            };
            factors.put_whole(alloc, limit, Whole::single(word))
        }
    }
}

/// The row of a term and a list behind it: the one term that it comes to, where that is known, or the row itself.
#[derive(Drop)]
pub enum Paired<'a> {
    One(Monomial),
    Row(Box<Row<'a>>),
}

/// The row of a term and a right side behind it, by what names stand for.
pub fn times_list<'a>(
    alloc: Global,
    limit: u64,
    right: &[Piece],
    left: Monomial,
    names: &Standing,
) -> Result<Paired<'a>, AllocError>
    ensures { IfOk result (λ paired. IsPaired (row limit (single left ∷ list_of_pieces limit names.now right.now ∷ [])) paired) }
{
    match times_lone_function(alloc, left, right, limit, names)? {
        Timed::Made(item) => Ok(Paired::One(item)),
        Timed::Same(left) => {
            let whole = list_of(alloc, right, limit, names)?;
            pair(alloc, limit, left, Part::List(whole))
        }
    }
}

/// The row of a term and a list behind it.
pub fn pair<'a>(
    alloc: Global,
    limit: u64,
    left: Monomial,
    list: Part<'a>,
) -> Result<Paired<'a>, AllocError>
    ensures { IfOk result (λ paired. IsPaired (row limit (single left ∷ part_list limit list.entry ∷ [])) paired) }
{
    let mut factors = Factors::of_term(alloc, limit, left)?;
    put_part(alloc, limit, list, &mut factors)?;
    if limit == 0 || !factors.lists.is_empty() {
        return paired_row(alloc, limit, factors);
    }
    match factors.front.take() {
        Some(item) => Ok(Paired::One(item)),
        None => paired_row(alloc, limit, factors),
    }
}

/// The row of these factors.
fn paired_row<'a>(alloc: Global, limit: u64, factors: Factors<'a>) -> Result<Paired<'a>, AllocError>
    ensures { IfOk result (λ paired. IsPaired (row limit (factor_lists limit factors.entry)) paired) }
{
    let product = Product::new(alloc, limit, factors)?;
    Ok(Paired::Row(Box::new(alloc, Row { limit, product })?))
}
