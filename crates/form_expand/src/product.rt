//! Products whose terms are made one by one: lists that are paired from the left, deepest first.
ghost use Rattle.std.specs.Prelude.{◌≡◌, ◌<◌, ℕ, [], ◌++◌, None, Some, IfOk, length, map, option_to_list};
ghost use Rattle.form_expand.specs.Factors.{IsSameRow, factor_lists};
ghost use Rattle.form_expand.specs.Left.{row};
ghost use Rattle.form_expand.specs.Listing.{nothing, single};
ghost use Rattle.form_expand.specs.Lists.{list_whole};
ghost use Rattle.form_expand.specs.Next.{Gives};
ghost use Rattle.form_expand.specs.Products.{ChangesAt, IsBegun, IsClosed, IsTaken, level_waiting, list_waiting, product_left};

use crate::ExpandError;
use crate::factors::Factors;
use crate::list::List;
use crate::walk::Walk;
use crate::whole::Whole;
use form_base::Cause;
use form_term::Monomial;
use std::alloc::{AllocError, Global};

/// A list of a product, with the term of the front before it that its terms are paired with: none at the first list, and none
/// once it went into the last product.
#[cycle(list)]
#[derive(Drop)]
pub struct Level<'a> {
    pub list: List<'a>,
    pub left: Option<Monomial>,
    /// How many terms the front up to it has had.
    pub count: u64,
}

impl<'a> Level<'a> {
    fn waiting(list: List<'a>) -> Level<'a>
        ensures { (max : ℕ) → level_waiting max result ≡ list_waiting max list.entry }
    {
        Level {
            list,
            left: None,
            count: 0,
        }
    }

    /// Begins again, for another term before it, or none.
    fn begin(&mut self, alloc: Global, left: Option<Monomial>)
        ensures { IsBegun left self.old self.new }
    {
        self.left = left;
        self.list.restart(alloc);
    }

    /// The product with the next term.
    #[cycle(taking)]
    fn take(
        &mut self,
        alloc: Global,
        limit: u64,
        deeper: u64,
    ) -> Result<Option<Monomial>, ExpandError>
        ensures { IsTaken limit result self.old self.new }
    {
        let Some(term) = self.list.next_times(alloc, limit, &mut self.left, deeper)? else {
            return Ok(None);
        };
        if self.count >= limit {
            return Err(ExpandError::Refused(Cause::ExpandLimit));
        }
        self.count += 1;
        Ok(Some(term))
    }
}

/// A product of lists.
#[cycle(list)]
#[derive(Drop)]
pub struct Product<'a> {
    pub levels: Vec<Level<'a>>,
    /// The level that terms are being taken from.
    pub place: usize,
}

impl<'a> Product<'a> {
    /// A product that is gone through.
    pub fn none(alloc: Global) -> Product<'a>
        ensures { (max : ℕ) → product_left max result ≡ nothing }
    {
        Product {
            levels: Vec::new(alloc),
            place: 0,
        }
    }

    /// The product of these factors; of none it has no terms.
    pub fn new(alloc: Global, limit: u64, factors: Factors<'a>) -> Result<Product<'a>, AllocError>
        ensures { IfOk result (λ product. product_left limit product ≡ row limit (factor_lists limit factors.entry)) }
    {
        let Factors { front, lists } = factors;
        if limit == 0 || lists.is_empty() {
            return Product::behind(alloc, None, with_front(front, lists)?);
        }
        Product::behind(alloc, front, lists)
    }

    /// The product of a front, where there is one, and lists behind it, of which there are none without terms before.
    fn behind(
        alloc: Global,
        front: Option<Monomial>,
        lists: Vec<List<'a>>,
    ) -> Result<Product<'a>, AllocError>
        requires { lists.items ≡ [] → front ≡ None }
        ensures { IfOk result (λ product. (max : ℕ) → (max ≡ 0 → front ≡ None) → product_left max product
            ≡ row max (map single (option_to_list front) ++ map (list_whole max) lists.entry.items)) }
    {
        let levels = waiting_levels(alloc, lists)?;
        if levels.is_empty() {
            return Ok(Product { levels, place: 0 });
        }
        let mut product = Product { levels, place: 0 };
        product.open(alloc, 0, front);
        Ok(product)
    }

    /// The next term.
    #[cycle(taking)]
    pub fn next(
        &mut self,
        alloc: Global,
        limit: u64,
        deeper: u64,
    ) -> Result<Option<Monomial>, ExpandError>
        ensures { Gives result (product_left limit self.old) (product_left limit self.new) }
    {
        'levels: while self.place < self.levels.len() {
            let Some(made) = self.take(alloc, limit, deeper)? else {
                self.close();
                continue 'levels;
            };
            if self.place + 1 == self.levels.len() {
                return Ok(Some(made));
            }
            self.open(alloc, self.place + 1, Some(made));
        }
        Ok(None)
    }

    /// A term of the level at the place, paired.
    #[cycle(taking)]
    fn take(
        &mut self,
        alloc: Global,
        limit: u64,
        deeper: u64,
    ) -> Result<Option<Monomial>, ExpandError>
        requires { self.old.place < length self.old.levels.items }
        ensures place { self.new.place ≡ self.old.place }
        ensures taken { ChangesAt (IsTaken limit result) self.old.place self.old.levels.items self.new.levels.items }
    {
        self.levels[self.place].take(alloc, limit, deeper)
    }

    /// Takes terms from the level at a place, from the first on, which are paired with this term, where there is one.
    fn open(&mut self, alloc: Global, place: usize, left: Option<Monomial>)
        requires { place < length self.old.levels.items }
        ensures place { self.new.place ≡ place }
        ensures begun { ChangesAt (IsBegun left) place self.old.levels.items self.new.levels.items }
    {
        self.levels[place].begin(alloc, left);
        self.place = place;
    }

    /// Takes no more terms from the level at the place. Where that is the first one nothing is left.
    fn close(&mut self)
        ensures { IsClosed self.old.place self.old.levels.items self.new.place self.new.levels.items }
    {
        if self.place == 0 {
            self.levels.clear();
            return;
        }
        self.place -= 1;
    }
}

/// Lists with a term before them, where there is one, as a list.
fn with_front<'a>(
    front: Option<Monomial>,
    lists: Vec<List<'a>>,
) -> Result<Vec<List<'a>>, AllocError>
    ensures { (max : ℕ) → IfOk result (λ all. IsSameRow max (map single (option_to_list front) ++ map (list_whole max) lists.entry.items) (map (list_whole max) all.items)) }
{
    let Some(term) = front else {
        return Ok(lists);
    };
    let mut lists = lists;
    lists.insert(0, List::Whole(Walk::new(Whole::single(term))))?;
    Ok(lists)
}

/// Levels of these lists, none of which terms were taken from.
fn waiting_levels<'a>(alloc: Global, lists: Vec<List<'a>>) -> Result<Vec<Level<'a>>, AllocError>
    ensures { IfOk result (λ levels. (max : ℕ) → map (level_waiting max) levels.items ≡ map (list_waiting max) lists.entry.items) }
{
    let mut levels = Vec::with_capacity(alloc, lists.len())?;
    for list in lists {
        levels.push(Level::waiting(list))?;
    }
    Ok(levels)
}
