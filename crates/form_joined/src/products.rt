ghost use Rattle.std.specs.Prelude.{◌≡◌, ◌*◌, [], ◌∷◌, ◌++◌, Some, map, IfOk, IfSome};
ghost use Rattle.std.specs.Bool.{OnTrue};
ghost use Rattle.form_normal.specs.Product.{product_of};
ghost use Rattle.form_frac.specs.Weight.{times};
ghost use Rattle.form_gathered.specs.Joined.{IsJoined};
ghost use Rattle.form_joined.specs.Adding.{joined_of, behind, IsAdded};
ghost use Rattle.form_joined.specs.Products.{paired, singles, times_each};

use form_frac::Weight;
use form_gathered::JoinedTerm;
use form_normal::{ProductError, product, product_onto};
use form_term::Monomial;
use std::alloc::{AllocError, Global};
use std::marker::Model;

/// For so many products there is room at first.
const MOST_AT_FIRST: usize = 4096;

/// A joined term as a factor, with its sum as the coefficient.
#[derive(Drop)]
struct Factor {
    item: Monomial,
    weight: Weight,
    count: u64,
}

/// Joined terms as factors, in a clause their list.
#[derive(Drop)]
pub struct Factors {
    items: Vec<Factor>,
}

impl Model for Factors {
    ghost use Rattle.std.specs.Prelude.{List, map};
    ghost use Rattle.form_gathered.specs.declared.joined.JoinedTerm.{JoinedTerm};
    ghost use Rattle.form_joined.specs.Adding.{joined_of};

    ghost Value = { List JoinedTerm };

    ghost view = { λ f. map joined_of f.items.items };
}

impl Factors {
    pub fn new(alloc: Global, terms: &[JoinedTerm]) -> Result<Factors, AllocError>
        ensures { IfOk result (λ made. made ≡ terms.now) }
    {
        Ok(Factors {
            items: factors_of(alloc, terms)?,
        })
    }

    /// The terms of a list, each alone.
    pub(crate) fn of_list(alloc: Global, list: &[Monomial]) -> Result<Factors, AllocError>
        ensures { IfOk result (λ made. made ≡ singles list.now) }
    {
        Ok(Factors {
            items: factors_of_list(alloc, list)?,
        })
    }

    /// The joined terms that they are.
    pub(crate) fn terms(&self, alloc: Global) -> Result<Vec<JoinedTerm>, AllocError>
        ensures { IfOk result (λ terms. terms.items ≡ self.now) }
    {
        joined_terms(alloc, &self.items)
    }

    pub(crate) fn len(&self) -> usize {
        self.items.len()
    }

    /// A joined term times each of them. None where a product is refused, or a weight or a count is out of range.
    pub fn times(
        &self,
        alloc: Global,
        front: JoinedTerm,
    ) -> Result<Option<Vec<JoinedTerm>>, AllocError>
        ensures { IfOk result (λ made. IfSome made (λ all. paired (front ∷ []) self.now ≡ Some all.items)) }
    {
        let mut made = with_room(alloc, 1, self.items.len())?;
        if !add_joined(alloc, front, &self.items, &mut made)? {
            return Ok(None);
        }
        Ok(Some(made))
    }
}

/// Each of these times each of a list. None where a product is refused, or a weight or a count is out of range.
pub fn times_list(
    alloc: Global,
    fronts: Vec<JoinedTerm>,
    list: &[Monomial],
) -> Result<Option<Vec<JoinedTerm>>, AllocError>
    ensures { IfOk result (λ made. IfSome made (λ all. paired fronts.items (singles list.now) ≡ Some all.items)) }
{
    let mut made = with_room(alloc, fronts.len(), list.len())?;
    for front in fronts {
        if !add_singles(alloc, front, list, &mut made)? {
            return Ok(None);
        }
    }
    Ok(Some(made))
}

/// Each of these times each of others. None where a product is refused, or a weight or a count is out of range.
pub fn times_joined(
    alloc: Global,
    fronts: Vec<JoinedTerm>,
    factor: &[JoinedTerm],
) -> Result<Option<Vec<JoinedTerm>>, AllocError>
    ensures { IfOk result (λ made. IfSome made (λ all. paired fronts.items factor.now ≡ Some all.items)) }
{
    let factors = factors_of(alloc, factor)?;
    let mut made = with_room(alloc, fronts.len(), factor.len())?;
    for front in fronts {
        if !add_joined(alloc, front, &factors, &mut made)? {
            return Ok(None);
        }
    }
    Ok(Some(made))
}

/// An empty list with room for the products of so many and so many.
fn with_room(alloc: Global, left: usize, right: usize) -> Result<Vec<JoinedTerm>, AllocError>
    ensures { IfOk result (λ made. made.items ≡ []) }
{
    Vec::with_capacity(alloc, left.saturating_mul(right).min(MOST_AT_FIRST))
}

fn factor_of(term: JoinedTerm) -> Factor
    ensures { joined_of result ≡ term }
{
    Factor {
        item: Monomial {
            coefficient: term.sum,
            term: term.term,
        },
        weight: term.weight,
        count: term.count,
    }
}

fn factors_of(alloc: Global, terms: &[JoinedTerm]) -> Result<Vec<Factor>, AllocError>
    ensures { IfOk result (λ factors. map joined_of factors.items ≡ terms.now) }
{
    let mut factors = Vec::new(alloc);
    for term in terms {
        factors.push(factor_like(term)?)?;
    }
    Ok(factors)
}

fn factors_of_list(alloc: Global, list: &[Monomial]) -> Result<Vec<Factor>, AllocError>
    ensures { IfOk result (λ factors. map joined_of factors.items ≡ singles list.now) }
{
    let mut factors = Vec::new(alloc);
    for item in list {
        factors.push(factor_of(JoinedTerm::single(item.clone()?)))?;
    }
    Ok(factors)
}

fn factor_like(term: &JoinedTerm) -> Result<Factor, AllocError>
    ensures { IfOk result (λ factor. joined_of factor ≡ term.now) }
{
    Ok(Factor {
        item: Monomial {
            coefficient: term.sum,
            term: term.term.clone()?,
        },
        weight: term.weight,
        count: term.count,
    })
}

fn joined_terms(alloc: Global, factors: &[Factor]) -> Result<Vec<JoinedTerm>, AllocError>
    ensures { IfOk result (λ terms. terms.items ≡ map joined_of factors.now) }
{
    let mut terms = Vec::with_capacity(alloc, factors.len())?;
    for factor in factors {
        terms.push(joined_term(factor)?)?;
    }
    Ok(terms)
}

fn joined_term(like: &Factor) -> Result<JoinedTerm, AllocError>
    ensures { IfOk result (λ term. term ≡ joined_of like.now) }
{
    Ok(JoinedTerm {
        term: like.item.term.clone()?,
        sum: like.item.coefficient,
        weight: like.weight,
        count: like.count,
    })
}

/// Adds a joined term times each of a list. Answers false where one is refused or out of range.
fn add_singles(
    alloc: Global,
    front: JoinedTerm,
    list: &[Monomial],
    made: &mut Vec<JoinedTerm>,
) -> Result<bool, AllocError>
    ensures { IfOk result (λ all. OnTrue all (behind made.old.items (times_each front (singles list.now)) ≡ Some made.new.items)) }
{
    let Some((last, others)) = list.split_last() else {
        return Ok(true);
    };
    Ok(add_row(alloc, factor_of(front), others, last, made)?)
}

/// Adds a factor times each of these and a last one. The last product is made in the factor's own memory.
fn add_row(
    alloc: Global,
    factor: Factor,
    others: &[Monomial],
    last: &Monomial,
    made: &mut Vec<JoinedTerm>,
) -> Result<bool, AllocError>
    ensures { IfOk result (λ all. OnTrue all (behind made.old.items (times_each (joined_of factor) (singles (others.now ++ last.now ∷ []))) ≡ Some made.new.items)) }
{
    for item in others {
        if !add_product(alloc, &factor, item, Weight::of(item.coefficient), 1, made)? {
            return Ok(false);
        }
    }
    Ok(add_last(alloc, factor, last, Weight::of(last.coefficient), 1, made)?)
}

/// Adds a joined term times each of some factors. Answers false where one is refused or out of range.
fn add_joined(
    alloc: Global,
    front: JoinedTerm,
    factors: &[Factor],
    made: &mut Vec<JoinedTerm>,
) -> Result<bool, AllocError>
    ensures { IfOk result (λ all. OnTrue all (behind made.old.items (times_each front (map joined_of factors.now)) ≡ Some made.new.items)) }
{
    let left = factor_of(front);
    for factor in factors {
        if !add_product(
            alloc,
            &left,
            &factor.item,
            factor.weight,
            factor.count,
            made,
        )? {
            return Ok(false);
        }
    }
    Ok(true)
}

/// Adds the product of a factor and a term of this weight that counts so many. Answers false where it is refused or out of range.
fn add_product(
    alloc: Global,
    front: &Factor,
    item: &Monomial,
    weight: Weight,
    count: u64,
    made: &mut Vec<JoinedTerm>,
) -> Result<bool, AllocError>
    ensures { IfOk result (λ all. OnTrue all (IsAdded (product_of front.now.item item.now) (times front.now.weight weight) (front.now.count * count) made.old.items made.new.items)) }
{
    match product(alloc, &front.item, item) {
        Ok(Some(item)) => {
            let Some(weight) = front.weight.times(weight) else {
                return Ok(false);
            };
            let Some(count) = front.count.checked_mul(count) else {
                return Ok(false);
            };
            made.push(JoinedTerm {
                term: item.term,
                sum: item.coefficient,
                weight,
                count,
            })?;
            Ok(true)
        }
        Ok(None) => Ok(true),
        Err(ProductError::Refused(_)) => Ok(false),
        Err(ProductError::Memory) => Err(AllocError),
    }
}

/// The same in the memory of the factor, which isn't used any more.
fn add_last(
    alloc: Global,
    front: Factor,
    item: &Monomial,
    weight: Weight,
    count: u64,
    made: &mut Vec<JoinedTerm>,
) -> Result<bool, AllocError>
    ensures { IfOk result (λ all. OnTrue all (IsAdded (product_of front.item item.now) (times front.weight weight) (front.count * count) made.old.items made.new.items)) }
{
    let Some(weight) = front.weight.times(weight) else {
        return Ok(false);
    };
    let Some(count) = front.count.checked_mul(count) else {
        return Ok(false);
    };
    match product_onto(alloc, front.item, item) {
        Ok(Some(item)) => {
            made.push(JoinedTerm {
                term: item.term,
                sum: item.coefficient,
                weight,
                count,
            })?;
            Ok(true)
        }
        Ok(None) => Ok(true),
        Err(ProductError::Refused(_)) => Ok(false),
        Err(ProductError::Memory) => Err(AllocError),
    }
}

/// The list of these terms, each alone, for the proofs of callers.
pub fn joined_singles(list: &[Monomial])
    ensures { IsJoined 1 (singles list.now) (λ k. list.now) }
{
    for item in list {
        item.laws();
    }
}
