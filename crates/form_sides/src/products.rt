//! Products and powers of lists, joined.
ghost use Rattle.std.specs.Prelude.{◌≡◌, ◌≤◌, ◌++◌, true, [], ◌∷◌, map, IfOk, IfSome};
ghost use Rattle.std.specs.Bool.{OnTrue};
ghost use Rattle.form_gathered.specs.Joined.{Stand, counted as counted_of};
ghost use Rattle.form_joined.specs.Products.{turned};
ghost use Rattle.form_sides.specs.Products.{ArePaired, HavePairs, HavePower, HaveWithin};

use form_gathered::{Joined, JoinedTerm, counted, together};
use form_joined::laws::joined_products;
use form_joined::{Factors, times_joined};
use std::alloc::{AllocError, Global};

/// Of so many products at least one in eight meets another one, or nothing is gained.
const MANY: u64 = 16_384;

/// The pairs of two lists; none where it isn't certain that none is refused, where there are more than so many, or where few of
/// many meet.
pub fn times_within(
    alloc: Global,
    fronts: Vec<JoinedTerm>,
    list: &[JoinedTerm],
    limit: u64,
) -> Result<Option<Vec<JoinedTerm>>, AllocError>
    ensures { IfOk result (λ made. IfSome made (λ all. HavePairs limit fronts.items list.now all.items)) }
{
    joined_products();
    match products(alloc, fronts, list)? {
        Some(all) => Ok(within(all, limit)),
        None => Ok(None),
    }
}

/// Each of these times each of others; none where few of many meet, or where it isn't certain that nothing is refused. What one
/// term makes of others hardly meets, and is left as it is.
fn products(
    alloc: Global,
    fronts: Vec<JoinedTerm>,
    list: &[JoinedTerm],
) -> Result<Option<Vec<JoinedTerm>>, AllocError>
    ensures { IfOk result (λ made. IfSome made (λ all. ArePaired fronts.items list.now all.items)) }
{
    if is_single(&fronts) || is_single(list) {
        return times_joined(alloc, fronts, list);
    }
    brought_together(alloc, fronts, list)
}

fn is_single(terms: &[JoinedTerm]) -> bool {
    terms.len() < 2
}

/// The same, equal ones brought together.
fn brought_together(
    alloc: Global,
    fronts: Vec<JoinedTerm>,
    list: &[JoinedTerm],
) -> Result<Option<Vec<JoinedTerm>>, AllocError>
    ensures { IfOk result (λ made. IfSome made (λ all. ArePaired fronts.items list.now all.items)) }
{
    let factors = Factors::new(alloc, list)?;
    let mut table = Joined::new(alloc);
    let mut made: u64 = 0;
    for front in fronts {
        let Some(row) = factors.times(alloc, front)? else {
            return Ok(None);
        };
        made = made.saturating_add(counted(&row).unwrap_or(u64::MAX));
        if !add_each(&mut table, row)? {
            return Ok(None);
        }
        if few_met(made, table.len() as u64) {
            return Ok(None);
        }
    }
    Ok(Some(table.into_vec()?))
}

/// Whether there are many terms, each counted for all that it stands for, and nearly as many are left.
fn few_met(made: u64, left: u64) -> bool {
    made >= MANY && left > made - made / 8
}

/// Adds terms to a table. Answers false where they don't join.
pub fn add_each(table: &mut Joined, terms: Vec<JoinedTerm>) -> Result<bool, AllocError>
    ensures { IfOk result (λ all. OnTrue all (Stand (table.old ++ terms.items) table.new)) }
{
    for term in terms {
        if !table.add(term)? {
            return Ok(false);
        }
    }
    Ok(true)
}

/// A list to a power of at least 1; none where a front of it has more than so many terms, or isn't answered as pairs.
pub fn power_within(
    alloc: Global,
    list: Vec<JoinedTerm>,
    power: u32,
    limit: u64,
) -> Result<Option<Vec<JoinedTerm>>, AllocError>
    ensures { IfOk result (λ made. IfSome made (λ all. HavePower limit list.items power all.items)) }
{
    let Some(list) = within(list, limit) else {
        return Ok(None);
    };
    match power {
        0 => Ok(None),
        1 => Ok(Some(list)),
        _ => several(alloc, list, power, limit),
    }
}

/// A list within its limit to a power.
fn several(
    alloc: Global,
    list: Vec<JoinedTerm>,
    power: u32,
    limit: u64,
) -> Result<Option<Vec<JoinedTerm>>, AllocError>
    requires some { 1 ≤ power }
    requires few { counted_of list.items ≤ limit }
    ensures { IfOk result (λ made. IfSome made (λ all. HavePower limit list.items power all.items)) }
{
    let mut front = copied(alloc, &list)?;
    for _made in 1..power {
        let Some(more) = times_within(alloc, front, &list, limit)? else {
            return Ok(None);
        };
        front = more;
    }
    Ok(Some(front))
}

fn copied(alloc: Global, terms: &[JoinedTerm]) -> Result<Vec<JoinedTerm>, AllocError>
    ensures { IfOk result (λ all. all.items ≡ terms.now) }
{
    let mut all = Vec::with_capacity(alloc, terms.len())?;
    for term in terms {
        all.push(copy(term)?)?;
    }
    Ok(all)
}

fn copy(term: &JoinedTerm) -> Result<JoinedTerm, AllocError>
    ensures { IfOk result (λ made. made ≡ term.now) }
{
    Ok(JoinedTerm {
        term: term.term.clone()?,
        sum: term.sum,
        weight: term.weight,
        count: term.count,
    })
}

/// The list of so many products; none where it isn't certain that it has no more than so many terms. That of several has equal
/// terms brought together.
pub fn together_within(
    alloc: Global,
    products: u64,
    terms: Vec<JoinedTerm>,
    limit: u64,
) -> Result<Option<Vec<JoinedTerm>>, AllocError>
    ensures { IfOk result (λ made. IfSome made (λ all. HaveWithin limit terms.items all.items)) }
{
    if products < 2 {
        return Ok(within(terms, limit));
    }
    match together(alloc, terms)? {
        Some(all) => Ok(within(all, limit)),
        None => Ok(None),
    }
}

/// These, where they count no more than so many.
fn within(terms: Vec<JoinedTerm>, limit: u64) -> Option<Vec<JoinedTerm>>
    ensures same { IfSome result (λ all. all.items ≡ terms.items) }
    ensures few { IfSome result (λ all. counted_of all.items ≤ limit) }
{
    let count = counted(&terms)?;
    if count > limit {
        return None;
    }
    Some(terms)
}

/// A list behind a minus sign.
pub fn negated(alloc: Global, terms: Vec<JoinedTerm>) -> Result<Vec<JoinedTerm>, AllocError>
    ensures { IfOk result (λ all. all.items ≡ map turned terms.items) }
{
    let mut all = Vec::with_capacity(alloc, terms.len())?;
    for term in terms {
        all.push(JoinedTerm {
            term: term.term,
            sum: term.sum.neg(),
            weight: term.weight,
            count: term.count,
        })?;
    }
    Ok(all)
}
