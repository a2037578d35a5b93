//! Powers of lists, as factors of a product.
ghost use Rattle.std.specs.Prelude.{◌≡◌, ◌↔◌, ◌≤◌, [], ◌∷◌, ◌++◌, ℕ, IfOk, IfSome, IsSome, OnOk};
ghost use Rattle.form_expand.specs.Bound.{powered, powered_by};
ghost use Rattle.form_expand.specs.Factors.{IsOneAtMost, IsSameRow, IsShortPower, factor_lists};
ghost use Rattle.form_expand.specs.Kept.{listing};
ghost use Rattle.form_expand.specs.Listing.{Listing, limited, powers};
ghost use Rattle.form_expand.specs.Lists.{list_whole};
ghost use Rattle.form_expand.specs.Next.{ListsMade};
ghost use Rattle.form_expand.specs.Pieces.{BeginsWith};
ghost use Rattle.form_expand.specs.Readers.{IsSignedFirst};
ghost use Rattle.form_expand.specs.Reading.{list_of_pieces};

use crate::ExpandError;
use crate::again::{list_again, list_once};
use crate::ended::Ended;
use crate::factors::Factors;
use crate::list::List;
use crate::reader::piece_list;
use crate::repeated::times_often;
use crate::scope::Scope;
use crate::stored::Standing;
use crate::walk::Walk;
use crate::whole::Whole;
use form_base::Cause;
use form_term::Monomial;
use form_tree::Piece;
use std::alloc::{AllocError, Global};

/// A list to a power that is one term at most without going through it; none of any other.
fn short_power<'a>(
    alloc: Global,
    limit: u64,
    whole: &Whole,
    power: u128,
) -> Result<Option<Whole<'a>>, AllocError>
    ensures short { IfOk result (λ found. IsSome found ↔ IsShortPower limit whole.now power) }
    ensures list { IfOk result (λ found. IfSome found (λ made. limited limit (listing made) ≡ powers limit (listing whole.now) power)) }
{
    if power == 0 {
        return Ok(Some(Whole::single(Monomial::unit(alloc))));
    }
    if !whole.is_alone(limit) {
        return Ok(None);
    }
    let Some(term) = whole.at(0) else {
        return Ok(None);
    };
    let front = term.clone()?;
    let made = list_of_made(times_often(alloc, front, term, power - 1))?;
    Ok(Some(made))
}

/// The list of what is made: its term, or none where it is 0.
fn list_of_made<'a>(made: Result<Option<Monomial>, ExpandError>) -> Result<Whole<'a>, AllocError>
    ensures { IfOk result (λ whole. ListsMade made (listing whole)) }
{
    match made {
        Ok(Some(term)) => Ok(Whole::single(term)),
        Ok(None) => Ok(Whole::nothing()),
        Err(ExpandError::Refused(cause)) => Ok(Whole::refused(cause)),
        Err(ExpandError::Memory) => Err(AllocError),
    }
}

/// A list of one term at most to a power.
pub fn call_power<'a>(
    alloc: Global,
    limit: u64,
    whole: Whole<'a>,
    power: u32,
) -> Result<Whole<'a>, AllocError>
    requires { IsOneAtMost (listing whole) }
    ensures { IfOk result (λ made. limited limit (listing made) ≡ powers limit (listing whole.entry) power) }
{
    if power == 1 {
        return Ok(whole);
    }
    match short_power(alloc, limit, &whole, u128::from(power))? {
        Some(made) => Ok(made),
        None => Ok(whole),
    }
}

/// Adds the list of the piece that these begin with, to a power.
#[cycle(taking)]
pub fn put_power<'a>(
    alloc: Global,
    scope: Scope<'a>,
    pieces: &'a [Piece],
    whole: Whole<'a>,
    power: u128,
    factors: &mut Factors<'a>,
    deeper: u64,
) -> Result<(), AllocError>
    requires piece { BeginsWith scope.names.now (listing whole) power pieces.now }
    requires sign { IsSignedFirst pieces.now (factor_lists scope.limit factors.old) }
    ensures { OnOk result (IsSameRow scope.entry.limit (factor_lists scope.entry.limit factors.old ++ powers scope.entry.limit (listing whole.entry) power ∷ [])
        (factor_lists scope.entry.limit factors.new)) }
{
    if power == 1 {
        return factors.put_whole(alloc, scope.limit, whole);
    }
    if power != 0 && whole.terms().is_empty() {
        return factors.put_whole(alloc, scope.limit, whole);
    }
    if let Some(made) = short_power(alloc, scope.limit, &whole, power)? {
        return factors.put_whole(alloc, scope.limit, made);
    }
    if factors.is_none() {
        return put_copies(alloc, scope, pieces, whole, power, factors);
    }
    let (own, _) = pieces.split_at(1);
    put_list(alloc, scope, own, factors, deeper)
}

/// Adds the list of the piece that these begin with so many times, as the first factors.
fn put_copies<'a>(
    alloc: Global,
    scope: Scope<'a>,
    pieces: &'a [Piece],
    whole: Whole<'a>,
    times: u128,
    factors: &mut Factors<'a>,
) -> Result<(), AllocError>
    requires none { (max : ℕ) → factor_lists max factors.old ≡ [] }
    requires some { 1 ≤ times }
    requires piece { BeginsWith scope.names.now (listing whole) times pieces.now }
    ensures { OnOk result (IsSameRow scope.entry.limit (powers scope.entry.limit (listing whole.entry) times ∷ []) (factor_lists scope.entry.limit factors.new)) }
{
    factors.reserve(times)?;
    factors.put(List::Unlimited(Walk::new(whole)))?;
    for _made in 1..times {
        let again = first_list(alloc, pieces, scope.names)?;
        factors.put(List::Unlimited(Walk::new(again)))?;
    }
    Ok(())
}

/// The list of the piece that these begin with, where it is a factor.
fn first_list<'a>(
    alloc: Global,
    pieces: &[Piece],
    names: &'a Standing,
) -> Result<Whole<'a>, AllocError>
    ensures { (l : Listing) (power : ℕ) → BeginsWith names.now l power pieces.now → IfOk result (λ whole. listing whole ≡ l) }
{
    let Some((piece, _more)) = pieces.split_first() else {
        return Ok(Whole::nothing());
    };
    match piece_list(alloc, piece, names)? {
        Some((whole, _power)) => Ok(whole),
        None => Ok(Whole::nothing()),
    }
}

/// Adds the list of a sum.
#[cycle(taking)]
pub fn put_list<'a>(
    alloc: Global,
    scope: Scope<'a>,
    pieces: &'a [Piece],
    factors: &mut Factors<'a>,
    deeper: u64,
) -> Result<(), AllocError>
    ensures { OnOk result (IsSameRow scope.entry.limit (factor_lists scope.entry.limit factors.old ++ list_of_pieces scope.entry.limit scope.entry.names.now pieces.now ∷ [])
        (factor_lists scope.entry.limit factors.new)) }
{
    if factors.is_at_front() {
        return factors.put(list_once(alloc, scope, pieces)?);
    }
    factors.put(list_again(alloc, scope.within(), pieces, scope.room, deeper)?)
}

/// Adds the sum within parentheses, to the power to which it ends; `own` has the pieces of all.
#[cycle(taking)]
pub fn put_ended<'a>(
    alloc: Global,
    scope: Scope<'a>,
    own: &'a [Piece],
    within: &'a [Piece],
    end: Ended,
    factors: &mut Factors<'a>,
    deeper: u64,
) -> Result<(), AllocError>
    requires { (factor_lists scope.limit factors.old ≡ [] → ⊥) → list_of_pieces scope.limit scope.names.now own.now ≡ powered scope.limit (powered_by scope.names.now end (list_of_pieces scope.limit scope.names.now within.now)) }
    ensures { OnOk result (IsSameRow scope.entry.limit (factor_lists scope.entry.limit factors.old ++ powered scope.entry.limit (powered_by scope.entry.names.now end (list_of_pieces scope.entry.limit scope.entry.names.now within.now)) ∷ [])
        (factor_lists scope.entry.limit factors.new)) }
{
    match end.power(alloc, scope.names)? {
        Some(power) => put_sum(alloc, scope, own, within, power, factors, deeper),
        None => factors.put_whole(alloc, scope.limit, Whole::refused(Cause::PowerRange)),
    }
}

/// Adds the sum within parentheses, to a power; `own` has the pieces of all.
#[cycle(taking)]
fn put_sum<'a>(
    alloc: Global,
    scope: Scope<'a>,
    own: &'a [Piece],
    within: &'a [Piece],
    power: u32,
    factors: &mut Factors<'a>,
    deeper: u64,
) -> Result<(), AllocError>
    requires { (factor_lists scope.limit factors.old ≡ [] → ⊥) → list_of_pieces scope.limit scope.names.now own.now ≡ powers scope.limit (list_of_pieces scope.limit scope.names.now within.now) power }
    ensures { OnOk result (IsSameRow scope.entry.limit (factor_lists scope.entry.limit factors.old ++ powers scope.entry.limit (list_of_pieces scope.entry.limit scope.entry.names.now within.now) power ∷ [])
        (factor_lists scope.entry.limit factors.new)) }
{
    if power == 0 {
        return factors.put_whole(alloc, scope.limit, Whole::single(Monomial::unit(alloc)));
    }
    if power == 1 {
        return put_list(alloc, scope, within, factors, deeper);
    }
    if !factors.is_none() {
        return put_list(alloc, scope, own, factors, deeper);
    }
    let room = scope.room / power as usize;
    match list_again(alloc, scope.within(), within, room, deeper)? {
        List::Whole(walk) => {
            put_whole_sum(alloc, scope, within, walk.whole, power, factors, deeper)
        }
        list => put_sums(alloc, scope, within, list, power, factors, deeper),
    }
}

/// Adds a sum that is there as a whole, to a power, as the first factors.
#[cycle(taking)]
fn put_whole_sum<'a>(
    alloc: Global,
    scope: Scope<'a>,
    within: &'a [Piece],
    whole: Whole<'a>,
    power: u32,
    factors: &mut Factors<'a>,
    deeper: u64,
) -> Result<(), AllocError>
    requires none { (max : ℕ) → factor_lists max factors.old ≡ [] }
    requires some { 1 ≤ power }
    requires list { limited scope.limit (listing whole) ≡ list_of_pieces scope.limit scope.names.now within.now }
    ensures { OnOk result (IsSameRow scope.entry.limit (powers scope.entry.limit (list_of_pieces scope.entry.limit scope.entry.names.now within.now) power ∷ []) (factor_lists scope.entry.limit factors.new)) }
{
    if whole.terms().is_empty() {
        return factors.put_whole(alloc, scope.limit, whole);
    }
    match short_power(alloc, scope.limit, &whole, u128::from(power))? {
        Some(made) => factors.put_whole(alloc, scope.limit, made),
        None => {
            let list = List::Whole(Walk::new(whole));
            put_sums(alloc, scope, within, list, power, factors, deeper)
        }
    }
}

/// Adds this list of a sum, and the same again, so many in all, as the first factors.
#[cycle(taking)]
fn put_sums<'a>(
    alloc: Global,
    scope: Scope<'a>,
    within: &'a [Piece],
    list: List<'a>,
    times: u32,
    factors: &mut Factors<'a>,
    deeper: u64,
) -> Result<(), AllocError>
    requires none { (max : ℕ) → factor_lists max factors.old ≡ [] }
    requires some { 1 ≤ times }
    requires list { list_whole scope.limit list ≡ list_of_pieces scope.limit scope.names.now within.now }
    ensures { OnOk result (IsSameRow scope.entry.limit (powers scope.entry.limit (list_of_pieces scope.entry.limit scope.entry.names.now within.now) times ∷ []) (factor_lists scope.entry.limit factors.new)) }
{
    let room = scope.room / times as usize;
    factors.put(list)?;
    for _made in 1..times {
        let list = list_again(alloc, scope.within(), within, room, deeper)?;
        factors.put(list)?;
    }
    Ok(())
}
