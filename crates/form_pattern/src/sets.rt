//! The elements of sets, and what wildcards are restricted to.
ghost use Rattle.std.specs.Prelude.{◌≡◌, List, [], ◌∷◌, IfOk};
ghost use Rattle.form_right_side.specs.Refusal.{Gives, GivesWithin, listed};
ghost use Rattle.form_pattern.specs.Sets as definition;
ghost use Rattle.form_names.specs.Names.{AreElements, Entry, is_alike as is_alike_kind, is_element_kind as is_kind_of_element};

use form_ast::{Restriction, Sign, SignedNumber, Spelled, WrittenElements};
use form_base::Id;
use form_names::{Elements, Ids, Kind, Names, Numbers};
use form_right_side::{CheckError, Found, LARGEST_NUMBER, PastLimit, found, within, wrong_kind};
use form_tree::Sets;
use std::alloc::{AllocError, Global};

/// Whether two kinds are one, whatever the dimensions of indices.
fn is_alike(a: Kind, b: Kind) -> bool
    ensures { result ≡ is_alike_kind a b }
{
    match (a, b) {
        (Kind::Symbol, Kind::Symbol) => true,
        (Kind::Vector, Kind::Vector) => true,
        (Kind::Index(_), Kind::Index(_)) => true,
        (Kind::Function, Kind::Function) => true,
        (Kind::CommutingFunction, Kind::CommutingFunction) => true,
        (Kind::Expression, Kind::Expression) => true,
        (Kind::Set, Kind::Set) => true,
        _ => false,
    }
}

/// Whether the elements of a set may be of this kind.
fn is_element_kind(kind: Kind) -> bool
    ensures { result ≡ is_kind_of_element kind }
{
    match kind {
        Kind::Expression => false,
        Kind::Set => false,
        _ => true,
    }
}

fn first_element(alloc: Global, names: &Names, spelled: &Spelled) -> Result<Found, CheckError>
    ensures { Gives (λ f. f) result (definition.first_element names.now spelled.now) }
{
    let found = found(alloc, names, spelled)?;
    if !is_element_kind(found.kind) {
        return Err(wrong_kind(alloc, spelled)?);
    }
    Ok(found)
}

fn further_element(
    alloc: Global,
    names: &Names,
    first: Kind,
    spelled: &Spelled,
) -> Result<Id, CheckError>
    ensures { Gives (λ id. id) result (definition.further_element names.now first spelled.now) }
{
    let found = found(alloc, names, spelled)?;
    if !is_alike(first, found.kind) {
        return Err(wrong_kind(alloc, spelled)?);
    }
    Ok(found.id)
}

/// The Ids of further elements, of this kind, behind others.
fn further_elements(
    alloc: Global,
    names: &Names,
    kind: Kind,
    list: &[Spelled],
    ids: Vec<Id>,
) -> Result<Vec<Id>, CheckError>
    ensures { Gives (λ all. all.items) result (definition.further_elements names.now kind list.now ids.items) }
{
    let mut ids = ids;
    for spelled in list {
        ids.push(further_element(alloc, names, kind, spelled)?)?;
    }
    Ok(ids)
}

/// The Ids of elements.
fn ids_of(alloc: Global, names: &Names, list: &[Spelled]) -> Result<Vec<Id>, CheckError>
    ensures { Gives (λ ids. ids.items) result (definition.name_elements names.now list.now) }
{
    let mut ids = Vec::with_capacity(alloc, list.len())?;
    match list {
        [first, others @ ..] => {
            let Found { id, kind } = first_element(alloc, names, first)?;
            ids.push(id)?;
            further_elements(alloc, names, kind, others, ids)
        }
        [] => Ok(ids),
    }
}

/// Names as elements.
fn name_elements(alloc: Global, names: &Names, list: &[Spelled]) -> Result<Elements, CheckError>
    ensures checked { Gives (λ es. es) result (definition.names_checked names.now list.now) }
    ensures lawful { IfOk result (AreElements names.now) }
{
    let ids = ids_of(alloc, names, list)?;
    Ok(Elements::Names(Ids::from_vec(ids)?))
}

/// A number as an element.
fn number_element(number: &SignedNumber) -> Result<i128, PastLimit>
    ensures { GivesWithin (λ z. z) result (definition.number_element number.now) }
{
    let SignedNumber { sign, number } = number;
    let value = within(number, LARGEST_NUMBER)?;
    let size = value as i128;
    if *sign == Some(Sign::Minus) {
        Ok(-size)
    } else {
        Ok(size)
    }
}

fn numbers_of(alloc: Global, list: &[SignedNumber]) -> Result<Vec<i128>, CheckError>
    ensures { Gives (λ numbers. numbers.items) result (listed definition.number_element list.now) }
{
    let mut numbers = Vec::with_capacity(alloc, list.len())?;
    for number in list {
        numbers.push(number_element(number)?)?;
    }
    Ok(numbers)
}

/// Numbers as elements.
fn number_elements(alloc: Global, list: &[SignedNumber]) -> Result<Elements, CheckError>
    ensures checked { Gives (λ es. es) result (definition.numbers_checked list.now) }
    ensures lawful { (entries : List Entry) → IfOk result (AreElements entries) }
{
    let numbers = numbers_of(alloc, list)?;
    Ok(Elements::Numbers(Numbers::from_vec(numbers)?))
}

/// The elements of a set that is declared.
pub fn elements(
    alloc: Global,
    names: &Names,
    written: &WrittenElements,
) -> Result<Elements, CheckError>
    ensures checked { Gives (λ es. es) result (definition.elements names.now written.now) }
    ensures lawful { IfOk result (AreElements names.now) }
{
    match written {
        WrittenElements::Names(list) => name_elements(alloc, names, list.as_slice()),
        WrittenElements::Numbers(list) => number_elements(alloc, list.as_slice()),
    }
}

/// The elements of a set that is declared already.
fn declared_set(alloc: Global, names: &Names, spelled: &Spelled) -> Result<Sets, CheckError>
    ensures { Gives (λ all. all) result (definition.sets names.now (Restriction.Set spelled.now)) }
{
    let found = found(alloc, names, spelled)?;
    if found.kind != Kind::Set {
        return Err(wrong_kind(alloc, spelled)?);
    }
    let mut all = Vec::new(alloc);
    if let Some(elements) = names.elements(found.id) {
        all.push(elements.clone()?)?;
    }
    Ok(Sets::from_vec(all))
}

/// One set.
fn only_set(alloc: Global, elements: Elements) -> Result<Sets, AllocError>
    ensures { IfOk result (λ all. all ≡ elements ∷ []) }
{
    let mut all = Vec::new(alloc);
    all.push(elements)?;
    Ok(Sets::from_vec(all))
}

/// What a wildcard is restricted to.
pub fn sets(alloc: Global, names: &Names, by: &Restriction) -> Result<Sets, CheckError>
    ensures { Gives (λ all. all) result (definition.sets names.now by.now) }
{
    match by {
        Restriction::Any => Ok(Sets::from_vec(Vec::new(alloc))),
        Restriction::Set(spelled) => declared_set(alloc, names, spelled),
        Restriction::Names(list) => {
            let elements = name_elements(alloc, names, list.as_slice())?;
            Ok(only_set(alloc, elements)?)
        }
        Restriction::Numbers(list) => {
            let elements = number_elements(alloc, list.as_slice())?;
            Ok(only_set(alloc, elements)?)
        }
    }
}
