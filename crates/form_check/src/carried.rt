//! What stands in statements that are carried out on terms, over Ids: conditions, the functions of an `argument`, and
//! what is summed over.
ghost use Rattle.std.specs.Prelude.{◌≡◌, ◌<◌, ◌^◌};
ghost use Rattle.form_check.specs.Carried as definition;
ghost use Rattle.form_check.specs.Carried.{argument_number as argument_number_of, counted_by as counted_of, divisor as divisor_of, fraction_of, function_by as function_of, index_by as index_of, occurring as occurring_name, occurring_by as occurring_of, picked as picked_function, summed_index as summed_index_of, weighted as weighted_name};
ghost use Rattle.form_right_side.specs.Refusal.{Gives, GivesWithin, listed};
ghost use Rattle.form_right_side.specs.RightSide.{largest_index, value_within};

use crate::CheckError;
use crate::checked::{IdList, Picked, PickedList, ValueList, WholeList};
use form_ast::{Sign, Spelled};
use form_base::Id;
use form_frac::Frac;
use form_names::{Kind, Names};
use form_number::Number;
use form_right_side::{
    Found, LARGEST_EXPONENT, LARGEST_NUMBER, PastLimit, found, within, wrong_kind,
};
use form_tree::{Counted, Value, Weighted};
use std::alloc::Global;

/// The largest fixed index.
const LARGEST_INDEX: u32 = 127;

/// A refusal of a number that is written here.
fn past_limit(number: &Number) -> PastLimit
    ensures { result.spot ≡ number.now.spot }
{
    PastLimit {
        spot: number.spot(),
    }
}

/// What a fraction is divided by: 1 where nothing is written.
fn divisor(written: &Option<Number>) -> Result<u128, PastLimit>
    ensures { GivesWithin (λ value. value) result (divisor_of written.now) }
{
    match written {
        Some(number) => within(number, LARGEST_NUMBER),
        None => Ok(1),
    }
}

/// A fraction in lowest terms, of numbers in their limits.
fn fraction(sign: Option<Sign>, numerator: u128, denominator: u128) -> Frac
    requires numerator { numerator < 2 ^ 127 }
    requires denominator { denominator < 2 ^ 127 }
    ensures { result ≡ fraction_of sign numerator denominator }
{
    let numerator = match sign {
        Some(Sign::Minus) => -(numerator as i128),
        _ => numerator as i128,
    };
    match Frac::make(numerator, denominator as i128) {
        Ok(fraction) => fraction,
        Err(_) => Frac::zero(),
    }
}

/// A number of a condition.
pub fn number(
    sign: Option<Sign>,
    numerator: &Number,
    denominator: &Option<Number>,
) -> Result<Value, PastLimit>
    ensures { GivesWithin (λ v. v) result (definition.number sign numerator.now denominator.now) }
{
    let numerator = within(numerator, LARGEST_NUMBER)?;
    let denominator = divisor(denominator)?;
    Ok(Value::Number(fraction(sign, numerator, denominator)))
}

/// What a count counts by this name.
fn counted(alloc: Global, found: Found, spelled: &Spelled) -> Result<Counted, CheckError>
    ensures { Gives (λ c. c) result (counted_of spelled.now found.id found.kind) }
{
    match found.kind {
        Kind::Symbol => Ok(Counted::Symbol(found.id)),
        Kind::Vector => Ok(Counted::Vector(found.id)),
        Kind::Function | Kind::CommutingFunction => Ok(Counted::Function(found.id)),
        _ => Err(wrong_kind(alloc, spelled)?),
    }
}

/// The weight that is written.
fn weight(sign: Option<Sign>, number: &Number) -> Result<i32, PastLimit>
    ensures { GivesWithin (λ w. w) result (definition.weight sign number.now) }
{
    let size = within(number, u128::from(LARGEST_EXPONENT))?;
    Ok(match sign {
        Some(Sign::Minus) => -(size as i32),
        _ => size as i32,
    })
}

/// A name that is counted, with its weight.
fn weighted(
    alloc: Global,
    names: &Names,
    written: &form_ast::Weighted,
) -> Result<Weighted, CheckError>
    ensures { Gives (λ w. w) result (weighted_name names.now written.now) }
{
    let found = found(alloc, names, &written.name)?;
    let counted = counted(alloc, found, &written.name)?;
    let weight = weight(written.weight.sign, &written.weight.number)?;
    Ok(Weighted { counted, weight })
}

/// What a `count` has.
pub fn weights(
    alloc: Global,
    names: &Names,
    written: &[form_ast::Weighted],
) -> Result<Vec<Weighted>, CheckError>
    ensures { Gives (λ list. list.items) result (listed (weighted_name names.now) written.now) }
{
    let mut list = Vec::with_capacity(alloc, written.len())?;
    for one in written {
        list.push(weighted(alloc, names, one)?)?;
    }
    Ok(list)
}

/// The Id of a name that may occur in a term.
fn occurring(alloc: Global, names: &Names, spelled: &Spelled) -> Result<Id, CheckError>
    ensures { Gives (λ id. id) result (occurring_name names.now spelled.now) }
{
    let found = found(alloc, names, spelled)?;
    match found.kind {
        Kind::Symbol | Kind::Vector | Kind::Index(_) | Kind::Function | Kind::CommutingFunction =>
            Ok(found.id),
        _ => Err(wrong_kind(alloc, spelled)?),
    }
}

/// The Ids of names that may occur in a term.
pub fn occurrences(alloc: Global, names: &Names, list: &[Spelled]) -> Result<Vec<Id>, CheckError>
    ensures { Gives (λ ids. ids.items) result (listed (occurring_name names.now) list.now) }
{
    let mut ids = Vec::with_capacity(alloc, list.len())?;
    for spelled in list {
        ids.push(occurring(alloc, names, spelled)?)?;
    }
    Ok(ids)
}

/// The Id of a function whose arguments a block takes.
fn function(alloc: Global, names: &Names, spelled: &Spelled) -> Result<Id, CheckError>
    ensures { Gives (λ id. id) result (definition.function names.now spelled.now) }
{
    let found = found(alloc, names, spelled)?;
    match found.kind {
        Kind::Function | Kind::CommutingFunction => Ok(found.id),
        _ => Err(wrong_kind(alloc, spelled)?),
    }
}

/// The number of an argument, from 1.
fn argument_number(number: &Number) -> Result<u128, PastLimit>
    ensures { GivesWithin (λ n. n) result (argument_number_of number.now) }
{
    let value = within(number, LARGEST_NUMBER)?;
    if value == 0 {
        return Err(past_limit(number));
    }
    Ok(value)
}

/// The numbers of arguments.
fn argument_numbers(alloc: Global, written: &[Number]) -> Result<WholeList, CheckError>
    ensures { Gives (λ ns. ns) result (listed argument_number_of written.now) }
{
    let mut numbers = Vec::with_capacity(alloc, written.len())?;
    for number in written {
        numbers.push(argument_number(number)?)?;
    }
    Ok(WholeList::from_vec(numbers))
}

/// A function with the numbers of its arguments.
fn picked_one(
    alloc: Global,
    names: &Names,
    written: &form_ast::Picked,
) -> Result<Picked, CheckError>
    ensures { Gives (λ p. p) result (picked_function names.now written.now) }
{
    let function = function(alloc, names, &written.function)?;
    let numbers = argument_numbers(alloc, written.numbers.as_slice())?;
    Ok(Picked { function, numbers })
}

/// The functions whose arguments a block takes.
pub fn picked(
    alloc: Global,
    names: &Names,
    written: &[form_ast::Picked],
) -> Result<PickedList, CheckError>
    ensures { Gives (λ list. list) result (listed (picked_function names.now) written.now) }
{
    let mut list = Vec::with_capacity(alloc, written.len())?;
    for one in written {
        list.push(picked_one(alloc, names, one)?)?;
    }
    Ok(PickedList::from_vec(list))
}

/// The Id of an index that is summed over.
pub fn summed_index(alloc: Global, names: &Names, spelled: &Spelled) -> Result<Id, CheckError>
    ensures { Gives (λ id. id) result (summed_index_of names.now spelled.now) }
{
    let found = found(alloc, names, spelled)?;
    match found.kind {
        Kind::Index(_) => Ok(found.id),
        _ => Err(wrong_kind(alloc, spelled)?),
    }
}

/// The Ids of indices that become dummies.
pub fn summed_indices(alloc: Global, names: &Names, list: &[Spelled]) -> Result<IdList, CheckError>
    ensures { Gives (λ ids. ids) result (listed (summed_index_of names.now) list.now) }
{
    let mut ids = Vec::with_capacity(alloc, list.len())?;
    for spelled in list {
        ids.push(summed_index(alloc, names, spelled)?)?;
    }
    Ok(IdList::from_vec(ids))
}

/// A value that an index takes.
fn index_value(number: &Number) -> Result<u32, PastLimit>
    ensures { GivesWithin (λ n. n) result (value_within largest_index number.now) }
{
    let value = within(number, u128::from(LARGEST_INDEX))?;
    Ok(value as u32)
}

/// The values that an index takes.
pub fn index_values(alloc: Global, written: &[Number]) -> Result<ValueList, CheckError>
    ensures { Gives (λ ns. ns) result (listed (value_within largest_index) written.now) }
{
    let mut values = Vec::with_capacity(alloc, written.len())?;
    for number in written {
        values.push(index_value(number)?)?;
    }
    Ok(ValueList::from_vec(values))
}
