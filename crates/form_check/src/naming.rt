//! Names where they are declared, and where expressions are meant.
ghost use Rattle.std.specs.Prelude.{◌≡◌, ◌<◌, ◌≤◌, false, List, Some, Result, length, IfOk, OnOk, OnErr};
ghost use Rattle.form_check.specs.Checker.{KeepsDimensions, AreLeftByFront};
ghost use Rattle.form_check.specs.Checking.{declared, named, kind_declared, dimension as dimension_written, dimension_or as dimension_or_of, index as index_declared, set as set_declared, set_once, set_with, is_past_limit, expression, expressions, selection, most_names};
ghost use Rattle.form_right_side.specs.Refusal.{Refusal, Gives, IsRefused, each};
ghost use Rattle.form_base.specs.declared.cause.Cause.TheVariants as causes;
ghost use Rattle.form_ast.specs.declared.expr.Spelled as spelled_names;
ghost use Rattle.form_ast.specs.declared.index_list.SpelledIndex as spelled_indices;
ghost use Rattle.form_names.specs.declared.elements.Elements.{Elements};
ghost use Rattle.form_names.specs.Names.{AreElements, Entry, declare_set as declare_set_of, lookup, IsDimension, IsKind};

use crate::{CheckError, IdList, Selection};
use form_ast::{Declared, Spelled, SpelledIndex, WrittenElements};
use form_base::{Cause, Id};
use form_names::{DeclareError, Dimension, Elements, Kind, Names};
use form_pattern::elements;
use form_right_side::{copy_of, found, within, wrong_kind};
use std::alloc::{AllocError, Global};

/// How many names may be declared.
const MOST_NAMES: u32 = 16_777_216;

/// The largest dimension that is a number.
const LARGEST_DIMENSION: u32 = 1_000;

/// Declares a name. Where this is refused, and where memory is wanting, all stays as it was.
#[tactic(auto, using(crate::proofs::Growing::declare_keeps))]
pub fn declare(
    alloc: Global,
    names: &mut Names,
    spelled: &Spelled,
    kind: Kind,
) -> Result<Id, CheckError>
    requires room { length names.old ≤ most_names }
    requires lawful { IsKind names.old kind }
    ensures declared { Gives (λ id. (id, names.new)) result (declared names.old spelled.now kind) }
    ensures unchanged { OnErr result (names.new ≡ names.old) }
    ensures room { OnOk result (length names.new ≤ most_names) }
    ensures keeps { OnOk result (KeepsDimensions names.old names.new) }
{
    if names.len() == MOST_NAMES && names.lookup(spelled.name.as_str()).is_none() {
        return Err(CheckError::Refused(Cause::NumberRange, spelled.spot));
    }
    match names.declare(copy_of(alloc, spelled)?, kind) {
        Ok(id) => Ok(id),
        Err(DeclareError::Redeclared) => {
            let name = copy_of(alloc, spelled)?;
            Err(CheckError::Refused(Cause::Redeclared(name), spelled.spot))
        }
        Err(DeclareError::Memory) => Err(CheckError::Memory),
    }
}

/// Declares names that are no indices, up to the first that is refused or for which memory is wanting.
pub fn declare_names(
    alloc: Global,
    names: &mut Names,
    declared: Declared,
    list: &[Spelled],
) -> Result<(), CheckError>
    requires { length names.old ≤ most_names }
    ensures declared { Gives (λ _. names.new) result (each (named (kind_declared declared)) names.old list.now) }
    ensures front { OnErr result (AreLeftByFront spelled_names.Spelled (named (kind_declared declared)) names.old list.now names.new) }
    ensures room { OnOk result (length names.new ≤ most_names) }
    ensures keeps { OnOk result (KeepsDimensions names.old names.new) }
{
    for spelled in list {
        declare(alloc, names, spelled, kind_of(declared))?;
    }
    Ok(())
}

fn kind_of(declared: Declared) -> Kind
    ensures kind { result ≡ kind_declared declared }
    ensures lawful { (names : List Entry) → IsKind names result }
{
    match declared {
        Declared::Symbols => Kind::Symbol,
        Declared::Vectors => Kind::Vector,
        Declared::Functions => Kind::Function,
        Declared::CFunctions => Kind::CommutingFunction,
    }
}

/// A written dimension.
pub fn dimension(
    alloc: Global,
    names: &Names,
    written: &form_ast::Dimension,
) -> Result<Dimension, CheckError>
    ensures dimension { Gives (λ d. d) result (dimension_written names.now written.now) }
    ensures lawful { IfOk result (IsDimension names.now) }
{
    match written {
        form_ast::Dimension::Number(number) => {
            let value = within(number, u128::from(LARGEST_DIMENSION))?;
            Ok(Dimension::Number(value as u32))
        }
        form_ast::Dimension::Name(spelled) => {
            let found = found(alloc, names, spelled)?;
            match found.kind {
                Kind::Symbol => Ok(Dimension::Symbol(found.id)),
                _ => Err(wrong_kind(alloc, spelled)?),
            }
        }
    }
}

/// The dimension of an index that is declared, where this one holds for those without.
fn dimension_or(
    alloc: Global,
    names: &Names,
    default: &Dimension,
    written: &Option<form_ast::Dimension>,
) -> Result<Dimension, CheckError>
    requires { IsDimension names.now default.now }
    ensures dimension { Gives (λ d. d) result (dimension_or_of default.now names.now written.now) }
    ensures lawful { IfOk result (IsDimension names.now) }
{
    match written {
        Some(written) => dimension(alloc, names, written),
        None => Ok(*default),
    }
}

/// A refusal of a name that stands otherwise.
fn redeclared(alloc: Global, spelled: &Spelled) -> Result<CheckError, AllocError>
    ensures { IfOk result (λ e. e ≡ CheckError.Refused (causes.Redeclared spelled.now.name) spelled.now.spot) }
{
    let name = copy_of(alloc, spelled)?;
    Ok(CheckError::Refused(Cause::Redeclared(name), spelled.spot))
}

/// Declares an index whose name stands already.
fn declare_again(
    alloc: Global,
    names: &Names,
    default: &Dimension,
    index: &SpelledIndex,
    id: Id,
) -> Result<(), CheckError>
    requires stands { lookup names.now index.now.name.name ≡ Some id }
    requires within { id < length names.now }
    requires lawful { IsDimension names.now default.now }
    ensures { Gives (λ _. names.now) result (index_declared default.now names.now index.now) }
{
    let dimension = match dimension_or(alloc, names, default, &index.dimension) {
        Ok(dimension) => dimension,
        Err(CheckError::Refused(_, _)) => return Err(redeclared(alloc, &index.name)?),
        Err(CheckError::Memory) => return Err(CheckError::Memory),
    };
    if names.kind(id) != Kind::Index(dimension) {
        return Err(redeclared(alloc, &index.name)?);
    }
    Ok(())
}

/// Declares an index. Where this is refused, and where memory is wanting, all stays as it was.
fn declare_index(
    alloc: Global,
    names: &mut Names,
    default: &Dimension,
    index: &SpelledIndex,
) -> Result<(), CheckError>
    requires room { length names.old ≤ most_names }
    requires lawful { IsDimension names.old default.now }
    ensures declared { Gives (λ _. names.new) result (index_declared default.now names.old index.now) }
    ensures unchanged { OnErr result (names.new ≡ names.old) }
    ensures room { OnOk result (length names.new ≤ most_names) }
    ensures keeps { OnOk result (KeepsDimensions names.old names.new) }
{
    if let Some(id) = names.lookup(index.name.name.as_str()) {
        return declare_again(alloc, names, default, index, id);
    }
    if names.len() == MOST_NAMES {
        return Err(CheckError::Refused(Cause::NumberRange, index.name.spot));
    }
    let dimension = dimension_or(alloc, names, default, &index.dimension)?;
    declare(alloc, names, &index.name, Kind::Index(dimension))?;
    Ok(())
}

/// Declares indices, up to the first that is refused or for which memory is wanting.
pub fn declare_indices(
    alloc: Global,
    names: &mut Names,
    default: &Dimension,
    list: &[SpelledIndex],
) -> Result<(), CheckError>
    requires room { length names.old ≤ most_names }
    requires lawful { IsDimension names.old default.now }
    ensures declared { Gives (λ _. names.new) result (each (index_declared default.now) names.old list.now) }
    ensures front { OnErr result (AreLeftByFront spelled_indices.SpelledIndex (index_declared default.now) names.old list.now names.new) }
    ensures room { OnOk result (length names.new ≤ most_names) }
    ensures keeps { OnOk result (KeepsDimensions names.old names.new) }
{
    for index in list {
        declare_index(alloc, names, default, index)?;
    }
    Ok(())
}

/// A set with these elements. Where it is refused, and where memory is wanting, all stays as it was.
#[tactic(auto, using(crate::proofs::Declaring::set_keeps, crate::proofs::Declaring::set_room))]
fn declare_elements(
    alloc: Global,
    names: &mut Names,
    spelled: &Spelled,
    elements: Elements,
) -> Result<(), CheckError>
    requires room { length names.old ≤ most_names }
    requires fits { is_past_limit names.old (lookup names.old spelled.now.name) ≡ false }
    requires lawful { AreElements names.old elements }
    ensures declared { Gives (λ _. names.new) result (set_once (declare_set_of names.old spelled.now.name elements) spelled.now) }
    ensures unchanged { OnErr result (names.new ≡ names.old) }
    ensures room { OnOk result (length names.new ≤ most_names) }
    ensures keeps { OnOk result (KeepsDimensions names.old names.new) }
{
    match names.declare_set(copy_of(alloc, spelled)?, elements) {
        Ok(_) => Ok(()),
        Err(DeclareError::Redeclared) => Err(redeclared(alloc, spelled)?),
        Err(DeclareError::Memory) => Err(CheckError::Memory),
    }
}

/// A refusal of a set whose elements are refused.
fn refused_set(
    alloc: Global,
    names: &Names,
    spelled: &Spelled,
    error: CheckError,
) -> Result<CheckError, AllocError>
    ensures { IfOk result (λ e. (es : Result Elements Refusal) → IsRefused error es → IsRefused e (set_with names.now spelled.now (lookup names.now spelled.now.name) es)) }
{
    match error {
        CheckError::Refused(cause, spot) => {
            if names.lookup(spelled.name.as_str()).is_some() {
                return redeclared(alloc, spelled);
            }
            Ok(CheckError::Refused(cause, spot))
        }
        CheckError::Memory => Ok(CheckError::Memory),
    }
}

/// Declares a set. Where this is refused, and where memory is wanting, all stays as it was.
pub fn declare_set(
    alloc: Global,
    names: &mut Names,
    spelled: &Spelled,
    written: &WrittenElements,
) -> Result<(), CheckError>
    requires room { length names.old ≤ most_names }
    ensures declared { Gives (λ _. names.new) result (set_declared names.old spelled.now written.now) }
    ensures unchanged { OnErr result (names.new ≡ names.old) }
    ensures room { OnOk result (length names.new ≤ most_names) }
    ensures keeps { OnOk result (KeepsDimensions names.old names.new) }
{
    if names.len() == MOST_NAMES && names.lookup(spelled.name.as_str()).is_none() {
        return Err(CheckError::Refused(Cause::NumberRange, spelled.spot));
    }
    match elements(alloc, names, written) {
        Ok(elements) => declare_elements(alloc, names, spelled, elements),
        Err(error) => Err(refused_set(alloc, names, spelled, error)?),
    }
}

/// The `Id` of an expression.
fn expression_of(alloc: Global, names: &Names, spelled: &Spelled) -> Result<Id, CheckError>
    ensures { Gives (λ id. id) result (expression names.now spelled.now) }
{
    let found = found(alloc, names, spelled)?;
    match found.kind {
        Kind::Expression => Ok(found.id),
        _ => Err(wrong_kind(alloc, spelled)?),
    }
}

/// The `Id`s of expressions.
fn expressions_of(alloc: Global, names: &Names, list: &[Spelled]) -> Result<IdList, CheckError>
    ensures { Gives (λ ids. ids) result (expressions names.now list.now) }
{
    let mut ids = Vec::with_capacity(alloc, list.len())?;
    for spelled in list {
        ids.push(expression_of(alloc, names, spelled)?)?;
    }
    Ok(IdList::from_vec(ids))
}

/// Which expressions a statement with these names means.
pub fn selection_of(alloc: Global, names: &Names, list: &[Spelled]) -> Result<Selection, CheckError>
    ensures { Gives (λ which. which) result (selection names.now list.now) }
{
    if list.is_empty() {
        return Ok(Selection::All);
    }
    Ok(Selection::Named(expressions_of(alloc, names, list)?))
}
