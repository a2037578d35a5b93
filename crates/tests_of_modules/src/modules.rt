//! What is dropped goes and what is defined stands, over what stood before, all of it gone through the statements; and a
//! refusal is at its expression.
ghost use Rattle.std.specs.Prelude.{◌≡◌, ◌<◌, All, IfOk, length};
ghost use Rattle.form_tree.specs.Tree.{Sum, pieces_of_sum};
ghost use Rattle.form_flow.specs.Making.{HasAllTrees};
ghost use Rattle.form_module.specs.Module.{HaveTrees};
ghost use Rattle.form_module.specs.Reporting.{module_at};

use crate::statements::{block_of, rewriting};
use form_base::{Id, Place, Settings};
use form_check::{Checked, CheckedBlock, IdList, Module, Program, Selection};
use form_collect::Terms;
use form_expand::Stored;
use form_frac::Frac;
use form_mem::{OpenGate, fresh_stores};
use form_module::{ModuleError, run_module};
use form_names::Names;
use form_term::{Monomial, Term};
use form_tree::{Link, Natural, Piece, Tree};
use sqlite_items::Items;
use std::alloc::{AllocError, Global};
use std::test::Fail;

/// The right side that adds expression 2 to a number to a power.
fn right_side(alloc: Global, value: u128, power: i32) -> Result<Tree, AllocError>
    ensures { IfOk result (λ right. (tree : Sum) × (right ≡ pieces_of_sum tree)) }
{
    let mut pieces = Vec::new(alloc);
    pieces.extend_from_slice(&[
        Piece::Number {
            link: Link::Plus,
            value: Natural::new(value),
            power,
        },
        Piece::Stored {
            link: Link::Plus,
            expression: Id::new(2),
            power: 1,
        },
    ])?;
    Ok(Tree::from_vec(pieces))
}

/// A statement that puts 1 in for the symbol 0.
fn actions(alloc: Global) -> Result<CheckedBlock, AllocError>
    ensures { IfOk result (λ block. All HasAllTrees block) }
{
    let one = Piece::Number {
        link: Link::Plus,
        value: Natural::new(1),
        power: 1,
    };
    block_of(alloc, rewriting(alloc, &[one])?)
}

fn named(alloc: Global, position: u32) -> Result<Selection, AllocError> {
    let mut ids = Vec::new(alloc);
    ids.push(Id::new(position))?;
    Ok(Selection::Named(IdList::from_vec(ids)))
}

/// A module that drops expression 7, defines 4 by that right side, puts 1 in for the symbol 0, and prints 4.
fn module_of(alloc: Global, value: u128, power: i32) -> Result<Module, AllocError>
    ensures { IfOk result HaveTrees }
{
    let mut statements = Vec::new(alloc);
    statements.push(Checked::Drop(named(alloc, 7)?))?;
    statements.push(Checked::Local(Id::new(4), right_side(alloc, value, power)?))?;
    statements.push(Checked::Print(named(alloc, 4)?))?;
    Ok(Module::new(statements, actions(alloc)?))
}

/// A program of that module alone.
fn program_of(alloc: Global, value: u128, power: i32) -> Result<Program, AllocError>
    ensures within { IfOk result (λ p. 0 < length p.modules) }
    ensures trees { IfOk result (λ p. HaveTrees (module_at p 0)) }
{
    let mut modules = Vec::new(alloc);
    modules.push(module_of(alloc, value, power)?)?;
    Ok(Program::new(Names::new(alloc), modules))
}

/// Expressions 7 and 2, each of them the symbol 0.
fn standing(alloc: Global) -> Result<Vec<Stored>, AllocError> {
    let mut all = Vec::new(alloc);
    for position in [7, 2] {
        let mut terms = Vec::new(alloc);
        terms.push(Monomial {
            coefficient: Frac::one(),
            term: Term::symbol(alloc, Id::new(0), 1)?,
        })?;
        all.push(Stored {
            expression: Id::new(position),
            terms: Terms::from_vec(terms),
        })?;
    }
    Ok(all)
}

/// A program of a module without statements.
fn empty_program(alloc: Global) -> Result<Program, AllocError>
    ensures within { IfOk result (λ p. 0 < length p.modules) }
    ensures trees { IfOk result (λ p. HaveTrees (module_at p 0)) }
{
    let mut modules = Vec::new(alloc);
    let actions = Items::from_vec(Vec::new(alloc));
    modules.push(Module::new(Vec::new(alloc), actions))?;
    Ok(Program::new(Names::new(alloc), modules))
}

/// Expression 2, so many times the term 1.
fn ones(alloc: Global, count: usize) -> Result<Vec<Stored>, AllocError> {
    let mut terms = Vec::new(alloc);
    for _one in 0..count {
        terms.push(Monomial::unit(alloc))?;
    }
    let mut all = Vec::new(alloc);
    all.push(Stored {
        expression: Id::new(2),
        terms: Terms::from_vec(terms),
    })?;
    Ok(all)
}

/// Whether so many ones come to their sum in a module without statements, where a result has at most so many terms.
fn are_added(alloc: Global, count: usize, most: u64) -> Result<bool, AllocError> {
    let program = empty_program(alloc)?;
    let settings = Settings {
        max_terms: most,
        ..Settings::default()
    };
    let standing = ones(alloc, count)?;
    let mut stores = fresh_stores(alloc, 17)?;
    match run_module(
        alloc,
        &settings,
        &program,
        0,
        standing,
        &mut stores,
        &OpenGate,
    ) {
        Ok(report) => Ok(is_sum(&report.into_expressions(), count)),
        Err(ModuleError::Refused(_, _)) => Ok(false),
        Err(ModuleError::Memory) => Err(AllocError),
    }
}

fn is_sum(after: &[Stored], count: usize) -> bool {
    match after {
        [only] => is_number(only, 2, count as i128),
        _ => false,
    }
}

/// Whether it is this expression, and of one term that is this number.
fn is_number(stored: &Stored, position: u32, number: i128) -> bool {
    match stored.terms.as_slice() {
        [only] => {
            stored.expression == Id::new(position)
                && only.term.size() == 0
                && only.coefficient.numerator() == number
        }
        _ => false,
    }
}

/// Whether these are expression 2, which is 1, and 4, which is 4.
fn are_as_meant(after: &[Stored]) -> bool {
    match after {
        [kept, defined] => is_number(kept, 2, 1) && is_number(defined, 4, 4),
        _ => false,
    }
}

/// Whether the module is refused, as the first of its program; or whether what stands after it is as it should be.
fn is_refused(alloc: Global, value: u128, power: i32) -> Result<Option<bool>, AllocError> {
    let program = program_of(alloc, value, power)?;
    let settings = Settings::default();
    let standing = standing(alloc)?;
    let mut stores = fresh_stores(alloc, 17)?;
    match run_module(
        alloc,
        &settings,
        &program,
        0,
        standing,
        &mut stores,
        &OpenGate,
    ) {
        Ok(report) => Ok(are_as_meant(&report.into_expressions()).then_some(false)),
        Err(error) => is_first(error),
    }
}

fn is_first(error: ModuleError) -> Result<Option<bool>, AllocError> {
    match error {
        ModuleError::Refused(_, Place::Run(1, _)) => Ok(Some(true)),
        ModuleError::Refused(_, _) => Ok(None),
        ModuleError::Memory => Err(AllocError),
    }
}

#[test]
fn a_module_is_carried_out_or_refused(rt: HostRuntime) -> Result<(), Fail> {
    let alloc = rt.alloc();
    assert_eq!(rt; is_refused(alloc, 3, 1)?, Some(false));
    assert_eq!(rt; is_refused(alloc, 0, -1)?, Some(true));
    Ok(())
}

#[test]
fn what_stands_is_collected_without_statements_too(rt: HostRuntime) -> Result<(), Fail> {
    let alloc = rt.alloc();
    assert!(rt; are_added(alloc, 1, 1)?);
    assert!(rt; are_added(alloc, 3, 1)?);
    assert!(rt; !are_added(alloc, 1, 0)?);
    Ok(())
}
