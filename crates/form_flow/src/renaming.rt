//! Terms in which indices become others: their arguments are made anew first, inner ones before outer ones, and then the term.
ghost use Rattle.std.specs.Prelude.{◌≡◌, ◌≤◌, ◌<◌, ℕ, [], ◌∷◌, All, Ok, IfOk, map, sum};
ghost use Rattle.std.specs.List.{sum_by};
ghost use Rattle.form_expand.specs.Next.{IsMade};
ghost use Rattle.form_expand.specs.Singles.{argument_of};
ghost use Rattle.form_flow.specs.Indices.{all_renamed as all_renamed_by, become, each_made, listed, renamed as renamed_by, renamed_argument, renamed_call as renamed_call_by, renamed_component, renamed_delta as renamed_delta_by, with_factors as with_factors_by};
ghost use Rattle.form_flow.specs.Made.{Collects, IsGiven, Makes, and_pieces};
ghost use Rattle.form_flow.specs.Sizes.{weight};
ghost use Rattle.form_normal.specs.Product.{product};
ghost use Rattle.form_term.specs.Arguments.{arguments_of, first_summands};
ghost use Rattle.form_term.specs.Monomial.{as_monomial};
ghost use Rattle.form_term.specs.Pieces.{size_of_pieces};
ghost use Rattle.form_term.specs.Term.{Argument, AreArguments, IsArgumentOf, IsCall, IsTerm, pieces_of_argument, size, size_of_call};

use crate::collecting::{add_made, begins_sum, first_argument, index_alone, made_from, terms_of};
use crate::indices::{Renaming, renamed_index};
use form_collect::Collector;
use form_expand::ExpandError;
use form_term::{Arguments, Call, Component, Delta, Monomial, Others, Piece, Term, terms_in};
use std::alloc::{AllocError, Global};

/// A term with its coefficient in which indices become others, made anew; none where it is 0.
pub fn all_renamed(
    alloc: Global,
    item: &Monomial,
    renamings: &[Renaming],
) -> Result<Option<Monomial>, ExpandError>
    ensures { Makes result (all_renamed_by (become renamings.now) item.now) }
{
    renamed(alloc, item, renamings)
}

#[cycle(renaming)]
fn renamed(
    alloc: Global,
    item: &Monomial,
    renamings: &[Renaming],
) -> Result<Option<Monomial>, ExpandError>
    ensures { (n : ℕ) → size item.now.term < n → Makes result (renamed_by n (become renamings.now) item.now) }
{
    let functions = match renamed_calls(alloc, item.term.functions(), renamings) {
        Ok(functions) => functions,
        Err(error) => return Err(error),
    };
    let word = match renamed_calls(alloc, item.term.word(), renamings) {
        Ok(word) => word,
        Err(error) => return Err(error),
    };
    with_factors(alloc, item, renamings, functions, word)
}

/// Functions in whose arguments indices become others, from the left.
#[cycle(renaming)]
fn renamed_calls(
    alloc: Global,
    calls: &[Call],
    renamings: &[Renaming],
) -> Result<Vec<Call>, ExpandError>
    ensures made { (n : ℕ) → sum (map size_of_call calls.now) ≤ n →
        IsGiven (λ list. list.items) result
        (each_made (renamed_call_by (become renamings.now) (renamed_by n (become renamings.now))) calls.now) }
    ensures lawful { IfOk result (λ list. All IsCall list.items) }
{
    let mut list = Vec::with_capacity(alloc, calls.len())?;
    for call in calls {
        match renamed_call(alloc, call, renamings) {
            Ok(made) => list.push(made)?,
            Err(error) => return Err(error),
        }
    }
    Ok(list)
}

#[cycle(renaming)]
fn renamed_call(alloc: Global, call: &Call, renamings: &[Renaming]) -> Result<Call, ExpandError>
    ensures made { (n : ℕ) → size_of_call call.now ≤ n →
        IsGiven (λ c. c) result (renamed_call_by (become renamings.now) (renamed_by n (become renamings.now)) call.now) }
    ensures lawful { IfOk result IsCall }
{
    let mut arguments = Arguments::new(alloc);
    let mut rest = call.pieces();
    while let Some((part, behind)) = first_argument(rest) {
        arguments = match with_argument(alloc, arguments, part, renamings) {
            Ok(more) => more,
            Err(error) => return Err(error),
        };
        rest = behind;
    }
    let made = arguments.into_call(call.function())?;
    let _ = made.pieces();
    Ok(made)
}

/// These arguments and one more, in which indices become others.
#[cycle(renaming)]
fn with_argument(
    alloc: Global,
    arguments: Arguments,
    part: &[Piece],
    renamings: &[Renaming],
) -> Result<Arguments, ExpandError>
    requires { AreArguments part.now }
    ensures { (n : ℕ) → size_of_pieces part.now ≤ n → (a : Argument) → part.now ≡ pieces_of_argument a → IsArgumentOf IsTerm a →
        IsGiven (λ new. new) result
        (and_pieces arguments (renamed_argument (become renamings.now) (renamed_by n (become renamings.now)) a)) }
{
    if begins_sum(part) {
        return with_sum(alloc, arguments, part, renamings);
    }
    match index_alone(part) {
        Some(index) => Ok(arguments.with_index(renamed_index(index, renamings))?),
        None => Ok(arguments.with_pieces(part)?),
    }
}

/// These arguments and an expression more, in whose terms indices become others.
#[cycle(renaming)]
fn with_sum(
    alloc: Global,
    arguments: Arguments,
    part: &[Piece],
    renamings: &[Renaming],
) -> Result<Arguments, ExpandError>
    requires { AreArguments part.now }
    ensures { (n : ℕ) → size_of_pieces part.now ≤ n →
        IsGiven (λ new. new) result
        (and_pieces arguments (argument_of (listed (renamed_by n (become renamings.now)) (map as_monomial (first_summands (arguments_of part.now)))))) }
{
    let terms = terms_in(alloc, part)?;
    match renamed_terms(alloc, &terms, renamings) {
        Ok(made) => Ok(arguments.with_expression(&made)?),
        Err(error) => Err(error),
    }
}

/// Terms in which indices become others, collected.
#[cycle(renaming)]
fn renamed_terms(
    alloc: Global,
    terms: &[Monomial],
    renamings: &[Renaming],
) -> Result<Vec<Monomial>, ExpandError>
    ensures { (n : ℕ) → sum_by weight terms.now ≤ n →
        Collects result (listed (renamed_by n (become renamings.now)) terms.now) }
{
    let mut collector = Collector::new(alloc);
    for term in terms {
        match renamed(alloc, term, renamings) {
            Ok(made) => add_made(&mut collector, made)?,
            Err(error) => return Err(error),
        }
    }
    terms_of(collector)
}

/// A term with other indices and these functions, made anew.
fn with_factors(
    alloc: Global,
    item: &Monomial,
    renamings: &[Renaming],
    functions: Vec<Call>,
    word: Vec<Call>,
) -> Result<Option<Monomial>, ExpandError>
    requires functions { All IsCall functions.items }
    requires word { All IsCall word.items }
    ensures { IsMade result (product (record {
      coefficient = item.now.coefficient;
      term = with_factors_by (become renamings.now) item.now.term functions.items word.items;
    } ∷ [])) }
{
    item.laws();
    let others = renamed_others(alloc, &item.term, renamings, functions, word)?;
    let powers = Vec::from_slice(alloc, item.term.powers())?;
    made_from(alloc, item.coefficient, powers, others)
}

fn renamed_others(
    alloc: Global,
    term: &Term,
    renamings: &[Renaming],
    functions: Vec<Call>,
    word: Vec<Call>,
) -> Result<Others, AllocError>
    ensures { IfOk result (λ o. o ≡ (with_factors_by (become renamings.now) term.now functions.items word.items).others) }
{
    Ok(Others {
        is_imaginary: term.is_imaginary(),
        dots: Vec::from_slice(alloc, term.dots())?,
        components: renamed_components(alloc, term.components(), renamings)?,
        deltas: renamed_deltas(alloc, term.deltas(), renamings)?,
        functions,
        word,
    })
}

fn renamed_components(
    alloc: Global,
    components: &[Component],
    renamings: &[Renaming],
) -> Result<Vec<Component>, AllocError>
    ensures { IfOk result (λ list. list.items ≡ map (renamed_component (become renamings.now)) components.now) }
{
    let mut list = Vec::with_capacity(alloc, components.len())?;
    for component in components {
        list.push(Component {
            vector: component.vector,
            index: renamed_index(component.index, renamings),
        })?;
    }
    Ok(list)
}

fn renamed_deltas(
    alloc: Global,
    deltas: &[Delta],
    renamings: &[Renaming],
) -> Result<Vec<Delta>, AllocError>
    ensures { IfOk result (λ list. list.items ≡ map (renamed_delta_by (become renamings.now)) deltas.now) }
{
    let mut list = Vec::with_capacity(alloc, deltas.len())?;
    for delta in deltas {
        list.push(renamed_delta(delta, renamings))?;
    }
    Ok(list)
}

fn renamed_delta(delta: &Delta, renamings: &[Renaming]) -> Delta
    ensures { result ≡ renamed_delta_by (become renamings.now) delta.now }
{
    Delta::of(
        renamed_index(delta.first, renamings),
        renamed_index(delta.second, renamings),
    )
}
