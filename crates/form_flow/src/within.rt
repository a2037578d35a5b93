//! A block that is carried out on the terms of arguments.
ghost use Rattle.std.specs.Prelude.{◌≡◌, ◌<◌, ◌^◌, ◌==◌, ◌&&◌, ◌||◌, [], ◌∷◌, length, All, Ok, IfOk, if◌then◌else◌};
ghost use Rattle.std.specs.List.{list_any};
ghost use Rattle.form_expand.specs.Next.{IsMade};
ghost use Rattle.form_expand.specs.Singles.{of_product};
ghost use Rattle.form_flow.specs.Arguments.{argument_behind, call_behind as call_behind_of, calls_behind as calls_behind_of, in_arguments as in_arguments_of, is_picked as is_picked_of, outcome_of_terms, picks as picks_of, so_far, with_functions};
ghost use Rattle.form_flow.specs.Left.{left};
ghost use Rattle.form_flow.specs.Outcome.{acted_or_not, done, has_acted as has_acted_in};
ghost use Rattle.form_flow.specs.Sources.{HasEffect};
ghost use Rattle.form_flow.specs.Statements.{run};
ghost use Rattle.form_flow.specs.Within.{Adds, AreBehind, Reaches, and_pieces_far, going_by, has_taken as has_taken_of, is_left as is_left_of, is_named as is_named_of, is_taken, most_of, takes_from};
ghost use Rattle.form_match.specs.Parts.{begins_sum as begins_sum_of};
ghost use Rattle.form_normal.specs.Product.{is_fixed as is_fixed_of, product};
ghost use Rattle.form_term.specs.Arguments.{arguments_of, first_summands};
ghost use Rattle.form_term.specs.Term.{Argument, AreArguments, IsArgumentOf, IsCall, IsTerm, expression, is_nil, pieces_of_argument};

use crate::collecting::{begins_sum, first_argument, made_from, terms_of};
use crate::compiled::{CompiledModule, ReadyBlock};
use crate::descent::Descent;
use crate::effect::Effect;
use crate::staying::is_fixed;
use form_base::{Cause, Id};
use form_check::Picked;
use form_collect::Collector;
use form_expand::ExpandError;
use form_term::{Arguments, Call, Delta, Monomial, Others, Piece, terms_in};
use std::alloc::Global;

/// A block with the functions whose arguments it takes, those of all where none is named, and where memory comes from.
#[derive(Clone, Copy)]
pub struct Walk<'m, 'a> {
    alloc: Global,
    compiled: &'m CompiledModule<'a>,
    functions: &'m [Picked],
    block: &'m ReadyBlock<'a>,
}

/// What a block makes of a term: its commuting functions come first, then the others, each from the left, and then the term is
/// made anew.
#[cycle(outputs)]
pub fn in_arguments<'m, 'a>(
    alloc: Global,
    compiled: &'m CompiledModule<'a>,
    functions: &'m [Picked],
    block: &'m ReadyBlock<'a>,
    item: Monomial,
) -> Result<Effect<'m>, ExpandError>
    ensures { HasEffect result (in_arguments_of compiled.now.limits.terms functions.now (run compiled.now.limits block.now) item) }
{
    item.laws();
    if is_left(functions, &item) {
        return Ok(Effect::None(item));
    }
    let walk = Walk {
        alloc,
        compiled,
        functions,
        block,
    };
    let mut has_acted = false;
    let functions = match calls_behind(&walk, &mut has_acted, item.term.functions()) {
        Ok(functions) => functions,
        Err(error) => return Err(error),
    };
    let word = match calls_behind(&walk, &mut has_acted, item.term.word()) {
        Ok(word) => word,
        Err(error) => return Err(error),
    };
    match with_calls(alloc, item, functions, word) {
        Ok(made) => Ok(effect_of_made(has_acted, made)),
        Err(error) => Err(error),
    }
}

/// Whether a term stays as it is: no expression in it is taken, and no delta of it is 1 or 0.
fn is_left(functions: &[Picked], item: &Monomial) -> bool
    ensures { result ≡ is_left_of functions.now item.now.term }
{
    !has_taken(functions, item.term.functions())
        && !has_taken(functions, item.term.word())
        && !has_fixed(item.term.deltas())
}

fn has_taken(functions: &[Picked], calls: &[Call]) -> bool
    ensures { result ≡ has_taken_of functions.now calls.now }
{
    calls.iter().any(|call| takes(functions, call))
}

/// Whether an expression among the arguments of a function is taken.
fn takes(functions: &[Picked], call: &Call) -> bool
    ensures { result ≡ is_taken functions.now call.now }
{
    let function = call.function();
    if !is_named(functions, function) {
        return false;
    }
    takes_one(functions, function, call.pieces())
}

fn takes_one(functions: &[Picked], function: Id, pieces: &[Piece]) -> bool
    requires { AreArguments pieces.now }
    ensures { result ≡ takes_from functions.now function 1 (arguments_of pieces.now) }
{
    let mut rest = pieces;
    let mut number = 1;
    while let Some((part, behind)) = first_argument(rest) {
        if takes_sum(is_picked(functions, function, number), part) {
            return true;
        }
        number += 1;
        rest = behind;
    }
    false
}

/// Whether an argument of a function may be taken.
fn is_named(functions: &[Picked], function: Id) -> bool
    ensures { result ≡ is_named_of functions.now function }
{
    functions.is_empty() || has_function(functions, function)
}

fn has_function(functions: &[Picked], function: Id) -> bool
    ensures { result ≡ list_any (λ p. p.function == function) functions.now }
{
    functions.iter().any(|picked| picked.function == function)
}

fn has_fixed(deltas: &[Delta]) -> bool
    ensures { result ≡ list_any is_fixed_of deltas.now }
{
    deltas.iter().any(|delta| is_fixed(delta))
}

/// Whether an argument of a function is taken, by its number from 1.
fn is_picked(functions: &[Picked], function: Id, number: u128) -> bool
    ensures { result ≡ is_picked_of functions.now function number }
{
    functions.is_empty() || has_picked(functions, function, number)
}

fn has_picked(functions: &[Picked], function: Id, number: u128) -> bool
    ensures { result ≡ list_any (picks_of function number) functions.now }
{
    functions
        .iter()
        .any(|picked| picks(picked, function, number))
}

fn picks(picked: &Picked, function: Id, number: u128) -> bool
    ensures { result ≡ picks_of function number picked.now }
{
    picked.function == function && has_number(picked.numbers.as_slice(), number)
}

fn has_number(numbers: &[u128], number: u128) -> bool
    ensures { result ≡ (is_nil numbers.now || list_any (λ n. n == number) numbers.now) }
{
    numbers.is_empty() || stands_in(numbers, number)
}

fn stands_in(numbers: &[u128], number: u128) -> bool
    ensures { result ≡ list_any (λ n. n == number) numbers.now }
{
    numbers.iter().any(|own| *own == number)
}

/// Functions behind the block, from the left.
#[cycle(outputs)]
fn calls_behind(walk: &Walk, has_acted: &mut bool, calls: &[Call]) -> Result<Vec<Call>, ExpandError>
    ensures made { Reaches (λ list. list.items) result has_acted.new
        (calls_behind_of (most_of walk.now) (going_by walk.now) walk.now.functions.now has_acted.old calls.now) }
    ensures lawful { IfOk result (λ list. All IsCall list.items) }
{
    let mut list = Vec::with_capacity(walk.alloc, calls.len())?;
    for call in calls {
        match call_behind(walk, has_acted, call) {
            Ok(made) => list.push(made)?,
            Err(error) => return Err(error),
        }
    }
    Ok(list)
}

#[cycle(outputs)]
fn call_behind(walk: &Walk, has_acted: &mut bool, call: &Call) -> Result<Call, ExpandError>
    ensures made { Reaches (λ c. c) result has_acted.new
        (call_behind_of (most_of walk.now) (going_by walk.now) walk.now.functions.now has_acted.old call.now) }
    ensures lawful { IfOk result IsCall }
{
    if !takes(walk.functions, call) {
        let own = call.clone()?;
        let _ = own.pieces();
        return Ok(own);
    }
    let function = call.function();
    let mut rest = call.pieces();
    let mut arguments = Arguments::with_capacity(walk.alloc, room_for(rest))?;
    let mut number: u128 = 1;
    while let Some((part, behind)) = first_argument(rest) {
        let is_taken = is_picked(walk.functions, function, number);
        arguments = match with_argument(walk, has_acted, arguments, part, is_taken) {
            Ok(more) => more,
            Err(error) => return Err(error),
        };
        number += 1;
        rest = behind;
    }
    let made = arguments.into_call(function)?;
    let _ = made.pieces();
    Ok(made)
}

/// Room for arguments that have so many pieces as these.
fn room_for(pieces: &[Piece]) -> usize
    ensures { length pieces.now < 2 ^ 63 }
{
    pieces.len()
}

/// These arguments and one more, behind the block where it is taken.
#[cycle(outputs)]
fn with_argument(
    walk: &Walk,
    has_acted: &mut bool,
    arguments: Arguments,
    part: &[Piece],
    is_taken: bool,
) -> Result<Arguments, ExpandError>
    requires { AreArguments part.now }
    ensures { (a : Argument) → part.now ≡ pieces_of_argument a → IsArgumentOf IsTerm a →
        Reaches (λ new. new) result has_acted.new
        (and_pieces_far arguments (if is_taken then argument_behind (most_of walk.now) (going_by walk.now) has_acted.old a else so_far a has_acted.old)) }
{
    if takes_sum(is_taken, part) {
        return with_sum(walk, has_acted, arguments, part);
    }
    Ok(arguments.with_pieces(part)?)
}

/// Whether an argument is an expression that is taken.
fn takes_sum(is_taken: bool, part: &[Piece]) -> bool
    ensures { result ≡ (is_taken && begins_sum_of part.now) }
{
    is_taken && begins_sum(part)
}

#[cycle(outputs)]
fn with_sum(
    walk: &Walk,
    has_acted: &mut bool,
    arguments: Arguments,
    part: &[Piece],
) -> Result<Arguments, ExpandError>
    requires { AreArguments part.now }
    ensures { Reaches (λ new. new) result has_acted.new
        (and_pieces_far arguments (argument_behind (most_of walk.now) (going_by walk.now) has_acted.old (expression (first_summands (arguments_of part.now))))) }
{
    let terms = terms_in(walk.alloc, part)?;
    match terms_behind(walk, has_acted, terms) {
        Ok(made) => Ok(arguments.with_expression(&made)?),
        Err(error) => Err(error),
    }
}

/// What the block makes of the terms of an argument, collected.
#[cycle(outputs)]
fn terms_behind(
    walk: &Walk,
    has_acted: &mut bool,
    terms: Vec<Monomial>,
) -> Result<Vec<Monomial>, ExpandError>
    ensures { AreBehind (most_of walk.now) has_acted.old result has_acted.new (outcome_of_terms (going_by walk.now) terms.items) }
{
    let mut collector = Collector::new(walk.alloc);
    let mut given = 0;
    for term in terms {
        given = match term_behind(walk, has_acted, given, &mut collector, term) {
            Ok(more) => more,
            Err(error) => return Err(error),
        };
    }
    terms_of(collector)
}

/// Adds what the block makes of a term, and answers how many terms were added then.
#[cycle(outputs)]
fn term_behind(
    walk: &Walk,
    has_acted: &mut bool,
    given: u64,
    collector: &mut Collector,
    term: Monomial,
) -> Result<u64, ExpandError>
    ensures adds { Adds (most_of walk.now) collector.old given result collector.new (going_by walk.now term) }
    ensures end { IfOk result (λ n. (going_by walk.now term).end ≡ done (has_acted_in (going_by walk.now term).end)) }
    ensures acted { IfOk result (λ n. has_acted.new ≡ (has_acted.old || has_acted_in (going_by walk.now term).end)) }
{
    let mut outputs = Descent::new(walk.alloc, walk.compiled, walk.block, term);
    let limit = walk.compiled.limit();
    match add_outputs(walk.alloc, limit, &mut outputs, given, collector) {
        Ok(more) => {
            let acted = outputs.has_acted();
            let now = either(*has_acted, acted);
            *has_acted = now;
            Ok(more)
        }
        Err(error) => Err(error),
    }
}

fn either(first: bool, second: bool) -> bool
    ensures { result ≡ (first || second) }
{
    first || second
}

/// Adds all outputs that are left behind so many, and answers how many there are then.
#[cycle(outputs)]
fn add_outputs(
    alloc: Global,
    limit: u64,
    outputs: &mut Descent,
    given: u64,
    collector: &mut Collector,
) -> Result<u64, ExpandError>
    ensures adds { Adds limit collector.old given result collector.new (left outputs.old) }
    ensures end { IfOk result (λ n. (left outputs.old).end ≡ done outputs.new.has_acted) }
{
    let mut count = given;
    loop {
        let item = match outputs.next(alloc) {
            Ok(Some(item)) => item,
            Ok(None) => return Ok(count),
            Err(error) => return Err(error),
        };
        if count >= limit {
            return Err(ExpandError::Refused(Cause::ExpandLimit));
        }
        collector.add(item)?;
        count += 1;
    }
}

/// A term with these functions, made anew.
fn with_calls(
    alloc: Global,
    item: Monomial,
    functions: Vec<Call>,
    word: Vec<Call>,
) -> Result<Option<Monomial>, ExpandError>
    requires functions { All IsCall functions.items }
    requires word { All IsCall word.items }
    ensures { IsMade result (product (with_functions item functions.items word.items ∷ [])) }
{
    let Monomial { coefficient, term } = item;
    let (powers, others) = term.into_factors(alloc);
    let others = others_with(others, functions, word);
    made_from(alloc, coefficient, powers, others)
}

fn others_with(others: Others, functions: Vec<Call>, word: Vec<Call>) -> Others
    ensures { result ≡ record others { functions = functions.items; word = word.items } }
{
    let Others {
        is_imaginary,
        dots,
        components,
        deltas,
        ..
    } = others;
    Others {
        is_imaginary,
        dots,
        components,
        deltas,
        functions,
        word,
    }
}

/// A statement acted or didn't, and this came of it.
fn effect_of_made<'a>(has_acted: bool, made: Option<Monomial>) -> Effect<'a>
    ensures { HasEffect (Ok result) (acted_or_not has_acted (of_product (Ok made))) }
{
    match made {
        Some(item) => {
            if has_acted {
                return Effect::One(item);
            }
            Effect::None(item)
        }
        None => {
            if has_acted {
                return Effect::Nothing;
            }
            Effect::Discarded
        }
    }
}
