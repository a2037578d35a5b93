//! Values of a condition.
ghost use Rattle.std.specs.Prelude.{◌≡◌, ◌≤◌, ◌<◌, [], length, Some};
ghost use Rattle.form_ast.specs.Lawful.{most_open};
ghost use Rattle.form_conditions.specs.Grammar.{opened_within as opened_within_so};
ghost use Rattle.form_conditions.specs.Reading.{all_separated, count as count_of, depth_behind as depth_behind_so, divided as divided_so, enclosed as enclosed_in, ends as ends_at, matching as matching_so, named as named_so, names as names_of, number_value as number_of, occurs as occurs_of, opened as opened_so, value as value_of, weighted as weighted_name, weights as weights_of, word_value as word_value_of};
ghost use Rattle.form_conditions.specs.Tokens.{left};
ghost use Rattle.form_grammar.specs.Reading.{Gives};
ghost use Rattle.form_grammar.specs.Texts.{run_pattern_within};

use crate::tokens::{Nesting, PatternTokens, Tokens, Wanted, nesting_of};
use crate::word::{Word, word_of};
use form_ast::{Expr, NameList, SignedNumber, Value, Weighted, WeightedList};
use form_grammar::laws::pattern_is_read;
use form_grammar::{ReadError, read_pattern_within};
use std::alloc::Global;

/// So many parentheses may be open at a place.
pub const MOST_OPEN: usize = 64;

/// So many names may stand in one `count`.
const MOST_COUNTED: usize = 1000;

/// A parenthesis, where one more may be opened.
fn take_open(deeper: usize, tokens: &mut Tokens) -> Result<(), ReadError>
    ensures { Gives (λ _. left tokens.new) result (opened_so deeper (left tokens.old)) }
{
    if deeper == 0 {
        return Err(ReadError::BadSyntax);
    }
    tokens.take(Wanted::Open)
}

/// A number that is divided by another one, which isn't 0.
fn divided(number: SignedNumber, tokens: &mut Tokens) -> Result<Value, ReadError>
    ensures { Gives (λ v. (v, left tokens.new)) result (divided_so number (left tokens.old)) }
{
    let divisor = tokens.take_number()?;
    if divisor.is_zero() {
        return Err(ReadError::BadSyntax);
    }
    Ok(Value::Number(number.sign, number.number, Some(divisor)))
}

fn number(tokens: &mut Tokens) -> Result<Value, ReadError>
    ensures { Gives (λ v. (v, left tokens.new)) result (number_of (left tokens.old)) }
{
    let number = tokens.signed_number()?;
    if tokens.takes(Wanted::Over) {
        return divided(number, tokens);
    }
    Ok(Value::Number(number.sign, number.number, None))
}

/// A name that is counted, and its weight.
fn weighted(tokens: &mut Tokens) -> Result<Weighted, ReadError>
    ensures { Gives (λ w. (w, left tokens.new)) result (weighted_name (left tokens.old)) }
{
    let name = tokens.take_name()?;
    tokens.take(Wanted::Comma)?;
    let weight = tokens.signed_number()?;
    Ok(Weighted { name, weight })
}

/// All names that are counted.
fn all_weighted(alloc: Global, tokens: &mut Tokens) -> Result<WeightedList, ReadError>
    ensures { Gives (λ names. (names, left tokens.new)) result (all_separated weighted_name Wanted.Comma (left tokens.old)) }
{
    let mut names = Vec::new(alloc);
    loop {
        let name = weighted(tokens)?;
        names.push(name)?;
        if !tokens.takes(Wanted::Comma) {
            return Ok(WeightedList::from_vec(names));
        }
    }
}

fn weights(alloc: Global, tokens: &mut Tokens) -> Result<WeightedList, ReadError>
    ensures { Gives (λ names. (names, left tokens.new)) result (weights_of (left tokens.old)) }
{
    let names = all_weighted(alloc, tokens)?;
    if names.as_slice().len() > MOST_COUNTED {
        return Err(ReadError::BadSyntax);
    }
    Ok(names)
}

fn names(alloc: Global, tokens: &mut Tokens) -> Result<NameList, ReadError>
    ensures { Gives (λ names. (names, left tokens.new)) result (names_of (left tokens.old)) }
{
    let mut names = Vec::new(alloc);
    loop {
        let name = tokens.take_name()?;
        names.push(name)?;
        if !tokens.takes(Wanted::Comma) {
            return Ok(NameList::from_vec(names));
        }
    }
}

/// A `count` behind its word.
fn count(alloc: Global, deeper: usize, tokens: &mut Tokens) -> Result<Value, ReadError>
    ensures { Gives (λ v. (v, left tokens.new)) result (count_of deeper (left tokens.old)) }
{
    take_open(deeper, tokens)?;
    let list = weights(alloc, tokens)?;
    tokens.take(Wanted::Close)?;
    Ok(Value::Count(list))
}

/// An `occurs` behind its word.
fn occurs(alloc: Global, deeper: usize, tokens: &mut Tokens) -> Result<Value, ReadError>
    ensures { Gives (λ v. (v, left tokens.new)) result (occurs_of deeper (left tokens.old)) }
{
    take_open(deeper, tokens)?;
    let list = names(alloc, tokens)?;
    tokens.take(Wanted::Close)?;
    Ok(Value::Occurs(list))
}

/// Whether none but the parenthesis around it is open before its end.
fn ends(nesting: Nesting, depth: usize) -> bool
    ensures { result ≡ ends_at nesting depth }
{
    match nesting {
        Nesting::Opens => false,
        Nesting::Closes => depth == 0,
        Nesting::Neither => false,
    }
}

/// How many are open behind one of so many tokens.
fn depth_behind(nesting: Nesting, depth: usize, count: usize) -> usize
    requires { depth < count }
    ensures depth { result ≡ depth_behind_so nesting depth }
    ensures within { result ≤ count }
{
    match nesting {
        Nesting::Opens => depth + 1,
        Nesting::Closes => depth.saturating_sub(1),
        Nesting::Neither => depth,
    }
}

/// The tokens up to the end of a parenthesis.
fn enclosed(alloc: Global, tokens: &mut Tokens) -> Result<PatternTokens, ReadError>
    ensures { Gives (λ inner. (inner, left tokens.new)) result (enclosed_in 0 [] (left tokens.old)) }
{
    let mut inner = PatternTokens::new(alloc);
    let mut depth = 0;
    while let Some(token) = tokens.next() {
        let nesting = nesting_of(&token);
        if ends(nesting, depth) {
            return Ok(inner);
        }
        inner = inner.extended_by(token)?;
        depth = depth_behind(nesting, depth, inner.len());
    }
    Err(ReadError::BadSyntax)
}

/// How many parentheses are open in one more.
fn opened_within(deeper: usize) -> usize
    requires { deeper ≤ most_open }
    ensures { result ≡ opened_within_so deeper }
{
    MOST_OPEN - deeper + 1
}

/// The pattern that the tokens are where so many parentheses are open, as reading goes on to it.
fn read_tokens(alloc: Global, opened: usize, tokens: PatternTokens) -> Result<Expr, ReadError>
    ensures { Gives (λ pattern. pattern) result (run_pattern_within opened tokens) }
{
    pattern_is_read();
    read_pattern_within(alloc, opened, tokens.into_iter())
}

/// A `match` behind its word.
fn matching(alloc: Global, deeper: usize, tokens: &mut Tokens) -> Result<Value, ReadError>
    requires { deeper ≤ most_open }
    ensures { Gives (λ v. (v, left tokens.new)) result (matching_so deeper (left tokens.old)) }
{
    take_open(deeper, tokens)?;
    let inner = enclosed(alloc, tokens)?;
    let pattern = read_tokens(alloc, opened_within(deeper), inner)?;
    Ok(Value::Match(pattern))
}

fn word_value(
    alloc: Global,
    deeper: usize,
    word: Word,
    tokens: &mut Tokens,
) -> Result<Value, ReadError>
    requires { deeper ≤ most_open }
    ensures { Gives (λ v. (v, left tokens.new)) result (word_value_of deeper (Some word) (left tokens.old)) }
{
    match word {
        Word::Coefficient => Ok(Value::Coefficient),
        Word::Count => count(alloc, deeper, tokens),
        Word::Match => matching(alloc, deeper, tokens),
        Word::Occurs => occurs(alloc, deeper, tokens),
    }
}

fn named(alloc: Global, deeper: usize, tokens: &mut Tokens) -> Result<Value, ReadError>
    requires { deeper ≤ most_open }
    ensures { Gives (λ v. (v, left tokens.new)) result (named_so deeper (left tokens.old)) }
{
    let name = tokens.take_name()?;
    match word_of(name.name.as_str()) {
        Some(word) => word_value(alloc, deeper, word, tokens),
        None => Err(ReadError::BadSyntax),
    }
}

/// A value, where so many more parentheses may be opened.
#[tactic(auto, unfolding(crate::specs::Reading::value))]
pub fn value(alloc: Global, deeper: usize, tokens: &mut Tokens) -> Result<Value, ReadError>
    requires { deeper ≤ most_open }
    ensures { Gives (λ v. (v, left tokens.new)) result (value_of deeper (left tokens.old)) }
{
    if tokens.begins(Wanted::Name) {
        return named(alloc, deeper, tokens);
    }
    number(tokens)
}
