//! Conditions that are read from tokens that are there.
ghost use Rattle.std.specs.Prelude.{◌≡◌, ◌≤◌, ◌<◌, IfErr, IfOk};
ghost use Rattle.form_ast.specs.Lawful.{most_open};
ghost use Rattle.form_conditions.specs.Grammar.{BeginsWith, IsConditionBefore, IsConditionText};
ghost use Rattle.form_conditions.specs.Reading.{alternatives as alternatives_of, conjunction as conjunction_of, front, parenthesized as parenthesized_test, plain_test as plain_test_of, test as test_of, whole};
ghost use Rattle.form_conditions.specs.Tokens.{left, terminals};
ghost use Rattle.form_grammar.specs.Reading.{Excludes, Gives};

use crate::tokens::{Tokens, Wanted};
use crate::value::{MOST_OPEN, value};
use form_ast::{Condition, Test};
use form_grammar::ReadError;
use form_grammar::laws::pattern_is_read;
use form_lexer::Token;
use sqlite_items::Items;
use std::alloc::Global;
use std::mem;
use std::vec::IntoIter;

/// A value, alone or compared.
fn plain_test(alloc: Global, deeper: usize, tokens: &mut Tokens) -> Result<Test, ReadError>
    requires { deeper ≤ most_open }
    ensures { Gives (λ t. (t, left tokens.new)) result (plain_test_of deeper (left tokens.old)) }
{
    let first = value(alloc, deeper, tokens)?;
    let Some(comparison) = tokens.comparison() else {
        return Ok(Test::Nonzero(first));
    };
    let second = value(alloc, deeper, tokens)?;
    Ok(Test::Compared(first, comparison, second))
}

/// A condition behind the parenthesis of a test, where one more may be opened.
#[cycle(nesting)]
fn parenthesized(alloc: Global, deeper: usize, tokens: &mut Tokens) -> Result<Test, ReadError>
    requires { deeper ≤ most_open }
    ensures { Gives (λ t. (t, left tokens.new)) result (parenthesized_test deeper (left tokens.old)) }
{
    if deeper == 0 {
        return Err(ReadError::BadSyntax);
    }
    let condition = alternatives(alloc, deeper - 1, tokens)?;
    tokens.take(Wanted::Close)?;
    Ok(Test::Parenthesis(condition))
}

/// A test, where so many more parentheses may be opened.
#[cycle(nesting)]
fn test(alloc: Global, deeper: usize, tokens: &mut Tokens) -> Result<Test, ReadError>
    requires { deeper ≤ most_open }
    ensures { Gives (λ t. (t, left tokens.new)) result (test_of deeper (left tokens.old)) }
{
    if tokens.takes(Wanted::Open) {
        return parenthesized(alloc, deeper, tokens);
    }
    plain_test(alloc, deeper, tokens)
}

/// Tests joined by `&&`.
#[cycle(nesting)]
fn conjunction(alloc: Global, deeper: usize, tokens: &mut Tokens) -> Result<Items<Test>, ReadError>
    requires { deeper ≤ most_open }
    ensures { Gives (λ ts. (ts, left tokens.new)) result (conjunction_of deeper (left tokens.old)) }
{
    pattern_is_read();
    let mut tests = Items::new(alloc);
    loop {
        let next = test(alloc, deeper, tokens)?;
        tests.push(next)?;
        if !tokens.takes(Wanted::And) {
            return Ok(tests);
        }
    }
}

/// Such lists of tests joined by `||`.
#[cycle(nesting)]
fn alternatives(alloc: Global, deeper: usize, tokens: &mut Tokens) -> Result<Condition, ReadError>
    requires { deeper ≤ most_open }
    ensures { Gives (λ c. (c, left tokens.new)) result (alternatives_of deeper (left tokens.old)) }
{
    pattern_is_read();
    let mut lists = Items::new(alloc);
    loop {
        let next = conjunction(alloc, deeper, tokens)?;
        lists.push(next)?;
        if !tokens.takes(Wanted::Or) {
            return Ok(lists);
        }
    }
}

/// A condition at the front, as reading goes on to it.
fn take_front(alloc: Global, tokens: &mut IntoIter<Token>) -> Result<Condition, ReadError>
    ensures { Gives (λ c. (c, terminals tokens.new)) result (front (terminals tokens.old)) }
{
    let mut reader = Tokens::new(mem::replace(tokens, Vec::new(alloc).into_iter()));
    reader.take(Wanted::Open)?;
    let condition = alternatives(alloc, MOST_OPEN - 1, &mut reader)?;
    *tokens = reader.closed()?;
    Ok(condition)
}

/// Takes a condition in its parentheses from the front of the tokens, and leaves what follows it. After an error it
/// isn't told what is left.
pub fn take_condition(alloc: Global, tokens: &mut IntoIter<Token>) -> Result<Condition, ReadError>
    ensures found { IfOk result (λ c. IsConditionBefore (terminals tokens.new) (terminals tokens.old) c) }
    ensures none { IfErr result (λ error. Excludes error (BeginsWith (terminals tokens.old))) }
{
    pattern_is_read();
    take_front(alloc, tokens)
}

/// The condition that the tokens are, as reading goes on to it.
fn read_whole(alloc: Global, tokens: IntoIter<Token>) -> Result<Condition, ReadError>
    ensures { Gives (λ c. c) result (whole (terminals tokens)) }
{
    let mut tokens = tokens;
    let condition = take_front(alloc, &mut tokens)?;
    match tokens.next() {
        None => Ok(condition),
        Some(_) => Err(ReadError::BadSyntax),
    }
}

/// The condition that the tokens are, with the parentheses around it.
pub fn read_condition(alloc: Global, tokens: IntoIter<Token>) -> Result<Condition, ReadError>
    ensures found { IfOk result (λ c. IsConditionText (terminals tokens) c) }
    ensures none { IfErr result (λ error. Excludes error (IsConditionText (terminals tokens))) }
{
    pattern_is_read();
    read_whole(alloc, tokens)
}
