//! Conditions against characters that are written out by hand.

use form_ast::{Condition, Test, Value};
use form_base::{Comparison, Spot};
use form_conditions::{read_condition, take_condition};
use form_grammar::ReadError;
use form_lexer::{Token, lex};
use sqlite_items::Items;
use std::alloc::{AllocError, Global};
use std::test::Fail;

/// A line's tokens, and none of a line that isn't ASCII.
fn tokens_of(alloc: Global, line: &str) -> Result<Vec<Token>, AllocError> {
    let mut tokens = Vec::new(alloc);
    if line.is_ascii() {
        lex(alloc, Spot { text: 0, line: 1 }, line, &mut tokens)?;
    }
    Ok(tokens)
}

fn letter(value: &Value) -> char {
    match value {
        Value::Number(_, _, None) => 'n',
        Value::Number(_, _, Some(_)) => 'q',
        Value::Coefficient => 'c',
        Value::Count(_) => 'w',
        Value::Match(_) => 'm',
        Value::Occurs(_) => 'o',
    }
}

fn mark(comparison: Comparison) -> char {
    match comparison {
        Comparison::EqualTo => '=',
        Comparison::NotEqualTo => '!',
        Comparison::Less => '<',
        Comparison::Greater => '>',
        Comparison::AtMost => '[',
        Comparison::AtLeast => ']',
    }
}

/// Three characters for a test, and where a condition in parentheses begins.
#[cycle(showing)]
fn show_test(test: &Test, shown: &mut String) -> Result<(), AllocError> {
    let (before, kind, behind) = match test {
        Test::Nonzero(value) => ('.', letter(value), '.'),
        Test::Compared(left, comparison, right) => {
            (letter(left), mark(*comparison), letter(right))
        }
        Test::Parenthesis(condition) => return show_enclosed(condition.as_slice(), shown),
    };
    shown.push(before)?;
    shown.push(kind)?;
    shown.push(behind)
}

#[cycle(showing)]
fn show_enclosed(condition: &[Items<Test>], shown: &mut String) -> Result<(), AllocError> {
    shown.push('(')?;
    show(condition, shown)?;
    shown.push(')')
}

#[cycle(showing)]
fn show_all(tests: &[Test], shown: &mut String) -> Result<(), AllocError> {
    for (place, test) in tests.iter().enumerate() {
        if place != 0 {
            shown.push('&')?;
        }
        show_test(test, shown)?;
    }
    Ok(())
}

#[cycle(showing)]
fn show(condition: &[Items<Test>], shown: &mut String) -> Result<(), AllocError> {
    for (place, tests) in condition.iter().enumerate() {
        if place != 0 {
            shown.push('|')?;
        }
        show_all(tests.as_slice(), shown)?;
    }
    Ok(())
}

/// The characters of what is read, and nothing where the text isn't in the grammar.
fn shown(alloc: Global, read: Result<Condition, ReadError>) -> Result<String, Fail> {
    let mut shown = String::new(alloc);
    match read {
        Ok(condition) => {
            show(condition.as_slice(), &mut shown)?;
            Ok(shown)
        }
        Err(ReadError::BadSyntax) => Ok(shown),
        Err(ReadError::Memory) => Err(Fail::from("no memory")),
    }
}

/// What is read of a line.
fn read(alloc: Global, line: &str) -> Result<String, Fail> {
    shown(
        alloc,
        read_condition(alloc, tokens_of(alloc, line)?.into_iter()),
    )
}

#[test]
fn reads_conditions(rt: HostRuntime) -> Result<(), Fail> {
    let alloc = rt.alloc();
    assert_eq!(rt;
        read(
            alloc,
            "(count(x,1,y,-2) > 2 && Match(f(x?)*y^(2)) || (occurs(x,y)))"
        )?
        .as_str(),
        "w>n&.m.|(.o.)"
    );
    assert_eq!(rt;
        read(alloc, "(Coefficient = -1/2 || 0 != +3 && 1/2)")?.as_str(),
        "c=q|n!n&.q."
    );
    assert_eq!(rt; read(alloc, "((1) == 1)")?.as_str(), "");
    assert_eq!(rt; read(alloc, "(coefficient == 1/0)")?.as_str(), "");
    assert_eq!(rt; read(alloc, "(count(i_,1))")?.as_str(), "");
    assert_eq!(rt; read(alloc, "(1) 2")?.as_str(), "");
    Ok(())
}

#[test]
fn leaves_what_follows_a_condition(rt: HostRuntime) -> Result<(), Fail> {
    let alloc = rt.alloc();
    let mut tokens = tokens_of(alloc, "(1 <= 2) Multiply x")?.into_iter();
    let taken = take_condition(alloc, &mut tokens);
    assert_eq!(rt; shown(alloc, taken)?.as_str(), "n[n");
    assert_eq!(rt; tokens.len(), 2);
    Ok(())
}
