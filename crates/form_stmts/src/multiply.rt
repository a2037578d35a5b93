//! A `multiply`: its side and its right side.
ghost use Rattle.std.specs.Prelude.{◌≡◌, map, IfErr, IfOk};
ghost use Rattle.std.specs.Vec.Iter.{into_iter_items};
ghost use Rattle.form_grammar.specs.Reading.{Excludes};
ghost use Rattle.form_grammar.specs.Terminal.{terminal_of};
ghost use Rattle.form_stmts.specs.Reading.{terminals};
ghost use Rattle.form_stmts.specs.Statement.{IsMultiply, behind_side, or_right as or_right_of, side_at as side_of_terminals, side_word as side_of_name, word_side as side_of_terminal};

use crate::rewrite::{is_comma, take_comma};
use form_ast::{Side, Statement};
use form_grammar::{ReadError, read_expr};
use form_lexer::{Token, TokenKind};
use std::alloc::{AllocError, Global};
use std::vec::IntoIter;

/// The side that a word is, in any case of letters.
fn side_word(name: &str) -> Option<Side>
    ensures { result ≡ side_of_name name.now }
{
    if name.eq_ignore_ascii_case("left") {
        Some(Side::Left)
    } else if name.eq_ignore_ascii_case("right") {
        Some(Side::Right)
    } else {
        None
    }
}

fn word_side(token: &Token) -> Option<Side>
    ensures { result ≡ side_of_terminal (terminal_of token.now) }
{
    match &token.kind {
        TokenKind::Name(name) => side_word(name.as_str()),
        _ => None,
    }
}

/// The side that tokens begin with, and a comma.
fn side_at(tokens: &[Token]) -> Option<Side>
    ensures { result ≡ side_of_terminals (map terminal_of tokens.now) }
{
    let [word, next, ..] = tokens else {
        return None;
    };
    if !is_comma(next) {
        return None;
    }
    word_side(word)
}

/// Takes a side from the front, where one stands there, with its comma.
fn take_side(tokens: &mut Vec<Token>) -> Option<Side>
    ensures side { result ≡ side_of_terminals (map terminal_of tokens.old.items) }
    ensures rest { map terminal_of tokens.new.items ≡ behind_side result (map terminal_of tokens.old.items) }
{
    let side = side_at(tokens.as_slice())?;
    if !tokens.is_empty() {
        tokens.remove(0);
    }
    take_comma(tokens);
    Some(side)
}

fn or_right(side: Option<Side>) -> Side
    ensures { result ≡ or_right_of side }
{
    side.unwrap_or(Side::Right)
}

/// The tokens in a list.
fn in_list(alloc: Global, tokens: IntoIter<Token>) -> Result<Vec<Token>, AllocError>
    ensures { IfOk result (λ list. list.items ≡ into_iter_items tokens) }
{
    let mut list = Vec::new(alloc);
    for token in tokens {
        list.push(token)?;
    }
    Ok(list)
}

/// What stands behind `multiply`.
pub fn read_multiply(alloc: Global, tokens: IntoIter<Token>) -> Result<Statement, ReadError>
    ensures found { IfOk result (λ statement. IsMultiply (terminals tokens) statement) }
    ensures none { IfErr result (λ error. Excludes error (IsMultiply (terminals tokens))) }
{
    let mut tokens = in_list(alloc, tokens)?;
    let side = or_right(take_side(&mut tokens));
    match read_expr(alloc, tokens.into_iter()) {
        Ok(right) => Ok(Statement::Multiply(side, right)),
        Err(error) => Err(error),
    }
}
