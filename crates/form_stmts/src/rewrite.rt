//! An `id` or an `also`: its option, its pattern and its right side.
ghost use Rattle.std.specs.Prelude.{◌≡◌, List, map, option_map, IfErr, IfOk};
ghost use Rattle.form_grammar.specs.Reading.{Excludes};
ghost use Rattle.form_grammar.specs.Terminal.{terminal_of};
ghost use Rattle.form_stmts.specs.Reading.{terminals, with_rest};
ghost use Rattle.form_stmts.specs.Rewriting.{behind_comma, behind_word, sides, is_comma as is_comma_terminal, is_equals as is_equals_terminal, may_follow_option as may_follow, option_at as option_of_terminals, option_word as option_of_name, word_option as option_of_terminal};
ghost use Rattle.form_stmts.specs.Statement.{IsRewrite};

use form_ast::{Rewrite, Statement};
use form_base::Taking;
use form_grammar::laws::one_tree;
use form_grammar::{ReadError, read_pattern, read_right};
use form_lexer::{BuiltIn, Mark, Token, TokenKind};
use std::alloc::{AllocError, Global};
use std::vec::IntoIter;

/// The option that a word is, in any case of letters.
fn option_word(name: &str) -> Option<Taking>
    ensures { result ≡ option_of_name name.now }
{
    let is = |word: &str| name.eq_ignore_ascii_case(word);
    if is("once") {
        Some(Taking::Once)
    } else if is("only") {
        Some(Taking::Only)
    } else if is("multi") {
        Some(Taking::Multi)
    } else if is("many") {
        Some(Taking::Many)
    } else {
        None
    }
}

fn word_option(token: &Token) -> Option<Taking>
    ensures { result ≡ option_of_terminal (terminal_of token.now) }
{
    match &token.kind {
        TokenKind::Name(name) => option_word(name.as_str()),
        _ => None,
    }
}

pub fn is_comma(token: &Token) -> bool
    ensures { result ≡ is_comma_terminal (terminal_of token.now) }
{
    matches!(token.kind, TokenKind::Mark(Mark::Comma))
}

/// Whether a word before this token may be an option.
fn may_follow_option(token: &Token) -> bool
    ensures { result ≡ may_follow (terminal_of token.now) }
{
    match &token.kind {
        TokenKind::Name(_) => true,
        TokenKind::BuiltIn(BuiltIn::Imaginary) => true,
        TokenKind::BuiltIn(BuiltIn::Delta) => true,
        TokenKind::Mark(Mark::Comma) => true,
        _ => false,
    }
}

/// The option that tokens begin with.
fn option_at(tokens: &[Token]) -> Option<Taking>
    ensures { result ≡ option_of_terminals (map terminal_of tokens.now) }
{
    let [word, next, ..] = tokens else {
        return None;
    };
    if !may_follow_option(next) {
        return None;
    }
    word_option(word)
}

/// Takes a comma from the front, where one stands there.
pub fn take_comma(tokens: &mut Vec<Token>)
    ensures { map terminal_of tokens.new.items ≡ behind_comma (map terminal_of tokens.old.items) }
{
    let is_there = match tokens.first() {
        Some(first) => is_comma(first),
        None => false,
    };
    if is_there {
        tokens.remove(0);
    }
}

/// Takes an option from the front, where one stands there, with a comma behind it.
fn take_option(tokens: &mut Vec<Token>) -> Option<Taking>
    ensures option { result ≡ option_of_terminals (map terminal_of tokens.old.items) }
    ensures rest { map terminal_of tokens.new.items ≡ behind_word result (map terminal_of tokens.old.items) }
{
    let option = option_at(tokens.as_slice())?;
    if !tokens.is_empty() {
        tokens.remove(0);
    }
    take_comma(tokens);
    Some(option)
}

fn is_equals(token: &Token) -> bool
    ensures { result ≡ is_equals_terminal (terminal_of token.now) }
{
    matches!(token.kind, TokenKind::Mark(Mark::Equals))
}

/// What stands before the first `=`, which is taken with it; nothing where there is none.
fn take_left(alloc: Global, tokens: &mut IntoIter<Token>) -> Result<Option<Vec<Token>>, AllocError>
    ensures { IfOk result (λ left. sides (terminals tokens.old) ≡ with_rest (option_map (λ l. map terminal_of l.items) left) (terminals tokens.new)) }
{
    let mut left = Vec::new(alloc);
    while let Some(token) = tokens.next() {
        if is_equals(&token) {
            return Ok(Some(left));
        }
        left.push(token)?;
    }
    Ok(None)
}

/// What stands behind `id` or `also`.
pub fn read_rewrite(
    alloc: Global,
    is_also: bool,
    tokens: IntoIter<Token>,
) -> Result<Statement, ReadError>
    ensures found { IfOk result (λ statement. IsRewrite is_also (terminals tokens) statement) }
    ensures none { IfErr result (λ error. Excludes error (IsRewrite is_also (terminals tokens))) }
{
    one_tree();
    let mut tokens = tokens;
    let Some(mut left) = take_left(alloc, &mut tokens)? else {
        return Err(ReadError::BadSyntax);
    };
    take_comma(&mut left);
    let option = take_option(&mut left);
    let pattern = match read_pattern(alloc, left.into_iter()) {
        Ok(pattern) => pattern,
        Err(error) => return Err(error),
    };
    let right = match read_right(alloc, tokens, pattern.as_slice()) {
        Ok(right) => right,
        Err(error) => return Err(error),
    };
    Ok(Statement::Rewrite(Rewrite {
        is_also,
        option,
        pattern,
        right,
    }))
}
