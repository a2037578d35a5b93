ghost use Rattle.std.specs.Prelude.{◌≡◌, List, [], ◌∷◌, ◌++◌, map, true, IfOk, IfErr, Some, None, if◌then◌else◌};
ghost use Rattle.form_grammar.specs.Reading.{Excludes};
ghost use Rattle.form_grammar.specs.Terminal.{terminal_of};
ghost use Rattle.form_grammar.specs.Parts.{HasRead};
ghost use Rattle.form_grammar.specs.declared.terminal.Terminal.{Terminal};
ghost use Rattle.form_lexer.specs.declared.token.Token.{Token};
ghost use Rattle.form_stmts.specs.Begun.{AreBegun, is_equals_kind, is_front, is_local_kind, is_name_kind};
ghost use Rattle.form_stmts.specs.Reading.{after_colon, after_equals, front_name, terminals, with_rest};
ghost use Rattle.form_stmts.specs.Statement.{FollowsKeyword, IsAlone, IsDefinition, IsFront, IsFrontBehind, IsSet, ReadsSo, StandsBehind};

use crate::elements::read_elements;
use crate::indices::{read_dimension, read_indices, read_switch};
use crate::keyword::{Keyword, keyword_of};
use crate::multiply::read_multiply;
use crate::names::{read_names, read_names_or_none};
use crate::picked::read_picked;
use crate::rewrite::read_rewrite;
use crate::sum::read_sum;
use form_ast::{LongExpr, Placed, Spelled, Statement};
use form_blocks::Reading;
use form_conditions::{laws, read_condition, take_condition};
use form_grammar::{ReadError, RightSide, Terminal, read_expr};
use form_lexer::{Mark, Token, TokenKind};
use std::alloc::Global;
use std::mem;
use std::vec::IntoIter;

/// Takes a name from the front.
pub fn take_name(tokens: &mut IntoIter<Token>) -> Option<Spelled>
    ensures { front_name (terminals tokens.old) ≡ with_rest result (terminals tokens.new) }
{
    match Terminal::from(tokens.next()?) {
        Terminal::Name(name) => Some(name),
        _ => None,
    }
}

/// Takes a `=` from the front.
fn take_equals(tokens: &mut IntoIter<Token>) -> bool
    ensures { after_equals (terminals tokens.old) ≡ (if result then Some (terminals tokens.new) else None) }
{
    match tokens.next() {
        Some(token) => matches!(Terminal::from(token), Terminal::Equals),
        None => false,
    }
}

/// A definition behind its keyword.
fn read_definition(alloc: Global, tokens: IntoIter<Token>) -> Result<Statement, ReadError>
    ensures found { IfOk result (λ statement. IsDefinition (terminals tokens) statement) }
    ensures none { IfErr result (λ error. Excludes error (IsDefinition (terminals tokens))) }
{
    let mut tokens = tokens;
    let Some(name) = take_name(&mut tokens) else {
        return Err(ReadError::BadSyntax);
    };
    if !take_equals(&mut tokens) {
        return Err(ReadError::BadSyntax);
    }
    match read_expr(alloc, tokens) {
        Ok(expr) => Ok(Statement::Local(name, LongExpr::from_expr(alloc, expr)?)),
        Err(error) => Err(error),
    }
}

/// Takes a `:` from the front.
fn take_colon(tokens: &mut IntoIter<Token>) -> bool
    ensures { after_colon (terminals tokens.old) ≡ (if result then Some (terminals tokens.new) else None) }
{
    match tokens.next() {
        Some(token) => matches!(Terminal::from(token), Terminal::Colon),
        None => false,
    }
}

/// A set behind its keyword.
fn read_set(alloc: Global, tokens: IntoIter<Token>) -> Result<Statement, ReadError>
    ensures found { IfOk result (λ statement. IsSet (terminals tokens) statement) }
    ensures none { IfErr result (λ error. Excludes error (IsSet (terminals tokens))) }
{
    let mut tokens = tokens;
    let Some(name) = take_name(&mut tokens) else {
        return Err(ReadError::BadSyntax);
    };
    if !take_colon(&mut tokens) {
        return Err(ReadError::BadSyntax);
    }
    match read_elements(alloc, tokens) {
        Ok(elements) => Ok(Statement::Set(name, elements)),
        Err(error) => Err(error),
    }
}

/// What follows a keyword.
fn read_behind(
    alloc: Global,
    keyword: Keyword,
    tokens: IntoIter<Token>,
) -> Result<Statement, ReadError>
    ensures found { IfOk result (λ statement. FollowsKeyword keyword (terminals tokens) statement) }
    ensures none { IfErr result (λ error. Excludes error (FollowsKeyword keyword (terminals tokens))) }
{
    match keyword {
        Keyword::Names(declared) => match read_names(alloc, tokens) {
            Ok(names) => Ok(Statement::Names(declared, names)),
            Err(error) => Err(error),
        },
        Keyword::Indices => match read_indices(alloc, tokens) {
            Ok(indices) => Ok(Statement::Indices(indices)),
            Err(error) => Err(error),
        },
        Keyword::Dimension => match read_dimension(tokens) {
            Ok(dimension) => Ok(Statement::Dimension(dimension)),
            Err(error) => Err(error),
        },
        Keyword::Switch => read_switch(tokens),
        Keyword::Set => read_set(alloc, tokens),
        Keyword::Drop => match read_names_or_none(alloc, tokens) {
            Ok(names) => Ok(Statement::Drop(names)),
            Err(error) => Err(error),
        },
        Keyword::Skip => match read_names_or_none(alloc, tokens) {
            Ok(names) => Ok(Statement::Skip(names)),
            Err(error) => Err(error),
        },
        Keyword::Local => read_definition(alloc, tokens),
        Keyword::Id => read_rewrite(alloc, false, tokens),
        Keyword::Also => read_rewrite(alloc, true, tokens),
        Keyword::Multiply => read_multiply(alloc, tokens),
        Keyword::Sum => read_sum(alloc, tokens),
        Keyword::Discard => alone(tokens, Statement::Discard),
        Keyword::Repeat => alone(tokens, Statement::Repeat),
        Keyword::EndRepeat => alone(tokens, Statement::EndRepeat),
        Keyword::If => match read_condition(alloc, tokens) {
            Ok(condition) => Ok(Statement::If(condition)),
            Err(error) => Err(error),
        },
        Keyword::ElseIf => match read_condition(alloc, tokens) {
            Ok(condition) => Ok(Statement::ElseIf(condition)),
            Err(error) => Err(error),
        },
        Keyword::Else => alone(tokens, Statement::Else),
        Keyword::EndIf => alone(tokens, Statement::EndIf),
        Keyword::Argument => match read_picked(alloc, tokens) {
            Ok(picked) => Ok(Statement::Argument(picked)),
            Err(error) => Err(error),
        },
        Keyword::EndArgument => alone(tokens, Statement::EndArgument),
        Keyword::Print => match read_names_or_none(alloc, tokens) {
            Ok(names) => Ok(Statement::Print(names)),
            Err(error) => Err(error),
        },
    }
}

/// A keyword behind which nothing stands.
fn alone(tokens: IntoIter<Token>, statement: Statement) -> Result<Statement, ReadError>
    ensures found { IfOk result (λ made. IsAlone statement (terminals tokens) made) }
    ensures none { IfErr result (λ error. Excludes error (IsAlone statement (terminals tokens))) }
{
    if tokens.len() == 0 {
        Ok(statement)
    } else {
        Err(ReadError::BadSyntax)
    }
}

/// What stands at the front: a `repeat` or an `if` that ends with what is left behind it, or else a statement, and
/// nothing is left. After an error it isn't told what is left.
fn take_front(alloc: Global, first: Token, rest: &mut IntoIter<Token>) -> Result<Placed, ReadError>
    ensures found { IfOk result (λ placed. IsFront placed (terminal_of first ∷ terminals rest.old) (terminals rest.new)) }
    ensures none { IfErr result (λ error. Excludes error (ReadsSo (terminal_of first ∷ terminals rest.old))) }
{
    let Terminal::Name(first) = Terminal::from(first) else {
        return Err(ReadError::BadSyntax);
    };
    let spot = first.spot;
    let Some(keyword) = keyword_of(first.name.as_str()) else {
        return Err(ReadError::BadSyntax);
    };
    match take_behind(alloc, keyword, rest) {
        Ok(statement) => Ok(Placed { spot, statement }),
        Err(error) => Err(error),
    }
}

/// What follows a keyword: of a `repeat` or an `if` what belongs to it, else all.
fn take_behind(
    alloc: Global,
    keyword: Keyword,
    rest: &mut IntoIter<Token>,
) -> Result<Statement, ReadError>
    ensures found { IfOk result (λ statement. IsFrontBehind keyword statement (terminals rest.old) (terminals rest.new)) }
    ensures none { IfErr result (λ error. Excludes error (StandsBehind keyword (terminals rest.old))) }
{
    match keyword {
        Keyword::Repeat => Ok(Statement::Repeat),
        Keyword::If => match take_condition(alloc, rest) {
            Ok(condition) => Ok(Statement::If(condition)),
            Err(error) => Err(error),
        },
        _ => read_behind(
            alloc,
            keyword,
            mem::replace(rest, Vec::new(alloc).into_iter()),
        ),
    }
}

/// The statement that the tokens are, with the `repeat`s and `if`s before it that end with it.
pub fn read_statement(alloc: Global, tokens: Vec<Token>) -> Result<Reading, ReadError>
    ensures found { IfOk result (λ read. ReadsSo (map terminal_of tokens.items) read) }
    ensures none { IfErr result (λ error. Excludes error (ReadsSo (map terminal_of tokens.items))) }
{
    laws::one_front();
    let mut lines = Vec::new(alloc);
    let mut rest = tokens.into_iter();
    while let Some(first) = rest.next() {
        let placed = match take_front(alloc, first, &mut rest) {
            Ok(placed) => placed,
            Err(error) => return Err(error),
        };
        if rest.len() == 0 {
            return Ok(Reading::new(lines, placed));
        }
        lines.push(placed)?;
    }
    Err(ReadError::BadSyntax)
}

/// Whether the tokens are a definition up to its `=`.
pub fn begins_definition(tokens: &[Token]) -> bool
    ensures { result ≡ is_front tokens.now }
{
    match tokens {
        [keyword, name, equals] => is_local(keyword) && is_name(name) && is_equals(equals),
        _ => false,
    }
}

fn is_local(token: &Token) -> bool
    ensures { result ≡ is_local_kind token.now.kind }
{
    match &token.kind {
        TokenKind::Name(name) => matches!(keyword_of(name.as_str()), Some(Keyword::Local)),
        _ => false,
    }
}

fn is_name(token: &Token) -> bool
    ensures { result ≡ is_name_kind token.now.kind }
{
    matches!(token.kind, TokenKind::Name(_))
}

fn is_equals(token: &Token) -> bool
    ensures { result ≡ is_equals_kind token.now.kind }
{
    matches!(token.kind, TokenKind::Mark(Mark::Equals))
}

/// The statement that is begun with these tokens; where it is a definition, they go up to its `=`, and behind that this
/// is its right side.
pub fn read_begun(
    alloc: Global,
    tokens: Vec<Token>,
    right_side: Option<RightSide>,
) -> Result<Reading, ReadError>
    ensures found { IfOk result (λ read. (begun : List Token) → AreBegun tokens.items right_side begun →
        ReadsSo (map terminal_of begun) read) }
    ensures none { IfErr result (λ error. (begun : List Token) → AreBegun tokens.items right_side begun →
        Excludes error (ReadsSo (map terminal_of begun))) }
{
    match right_side {
        Some(right_side) => match end_definition(tokens, right_side) {
            Ok(placed) => Ok(Reading::new(Vec::new(alloc), placed)),
            Err(error) => Err(error),
        },
        None => read_statement(alloc, tokens),
    }
}

/// The definition that is up to its `=` these tokens, and has this right side.
fn end_definition(tokens: Vec<Token>, right_side: RightSide) -> Result<Placed, ReadError>
    ensures found { IfOk result (λ placed. (rest : List Terminal) → is_front tokens.items ≡ true → HasRead rest right_side →
        ReadsSo (map terminal_of tokens.items ++ rest) (record { lines = []; last = placed })) }
    ensures none { IfErr result (λ error. (rest : List Terminal) → is_front tokens.items ≡ true → HasRead rest right_side →
        Excludes error (ReadsSo (map terminal_of tokens.items ++ rest))) }
{
    let mut tokens = tokens.into_iter();
    let Some(keyword) = take_name(&mut tokens) else {
        return Err(ReadError::BadSyntax);
    };
    let Some(name) = take_name(&mut tokens) else {
        return Err(ReadError::BadSyntax);
    };
    match right_side.finish() {
        Ok(expr) => Ok(Placed {
            spot: keyword.spot,
            statement: Statement::Local(name, expr),
        }),
        Err(error) => Err(error),
    }
}
