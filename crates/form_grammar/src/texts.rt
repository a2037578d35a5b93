//! Right sides and patterns that are read from tokens that are there.
ghost use Rattle.std.specs.Prelude.{map, IfErr, IfOk};
ghost use Rattle.std.specs.Vec.Iter.{into_iter_items};
ghost use Rattle.form_grammar.specs.Grammar.{IsExpr, IsPatternText, IsPatternTextWithin, IsRightText};
ghost use Rattle.form_grammar.specs.Reading.{Excludes, Gives};
ghost use Rattle.form_grammar.specs.Terminal.{terminal_of};
ghost use Rattle.form_grammar.specs.Texts.{run_pattern as run_pattern_from, run_pattern_within as run_pattern_from_within, run_right as run_right_from};

use crate::ReadError;
use crate::depth::opened_behind_all;
use crate::known::are_known;
use crate::reader::run;
use crate::shape::judge;
use form_ast::{Expr, Piece, Setting};
use form_lexer::Token;
use std::alloc::Global;
use std::vec::IntoIter;

/// The right side of a definition that the tokens are.
pub fn read_expr(alloc: Global, tokens: IntoIter<Token>) -> Result<Expr, ReadError>
    ensures found { IfOk result (λ expr. IsExpr (map terminal_of (into_iter_items tokens)) expr) }
    ensures none { IfErr result (λ error. Excludes error (IsExpr (map terminal_of (into_iter_items tokens)))) }
{
    run(alloc, Setting::Plain, tokens)
}

/// The pattern that the tokens are, as reading goes on to it.
fn run_pattern(alloc: Global, tokens: IntoIter<Token>) -> Result<Expr, ReadError>
    ensures { Gives (λ expr. expr) result (run_pattern_from (map terminal_of (into_iter_items tokens))) }
{
    let pattern = run(alloc, Setting::Pattern, tokens)?;
    if !judge(alloc, pattern.as_slice())? {
        return Err(ReadError::BadSyntax);
    }
    Ok(pattern)
}

/// The pattern that the tokens are.
pub fn read_pattern(alloc: Global, tokens: IntoIter<Token>) -> Result<Expr, ReadError>
    ensures found { IfOk result (λ expr. IsPatternText (map terminal_of (into_iter_items tokens)) expr) }
    ensures none { IfErr result (λ error. Excludes error (IsPatternText (map terminal_of (into_iter_items tokens)))) }
{
    run_pattern(alloc, tokens)
}

/// The pattern that the tokens are where so many parentheses are open, as reading goes on to it.
#[tactic(auto, unfolding(crate::specs::Texts::run_pattern_within))]
fn run_pattern_within(
    alloc: Global,
    opened: usize,
    tokens: IntoIter<Token>,
) -> Result<Expr, ReadError>
    ensures { Gives (λ expr. expr) result (run_pattern_from_within opened (map terminal_of (into_iter_items tokens))) }
{
    let pattern = run_pattern(alloc, tokens)?;
    if opened_behind_all(opened, pattern.as_slice()).is_none() {
        return Err(ReadError::BadSyntax);
    }
    Ok(pattern)
}

/// The pattern that the tokens are where so many parentheses are open: no more than 64 are open anywhere, these counted.
pub fn read_pattern_within(
    alloc: Global,
    opened: usize,
    tokens: IntoIter<Token>,
) -> Result<Expr, ReadError>
    ensures found { IfOk result (λ expr. IsPatternTextWithin opened (map terminal_of (into_iter_items tokens)) expr) }
    ensures none { IfErr result (λ error. Excludes error (IsPatternTextWithin opened (map terminal_of (into_iter_items tokens)))) }
{
    run_pattern_within(alloc, opened, tokens)
}

/// The right side that the tokens are, as reading goes on to it, with this pattern.
fn run_right(alloc: Global, tokens: IntoIter<Token>, pattern: &[Piece]) -> Result<Expr, ReadError>
    ensures { Gives (λ expr. expr) result (run_right_from pattern.now (map terminal_of (into_iter_items tokens))) }
{
    let right = run(alloc, Setting::Right, tokens)?;
    if !are_known(pattern, right.as_slice()) {
        return Err(ReadError::BadSyntax);
    }
    Ok(right)
}

/// The right side that the tokens are of an `id` or an `also` whose pattern has these pieces.
pub fn read_right(
    alloc: Global,
    tokens: IntoIter<Token>,
    pattern: &[Piece],
) -> Result<Expr, ReadError>
    ensures found { IfOk result (λ expr. IsRightText pattern.now (map terminal_of (into_iter_items tokens)) expr) }
    ensures none { IfErr result (λ error. Excludes error (IsRightText pattern.now (map terminal_of (into_iter_items tokens)))) }
{
    run_right(alloc, tokens, pattern)
}
