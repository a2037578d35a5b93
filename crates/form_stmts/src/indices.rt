//! Declarations of indices and of dimensions, and what is switched on and off.
ghost use Rattle.std.specs.Prelude.{◌≡◌, [], IfErr, IfOk};
ghost use Rattle.form_grammar.specs.Reading.{Gives, Excludes};
ghost use Rattle.form_stmts.specs.Indices.{index_step as index_step_of, indices_from, last_index as last_index_of, only, dimension_from, is_statistics as is_statistics_at, switch_from};
ghost use Rattle.form_stmts.specs.Reading.{terminals};
ghost use Rattle.form_stmts.specs.Statement.{AreIndices, IsDimension, IsSwitch};

use form_ast::{Dimension, IndexList, Spelled, SpelledIndex, Statement};
use form_grammar::{ReadError, Terminal};
use form_lexer::Token;
use std::alloc::Global;
use std::vec::IntoIter;

/// What stands last of indices.
#[derive(Drop)]
pub enum Indexing {
    /// A `,` or nothing: a name is expected.
    Nothing,
    /// The name of an index.
    Name(Spelled),
    /// Its `=`.
    Equals(Spelled),
    /// Its dimension.
    Dimension,
}

/// What one more terminal makes of the last index, and the index that is complete before it, or with it.
#[derive(Drop)]
pub struct Step {
    pub next: Indexing,
    pub complete: Option<SpelledIndex>,
}

fn with_dimension(name: Spelled, dimension: Option<Dimension>) -> SpelledIndex
    ensures { result ≡ record { name = name; dimension = dimension } }
{
    SpelledIndex { name, dimension }
}

/// The index that is complete where indices end so.
fn last_index(last: Indexing) -> Option<SpelledIndex>
    ensures { result ≡ last_index_of last }
{
    match last {
        Indexing::Name(name) => Some(with_dimension(name, None)),
        _ => None,
    }
}

/// One terminal further, where it may stand there.
fn index_step(last: Indexing, terminal: Terminal) -> Option<Step>
    ensures { result ≡ index_step_of last terminal }
{
    match (last, terminal) {
        (Indexing::Nothing, Terminal::Name(name)) => Some(Step {
            next: Indexing::Name(name),
            complete: None,
        }),
        (Indexing::Name(name), Terminal::Name(further)) => Some(Step {
            next: Indexing::Name(further),
            complete: Some(with_dimension(name, None)),
        }),
        (Indexing::Name(name), Terminal::Comma) => Some(Step {
            next: Indexing::Nothing,
            complete: Some(with_dimension(name, None)),
        }),
        (Indexing::Name(name), Terminal::Equals) => Some(Step {
            next: Indexing::Equals(name),
            complete: None,
        }),
        (Indexing::Equals(name), Terminal::Number(number)) => Some(Step {
            next: Indexing::Dimension,
            complete: Some(with_dimension(name, Some(Dimension::Number(number)))),
        }),
        (Indexing::Equals(name), Terminal::Name(dimension)) => Some(Step {
            next: Indexing::Dimension,
            complete: Some(with_dimension(name, Some(Dimension::Name(dimension)))),
        }),
        (Indexing::Dimension, Terminal::Name(name)) => Some(Step {
            next: Indexing::Name(name),
            complete: None,
        }),
        (Indexing::Dimension, Terminal::Comma) => Some(Step {
            next: Indexing::Nothing,
            complete: None,
        }),
        _ => None,
    }
}

/// Indices up to the end.
#[tactic(auto, unfolding(crate::specs::Indices::indices_from))]
fn indices_to_end(alloc: Global, tokens: IntoIter<Token>) -> Result<IndexList, ReadError>
    ensures { Gives (λ indices. indices) result (indices_from Indexing.Nothing [] (terminals tokens)) }
{
    let mut indices = Vec::new(alloc);
    let mut last = Indexing::Nothing;
    for token in tokens {
        let Some(step) = index_step(last, Terminal::from(token)) else {
            return Err(ReadError::BadSyntax);
        };
        let Step { next, complete } = step;
        if let Some(index) = complete {
            indices.push(index)?;
        }
        last = next;
    }
    if matches!(last, Indexing::Nothing | Indexing::Equals(_)) {
        return Err(ReadError::BadSyntax);
    }
    if let Some(index) = last_index(last) {
        indices.push(index)?;
    }
    Ok(IndexList::from_vec(indices))
}

/// Indices, at least one.
pub fn read_indices(alloc: Global, tokens: IntoIter<Token>) -> Result<IndexList, ReadError>
    ensures found { IfOk result (λ indices. AreIndices (terminals tokens) indices) }
    ensures none { IfErr result (λ error. Excludes error (AreIndices (terminals tokens))) }
{
    indices_to_end(alloc, tokens)
}

/// The only terminal, if there is no other.
fn only_terminal(tokens: IntoIter<Token>) -> Option<Terminal>
    ensures { result ≡ only (terminals tokens) }
{
    let mut tokens = tokens;
    let first = tokens.next()?;
    match tokens.next() {
        None => Some(Terminal::from(first)),
        Some(_) => None,
    }
}

fn dimension(tokens: IntoIter<Token>) -> Result<Dimension, ReadError>
    ensures { Gives (λ d. d) result (dimension_from (only (terminals tokens))) }
{
    match only_terminal(tokens) {
        Some(Terminal::Number(number)) => Ok(Dimension::Number(number)),
        Some(Terminal::Name(name)) => Ok(Dimension::Name(name)),
        _ => Err(ReadError::BadSyntax),
    }
}

/// A dimension alone.
pub fn read_dimension(tokens: IntoIter<Token>) -> Result<Dimension, ReadError>
    ensures found { IfOk result (λ d. IsDimension (terminals tokens) d) }
    ensures none { IfErr result (λ error. Excludes error (IsDimension (terminals tokens))) }
{
    dimension(tokens)
}

/// Whether a terminal is the name `statistics`, in any case of letters.
fn is_statistics(terminal: &Terminal) -> bool
    ensures { result ≡ is_statistics_at terminal.now }
{
    match terminal {
        Terminal::Name(word) => word.name.as_str().eq_ignore_ascii_case("statistics"),
        _ => false,
    }
}

fn switched(tokens: IntoIter<Token>) -> Result<Statement, ReadError>
    ensures { Gives (λ s. s) result (switch_from (only (terminals tokens))) }
{
    match only_terminal(tokens) {
        Some(terminal) if is_statistics(&terminal) => Ok(Statement::Statistics),
        _ => Err(ReadError::BadSyntax),
    }
}

/// What is switched on or off.
pub fn read_switch(tokens: IntoIter<Token>) -> Result<Statement, ReadError>
    ensures found { IfOk result (λ statement. IsSwitch (terminals tokens) statement) }
    ensures none { IfErr result (λ error. Excludes error (IsSwitch (terminals tokens))) }
{
    switched(tokens)
}
