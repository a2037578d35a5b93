ghost use Rattle.std.specs.Prelude.{◌≡◌, [], IfOk, IfErr};
ghost use Rattle.form_grammar.specs.Reading.{Gives, Excludes};
ghost use Rattle.form_stmts.specs.Reading.{names_from, terminals};
ghost use Rattle.form_stmts.specs.Statement.{AreNames, AreNamesOrNone};

use form_ast::NameList;
use form_grammar::{ReadError, Terminal};
use form_lexer::Token;
use std::alloc::Global;
use std::vec::IntoIter;

/// What stands last of names.
#[derive(Clone, Copy)]
pub enum Last {
    Nothing,
    Name,
    Comma,
}

/// Names up to the end; no name is some only where it may be.
#[tactic(auto, unfolding(crate::specs::Reading::names_from))]
fn names_to_end(
    alloc: Global,
    tokens: IntoIter<Token>,
    may_be_none: bool,
) -> Result<NameList, ReadError>
    ensures { Gives (λ names. names) result (names_from may_be_none Last.Nothing [] (terminals tokens)) }
{
    let mut names = Vec::new(alloc);
    let mut last = Last::Nothing;
    for token in tokens {
        last = match Terminal::from(token) {
            Terminal::Name(name) => {
                names.push(name)?;
                Last::Name
            }
            Terminal::Comma if matches!(last, Last::Name) => Last::Comma,
            _ => return Err(ReadError::BadSyntax),
        };
    }
    match last {
        Last::Name => Ok(NameList::from_vec(names)),
        Last::Nothing if may_be_none => Ok(NameList::from_vec(names)),
        _ => Err(ReadError::BadSyntax),
    }
}

/// Names, at least one.
pub fn read_names(alloc: Global, tokens: IntoIter<Token>) -> Result<NameList, ReadError>
    ensures found { IfOk result (λ names. AreNames (terminals tokens) names) }
    ensures none { IfErr result (λ error. Excludes error (AreNames (terminals tokens))) }
{
    names_to_end(alloc, tokens, false)
}

/// Names, or nothing.
pub fn read_names_or_none(alloc: Global, tokens: IntoIter<Token>) -> Result<NameList, ReadError>
    ensures found { IfOk result (λ names. AreNamesOrNone (terminals tokens) names) }
    ensures none { IfErr result (λ error. Excludes error (AreNamesOrNone (terminals tokens))) }
{
    names_to_end(alloc, tokens, true)
}
