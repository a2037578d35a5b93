//! A `sum`: of indices, or of one over numbers.
ghost use Rattle.std.specs.Prelude.{◌≡◌, [], ◌∷◌, IfErr, IfOk, if◌then◌else◌, Some, None, option_map};
ghost use Rattle.form_grammar.specs.Reading.{Excludes, Gives};
ghost use Rattle.form_grammar.specs.Terminal.{terminal_of};
ghost use Rattle.form_stmts.specs.Reading.{terminals};
ghost use Rattle.form_stmts.specs.Statement.{AreSummed, IsSum, numbers_from, sum_of as sum_of_elements};

use crate::elements::read_elements;
use crate::statement::take_name;
use form_ast::{NameList, NumberList, Numbers, SignedNumber, Spelled, Statement, WrittenElements};
use form_grammar::{ReadError, Terminal};
use form_lexer::Token;
use std::alloc::Global;
use std::vec::IntoIter;

/// The numbers, where none has a sign.
fn whole_numbers(alloc: Global, numbers: NumberList) -> Result<Numbers, ReadError>
    ensures { Gives (λ n. n) result (numbers_from [] numbers) }
{
    let mut wholes = Vec::new(alloc);
    for number in numbers.into_vec() {
        let SignedNumber { sign, number } = number;
        if let Some(_) = sign {
            return Err(ReadError::BadSyntax);
        }
        wholes.push(number)?;
    }
    Ok(Numbers::from_vec(wholes))
}

/// A `sum` of an index with what stands behind its comma.
fn sum_of(alloc: Global, name: Spelled, elements: WrittenElements) -> Result<Statement, ReadError>
    ensures { Gives (λ s. s) result (sum_of_elements name elements) }
{
    match elements {
        WrittenElements::Names(names) => {
            let mut names = names.into_vec();
            names.insert(0, name)?;
            Ok(Statement::Sum(NameList::from_vec(names)))
        }
        WrittenElements::Numbers(numbers) => match whole_numbers(alloc, numbers) {
            Ok(wholes) => Ok(Statement::SumOver(name, wholes)),
            Err(error) => Err(error),
        },
    }
}

/// What stands behind the comma of a `sum`.
fn read_summed(
    alloc: Global,
    name: Spelled,
    tokens: IntoIter<Token>,
) -> Result<Statement, ReadError>
    ensures found { IfOk result (λ statement. AreSummed name (terminals tokens) statement) }
    ensures none { IfErr result (λ error. Excludes error (AreSummed name (terminals tokens))) }
{
    match read_elements(alloc, tokens) {
        Ok(elements) => sum_of(alloc, name, elements),
        Err(error) => Err(error),
    }
}

/// A `sum` of one index.
fn sum_of_one(alloc: Global, name: Spelled) -> Result<Statement, ReadError>
    ensures { Gives (λ s. s) result (Some (Statement.Sum (name ∷ []))) }
{
    let mut names = Vec::new(alloc);
    names.push(name)?;
    Ok(Statement::Sum(NameList::from_vec(names)))
}

/// What stands behind `sum`.
pub fn read_sum(alloc: Global, tokens: IntoIter<Token>) -> Result<Statement, ReadError>
    ensures found { IfOk result (λ statement. IsSum (terminals tokens) statement) }
    ensures none { IfErr result (λ error. Excludes error (IsSum (terminals tokens))) }
{
    let mut tokens = tokens;
    let Some(name) = take_name(&mut tokens) else {
        return Err(ReadError::BadSyntax);
    };
    let Some(comma) = tokens.next() else {
        return sum_of_one(alloc, name);
    };
    match Terminal::from(comma) {
        Terminal::Comma => read_summed(alloc, name, tokens),
        _ => Err(ReadError::BadSyntax),
    }
}
