//! Declarations of sets.
ghost use Rattle.std.specs.Prelude.{◌≡◌, [], Some, None, IfErr, IfOk};
ghost use Rattle.form_grammar.specs.Reading.{Gives, Excludes};
ghost use Rattle.form_stmts.specs.Elements.{element_step as element_step_of, elements_from, ended as ended_so};
ghost use Rattle.form_stmts.specs.Reading.{terminals};
ghost use Rattle.form_stmts.specs.Statement.{AreElements};

use form_ast::{NameList, NumberList, Sign, SignedNumber, Spelled, WrittenElements};
use form_grammar::{ReadError, Terminal};
use form_lexer::Token;
use form_number::Number;
use std::alloc::Global;
use std::vec::IntoIter;

/// What stands last of elements.
#[derive(Clone, Copy)]
pub enum Place {
    /// Nothing.
    Start,
    /// A name.
    Name,
    /// A `,` behind a name.
    BehindName,
    /// The sign of a number.
    Sign(Sign),
    /// A number.
    Number,
    /// A `,` behind a number.
    BehindNumber,
}

/// What one more terminal leads to, and the element that it ends.
#[derive(Drop)]
pub struct Step {
    pub next: Place,
    pub name: Option<Spelled>,
    pub number: Option<SignedNumber>,
}

fn goes_to(next: Place) -> Step
    ensures { result ≡ record { next = next; name = None; number = None } }
{
    Step {
        next,
        name: None,
        number: None,
    }
}

fn with_name(name: Spelled) -> Step
    ensures { result ≡ record { next = Place.Name; name = Some name; number = None } }
{
    Step {
        next: Place::Name,
        name: Some(name),
        number: None,
    }
}

fn with_number(sign: Option<Sign>, number: Number) -> Step
    ensures { result ≡ record { next = Place.Number; name = None; number = Some (record { sign = sign; number = number }) } }
{
    Step {
        next: Place::Number,
        name: None,
        number: Some(SignedNumber { sign, number }),
    }
}

/// One terminal further, where it may stand there.
fn element_step(place: Place, terminal: Terminal) -> Option<Step>
    ensures { result ≡ element_step_of place terminal }
{
    match (place, terminal) {
        (Place::Start, Terminal::Name(name)) => Some(with_name(name)),
        (Place::Start, Terminal::Number(number)) => Some(with_number(None, number)),
        (Place::Start, Terminal::Sign(sign)) => Some(goes_to(Place::Sign(sign))),
        (Place::Name, Terminal::Comma) => Some(goes_to(Place::BehindName)),
        (Place::BehindName, Terminal::Name(name)) => Some(with_name(name)),
        (Place::Sign(sign), Terminal::Number(number)) => Some(with_number(Some(sign), number)),
        (Place::Number, Terminal::Comma) => Some(goes_to(Place::BehindNumber)),
        (Place::BehindNumber, Terminal::Number(number)) => Some(with_number(None, number)),
        (Place::BehindNumber, Terminal::Sign(sign)) => Some(goes_to(Place::Sign(sign))),
        _ => None,
    }
}

/// The elements, where they may end so.
fn ended(
    place: Place,
    names: Vec<Spelled>,
    numbers: Vec<SignedNumber>,
) -> Result<WrittenElements, ReadError>
    ensures { Gives (λ elements. elements) result (ended_so place names.items numbers.items) }
{
    match place {
        Place::Name => Ok(WrittenElements::Names(NameList::from_vec(names))),
        Place::Number => Ok(WrittenElements::Numbers(NumberList::from_vec(numbers))),
        _ => Err(ReadError::BadSyntax),
    }
}

/// Elements up to the end.
#[tactic(auto, unfolding(crate::specs::Elements::elements_from))]
fn elements_to_end(alloc: Global, tokens: IntoIter<Token>) -> Result<WrittenElements, ReadError>
    ensures { Gives (λ elements. elements) result (elements_from Place.Start [] [] (terminals tokens)) }
{
    let mut names = Vec::new(alloc);
    let mut numbers = Vec::new(alloc);
    let mut place = Place::Start;
    for token in tokens {
        let Some(step) = element_step(place, Terminal::from(token)) else {
            return Err(ReadError::BadSyntax);
        };
        let Step { next, name, number } = step;
        if let Some(name) = name {
            names.push(name)?;
        }
        if let Some(number) = number {
            numbers.push(number)?;
        }
        place = next;
    }
    ended(place, names, numbers)
}

/// The elements of a set: names or numbers, at least one.
pub fn read_elements(alloc: Global, tokens: IntoIter<Token>) -> Result<WrittenElements, ReadError>
    ensures found { IfOk result (λ elements. AreElements (terminals tokens) elements) }
    ensures none { IfErr result (λ error. Excludes error (AreElements (terminals tokens))) }
{
    elements_to_end(alloc, tokens)
}
