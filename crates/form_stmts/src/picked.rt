//! The functions of an `argument`, with the numbers of arguments.
ghost use Rattle.std.specs.Prelude.{◌≡◌, IfErr, IfOk, OnOk, is_some};
ghost use Rattle.form_grammar.specs.Reading.{Excludes, Gives};
ghost use Rattle.form_stmts.specs.Picking.{all_picked, and_function, and_number, no_picking, picked_ended, picks_from};
ghost use Rattle.form_stmts.specs.Reading.{terminals};
ghost use Rattle.form_stmts.specs.Statement.{ArePicked};

use crate::names::Last;
use form_ast::{Numbers, Picked, PickedList, Spelled};
use form_grammar::{ReadError, Terminal};
use form_lexer::Token;
use form_number::Number;
use std::alloc::{AllocError, Global};
use std::marker::Model;
use std::mem;
use std::vec::IntoIter;

/// Functions with their numbers, while they are read.
#[derive(Drop)]
struct Reader {
    done: Vec<Picked>,
    function: Option<Spelled>,
    /// Those of the function.
    numbers: Vec<Number>,
}

impl Model for Reader {
    ghost use Rattle.form_stmts.specs.Picking.{Picking};

    ghost Value = { Picking };

    ghost view = { λ r. record { done = r.done.items; function = r.function; numbers = r.numbers.items } };
}

impl Reader {
    fn new(alloc: Global) -> Reader
        ensures { result ≡ no_picking }
    {
        Reader {
            done: Vec::new(alloc),
            function: None,
            numbers: Vec::new(alloc),
        }
    }

    /// Ends the function that is begun.
    fn end_function(&mut self, alloc: Global) -> Result<(), AllocError>
        ensures done { OnOk result (self.new.done ≡ all_picked self.old) }
    {
        let numbers = mem::replace(&mut self.numbers, Vec::new(alloc));
        if let Some(function) = self.function.take() {
            self.done.push(Picked {
                function,
                numbers: Numbers::from_vec(numbers),
            })?;
        }
        Ok(())
    }

    fn begin_function(&mut self, alloc: Global, function: Spelled) -> Result<(), AllocError>
        ensures { OnOk result (self.new ≡ and_function self.old function) }
    {
        self.end_function(alloc)?;
        self.function = Some(function);
        self.numbers = Vec::new(alloc);
        Ok(())
    }

    fn take_number(&mut self, number: Number) -> Result<(), AllocError>
        ensures { OnOk result (self.new ≡ and_number self.old number) }
    {
        self.numbers.push(number)?;
        Ok(())
    }

    fn has_function(&self) -> bool
        ensures { result ≡ is_some self.now.function }
    {
        self.function.is_some()
    }

    fn end(self, alloc: Global, last: Last) -> Result<PickedList, ReadError>
        ensures { Gives (λ picked. picked) result (picked_ended last self) }
    {
        if let Last::Comma = last {
            return Err(ReadError::BadSyntax);
        }
        let mut reader = self;
        reader.end_function(alloc)?;
        Ok(PickedList::from_vec(reader.done))
    }
}

/// Functions up to the end.
#[tactic(auto, unfolding(crate::specs::Picking::picks_from))]
fn picked_to_end(alloc: Global, tokens: IntoIter<Token>) -> Result<PickedList, ReadError>
    ensures { Gives (λ picked. picked) result (picks_from Last.Nothing no_picking (terminals tokens)) }
{
    let mut reader = Reader::new(alloc);
    let mut last = Last::Nothing;
    for token in tokens {
        last = match Terminal::from(token) {
            Terminal::Name(function) => {
                reader.begin_function(alloc, function)?;
                Last::Name
            }
            Terminal::Number(number) if reader.has_function() => {
                reader.take_number(number)?;
                Last::Name
            }
            Terminal::Comma if matches!(last, Last::Name) => Last::Comma,
            _ => return Err(ReadError::BadSyntax),
        };
    }
    reader.end(alloc, last)
}

/// Functions, each with the numbers behind it, or nothing.
pub fn read_picked(alloc: Global, tokens: IntoIter<Token>) -> Result<PickedList, ReadError>
    ensures found { IfOk result (λ picked. ArePicked (terminals tokens) picked) }
    ensures none { IfErr result (λ error. Excludes error (ArePicked (terminals tokens))) }
{
    picked_to_end(alloc, tokens)
}
