ghost use Rattle.std.specs.Prelude.{◌≡◌, [], ◌∷◌, length, MatchOption, OnOk, IfErr};
ghost use Rattle.form_grammar.specs.Reading.{are_arguments};

use std::alloc::{AllocError, Global};
use std::marker::Model;

/// What an open parenthesis holds.
#[derive(Clone, Copy)]
pub enum Bracket {
    /// A sum that is a factor.
    Parenthesis,
    /// The arguments of a name.
    Arguments,
}

/// The parentheses that are open: in a clause their list, the innermost first.
#[derive(Drop)]
pub struct Brackets {
    brackets: Vec<Bracket>,
}

impl Model for Brackets {
    ghost use Rattle.std.specs.Prelude.{List, reverse};
    ghost use Rattle.form_grammar.specs.declared.brackets.Bracket.{Bracket};

    ghost Value = { List Bracket };

    ghost view = { λ b. reverse b.brackets.items };
}

impl Brackets {
    pub fn new(alloc: Global) -> Brackets
        ensures { result ≡ [] }
    {
        Brackets {
            brackets: Vec::new(alloc),
        }
    }

    pub fn len(&self) -> usize
        ensures { result ≡ length self.now }
    {
        self.brackets.len()
    }

    pub fn push(&mut self, bracket: Bracket) -> Result<(), AllocError>
        ensures { OnOk result (self.new ≡ bracket ∷ self.old) }
    {
        self.brackets.push(bracket)?;
        Ok(())
    }

    /// Takes the innermost one away.
    pub fn pop(&mut self) -> Option<Bracket>
        ensures { MatchOption result (self.old ≡ []) (λ bracket. self.old ≡ bracket ∷ self.new) }
    {
        self.brackets.pop()
    }

    /// Whether the innermost one holds arguments.
    pub fn are_arguments(&self) -> bool
        ensures { result ≡ are_arguments self.now }
    {
        match self.brackets.as_slice() {
            [.., last] => matches!(last, Bracket::Arguments),
            [] => false,
        }
    }
}
