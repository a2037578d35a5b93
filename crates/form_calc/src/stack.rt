ghost use Rattle.form_calc.specs.Stack.{oldest};
ghost use Rattle.std.specs.Prelude.{List, drop, ◌≡◌, [], ◌∷◌, length, OnOk, OnErr, MatchOption, reverse};

use crate::Row;
use std::alloc::{AllocError, Global};
use std::marker::Model;

/// Things put on top of each other: in a clause a list, the newest first.
#[derive(Drop)]
pub struct Stack<T> {
    items: Vec<T>,
}

impl<T> Model for Stack<T> {
    ghost use Rattle.form_calc.specs.Stack.{oldest};
    ghost use Rattle.std.specs.Prelude.{List, List, reverse};

    ghost Value = { List T };

    ghost view = { λ s. reverse s.items.items };
}

impl<T> Stack<T> {
    pub fn new(alloc: Global) -> Stack<T>
        ensures { result ≡ [] }
    {
        Stack {
            items: Vec::new(alloc),
        }
    }

    pub(crate) fn from_vec(items: Vec<T>) -> Stack<T>
        ensures { result ≡ reverse items.items }
    {
        Stack { items }
    }

    /// A row of them, the newest first.
    pub fn into_row(self) -> Row<T>
        ensures { result ≡ self }
    {
        let mut items = self.items;
        items.reverse();
        Row::from_vec(items)
    }

    /// The newest of them.
    pub fn top(&self) -> Option<&T>
        ensures { MatchOption result (self.now ≡ []) (λ item. (others : List T) × (self.now ≡ item.now ∷ others)) }
    {
        self.items.last()
    }

    /// Keeps the oldest of them, up to so many.
    pub fn cut(&mut self, height: usize)
    where
        T: Drop,
        ensures { self.new ≡ oldest height self.old }
    {
        self.items.truncate(height);
    }

    pub fn len(&self) -> usize
        ensures { result ≡ length self.now }
    {
        self.items.len()
    }

    pub fn push(&mut self, item: T) -> Result<(), AllocError>
    where
        T: Drop,
        ensures pushed { OnOk result (self.new ≡ item ∷ self.old) }
        ensures same { OnErr result (self.new ≡ self.old) }
    {
        Ok(self.items.push(item)?)
    }

    pub fn pop(&mut self) -> Option<T>
        ensures rest { self.new ≡ drop 1 self.old }
        ensures popped { MatchOption result ((self.old ≡ []) × (self.new ≡ [])) (λ item. self.old ≡ item ∷ self.new) }
    {
        self.items.pop()
    }
}
