ghost use Rattle.std.specs.Prelude.{◌≡◌};

use crate::{Expr, NameList, Sign, SignedNumber, Spelled};
use form_number::Number;
use std::marker::Model;

/// A name that a `count` counts, and its weight.
#[derive(Drop)]
pub struct Weighted {
    pub name: Spelled,
    pub weight: SignedNumber,
}

/// The names of a `count` with their weights, in a clause their list.
#[derive(Drop)]
pub struct WeightedList {
    names: Vec<Weighted>,
}

impl Model for WeightedList {
    ghost use Rattle.std.specs.Prelude.{List};
    ghost use Rattle.form_ast.specs.declared.condition.Weighted.{Weighted};

    ghost Value = { List Weighted };

    ghost view = { λ l. l.names.items };
}

impl WeightedList {
    pub fn from_vec(names: Vec<Weighted>) -> WeightedList
        ensures { result ≡ names.items }
    {
        WeightedList { names }
    }

    pub fn into_vec(self) -> Vec<Weighted>
        ensures { result.items ≡ self }
    {
        let WeightedList { names } = self;
        names
    }

    pub fn as_slice(&self) -> &[Weighted]
        ensures { result.now ≡ self.now }
    {
        self.names.as_slice()
    }
}

/// A value in a condition.
#[derive(Drop)]
pub enum Value {
    /// A whole number with a sign or none, divided by another one, where this is written; which isn't 0.
    Number(Option<Sign>, Number, Option<Number>),
    /// `coefficient`
    Coefficient,
    /// `count`, of at least one name.
    Count(WeightedList),
    /// `match`, with its pattern.
    Match(Expr),
    /// `occurs`, of at least one name.
    Occurs(NameList),
}

/// A test of a condition as it is written.
pub type Test = form_base::Test<Value>;

/// A condition as it is written, without the parentheses around it.
pub type Condition = form_base::Condition<Value>;
