//! How much of each thing of a term is taken.
ghost use Rattle.std.specs.Prelude.{◌≡◌, IsTrue};
ghost use Rattle.std.specs.List.{list_any};
ghost use Rattle.form_match.specs.Left.{dot_taken as dot_taken_by, symbol_taken as symbol_taken_by, taken};
ghost use Rattle.form_match.specs.Matching.{are_apart, clashes as clashes_with};
ghost use Rattle.form_match.specs.Taken.{dot_part, symbol_part, takes_thing};

use crate::Use;
use form_base::Id;

impl Use {
    /// Whether both take the same thing.
    pub(crate) fn clashes(&self, other: &Use) -> bool
        ensures { result ≡ clashes_with self.now other.now }
    {
        match (self, other) {
            (Use::Symbol(this, _), Use::Symbol(that, _)) => *this == *that,
            (Use::Dot(this, _), Use::Dot(that, _)) => *this == *that,
            (Use::Component(this), Use::Component(that)) => *this == *that,
            (Use::Delta(this), Use::Delta(that)) => *this == *that,
            (Use::Function(this), Use::Function(that)) => *this == *that,
            _ => false,
        }
    }
}

/// How much of a symbol is taken.
pub fn symbol_taken(symbol: Id, takes: &[Use]) -> i64
    requires { IsTrue (are_apart takes.now) }
    ensures { result ≡ taken (symbol_taken_by symbol) takes.now }
{
    for one in takes {
        if let Some(power) = part_of_symbol(symbol, one) {
            return power;
        }
    }
    0
}

fn part_of_symbol(symbol: Id, one: &Use) -> Option<i64>
    ensures { result ≡ symbol_part symbol one.now }
{
    match one {
        Use::Symbol(of, power) => { if symbol == *of { Some(*power) } else { None } }
        _ => None,
    }
}

/// How much of the dot product at a place is taken.
pub fn dot_taken(place: usize, takes: &[Use]) -> i64
    requires { IsTrue (are_apart takes.now) }
    ensures { result ≡ taken (dot_taken_by place) takes.now }
{
    for one in takes {
        if let Some(power) = part_of_dot(place, one) {
            return power;
        }
    }
    0
}

fn part_of_dot(place: usize, one: &Use) -> Option<i64>
    ensures { result ≡ dot_part place one.now }
{
    match one {
        Use::Dot(of, power) => { if place == *of { Some(*power) } else { None } }
        _ => None,
    }
}

/// Things of a term that are taken one by one, each by its place.
#[derive(Clone, Copy)]
pub enum Things {
    Components,
    Deltas,
    Functions,
}

/// Whether the one of these things at a place is taken.
pub fn is_taken(of: Things, place: usize, takes: &[Use]) -> bool
    ensures { result ≡ list_any (takes_thing of place) takes.now }
{
    takes.iter().any(|one| takes_thing(of, place, one))
}

fn takes_thing(of: Things, place: usize, one: &Use) -> bool
    ensures { result ≡ takes_thing of place one.now }
{
    match (of, one) {
        (Things::Components, Use::Component(this)) => place == *this,
        (Things::Deltas, Use::Delta(this)) => place == *this,
        (Things::Functions, Use::Function(this)) => place == *this,
        _ => false,
    }
}
