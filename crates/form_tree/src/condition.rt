ghost use Rattle.std.specs.Prelude.{◌≡◌, Some, None, if◌then◌else◌};
ghost use Rattle.std.specs.List.{list_all};
ghost use Rattle.form_tree.specs.Weights.{are_weights, is_weight};

use crate::Pattern;
use form_base::Id;
use form_frac::Frac;
use form_names::Ids;
use sqlite_items::Items;
use std::marker::Model;

/// What a count counts.
#[derive(Clone, Copy, PartialEq, Eq)]
pub enum Counted {
    Symbol(Id),
    Vector(Id),
    Function(Id),
}

/// What is counted, and how much each of it counts.
#[derive(Clone, Copy, PartialEq, Eq)]
pub struct Weighted {
    pub counted: Counted,
    pub weight: i32,
}

/// The most pairs that a count has.
const MOST_WEIGHTS: usize = 1000;

/// The largest size of a weight.
const LARGEST_WEIGHT: u32 = 1_000_000_000;

/// What a count has, in a clause the list of it: at most 1,000 pairs, each of a weight of at most 10^9 in size.
#[derive(Drop)]
pub struct Weights {
    weights: Vec<Weighted>,
}

impl Model for Weights {
    ghost use Rattle.std.specs.Prelude.{◌≡◌, List, true};
    ghost use Rattle.form_tree.specs.Weights.{are_weights};
    ghost use Rattle.form_tree.specs.declared.condition.Weighted.{Weighted};

    ghost Value = { List Weighted };

    ghost view = { λ w. w.weights.items };

    ghost invariant = { λ w. are_weights w.weights.items ≡ true };
}

impl Weights {
    ghost use Rattle.std.specs.Prelude.{true};

    /// None where there are too many, or a weight is too large.
    pub fn from_vec(weights: Vec<Weighted>) -> Option<Weights>
        ensures { result ≡ (if are_weights weights.items then Some weights.items else None) }
    {
        if are_weights(weights.as_slice()) {
            Some(Weights { weights })
        } else {
            None
        }
    }

    pub fn as_slice(&self) -> &[Weighted]
        ensures weights { result.now ≡ self.now }
        ensures lawful { are_weights self.now ≡ true }
    {
        self.weights.as_slice()
    }
}

fn are_weights(weights: &[Weighted]) -> bool
    ensures { result ≡ are_weights weights.now }
{
    weights.len() <= MOST_WEIGHTS && are_in_range(weights)
}

fn are_in_range(weights: &[Weighted]) -> bool
    ensures { result ≡ list_all is_weight weights.now }
{
    weights.iter().all(|weighted| is_weight(weighted))
}

fn is_weight(weighted: &Weighted) -> bool
    ensures { result ≡ is_weight weighted.now }
{
    weighted.weight.unsigned_abs() <= LARGEST_WEIGHT
}

/// A value in a condition.
#[derive(Drop)]
pub enum Value {
    Number(Frac),
    /// The coefficient of the term.
    Coefficient,
    /// The sum of weights times numbers.
    Count(Weights),
    /// Whether a pattern, by its number among those of the condition, matches the term: 1 or 0.
    Match(usize),
    /// Whether one of these names stands in the term: 1 or 0.
    Occurs(Ids),
}

/// A test of a condition.
pub type Test = form_base::Test<Value>;

/// Tests joined by `&&`, and such lists joined by `||`.
pub type Alternatives = form_base::Condition<Value>;

/// A condition with its patterns, in the order of their numbers.
#[derive(Drop)]
pub struct Condition {
    pub alternatives: Alternatives,
    pub patterns: Items<Pattern>,
}
