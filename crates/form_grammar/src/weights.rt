//! What the factors of a product weigh.
ghost use Rattle.std.specs.Prelude.{◌≡◌, [], ◌∷◌, ◌++◌, Some, OnOk, IfOk, MatchOption};
ghost use Rattle.form_grammar.specs.declared.weights.WeightChange.TheVariants.{Size, Mark, Second};
ghost use Rattle.form_grammar.specs.Shape.{changed as changed_by, marked_key as marked_key_of, with_last};

use form_ast::{Key, Weight};
use form_base::Name;
use form_number::WholeNumber;
use std::alloc::{AllocError, Global};
use std::marker::Model;

/// What a further piece of a factor makes of its weight.
#[derive(Drop)]
pub enum WeightChange {
    /// Its power, below zero or not, and the size of this.
    Size(bool, WholeNumber),
    /// A wildcard as its power.
    Free,
    /// The mark of a wildcard.
    Mark,
    /// The second name of a dot product.
    Second(Name),
}

/// The weights of a product's factors: in a clause their list.
#[derive(Drop)]
pub struct Weights {
    weights: Vec<Weight>,
}

impl Model for Weights {
    ghost use Rattle.std.specs.Prelude.{List};
    ghost use Rattle.form_ast.specs.declared.weight.Weight.{Weight};

    ghost Value = { List Weight };

    ghost view = { λ w. w.weights.items };
}

/// A weight with another power.
fn sized(weight: Weight, below: bool, size: WholeNumber) -> Weight
    ensures { Some result ≡ changed_by (Size below size) weight }
{
    match weight {
        Weight::Keyed(key, _, _) => Weight::Keyed(key, below, size),
        Weight::Lone(_) => Weight::Lone(size),
        Weight::Free(text) => Weight::Free(text),
    }
}

/// What a wildcard as a power makes of a weight, where this is that of a name alone.
fn freed(weight: Weight) -> Option<Weight>
    ensures { result ≡ changed_by WeightChange.Free weight }
{
    match weight {
        Weight::Keyed(key, _, _) => match key {
            Key::Alone(text, _) => Some(Weight::Free(text)),
            Key::Dotted(_, _, _, _) => None,
        },
        Weight::Lone(_) | Weight::Free(_) => None,
    }
}

/// The last name of a key is a wildcard.
fn marked_key(key: Key) -> Key
    ensures { result ≡ marked_key_of key }
{
    match key {
        Key::Alone(text, _) => Key::Alone(text, true),
        Key::Dotted(p, is_marked, q, _) => Key::Dotted(p, is_marked, q, true),
    }
}

fn marked(weight: Weight) -> Weight
    ensures { Some result ≡ changed_by Mark weight }
{
    match weight {
        Weight::Keyed(key, below, size) => Weight::Keyed(marked_key(key), below, size),
        Weight::Lone(size) => Weight::Lone(size),
        Weight::Free(text) => Weight::Free(text),
    }
}

/// What a second name makes of a weight, where this is that of a name alone.
fn paired(weight: Weight, second: Name) -> Option<Weight>
    ensures { result ≡ changed_by (Second second) weight }
{
    match weight {
        Weight::Keyed(key, below, size) => match key {
            Key::Alone(text, is_marked) => Some(Weight::Keyed(
                Key::Dotted(text, is_marked, second, false),
                below,
                size,
            )),
            Key::Dotted(_, _, _, _) => None,
        },
        Weight::Lone(_) | Weight::Free(_) => None,
    }
}

/// A weight as it is changed.
fn changed(change: WeightChange, weight: Weight) -> Option<Weight>
    ensures { result ≡ changed_by change weight }
{
    match change {
        WeightChange::Size(below, size) => Some(sized(weight, below, size)),
        WeightChange::Free => freed(weight),
        WeightChange::Mark => Some(marked(weight)),
        WeightChange::Second(second) => paired(weight, second),
    }
}

impl Weights {
    pub fn new(alloc: Global) -> Weights
        ensures { result ≡ [] }
    {
        Weights {
            weights: Vec::new(alloc),
        }
    }

    pub fn as_slice(&self) -> &[Weight]
        ensures { result.now ≡ self.now }
    {
        self.weights.as_slice()
    }

    pub fn push(&mut self, weight: Weight) -> Result<(), AllocError>
        ensures { OnOk result (self.new ≡ self.old ++ weight ∷ []) }
    {
        self.weights.push(weight)?;
        Ok(())
    }

    /// Takes the last one away.
    fn pop(&mut self) -> Option<Weight>
        ensures { MatchOption result (self.old ≡ []) (λ weight. self.old ≡ self.new ++ weight ∷ []) }
    {
        self.weights.pop()
    }

    /// The last weight is changed. None where it can't be changed so.
    pub fn change(self, change: WeightChange) -> Result<Option<Weights>, AllocError>
        ensures { IfOk result (λ weights. weights ≡ with_last change self) }
    {
        let mut weights = self;
        let Some(last) = weights.pop() else {
            return Ok(None);
        };
        let Some(last) = changed(change, last) else {
            return Ok(None);
        };
        weights.push(last)?;
        Ok(Some(weights))
    }
}
