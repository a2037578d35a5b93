ghost use Rattle.std.specs.Prelude.{◌≡◌, position};
ghost use Rattle.std.specs.Str.{bytes_eq};

use form_base::{Id, Name};
use std::marker::Model;

/// Where a name stands first.
fn place_of(names: &[Name], name: &str) -> Option<usize>
    ensures { result ≡ position (λ n. bytes_eq name.now n) names.now }
{
    names.iter().position(|n| name == n.as_str())
}

/// What a right side knows of its pattern: which names are wildcards there, and the names of its fields, in the order of
/// their numbers. That of a definition knows nothing.
#[derive(Drop)]
pub struct Known {
    wildcards: Vec<Id>,
    fields: Vec<Name>,
}

impl Model for Known {
    ghost use Rattle.form_right_side.specs.RightSide.{Known as TheKnown};

    ghost Value = { TheKnown };

    ghost view = { λ k. record { wildcards = k.wildcards.items; fields = k.fields.items } };
}

impl Known {
    ghost use Rattle.form_right_side.specs.RightSide.{field_number as number_of_field, is_wildcard as is_wildcard_of};

    /// What a right side knows in which these are wildcards and fields.
    pub fn new(wildcards: Vec<Id>, fields: Vec<Name>) -> Known
        ensures { result ≡ record { wildcards = wildcards.items; fields = fields.items } }
    {
        Known { wildcards, fields }
    }

    /// Whether the name is a wildcard.
    pub fn is_wildcard(&self, id: Id) -> bool
        ensures { result ≡ is_wildcard_of self.now id }
    {
        self.wildcards.contains(&id)
    }

    /// The number of a field.
    pub fn field_number(&self, name: &str) -> usize
        ensures { result ≡ number_of_field self.now.fields name.now }
    {
        let fields = self.fields.as_slice();
        match place_of(fields, name) {
            Some(number) => number,
            None => fields.len(),
        }
    }
}
