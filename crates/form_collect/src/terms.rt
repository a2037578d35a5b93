ghost use Rattle.std.specs.Prelude.{◌≡◌};

use form_term::Monomial;
use std::alloc::Global;
use std::marker::Model;
use std::mem;

/// The terms of an expression, in a clause their list. They are given back in the order in which they came, as their
/// memory lies: in their own order the allocator would go to and fro, which takes three times as long.
pub struct Terms {
    items: Vec<Monomial>,
    /// The places of the terms, in the order in which they came; those of none where that isn't known.
    came: Vec<u32>,
}

impl Model for Terms {
    ghost use Rattle.std.specs.Prelude.{List};
    ghost use Rattle.form_term.specs.declared.monomial.Monomial.{Monomial};

    ghost Value = { List Monomial };

    ghost view = { λ t. t.items.items };
}

impl Drop for Terms {
    fn drop(self) {
        let Terms { mut items, came } = self;
        give_back(*items.allocator(), &mut items, &came);
    }
}

/// Gives the terms at these places back, one by one.
fn give_back(alloc: Global, items: &mut [Monomial], places: &[u32]) {
    for place in places {
        if let Some(item) = items.get_mut(*place as usize) {
            drop(mem::replace(item, Monomial::unit(alloc)));
        }
    }
}

impl Terms {
    pub fn from_vec(items: Vec<Monomial>) -> Terms
        ensures { result ≡ items.items }
    {
        let came = Vec::new(*items.allocator());
        Terms { items, came }
    }

    /// Terms that came in another order, that of these places.
    pub(crate) fn that_came(items: Vec<Monomial>, came: Vec<u32>) -> Terms
        ensures { result ≡ items.items }
    {
        Terms { items, came }
    }

    pub fn as_slice(&self) -> &[Monomial]
        ensures { result.now ≡ self.now }
    {
        self.items.as_slice()
    }

    pub fn into_vec(self) -> Vec<Monomial>
        ensures { result.items ≡ self }
    {
        let Terms { items, came: _ } = self;
        items
    }
}
