ghost use Rattle.std.specs.Prelude.{◌≡◌, ◌∷◌, ◌++◌, [], OnErr, OnOk};

use form_base::Id;
use smallvec::SmallVec;
use std::alloc::{AllocError, Global};
use std::marker::Model;

/// What a factor of a pattern takes of a term.
#[derive(Clone, Copy)]
pub enum Use {
    /// So much of a symbol.
    Symbol(Id, i64),
    /// So much of the dot product at a place.
    Dot(usize, i64),
    /// The component at a place.
    Component(usize),
    /// The delta at a place.
    Delta(usize),
    /// The commuting function at a place.
    Function(usize),
    /// A stretch of the word: where it begins, and how many functions it has.
    Stretch(u32, u32),
}

impl Default for Use {
    fn default() -> Use {
        Use::Stretch(0, 0)
    }
}

/// What the factors of a pattern take, in their order: in a clause their list.
#[derive(Drop)]
pub struct Uses {
    uses: SmallVec<Use, 2>,
}

impl Model for Uses {
    ghost use Rattle.std.specs.Prelude.{List};
    ghost use Rattle.form_match.specs.declared.uses.Use.{Use};

    ghost Value = { List Use };

    ghost view = { λ u. u.uses.items };
}

impl Uses {
    pub fn new(alloc: Global) -> Uses
        ensures { result ≡ [] }
    {
        Uses {
            uses: SmallVec::new(alloc),
        }
    }

    pub fn push(&mut self, one: Use) -> Result<(), AllocError>
        ensures put { OnOk result (self.new ≡ self.old ++ one ∷ []) }
        ensures unchanged { OnErr result (self.new ≡ self.old) }
    {
        self.uses.push(one)?;
        Ok(())
    }

    pub fn as_slice(&self) -> &[Use]
        ensures { result.now ≡ self.now }
    {
        self.uses.as_slice()
    }
}
