ghost use Rattle.std.specs.Prelude.{◌≡◌};

use crate::{Numbers, Spelled};
use std::marker::Model;

/// A function whose arguments a block takes: those of these numbers, all where none is written.
#[derive(Drop)]
pub struct Picked {
    pub function: Spelled,
    pub numbers: Numbers,
}

/// The functions of an `argument`, in a clause their list.
#[derive(Drop)]
pub struct PickedList {
    functions: Vec<Picked>,
}

impl Model for PickedList {
    ghost use Rattle.std.specs.Prelude.{List};
    ghost use Rattle.form_ast.specs.declared.picked.Picked.{Picked};

    ghost Value = { List Picked };

    ghost view = { λ l. l.functions.items };
}

impl PickedList {
    pub fn from_vec(functions: Vec<Picked>) -> PickedList
        ensures { result ≡ functions.items }
    {
        PickedList { functions }
    }

    pub fn as_slice(&self) -> &[Picked]
        ensures { result.now ≡ self.now }
    {
        self.functions.as_slice()
    }
}
