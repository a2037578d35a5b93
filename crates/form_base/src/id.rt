ghost use Rattle.std.specs.Prelude.{◌≡◌};

use std::marker::Model;

/// A declared name, as its position in the order of declaration over all kinds, from 0: in a clause that number.
#[derive(Clone, Copy, PartialEq, Eq, PartialOrd, Ord, Hash)]
pub struct Id {
    position: u32,
}

impl Model for Id {
    ghost use Rattle.std.specs.Prelude.{ℕ};

    ghost Value = { ℕ };

    ghost view = { λ id. id.position };

    ghost inverse = { λ position. record { position = position } };
}

impl Id {
    pub const fn new(position: u32) -> Id
        ensures { result ≡ position }
    {
        Id { position }
    }

    pub const fn position(self) -> u32
        ensures { result ≡ self }
    {
        self.position
    }
}
