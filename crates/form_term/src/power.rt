ghost use Rattle.std.specs.Prelude.{◌≡◌};

use form_base::Id;
use std::hash::{Hash, Hasher};

/// A symbol with its exponent.
#[derive(Clone, Copy, PartialEq, Eq, PartialOrd, Ord)]
pub struct Power {
    pub symbol: Id,
    pub exponent: i32,
}

impl Power {
    ghost use Rattle.form_term.specs.FedPieces.{packed};

    /// Its symbol and its exponent as one number.
    fn packed(self) -> u64
        ensures { result ≡ packed self }
    {
        u64::from(self.symbol.position()) * 4_294_967_296 + u64::from(self.exponent.cast_unsigned())
    }
}

impl Hash for Power {
    ghost use Rattle.form_term.specs.FedPieces.{fed_power};
    ghost use Rattle.form_term.specs.TermLaws.{powers_alike};

    ghost hash_input = { fed_power };

    ghost respects_eq = { powers_alike fed_power };

    fn hash<H: Hasher>(&self, state: &mut H) {
        state.write_u64(self.packed());
    }
}

/// A dot product of two vectors, the one declared first at the left, with its exponent.
#[derive(Clone, Copy, PartialEq, Eq, PartialOrd, Ord, Hash)]
pub struct DotPower {
    pub left: Id,
    pub right: Id,
    pub exponent: i32,
}
