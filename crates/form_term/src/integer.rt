ghost use Rattle.std.specs.Prelude.{◌≡◌};

use crate::Natural;
use std::cmp::Ordering;
use std::hash::{Hash, Hasher};
use std::marker::Model;

/// A whole number of 128 bits with a sign, kept as the digits of its bits: in a clause that number.
#[derive(Clone, Copy)]
pub struct Integer {
    bits: Natural,
}

impl Model for Integer {
    ghost use Rattle.std.specs.Prelude.{ℤ, ◌<◌, ◌^◌};
    ghost use Rattle.std.specs.Int.{w128, cast_signed, cast_unsigned};
    ghost use Rattle.std.proofs.lemmas.Int.{of_z-to_z};

    ghost Value = { ℤ };

    ghost view = { λ z. cast_signed w128 z.bits };

    ghost invariant = { λ z. z.bits < 2 ^ 128 };

    ghost inverse = { λ z. record { bits = cast_unsigned w128 z } };

    ghost inverse_ok = { λ z h i. record { bits = of_z-to_z w128 z.bits h i } };
}

impl Integer {
    pub const fn new(value: i128) -> Integer
        ensures { result ≡ value }
    {
        Integer {
            bits: Natural::new(value.cast_unsigned()),
        }
    }

    pub const fn get(self) -> i128
        ensures { result ≡ self }
    {
        self.bits.get().cast_signed()
    }
}

impl PartialEq for Integer {
    ghost use Rattle.std.specs.Ordering.{int_eq};
    ghost use Rattle.std.proofs.Common.{rules};
    ghost use Rattle.std.specs.Cmp.Rules.{comparing};

    ghost eq = { int_eq };

    ghost laws = { Prim.search (comparing, rules) };

    fn eq(&self, other: &Integer) -> bool {
        self.get() == other.get()
    }
}

impl Eq for Integer {
    ghost use Rattle.std.proofs.Common.{rules};
    ghost use Rattle.std.specs.Cmp.Rules.{comparing};

    ghost laws = { Prim.search (comparing, rules) };
}

impl PartialOrd for Integer {
    ghost use Rattle.std.specs.Prelude.{Some};
    ghost use Rattle.std.specs.Ordering.{int_cmp};
    ghost use Rattle.std.proofs.Common.{rules};
    ghost use Rattle.std.specs.Cmp.Rules.{comparing};

    ghost partial_cmp = { λ m n. Some (int_cmp m n) };

    ghost laws = { Prim.search (comparing, rules) };

    fn partial_cmp(&self, other: &Integer) -> Option<Ordering> {
        Some(self.cmp(other))
    }
}

impl Ord for Integer {
    ghost use Rattle.std.specs.Ordering.{int_cmp};
    ghost use Rattle.std.proofs.Common.{rules};

    ghost cmp = { int_cmp };

    ghost total = { Prim.search rules };

    ghost matches_partial_cmp = { Prim.search rules };

    ghost matches_eq = { Prim.search rules };

    fn cmp(&self, other: &Integer) -> Ordering {
        self.get().cmp(&other.get())
    }
}

impl Hash for Integer {
    ghost use Rattle.std.specs.Hash as fed;
    ghost use Rattle.std.proofs.lemmas.Bool.Decides.{Decides-int_eq};

    ghost hash_input = { fed.i128 };

    ghost respects_eq = { (fed.same_Alike fed.i128 Decides-int_eq).fed };

    fn hash<H: Hasher>(&self, state: &mut H) {
        state.write_i128(self.get());
    }
}
