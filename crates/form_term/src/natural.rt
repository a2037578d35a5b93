ghost use Rattle.std.specs.Prelude.{◌≡◌, ◌==◌};

use std::cmp::Ordering;
use std::hash::{Hash, Hasher};
use std::marker::Model;

/// A whole number below 2^128, kept as its digits of 32 bits, the lowest first, so that what holds it needs no place of
/// a multiple of 16 bytes: in a clause that number.
#[derive(Clone, Copy)]
pub struct Natural {
    first: u32,
    second: u32,
    third: u32,
    fourth: u32,
}

impl Model for Natural {
    ghost use Rattle.std.specs.Prelude.{ℕ, ◌+◌, ◌*◌, ◌/◌, ◌%◌, ◌<◌, ◌^◌};
    ghost use Rattle.form_term.specs.Digits.{of_digits, digits_again};

    ghost Value = { ℕ };

    ghost view = { λ n. of_digits n.first n.second n.third n.fourth };

    ghost invariant = { λ n. (n.first < 2 ^ 32) × (n.second < 2 ^ 32) × (n.third < 2 ^ 32) };

    ghost inverse = { λ n. record {
      first = n % 2 ^ 32;
      second = n / 2 ^ 32 % 2 ^ 32;
      third = n / 2 ^ 64 % 2 ^ 32;
      fourth = n / 2 ^ 96;
    } };

    ghost inverse_ok = { λ n h i. let same = digits_again n.first n.second n.third n.fourth h.0 h.1 h.2 in record {
      first = same.0 i;
      second = same.1 i;
      third = same.2 i;
      fourth = same.3 i;
    } };
}

impl Natural {
    pub const fn new(value: u128) -> Natural
        ensures { result ≡ value }
    {
        Natural {
            first: (value % 0x1_0000_0000) as u32,
            second: ((value >> 32) % 0x1_0000_0000) as u32,
            third: ((value >> 64) % 0x1_0000_0000) as u32,
            fourth: (value >> 96) as u32,
        }
    }

    pub const fn get(self) -> u128
        ensures { result ≡ self }
    {
        self.first as u128
            + self.second as u128 * 0x1_0000_0000
            + self.third as u128 * 0x1_0000_0000_0000_0000
            + self.fourth as u128 * 0x1_0000_0000_0000_0000_0000_0000
    }
}

impl PartialEq for Natural {
    ghost use Rattle.std.proofs.Common.{rules};
    ghost use Rattle.std.specs.Cmp.Rules.{comparing};

    ghost eq = { λ m n. m == n };

    ghost laws = { Prim.search (comparing, rules) };

    fn eq(&self, other: &Natural) -> bool {
        self.get() == other.get()
    }
}

impl Eq for Natural {
    ghost use Rattle.std.proofs.Common.{rules};
    ghost use Rattle.std.specs.Cmp.Rules.{comparing};

    ghost laws = { Prim.search (comparing, rules) };
}

impl PartialOrd for Natural {
    ghost use Rattle.std.specs.Prelude.{Some};
    ghost use Rattle.std.specs.Ordering.{nat_cmp};
    ghost use Rattle.std.proofs.Common.{rules};
    ghost use Rattle.std.specs.Cmp.Rules.{comparing};

    ghost partial_cmp = { λ m n. Some (nat_cmp m n) };

    ghost laws = { Prim.search (comparing, rules) };

    fn partial_cmp(&self, other: &Natural) -> Option<Ordering> {
        Some(self.cmp(other))
    }
}

impl Ord for Natural {
    ghost use Rattle.std.specs.Ordering.{nat_cmp};
    ghost use Rattle.std.proofs.Common.{rules};

    ghost cmp = { nat_cmp };

    ghost total = { Prim.search rules };

    ghost matches_partial_cmp = { Prim.search rules };

    ghost matches_eq = { Prim.search rules };

    fn cmp(&self, other: &Natural) -> Ordering {
        self.get().cmp(&other.get())
    }
}

impl Hash for Natural {
    ghost use Rattle.std.specs.Hash as fed;
    ghost use Rattle.std.proofs.lemmas.Bool.Decides.{Decides-eqb};

    ghost hash_input = { fed.u128 };

    ghost respects_eq = { (fed.same_Alike fed.u128 Decides-eqb).fed };

    fn hash<H: Hasher>(&self, state: &mut H) {
        state.write_u128(self.get());
    }
}
