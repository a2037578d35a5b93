ghost use Rattle.std.specs.Prelude.{◌≡◌};

use crate::stored::Standing;

/// What a sum is read by.
#[derive(Clone, Copy)]
pub struct Scope<'a> {
    /// How many terms each list may have.
    pub limit: u64,
    pub names: &'a Standing,
    /// How many terms a list may have that is made as a whole, so that it may be gone through again.
    pub room: usize,
}

impl<'a> Scope<'a> {
    pub fn new(limit: u64, names: &'a Standing) -> Scope<'a>
        ensures limit { result.limit ≡ limit }
        ensures names { result.names.now ≡ names.now }
    {
        Scope {
            limit,
            names,
            room: 4096,
        }
    }

    /// For a sum within another. Where it isn't there as a whole it is begun twice, so there is less room for each within it.
    pub fn within(self) -> Scope<'a>
        ensures limit { result.limit ≡ self.entry.limit }
        ensures names { result.names.now ≡ self.entry.names.now }
    {
        Scope {
            limit: self.limit,
            names: self.names,
            room: self.room / 4,
        }
    }
}
