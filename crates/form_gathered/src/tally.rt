ghost use Rattle.std.specs.Prelude.{◌≡◌, ◌+◌, max, if◌then◌else◌, IfSome};
ghost use Rattle.form_gathered.specs.Tally.{AreTallied, IsTakenIn};

use form_frac::{Frac, Weight};

/// What is known of the terms that a joined one stands for.
#[derive(Clone, Copy)]
pub struct Tally {
    pub sum: Frac,
    pub weight: Weight,
    pub count: u64,
}

impl Tally {
    /// Takes another one of the same term in. Answers false, and changes nothing, where they don't join.
    pub fn take_in(&mut self, other: Tally, is_further: bool) -> bool
        ensures { IsTakenIn is_further self.old other self.new result }
    {
        let Some(both) = self.with(other, is_further) else {
            return false;
        };
        *self = both;
        true
    }

    /// Both together; none where a sum, a weight or a count is out of range.
    fn with(self, other: Tally, is_further: bool) -> Option<Tally>
        ensures { IfSome result (AreTallied is_further self other) }
    {
        let Ok(sum) = self.sum.add(other.sum) else {
            return None;
        };
        let weight = self.weight.join(other.weight)?;
        let count = both_counts(self.count, other.count, is_further)?;
        Some(Tally { sum, weight, count })
    }
}

/// Of the same list, how many they are together; of further ones, how many of one list at most.
fn both_counts(first: u64, second: u64, is_further: bool) -> Option<u64>
    ensures { IfSome result (λ n. n ≡ (if is_further then max first second else first + second)) }
{
    if is_further {
        return Some(first.max(second));
    }
    first.checked_add(second)
}
