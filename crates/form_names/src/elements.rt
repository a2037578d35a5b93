ghost use Rattle.std.specs.Prelude.{◌≡◌, IfOk};
ghost use Rattle.form_names.specs.Elements.{is_same_elements};

use form_base::Id;
use std::alloc::{AllocError, Global};
use std::marker::Model;
use std::sync::Arc;

/// Names as elements of a set, in a clause the list of their Ids. Copies take no memory.
#[derive(Drop)]
pub struct Ids {
    ids: Arc<Vec<Id>>,
}

impl Model for Ids {
    ghost use Rattle.std.specs.Prelude.{List, ℕ};
    ghost use Rattle.std.specs.Arc.{arc_value};

    ghost Value = { List ℕ };

    ghost view = { λ l. (arc_value l.ids).items };
}

impl Ids {
    pub fn from_vec(ids: Vec<Id>) -> Result<Ids, AllocError>
        ensures { IfOk result (λ l. l ≡ ids.items) }
    {
        let alloc = *ids.allocator();
        Ok(Ids {
            ids: Arc::new(alloc, ids)?,
        })
    }

    pub fn as_slice(&self) -> &[Id]
        ensures { result.now ≡ self.now }
    {
        self.ids.as_slice()
    }
}

impl Clone for Ids {
    ghost use Rattle.std.specs.Prelude.{◌≡◌};

    ghost is_clone = { λ a b. b ≡ a };

    fn clone(&self) -> Result<Ids, AllocError> {
        Ok(Ids {
            ids: self.ids.clone()?,
        })
    }
}

/// Whole numbers as elements of a set, in a clause their list. Copies take no memory.
#[derive(Drop)]
pub struct Numbers {
    numbers: Arc<Vec<i128>>,
}

impl Model for Numbers {
    ghost use Rattle.std.specs.Prelude.{List, ℤ};
    ghost use Rattle.std.specs.Arc.{arc_value};

    ghost Value = { List ℤ };

    ghost view = { λ l. (arc_value l.numbers).items };
}

impl Numbers {
    pub fn from_vec(numbers: Vec<i128>) -> Result<Numbers, AllocError>
        ensures { IfOk result (λ l. l ≡ numbers.items) }
    {
        let alloc = *numbers.allocator();
        Ok(Numbers {
            numbers: Arc::new(alloc, numbers)?,
        })
    }

    pub fn as_slice(&self) -> &[i128]
        ensures { result.now ≡ self.now }
    {
        self.numbers.as_slice()
    }
}

impl Clone for Numbers {
    ghost use Rattle.std.specs.Prelude.{◌≡◌};

    ghost is_clone = { λ a b. b ≡ a };

    fn clone(&self) -> Result<Numbers, AllocError> {
        Ok(Numbers {
            numbers: self.numbers.clone()?,
        })
    }
}

/// The elements of a set: names of one kind, or whole numbers.
#[derive(Drop)]
pub enum Elements {
    Names(Ids),
    Numbers(Numbers),
}

impl Elements {
    /// Whether they are the same, in the same order.
    pub fn is_same(&self, other: &Elements) -> bool
        ensures { result ≡ is_same_elements self.now other.now }
    {
        match (self, other) {
            (Elements::Names(these), Elements::Names(those)) => these.as_slice()
                == those.as_slice(),
            (Elements::Numbers(these), Elements::Numbers(those)) => {
                these.as_slice() == those.as_slice()
            }
            (Elements::Names(_), Elements::Numbers(_)) => false,
            (Elements::Numbers(_), Elements::Names(_)) => false,
        }
    }
}

impl Clone for Elements {
    ghost use Rattle.std.specs.Prelude.{◌≡◌};

    ghost is_clone = { λ a b. b ≡ a };

    fn clone(&self) -> Result<Elements, AllocError> {
        match self {
            Elements::Names(ids) => Ok(Elements::Names(ids.clone()?)),
            Elements::Numbers(numbers) => Ok(Elements::Numbers(numbers.clone()?)),
        }
    }
}
