ghost use Rattle.std.specs.Prelude.{◌≡◌};

use crate::Spelled;
use form_number::Number;
use std::marker::Model;

/// A written dimension.
#[derive(Drop)]
pub enum Dimension {
    Number(Number),
    Name(Spelled),
}

/// An index that is declared, and its dimension where one is written.
#[derive(Drop)]
pub struct SpelledIndex {
    pub name: Spelled,
    pub dimension: Option<Dimension>,
}

/// The indices that a statement declares, in a clause their list.
#[derive(Drop)]
pub struct IndexList {
    indices: Vec<SpelledIndex>,
}

impl Model for IndexList {
    ghost use Rattle.std.specs.Prelude.{List};
    ghost use Rattle.form_ast.specs.declared.index_list.SpelledIndex.{SpelledIndex};

    ghost Value = { List SpelledIndex };

    ghost view = { λ l. l.indices.items };
}

impl IndexList {
    pub fn from_vec(indices: Vec<SpelledIndex>) -> IndexList
        ensures { result ≡ indices.items }
    {
        IndexList { indices }
    }

    pub fn as_slice(&self) -> &[SpelledIndex]
        ensures { result.now ≡ self.now }
    {
        self.indices.as_slice()
    }
}
