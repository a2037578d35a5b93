ghost use Rattle.std.specs.Prelude.{◌≡◌};

use crate::Spelled;
use std::marker::Model;

/// The names of a statement, in a clause their list.
#[derive(Drop)]
pub struct NameList {
    names: Vec<Spelled>,
}

impl Model for NameList {
    ghost use Rattle.std.specs.Prelude.{List};
    ghost use Rattle.form_ast.specs.declared.expr.Spelled.{Spelled};

    ghost Value = { List Spelled };

    ghost view = { λ l. l.names.items };
}

impl NameList {
    pub fn from_vec(names: Vec<Spelled>) -> NameList
        ensures { result ≡ names.items }
    {
        NameList { names }
    }

    pub fn as_slice(&self) -> &[Spelled]
        ensures { result.now ≡ self.now }
    {
        self.names.as_slice()
    }

    pub fn into_vec(self) -> Vec<Spelled>
        ensures { result.items ≡ self }
    {
        let NameList { names } = self;
        names
    }
}
