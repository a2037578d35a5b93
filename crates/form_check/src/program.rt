ghost use Rattle.std.specs.Prelude.{◌≡◌};

use crate::Module;
use form_names::Names;
use sqlite_items::Items;

/// A checked program: its names, in the order of declaration, and its modules over their Ids, in the order of the text.
pub struct Program {
    pub names: Names,
    pub modules: Items<Module>,
}

impl Drop for Program {
    fn drop(self) {
        let Program {
            names: _,
            modules: _,
        } = self;
    }
}

impl Program {
    pub fn new(names: Names, modules: Vec<Module>) -> Program
        ensures { result ≡ record { names = names; modules = modules.items } }
    {
        Program {
            names,
            modules: Items::from_vec(modules),
        }
    }

    pub fn names(&self) -> &Names
        ensures { result.now ≡ self.now.names }
    {
        &self.names
    }

    pub fn modules(&self) -> &[Module]
        ensures { result.now ≡ self.now.modules }
    {
        self.modules.as_slice()
    }
}
