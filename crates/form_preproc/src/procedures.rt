//! Stored procedures.

ghost use Rattle.std.specs.Prelude.{◌≡◌, is_some, false, None, Some, OnOk, MatchOption};
ghost use Rattle.form_preproc.specs.Expansion as expansion;

use crate::source::Source;
use crate::variables::name_text;
use form_calc::{Row, Text};
use std::alloc::{AllocError, Global};
use std::collections::HashMap;
use std::rc::Rc;

/// A procedure that is stored.
#[derive(Drop)]
pub struct Procedure {
    pub parameters: Row<Text>,
    pub source: Rc<Source>,
    /// The place of its body's first line.
    pub place: usize,
}

/// The procedures by their names.
#[derive(Drop)]
pub struct Procedures {
    map: HashMap<String, Procedure>,
}

impl Procedures {
    ghost use Rattle.form_preproc.specs.Procedures.{procedures_in, stored_of};

    pub fn new(alloc: Global) -> Procedures
        ensures { procedures_in result ≡ λ name. None }
    {
        Procedures {
            map: HashMap::new(alloc),
        }
    }

    /// The procedure of a name; what is no name has none.
    pub fn get(&self, name: &[u8]) -> Option<&Procedure>
        ensures { MatchOption result (expansion.procedure_of (procedures_in self.now) name.now ≡ None)
            (λ p. expansion.procedure_of (procedures_in self.now) name.now ≡ Some (stored_of p.now)) }
    {
        let name = name_text(name)?;
        self.map.get(name)
    }

    /// Whether a procedure of this name is stored.
    pub fn contains(&self, name: &[u8]) -> bool
        ensures stored { result ≡ is_some (expansion.procedure_of (procedures_in self.now) name.now) }
        ensures none { result ≡ false → expansion.procedure_of (procedures_in self.now) name.now ≡ None }
    {
        match self.get(name) {
            Some(_) => true,
            None => false,
        }
    }

    /// Stores a procedure in the place of an older one.
    pub fn insert(
        &mut self,
        alloc: Global,
        name: &[u8],
        procedure: Procedure,
    ) -> Result<(), AllocError>
        ensures stored { OnOk result (procedures_in self.new ≡ expansion.with_procedure (procedures_in self.old) name.now (stored_of procedure)) }
    {
        let Some(name) = name_text(name) else {
            return Ok(());
        };
        let key = String::from_str(alloc, name)?;
        self.map.insert(key, procedure)?;
        Ok(())
    }
}
