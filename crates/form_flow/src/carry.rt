//! Terms carried out to whatever takes what they become.
ghost use Rattle.std.specs.Prelude.{◌≡◌, ◌++◌, ◌∷◌, [], List, Bool, false, OnErr, OnOk};
ghost use Rattle.form_term.specs.declared.monomial.Monomial.{Monomial as Output};
ghost use Rattle.form_flow.specs.Answers.{Carries, is_stop, is_stopped};
ghost use Rattle.form_flow.specs.Left.{outputs_left};
ghost use Rattle.form_flow.specs.Statements.{outputs as outputs_of};

use crate::compiled::CompiledModule;
use crate::outputs::Outputs;
use form_base::Cause;
use form_expand::ExpandError;
use form_frac::Frac;
use form_term::{Monomial, Term};
use std::alloc::{AllocError, Global};

/// What one who takes outputs answers.
#[derive(Clone, Copy, PartialEq, Eq)]
pub enum Go {
    Continues,
    /// It wants no more.
    Stops,
}

/// Takes outputs, one by one.
pub trait Emit {
    /// Those that it took, in order.
    ghost emitted: { Self → List Output };

    /// Whether an `emit` has answered that it wants no more. What one behind that makes of it isn't told.
    ghost has_stopped: { Self → Bool };

    fn emit(&mut self, alloc: Global, item: Monomial) -> Result<Go, AllocError>
        ensures taken { OnOk result (emitted self.new ≡ emitted self.old ++ item ∷ []) }
        ensures unchanged { OnErr result (emitted self.new ≡ emitted self.old) }
        ensures stops { has_stopped self.old ≡ false → has_stopped self.new ≡ is_stop result };
}

/// How carrying a term out ended.
#[derive(Drop)]
pub enum End {
    Done,
    Refused(Cause),
    Stopped,
    Memory,
}

impl<'a> CompiledModule<'a> {
    /// Gives what a term becomes to `out`, one by one.
    pub fn carry<E: Emit>(&self, alloc: Global, value: Frac, term: &Term, out: &mut E) -> End
        ensures carried { Carries (E.emitted out.old) (outputs_of self.now (record { coefficient = value; term = term.now })) (E.emitted out.new) result }
        ensures stopped { E.has_stopped out.old ≡ false → E.has_stopped out.new ≡ is_stopped result }
    {
        let Ok(term) = term.clone() else {
            return End::Memory;
        };
        let item = Monomial {
            coefficient: value,
            term,
        };
        emit_all(alloc, &mut self.outputs(alloc, item), out)
    }
}

/// Gives all outputs that are left.
fn emit_all<E: Emit>(alloc: Global, outputs: &mut Outputs, out: &mut E) -> End
    ensures carried { Carries (E.emitted out.old) (outputs_left outputs.old) (E.emitted out.new) result }
    ensures stopped { E.has_stopped out.old ≡ false → E.has_stopped out.new ≡ is_stopped result }
{
    loop {
        let item = match outputs.next(alloc) {
            Ok(Some(item)) => item,
            Ok(None) => return End::Done,
            Err(ExpandError::Refused(cause)) => return End::Refused(cause),
            Err(ExpandError::Memory) => return End::Memory,
        };
        match out.emit(alloc, item) {
            Ok(Go::Continues) => {}
            Ok(Go::Stops) => return End::Stopped,
            Err(AllocError) => return End::Memory,
        }
    }
}
