//! The outputs of a term, no more than a limit.
ghost use Rattle.std.specs.Prelude.{◌≡◌, ◌-◌, IfOk};
ghost use Rattle.std.specs.Bool.{OnTrue};
ghost use Rattle.form_expand.specs.Listing.{before, limited};
ghost use Rattle.form_expand.specs.Next.{Gives as GivesNext};
ghost use Rattle.form_flow.specs.Left.{IsRefused, left, outputs_left};
ghost use Rattle.form_flow.specs.Outcome.{listing_of};
ghost use Rattle.form_flow.specs.Statements.{run};

use crate::compiled::{CompiledModule, ReadyBlock};
use crate::descent::Descent;
use form_base::Cause;
use form_expand::ExpandError;
use form_term::Monomial;
use std::alloc::{AllocError, Global};

/// What a term becomes, one by one: in a clause `outputs_left` says what is left.
pub struct Outputs<'m, 'a> {
    descent: Descent<'m, 'a>,
    /// How many there may be.
    limit: u64,
    /// How many there were.
    given: u64,
}

impl Drop for Outputs<'_, '_> {
    fn drop(self) {
        let Outputs {
            descent: _,
            limit: _,
            given: _,
        } = self;
    }
}

impl<'m, 'a> Outputs<'m, 'a> {
    pub(crate) fn new(
        alloc: Global,
        compiled: &'m CompiledModule<'a>,
        block: &'m ReadyBlock<'a>,
        item: Monomial,
    ) -> Outputs<'m, 'a>
        ensures { outputs_left result ≡ limited compiled.now.limits.terms (listing_of (run compiled.now.limits block.now item)) }
    {
        let descent = Descent::new(alloc, compiled, block, item);
        Outputs {
            descent,
            limit: compiled.limit(),
            given: 0,
        }
    }

    /// The next output. The first refusal ends them; once it or want of memory was answered it isn't asked again.
    pub fn next(&mut self, alloc: Global) -> Result<Option<Monomial>, ExpandError>
        ensures { GivesNext result (outputs_left self.old) (outputs_left self.new) }
    {
        match self.descent.next(alloc) {
            Ok(Some(item)) => self.give(item),
            Ok(None) => Ok(None),
            Err(error) => Err(error),
        }
    }

    /// Whether so many steps come to a refusal; those that are taken are counted down. Then no output is asked for any more.
    pub fn are_refused_ahead(&mut self, alloc: Global, steps: &mut u32) -> Result<bool, AllocError>
        ensures { IfOk result (λ refused. OnTrue refused (IsRefused (outputs_left self.old))) }
    {
        match self.descent.go_ahead(alloc, steps) {
            Ok(()) => Ok(false),
            Err(ExpandError::Refused(_)) => Ok(true),
            Err(ExpandError::Memory) => Err(AllocError),
        }
    }

    /// An output, where there may be one more.
    fn give(&mut self, item: Monomial) -> Result<Option<Monomial>, ExpandError>
        ensures { GivesNext result (limited (self.old.limit - self.old.given) (before item (listing_of (left self.old.descent)))) (outputs_left self.new) }
    {
        if self.given >= self.limit {
            return Err(ExpandError::Refused(Cause::ExpandLimit));
        }
        self.given += 1;
        Ok(Some(item))
    }
}
