//! What the statements of a module are carried out on, term by term.
ghost use Rattle.std.specs.Prelude.{◌<◌, ◌≤◌, length, IfOk};
ghost use Rattle.form_expand.specs.Next.{Gives as GivesNext};
ghost use Rattle.form_module.specs.Batches.{IsBatch};
ghost use Rattle.form_module.specs.Inputs.{inputs_left, terms_left};

use form_expand::{ExpandError, Expansion};
use form_term::Monomial;
use std::alloc::{AllocError, Global};

/// The terms that an expression stands for, and how many of them were taken.
#[derive(Drop)]
pub struct Kept<'a> {
    pub terms: &'a [Monomial],
    pub taken: usize,
}

/// The terms of a right side, made one by one, or those that an expression stands for: `inputs_left` says what is left of
/// them.
#[derive(Drop)]
pub enum Inputs<'a> {
    Tree(Expansion<'a>),
    Terms(Kept<'a>),
}

impl Inputs<'_> {
    /// The next term. The first refusal ends them; once it or want of memory was answered it isn't asked again.
    pub fn next(&mut self, alloc: Global) -> Result<Option<Monomial>, ExpandError>
        ensures { GivesNext result (inputs_left self.old) (inputs_left self.new) }
    {
        match self {
            Inputs::Tree(list) => list.next(alloc),
            Inputs::Terms(kept) => kept.next(),
        }
    }
}

impl Kept<'_> {
    /// A copy of the next term.
    fn next(&mut self) -> Result<Option<Monomial>, ExpandError>
        ensures { GivesNext result (terms_left self.old) (terms_left self.new) }
    {
        let Some(item) = self.terms.get(self.taken) else {
            return Ok(None);
        };
        let Ok(item) = item.clone() else {
            return Err(ExpandError::Memory);
        };
        self.taken += 1;
        Ok(Some(item))
    }
}

/// Inputs that were read at once.
#[derive(Drop)]
pub struct Batch {
    pub items: Vec<Monomial>,
    pub end: BatchEnd,
}

/// Why no more of them were read.
#[derive(Drop)]
pub enum BatchEnd {
    /// There may be more.
    More,
    Done,
    Failed(ExpandError),
}

/// The next inputs, so many at most.
pub fn next_batch(alloc: Global, inputs: &mut Inputs, most: usize) -> Result<Batch, AllocError>
    requires { 0 < most }
    ensures batch { IfOk result (λ batch. IsBatch batch (inputs_left inputs.old) (inputs_left inputs.new)) }
    ensures few { IfOk result (λ batch. length batch.items.items ≤ most) }
{
    let mut items = Vec::with_capacity(alloc, most)?;
    for _made in 0..most {
        match inputs.next(alloc) {
            Ok(Some(item)) => items.push(item)?,
            Ok(None) => {
                let end = BatchEnd::Done;
                return Ok(Batch { items, end });
            }
            Err(error) => {
                let end = BatchEnd::Failed(error);
                return Ok(Batch { items, end });
            }
        }
    }
    let end = BatchEnd::More;
    Ok(Batch { items, end })
}
