//! Sums whose lists are made anew each time that they are gone through.
ghost use Rattle.std.specs.Prelude.{◌≡◌, None, Ok, IfOk, IfSome, OnOk};
ghost use Rattle.form_expand.specs.Kept.{listing};
ghost use Rattle.form_expand.specs.Left.{times_by};
ghost use Rattle.form_expand.specs.Lists.{list_whole};
ghost use Rattle.form_expand.specs.Next.{Gives};
ghost use Rattle.form_expand.specs.Reading.{list_of_pieces};

use crate::ExpandError;
use crate::list::List;
use crate::scope::Scope;
use crate::stream::Stream;
use crate::times::times_owned;
use crate::walk::Walk;
use crate::whole::Whole;
use form_term::Monomial;
use form_tree::Piece;
use std::alloc::{AllocError, Global};
use std::marker::Model;

/// A sum as a list of a product, which is made anew each time.
#[cycle(list)]
#[derive(Drop)]
pub struct Again<'a> {
    stream: Stream<'a>,
}

impl<'a> Model for Again<'a> {
    ghost use Rattle.form_expand.specs.Inner.{Inner};

    ghost Value = { Inner };

    ghost use Rattle.form_expand.specs.Agains.{inner_of};

    ghost view = { inner_of };

    ghost size = { λ i. i.depth };

    ghost use Rattle.std.proofs.Common.{arith};
    ghost use Rattle.form_expand.specs.Falls.{no_deeper};

    ghost size_decreases = { λ a h. omega (arith, no_deeper a.stream.product) };
}

impl<'a> Again<'a> {
    pub fn new(alloc: Global, scope: Scope<'a>, pieces: &'a [Piece]) -> Again<'a>
        ensures whole { result.whole ≡ list_of_pieces scope.entry.limit scope.entry.names.now pieces.now }
        ensures left { result.left ≡ result.whole }
    {
        Again {
            stream: Stream::new(alloc, scope, pieces),
        }
    }

    /// Begins again.
    pub fn restart(&mut self, alloc: Global)
        ensures whole { self.new.whole ≡ self.old.whole }
        ensures left { self.new.left ≡ self.old.whole }
    {
        self.stream.restart(alloc);
    }

    /// A front of a product times the next term with which it isn't 0. `deeper` counts down with each list within another.
    #[cycle(taking)]
    pub fn next_times(
        &mut self,
        alloc: Global,
        left: &Option<Monomial>,
        deeper: u64,
    ) -> Result<Option<Monomial>, ExpandError>
        ensures next { Gives result (times_by left.now self.old.left) (times_by left.now self.new.left) }
        ensures whole { OnOk result (self.new.whole ≡ self.old.whole) }
    {
        let Some(deeper) = deeper.checked_sub(1) else {
            return Err(ExpandError::Memory);
        };
        'turns: loop {
            let Some(term) = self.stream.next(alloc, deeper)? else {
                return Ok(None);
            };
            if let Some(made) = times_owned(alloc, left, term)? {
                return Ok(Some(made));
            }
        }
    }

    /// The list, all of it and its end, where it has at most so many terms.
    #[cycle(taking)]
    fn whole_within(
        &mut self,
        alloc: Global,
        most: usize,
        deeper: u64,
    ) -> Result<Option<Whole<'static>>, AllocError>
        ensures list { IfOk result (λ found. IfSome found (λ whole. listing whole ≡ self.old.left)) }
        ensures whole { result ≡ Ok None → self.new.whole ≡ self.old.whole }
    {
        let mut terms = Vec::new(alloc);
        for _made in 0..=most {
            match self.next_times(alloc, &None, deeper) {
                Ok(Some(term)) => terms.push(term)?,
                Ok(None) => return Ok(Some(Whole::made(terms))),
                Err(ExpandError::Refused(cause)) => {
                    return Ok(Some(Whole::refused_behind(terms, cause)));
                }
                Err(ExpandError::Memory) => return Err(AllocError),
            }
        }
        Ok(None)
    }
}

/// The list of a sum that is gone through once.
pub fn list_once<'a>(
    alloc: Global,
    scope: Scope<'a>,
    pieces: &'a [Piece],
) -> Result<List<'a>, AllocError>
    ensures { IfOk result (λ list. list_whole scope.entry.limit list ≡ list_of_pieces scope.entry.limit scope.entry.names.now pieces.now) }
{
    let again = Again::new(alloc, scope, pieces);
    Ok(List::Again(Box::new(alloc, again)?))
}

/// The list of a sum that may be gone through again: made as a whole where it has at most so many terms.
#[cycle(taking)]
pub fn list_again<'a>(
    alloc: Global,
    scope: Scope<'a>,
    pieces: &'a [Piece],
    most: usize,
    deeper: u64,
) -> Result<List<'a>, AllocError>
    ensures { IfOk result (λ list. list_whole scope.entry.limit list ≡ list_of_pieces scope.entry.limit scope.entry.names.now pieces.now) }
{
    let mut again = Again::new(alloc, scope, pieces);
    if let Some(whole) = again.whole_within(alloc, most, deeper)? {
        return Ok(List::Whole(Walk::new(whole)));
    }
    Ok(List::Again(Box::new(alloc, again)?))
}
