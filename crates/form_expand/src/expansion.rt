ghost use Rattle.std.specs.Prelude.{◌≡◌, IfOk};
ghost use Rattle.form_tree.specs.Tree.{Sum, pieces_of_sum};
ghost use Rattle.form_expand.specs.Expanding.{list_of_sum};
ghost use Rattle.form_expand.specs.Kept.{listing};
ghost use Rattle.form_expand.specs.Next.{Gives};
ghost use Rattle.form_expand.specs.Reading.{list_of_pieces};

use crate::ExpandError;
use crate::literal_sum::literal_list;
use crate::scope::Scope;
use crate::stored::Standing;
use crate::stream::Stream;
use crate::whole::Whole;
use form_term::Monomial;
use form_tree::Piece;
use std::alloc::{AllocError, Global};
use std::marker::Model;

/// The list of a right side, whose terms are made one by one as they are asked for: in a clause what is left of it.
pub struct Expansion<'a> {
    stream: Stream<'a>,
}

impl Drop for Expansion<'_> {
    fn drop(self) {
        let Expansion { stream: _ } = self;
    }
}

impl<'a> Model for Expansion<'a> {
    ghost use Rattle.form_expand.specs.Listing.{Listing};

    ghost Value = { Listing };

    ghost use Rattle.form_expand.specs.Streams.{stream_left};

    ghost view = { λ e. stream_left e.stream };
}

impl Expansion<'_> {
    /// The next term. The first refusal ends the list; once it or want of memory was answered it isn't asked again.
    pub fn next(&mut self, alloc: Global) -> Result<Option<Monomial>, ExpandError>
        ensures { Gives result self.old self.new }
    {
        self.stream.next(alloc, u64::MAX)
    }
}

/// The list of a right side, with at most `limit` terms in it and in each list within it. `stored` has the expressions
/// that it may name. Nothing is made before it is asked for.
pub fn expand_tree<'a>(
    alloc: Global,
    tree: &'a [Piece],
    limit: u64,
    stored: &'a Standing,
) -> Expansion<'a>
    ensures { (s : Sum) → tree.now ≡ pieces_of_sum s → result ≡ list_of_sum limit stored.now s }
{
    Expansion {
        stream: Stream::new(alloc, Scope::new(limit, stored), tree),
    }
}

/// The list of a right side, all of it and its end, as `expand_tree` gives it one by one.
pub fn whole_list<'a>(
    alloc: Global,
    tree: &'a [Piece],
    limit: u64,
    names: &'a Standing,
) -> Result<Whole<'static>, AllocError>
    ensures { (s : Sum) → tree.now ≡ pieces_of_sum s → IfOk result (λ whole. listing whole ≡ list_of_sum limit names.now s) }
{
    list_of(alloc, tree, limit, names)
}

/// The list of these pieces, all of it and its end.
pub fn list_of<'a>(
    alloc: Global,
    pieces: &'a [Piece],
    limit: u64,
    names: &'a Standing,
) -> Result<Whole<'static>, AllocError>
    ensures { IfOk result (λ whole. listing whole ≡ list_of_pieces limit names.now pieces.now) }
{
    if let Some(whole) = literal_list(alloc, names, pieces, limit)? {
        return Ok(whole);
    }
    let stream = Stream::new(alloc, Scope::new(limit, names), pieces);
    drained(alloc, &mut Expansion { stream })
}

/// All that is left of a list.
fn drained(alloc: Global, list: &mut Expansion) -> Result<Whole<'static>, AllocError>
    ensures { IfOk result (λ whole. listing whole ≡ list.old) }
{
    let mut terms = Vec::new(alloc);
    'turns: loop {
        match list.next(alloc) {
            Ok(Some(term)) => terms.push(term)?,
            Ok(None) => return Ok(Whole::made(terms)),
            Err(ExpandError::Refused(cause)) => return Ok(Whole::refused_behind(terms, cause)),
            Err(ExpandError::Memory) => return Err(AllocError),
        }
    }
}
