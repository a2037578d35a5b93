ghost use Rattle.std.specs.Prelude.{◌≡◌, ◌<◌, length, None, Ok, IfOk, IfSome, OnOk};
ghost use Rattle.form_tree.specs.Tree.{Sum, pieces_of_sum};
ghost use Rattle.form_expand.specs.Expanding.{list_of_sum};
ghost use Rattle.form_expand.specs.Listing.{nothing, with_sign};
ghost use Rattle.form_expand.specs.Next.{Gives};
ghost use Rattle.form_expand.specs.Products.{product_left};
ghost use Rattle.form_expand.specs.Reading.{list_of_pieces};
ghost use Rattle.form_expand.specs.Streams.{stream_left, stream_before, stream_whole};

use crate::ExpandError;
use crate::literal::{DEEPEST, read_literal};
use crate::product::Product;
use crate::reader::{Summand, read_product};
use crate::scope::Scope;
use form_base::Cause;
use form_term::Monomial;
use form_tree::Piece;
use std::alloc::{AllocError, Global};

/// A sum whose products are read and gone through one after the other.
#[cycle(list)]
#[derive(Drop)]
pub struct Stream<'a> {
    pub scope: Scope<'a>,
    pub pieces: &'a [Piece],
    /// How many terms were given.
    pub given: u64,
    /// The product at hand, with its sign.
    pub is_minus: bool,
    pub product: Product<'a>,
    /// The pieces that aren't read yet.
    pub rest: &'a [Piece],
}

impl<'a> Stream<'a> {
    pub fn new(alloc: Global, scope: Scope<'a>, pieces: &'a [Piece]) -> Stream<'a>
        ensures tree { (s : Sum) → pieces.now ≡ pieces_of_sum s → stream_left result ≡ list_of_sum scope.entry.limit scope.entry.names.now s }
        ensures pieces { stream_left result ≡ list_of_pieces scope.entry.limit scope.entry.names.now pieces.now }
        ensures whole { stream_whole result ≡ list_of_pieces scope.entry.limit scope.entry.names.now pieces.now }
    {
        Stream {
            scope,
            pieces,
            given: 0,
            is_minus: false,
            product: Product::none(alloc),
            rest: pieces,
        }
    }

    /// Begins again.
    pub fn restart(&mut self, alloc: Global)
        ensures whole { stream_whole self.new ≡ stream_whole self.old }
        ensures left { stream_left self.new ≡ stream_whole self.old }
    {
        self.given = 0;
        self.product = Product::none(alloc);
        self.rest = self.pieces;
    }

    /// The next term. `deeper` counts down with each list within another.
    #[cycle(taking)]
    pub fn next(&mut self, alloc: Global, deeper: u64) -> Result<Option<Monomial>, ExpandError>
        ensures next { Gives result (stream_left self.old) (stream_left self.new) }
        ensures whole { OnOk result (stream_whole self.new ≡ stream_whole self.old) }
    {
        'turns: loop {
            if let Some(term) = self.product.next(alloc, self.scope.limit, deeper)? {
                return self.give(term);
            }
            if self.rest.is_empty() {
                return Ok(None);
            }
            if let Some(term) = self.read_term(alloc)? {
                return self.give(term);
            }
            if let Some(term) = self.read(alloc, deeper)? {
                return self.give(term);
            }
        }
    }

    /// Gives a term of the product at hand.
    fn give(&mut self, term: Monomial) -> Result<Option<Monomial>, ExpandError>
        ensures next { Gives result (stream_before term self.old) (stream_left self.new) }
        ensures whole { stream_whole self.new ≡ stream_whole self.old }
    {
        if self.given >= self.scope.limit {
            return Err(ExpandError::Refused(Cause::ExpandLimit));
        }
        self.given += 1;
        Ok(Some(signed(self.is_minus, term)))
    }

    /// Reads the next product, where the one at hand is done and the next is one term: that.
    fn read_term(&mut self, alloc: Global) -> Result<Option<Monomial>, AllocError>
        requires done { product_left self.old.scope.limit self.old.product ≡ nothing }
        ensures found { IfOk result (λ found. IfSome found (λ term. stream_before term self.new ≡ stream_left self.old)) }
        ensures none { result ≡ Ok None → self.new ≡ self.old }
        ensures whole { stream_whole self.new ≡ stream_whole self.old }
    {
        let read = read_literal(
            alloc,
            self.rest,
            self.scope.names,
            self.scope.limit,
            DEEPEST,
        )?;
        let Some((literal, rest)) = read else {
            return Ok(None);
        };
        self.is_minus = literal.is_minus;
        self.rest = rest;
        Ok(Some(literal.term))
    }

    /// Reads the next product, where the one at hand is done. Where it is one term that is answered, and nothing is left of it.
    #[cycle(taking)]
    fn read(&mut self, alloc: Global, deeper: u64) -> Result<Option<Monomial>, AllocError>
        requires done { product_left self.old.scope.limit self.old.product ≡ nothing }
        requires some { 0 < length self.old.rest.now }
        ensures term { IfOk result (λ found. IfSome found (λ term. stream_before term self.new ≡ stream_left self.old)) }
        ensures list { result ≡ Ok None → stream_left self.new ≡ stream_left self.old }
        ensures shorter { result ≡ Ok None → length self.new.rest.now < length self.old.rest.now }
        ensures whole { stream_whole self.new ≡ stream_whole self.old }
    {
        let (summand, rest) = read_product(alloc, self.scope, self.rest, deeper)?;
        let Summand {
            is_minus,
            mut factors,
        } = summand;
        self.is_minus = is_minus;
        self.rest = rest;
        if factors.lists.is_empty() {
            return Ok(factors.front.take());
        }
        self.product = Product::new(alloc, self.scope.limit, factors)?;
        Ok(None)
    }
}

/// A term behind a sign.
fn signed(is_minus: bool, term: Monomial) -> Monomial
    ensures { result ≡ with_sign is_minus term }
{
    if is_minus { term.negated() } else { term }
}
