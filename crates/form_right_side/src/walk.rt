//! Going through the pieces of a right side from the front.
ghost use Rattle.std.specs.Prelude.{◌≡◌, ◌+◌, ◌<◌, ◌≤◌, ◌^◌, ◌++◌, ◌∷◌, [], OnOk, OnErr, Ok};
ghost use Rattle.std.specs.Mem.{FitsInMemory};
ghost use Rattle.form_right_side.specs.Marks.{stands_in};
ghost use Rattle.form_right_side.specs.Refusal.{Gives};
ghost use Rattle.form_right_side.specs.RightSide.{lone as lone_of};
ghost use Rattle.form_right_side.specs.Walking as walking;
ghost use Rattle.form_right_side.specs.Walking.{at, walk_of, adds, AreKept};

use crate::CheckError;
use crate::ahead::{begin_alone, ends_call, field_of, is_single, lone_argument, misplaced_in};
use crate::kinds::{head, vector, wrong_name};
use crate::known::Known;
use crate::powers::{is_over, link_of};
use crate::raised::{end_of_function, end_of_parenthesis, exponent_of, raised, symbol_named};
use crate::resolved::{End, Head};
use crate::standing::Standing;
use form_ast::{Link, Named, Sign};
use form_base::Id;
use form_names::Names;
use form_tree::{Base, Piece};
use std::alloc::{AllocError, Global};

/// Where a walk stands.
#[derive(Clone, Copy)]
pub enum Place {
    /// In a sum.
    Sum,
    /// Where an argument of a function may begin.
    Argument,
    /// Behind an argument that is an index or a vector alone.
    Behind,
    /// In a dot product, behind its first vector.
    Dot(Link, Id),
    /// In a `d_`, before its first argument.
    Delta(Link),
    /// Behind that.
    SecondEntry(Link, End),
    /// Behind its second argument.
    EndOfDelta(Link, End, End),
    /// In the parentheses of a vector, in which one name or one number stands alone.
    Vector(Link, Id),
    /// Behind that.
    Component(Link, Id, End),
}

/// What was made of the pieces before.
#[derive(Drop)]
pub struct Walk {
    pub pieces: Vec<Piece>,
    pub place: Place,
    /// In the arguments of how many functions it stands.
    pub calls: usize,
}

/// Puts an item last. It is of any type, since for the type of pieces alone the checker gives up.
pub fn put<T: Copy>(items: &mut Vec<T>, item: T) -> Result<(), AllocError>
    requires memory { FitsInMemory T.row }
    ensures last { OnOk result (items.new.items ≡ items.old.items ++ item ∷ []) }
    ensures unchanged { OnErr result (items.new.items ≡ items.old.items) }
{
    items.push(item)?;
    Ok(())
}

impl Walk {
    pub fn new(pieces: Vec<Piece>) -> Walk
        ensures { walk_of result ≡ at pieces.items Place.Sum 0 }
    {
        Walk {
            pieces,
            place: Place::Sum,
            calls: 0,
        }
    }

    /// The same in an argument, where no expression is named.
    pub fn inside(pieces: Vec<Piece>) -> Walk
        ensures { walk_of result ≡ at pieces.items Place.Sum 1 }
    {
        Walk {
            pieces,
            place: Place::Sum,
            calls: 1,
        }
    }

    pub fn into_pieces(self) -> Vec<Piece>
        ensures { result.items ≡ (walk_of self).pieces }
    {
        let Walk { pieces, .. } = self;
        pieces
    }

    /// Adds the last piece of a factor.
    #[inline(never)]
    pub fn add(&mut self, piece: Piece) -> Result<(), AllocError>
        ensures made { OnOk result (walk_of self.new ≡ at (self.old.pieces.items ++ piece ∷ []) Place.Sum self.old.calls) }
        ensures calls { OnOk result (self.new.calls ≡ self.old.calls) }
        ensures unchanged { OnErr result (walk_of self.new ≡ walk_of self.old) }
    {
        put(&mut self.pieces, piece)?;
        self.place = Place::Sum;
        Ok(())
    }

    /// A base that is one piece, to a power that is a name.
    pub fn raise(
        &mut self,
        alloc: Global,
        names: &Names,
        link: Link,
        base: Base,
        sign: Option<Sign>,
        by: &Named,
    ) -> Result<(), CheckError>
        ensures gives { Gives (λ _. walk_of self.new) result (adds (walk_of self.old) link (walking.raised names.now (walking.is_over link) (sign, by.now) (Ok (walking.base_of base)))) }
        ensures calls { OnOk result (self.new.calls ≡ self.old.calls) }
        ensures unchanged { OnErr result (walk_of self.new ≡ walk_of self.old) }
    {
        let symbol = symbol_named(alloc, names, by)?;
        let exponent = exponent_of(is_over(link), sign, symbol);
        self.add(raised(link_of(link), base, exponent))?;
        Ok(())
    }

    /// A name before parentheses.
    fn call(
        &mut self,
        alloc: Global,
        names: &Names,
        link: Link,
        named: &Named,
        rest: &[form_ast::Piece],
    ) -> Result<(), CheckError>
        requires { self.old.calls + 1 < 2 ^ 64 }
        ensures gives { Gives (λ _. walk_of self.new) result (walking.called names.now (walk_of self.old) link named.now rest.now) }
        ensures calls { OnOk result (self.new.calls ≤ self.old.calls + 1) }
        ensures unchanged { OnErr result (walk_of self.new ≡ walk_of self.old) }
    {
        match head(alloc, names, named)? {
            Head::Function(function, is_commuting) => {
                put(
                    &mut self.pieces,
                    Piece::Function {
                        link: link_of(link),
                        function,
                        is_commuting,
                    },
                )?;
                self.place = Place::Argument;
                self.calls += 1;
                Ok(())
            }
            Head::Vector(vector) => {
                if !is_single(rest) {
                    return Err(wrong_name(alloc, named)?);
                }
                if !begin_alone(rest) {
                    return Err(misplaced_in(alloc, names, rest, named)?);
                }
                self.place = Place::Vector(link, vector);
                Ok(())
            }
        }
    }

    /// The arguments of a function end.
    fn end_call(
        &mut self,
        alloc: Global,
        names: &Names,
        rest: &[form_ast::Piece],
    ) -> Result<(), CheckError>
        ensures gives { Gives (λ _. walk_of self.new) result (walking.call_ended names.now (walk_of self.old) rest.now) }
        ensures calls { OnOk result (self.new.calls ≤ self.old.calls) }
        ensures unchanged { OnErr result (walk_of self.new ≡ walk_of self.old) }
    {
        let piece = end_of_function(alloc, names, rest)?;
        self.add(piece)?;
        self.calls = self.calls.saturating_sub(1);
        Ok(())
    }

    /// A sum in parentheses ends.
    fn close(
        &mut self,
        alloc: Global,
        names: &Names,
        rest: &[form_ast::Piece],
    ) -> Result<(), CheckError>
        ensures gives { Gives (λ _. walk_of self.new) result (walking.closed names.now (walk_of self.old) rest.now) }
        ensures calls { OnOk result (self.new.calls ≡ self.old.calls) }
        ensures unchanged { OnErr result (walk_of self.new ≡ walk_of self.old) }
    {
        let piece = end_of_parenthesis(alloc, names, rest)?;
        self.add(piece)?;
        Ok(())
    }

    /// A piece of a sum.
    #[tactic(auto, using(crate::proofs::Kept::kept_same, crate::proofs::Kept::kept_behind))]
    #[inline(never)]
    fn in_sum(
        &mut self,
        alloc: Global,
        names: &Names,
        standing: &Standing,
        known: &Known,
        piece: &form_ast::Piece,
        rest: &[form_ast::Piece],
    ) -> Result<(), CheckError>
        requires { self.old.calls + 1 < 2 ^ 64 }
        ensures gives { Gives (λ _. walk_of self.new) result (walking.in_sum names.now (stands_in standing.now) known.now (walk_of self.old) piece.now rest.now) }
        ensures calls { OnOk result (self.new.calls ≤ self.old.calls + 1) }
        ensures kept { OnErr result (AreKept (walk_of self.old) (walk_of self.new)) }
    {
        match piece {
            form_ast::Piece::Number(link, number) => self.number(alloc, names, *link, number, rest),
            form_ast::Piece::Name(link, named) => {
                self.name(alloc, names, standing, known, *link, named, rest)
            }
            form_ast::Piece::Dot(link, named) => {
                self.place = Place::Dot(*link, vector(alloc, names, named)?);
                Ok(())
            }
            form_ast::Piece::Delta(link, _) => {
                self.place = Place::Delta(*link);
                Ok(())
            }
            form_ast::Piece::Call(link, named) => self.call(alloc, names, *link, named, rest),
            form_ast::Piece::Comma => {
                put(&mut self.pieces, Piece::EndOfArgument)?;
                self.place = Place::Argument;
                Ok(())
            }
            form_ast::Piece::EndOfCall => {
                put(&mut self.pieces, Piece::EndOfArgument)?;
                self.end_call(alloc, names, rest)
            }
            form_ast::Piece::Open(link) => {
                self.add(Piece::Open {
                    link: link_of(*link),
                })?;
                Ok(())
            }
            form_ast::Piece::Close => self.close(alloc, names, rest),
            form_ast::Piece::EndOfDot(_)
            | form_ast::Piece::EntryName(_)
            | form_ast::Piece::EntryNumber(_)
            | form_ast::Piece::EndOfDelta
            | form_ast::Piece::Raised(_, _, _)
            | form_ast::Piece::RaisedByName(_, _)
            | form_ast::Piece::Marked(_)
            | form_ast::Piece::Field(_) => Ok(()),
        }
    }

    /// A piece where an argument may begin.
    #[tactic(auto, using(crate::proofs::Kept::kept_same, crate::proofs::Kept::kept_behind))]
    fn in_arguments(
        &mut self,
        alloc: Global,
        names: &Names,
        standing: &Standing,
        known: &Known,
        piece: &form_ast::Piece,
        rest: &[form_ast::Piece],
    ) -> Result<(), CheckError>
        requires { self.old.calls + 1 < 2 ^ 64 }
        ensures gives { Gives (λ _. walk_of self.new) result (walking.in_arguments names.now (stands_in standing.now) known.now (walk_of self.old) piece.now rest.now) }
        ensures calls { OnOk result (self.new.calls ≤ self.old.calls + 1) }
        ensures kept { OnErr result (AreKept (walk_of self.old) (walk_of self.new)) }
    {
        if ends_call(piece) {
            return self.end_call(alloc, names, rest);
        }
        match field_of(known, piece) {
            Some(number) => {
                put(&mut self.pieces, Piece::Field(number))?;
                self.place = Place::Behind;
                Ok(())
            }
            None => self.begin_argument(alloc, names, standing, known, piece, rest),
        }
    }

    /// A piece where an argument begins.
    #[tactic(auto, using(crate::proofs::Kept::kept_same, crate::proofs::Kept::kept_behind))]
    fn begin_argument(
        &mut self,
        alloc: Global,
        names: &Names,
        standing: &Standing,
        known: &Known,
        piece: &form_ast::Piece,
        rest: &[form_ast::Piece],
    ) -> Result<(), CheckError>
        requires { self.old.calls + 1 < 2 ^ 64 }
        ensures gives { Gives (λ _. walk_of self.new) result (walking.argument_begun names.now (stands_in standing.now) known.now (walk_of self.old) piece.now rest.now (lone_of names.now (walking.alone_before rest.now piece.now))) }
        ensures calls { OnOk result (self.new.calls ≤ self.old.calls + 1) }
        ensures kept { OnErr result (AreKept (walk_of self.old) (walk_of self.new)) }
    {
        match lone_argument(names, piece, rest) {
            Some(argument) => {
                put(&mut self.pieces, argument)?;
                self.place = Place::Behind;
                Ok(())
            }
            None => {
                self.add(Piece::Argument)?;
                self.in_sum(alloc, names, standing, known, piece, rest)
            }
        }
    }

    /// A piece behind an argument that is an index or a vector alone.
    fn behind(
        &mut self,
        alloc: Global,
        names: &Names,
        piece: &form_ast::Piece,
        rest: &[form_ast::Piece],
    ) -> Result<(), CheckError>
        ensures gives { Gives (λ _. walk_of self.new) result (walking.behind_argument names.now (walk_of self.old) piece.now rest.now) }
        ensures calls { OnOk result (self.new.calls ≤ self.old.calls) }
        ensures unchanged { OnErr result (walk_of self.new ≡ walk_of self.old) }
    {
        match piece {
            form_ast::Piece::Comma => {
                self.place = Place::Argument;
                Ok(())
            }
            form_ast::Piece::EndOfCall => self.end_call(alloc, names, rest),
            _ => Ok(()),
        }
    }

    /// Goes one piece further, behind which these are.
    #[tactic(auto, using(crate::proofs::Kept::kept_same, crate::proofs::Kept::kept_behind))]
    #[inline(never)]
    pub fn take(
        &mut self,
        alloc: Global,
        names: &Names,
        standing: &Standing,
        known: &Known,
        piece: &form_ast::Piece,
        rest: &[form_ast::Piece],
    ) -> Result<(), CheckError>
        requires { self.old.calls + 1 < 2 ^ 64 }
        ensures gives { Gives (λ _. walk_of self.new) result (walking.taken names.now (stands_in standing.now) known.now (walk_of self.old) piece.now rest.now) }
        ensures calls { OnOk result (self.new.calls ≤ self.old.calls + 1) }
        ensures kept { OnErr result (AreKept (walk_of self.old) (walk_of self.new)) }
    {
        self.take_at(self.place, alloc, names, standing, known, piece, rest)
    }

    /// The same where it stands there.
    #[tactic(auto, using(crate::proofs::Kept::kept_same, crate::proofs::Kept::kept_behind))]
    fn take_at(
        &mut self,
        place: Place,
        alloc: Global,
        names: &Names,
        standing: &Standing,
        known: &Known,
        piece: &form_ast::Piece,
        rest: &[form_ast::Piece],
    ) -> Result<(), CheckError>
        requires { self.old.calls + 1 < 2 ^ 64 }
        ensures gives { Gives (λ _. walk_of self.new) result (walking.taken_at names.now (stands_in standing.now) known.now (walk_of self.old) piece.now rest.now place) }
        ensures calls { OnOk result (self.new.calls ≤ self.old.calls + 1) }
        ensures kept { OnErr result (AreKept (walk_of self.old) (walk_of self.new)) }
    {
        match place {
            Place::Sum => self.in_sum(alloc, names, standing, known, piece, rest),
            Place::Argument => self.in_arguments(alloc, names, standing, known, piece, rest),
            Place::Behind => self.behind(alloc, names, piece, rest),
            Place::Dot(link, left) => self.end_dot(alloc, names, link, left, piece, rest),
            Place::Delta(link) => self.first_entry(alloc, names, link, piece),
            Place::SecondEntry(link, first) => {
                self.second_entry(alloc, names, link, first, piece)
            }
            Place::EndOfDelta(link, first, second) => {
                self.end_delta(alloc, names, link, first, second, piece, rest)
            }
            Place::Vector(link, vector) => self.component(alloc, names, link, vector, piece),
            Place::Component(link, vector, index) => {
                self.end_component(alloc, names, link, vector, index, piece, rest)
            }
        }
    }
}
