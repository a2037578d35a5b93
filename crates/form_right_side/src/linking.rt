//! Dot products, deltas and components of a right side.
ghost use Rattle.std.specs.Prelude.{◌≡◌, ◌≤◌, ◌∷◌, [], OnOk, OnErr, Ok};
ghost use Rattle.form_right_side.specs.Refusal.{Gives};
ghost use Rattle.form_right_side.specs.RightSide.{linked as linked_factor, linked_index as linked_index_factor, linked_to, largest_power, linked_base as linked_base_of, enclosed_dot};
ghost use Rattle.form_right_side.specs.Walking as walking;
ghost use Rattle.form_right_side.specs.Walking.{walk_of, AreKept, adds, dot_to};
ghost use Rattle.form_tree.specs.Tree as tree;

use crate::CheckError;
use crate::ahead::power_at;
use crate::kinds::{alone_end, entry_end, vector};
use crate::powers::{LARGEST_EXPONENT, LARGEST_POWER, exponent, is_over, link_of, size_of};
use crate::raised::{exponent_of, linked_base, name_power, symbol_named};
use crate::resolved::{End, Linked};
use crate::walk::{Place, Walk};
use form_ast::{Link, Named, Sign};
use form_base::Id;
use form_names::Names;
use form_term::{Component, Index};
use form_tree::{Base, Piece};
use std::alloc::Global;

/// Two ends as a factor.
fn linked(link: form_tree::Link, a: End, b: End, size: u32) -> Piece
    requires { size ≤ largest_power }
    ensures { result ∷ [] ≡ tree.pieces_of_factor link (linked_factor a b size) }
{
    match a {
        End::Vector(left) => match b {
            End::Vector(right) => Piece::Dot {
                link,
                left,
                right,
                power: size as i32,
            },
            End::Fixed(value) => component(link, left, Index::Fixed(value), size),
            End::Index(index) => component(link, left, Index::Declared(index), size),
        },
        End::Fixed(value) => linked_index(link, Index::Fixed(value), b, size),
        End::Index(index) => linked_index(link, Index::Declared(index), b, size),
    }
}

fn component(link: form_tree::Link, vector: Id, index: Index, power: u32) -> Piece
    ensures { result ∷ [] ≡ tree.pieces_of_factor link (tree.component (record { vector = vector; index = index }) power) }
{
    Piece::Component {
        link,
        component: Component { vector, index },
        power,
    }
}

/// An index and an end as a factor.
fn linked_index(link: form_tree::Link, index: Index, end: End, power: u32) -> Piece
    ensures { result ∷ [] ≡ tree.pieces_of_factor link (linked_index_factor index end power) }
{
    match end {
        End::Vector(vector) => component(link, vector, index, power),
        End::Fixed(value) => Piece::Delta {
            link,
            first: index,
            second: Index::Fixed(value),
            power,
        },
        End::Index(other) => Piece::Delta {
            link,
            first: index,
            second: Index::Declared(other),
            power,
        },
    }
}

impl Walk {
    /// Two ends.
    #[tactic(auto, using(crate::proofs::Kept::kept_same, crate::proofs::Kept::kept_behind))]
    fn link_ends(
        &mut self,
        link: Link,
        alloc: Global,
        names: &Names,
        a: End,
        b: End,
        rest: &[form_ast::Piece],
    ) -> Result<(), CheckError>
        ensures gives { Gives (λ _. walk_of self.new) result (adds (walk_of self.old) link (walking.by_power names.now (walking.is_over link) rest.now (Ok (linked_base_of a b)) (linked_to a b (walking.power_at rest.now)))) }
        ensures calls { OnOk result (self.new.calls ≡ self.old.calls) }
        ensures kept { OnErr result (AreKept (walk_of self.old) (walk_of self.new)) }
    {
        let Some((sign, by)) = name_power(rest) else {
            let size = size_of(power_at(rest), LARGEST_POWER)?;
            self.add(linked(link_of(link), a, b, size))?;
            return Ok(());
        };
        match linked_base(a, b) {
            Linked::Piece(base) => self.raise(alloc, names, link, base, sign, by),
            Linked::Dot(left, right) => self.enclose(alloc, names, link, left, right, sign, by),
        }
    }

    /// A dot product in parentheses, to a power that is a name.
    #[tactic(auto, using(crate::proofs::Kept::kept_same, crate::proofs::Kept::kept_behind))]
    fn enclose(
        &mut self,
        alloc: Global,
        names: &Names,
        link: Link,
        left: Id,
        right: Id,
        sign: Option<Sign>,
        by: &Named,
    ) -> Result<(), CheckError>
        ensures gives { Gives (λ _. walk_of self.new) result (adds (walk_of self.old) link (walking.raised names.now (walking.is_over link) (sign, by.now) (Ok (enclosed_dot left right)))) }
        ensures calls { OnOk result (self.new.calls ≡ self.old.calls) }
        ensures kept { OnErr result (AreKept (walk_of self.old) (walk_of self.new)) }
    {
        let symbol = symbol_named(alloc, names, by)?;
        let exponent = exponent_of(is_over(link), sign, symbol);
        self.add(Piece::Open {
            link: link_of(link),
        })?;
        self.add(Piece::Dot {
            link: form_tree::Link::Plus,
            left,
            right,
            power: 1,
        })?;
        self.add(Piece::CloseRaised(exponent))?;
        Ok(())
    }

    /// A dot product ends.
    pub fn end_dot(
        &mut self,
        alloc: Global,
        names: &Names,
        link: Link,
        left: Id,
        piece: &form_ast::Piece,
        rest: &[form_ast::Piece],
    ) -> Result<(), CheckError>
        ensures gives { Gives (λ _. walk_of self.new) result (walking.dot_ended names.now (walk_of self.old) link left piece.now rest.now) }
        ensures calls { OnOk result (self.new.calls ≡ self.old.calls) }
        ensures unchanged { OnErr result (walk_of self.new ≡ walk_of self.old) }
    {
        let form_ast::Piece::EndOfDot(named) = piece else {
            return Ok(());
        };
        let right = vector(alloc, names, named)?;
        self.dot(alloc, names, link, left, right, rest)
    }

    /// A dot product.
    fn dot(
        &mut self,
        alloc: Global,
        names: &Names,
        link: Link,
        left: Id,
        right: Id,
        rest: &[form_ast::Piece],
    ) -> Result<(), CheckError>
        ensures gives { Gives (λ _. walk_of self.new) result (adds (walk_of self.old) link (walking.by_power names.now (walking.is_over link) rest.now (Ok (tree.dot_base left right)) (dot_to (walking.is_over link) left right (walking.power_at rest.now)))) }
        ensures calls { OnOk result (self.new.calls ≡ self.old.calls) }
        ensures unchanged { OnErr result (walk_of self.new ≡ walk_of self.old) }
    {
        let Some((sign, by)) = name_power(rest) else {
            let power = power_at(rest);
            let size = size_of(power, LARGEST_EXPONENT)?;
            self.add(Piece::Dot {
                link: link_of(link),
                left,
                right,
                power: exponent(is_over(link), power, size),
            })?;
            return Ok(());
        };
        self.raise(alloc, names, link, Base::Dot(left, right), sign, by)
    }

    /// The first argument of `d_`.
    pub fn first_entry(
        &mut self,
        alloc: Global,
        names: &Names,
        link: Link,
        piece: &form_ast::Piece,
    ) -> Result<(), CheckError>
        ensures gives { Gives (λ _. walk_of self.new) result (walking.first_taken names.now (walk_of self.old) link piece.now) }
        ensures calls { OnOk result (self.new.calls ≡ self.old.calls) }
        ensures unchanged { OnErr result (walk_of self.new ≡ walk_of self.old) }
    {
        if let Some(first) = entry_end(alloc, names, piece)? {
            self.place = Place::SecondEntry(link, first);
        }
        Ok(())
    }

    /// Its second argument.
    pub fn second_entry(
        &mut self,
        alloc: Global,
        names: &Names,
        link: Link,
        first: End,
        piece: &form_ast::Piece,
    ) -> Result<(), CheckError>
        ensures gives { Gives (λ _. walk_of self.new) result (walking.second_taken names.now (walk_of self.old) link first piece.now) }
        ensures calls { OnOk result (self.new.calls ≡ self.old.calls) }
        ensures unchanged { OnErr result (walk_of self.new ≡ walk_of self.old) }
    {
        if let Some(second) = entry_end(alloc, names, piece)? {
            self.place = Place::EndOfDelta(link, first, second);
        }
        Ok(())
    }

    /// A `d_` ends.
    #[tactic(auto, using(crate::proofs::Kept::kept_same, crate::proofs::Kept::kept_behind))]
    pub fn end_delta(
        &mut self,
        alloc: Global,
        names: &Names,
        link: Link,
        first: End,
        second: End,
        piece: &form_ast::Piece,
        rest: &[form_ast::Piece],
    ) -> Result<(), CheckError>
        ensures gives { Gives (λ _. walk_of self.new) result (walking.delta_ended names.now (walk_of self.old) link first second piece.now rest.now) }
        ensures calls { OnOk result (self.new.calls ≡ self.old.calls) }
        ensures kept { OnErr result (AreKept (walk_of self.old) (walk_of self.new)) }
    {
        match piece {
            form_ast::Piece::EndOfDelta => {
                self.link_ends(link, alloc, names, first, second, rest)
            },
            _ => Ok(()),
        }
    }

    /// The parentheses of a vector end.
    #[tactic(auto, using(crate::proofs::Kept::kept_same, crate::proofs::Kept::kept_behind))]
    pub fn end_component(
        &mut self,
        alloc: Global,
        names: &Names,
        link: Link,
        vector: Id,
        index: End,
        piece: &form_ast::Piece,
        rest: &[form_ast::Piece],
    ) -> Result<(), CheckError>
        ensures gives { Gives (λ _. walk_of self.new) result (walking.component_ended names.now (walk_of self.old) link vector index piece.now rest.now) }
        ensures calls { OnOk result (self.new.calls ≡ self.old.calls) }
        ensures kept { OnErr result (AreKept (walk_of self.old) (walk_of self.new)) }
    {
        match piece {
            form_ast::Piece::EndOfCall => {
                self.link_ends(link, alloc, names, End::Vector(vector), index, rest)
            }
            _ => Ok(()),
        }
    }

    /// What stands in the parentheses of a vector.
    pub fn component(
        &mut self,
        alloc: Global,
        names: &Names,
        link: Link,
        vector: Id,
        piece: &form_ast::Piece,
    ) -> Result<(), CheckError>
        ensures gives { Gives (λ _. walk_of self.new) result (walking.component_taken names.now (walk_of self.old) link vector piece.now) }
        ensures calls { OnOk result (self.new.calls ≡ self.old.calls) }
        ensures unchanged { OnErr result (walk_of self.new ≡ walk_of self.old) }
    {
        if let Some(end) = alone_end(alloc, names, piece)? {
            self.place = Place::Component(link, vector, end);
        }
        Ok(())
    }
}
