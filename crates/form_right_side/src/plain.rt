//! The commonest pieces of a right side, on a short way: nothing refuses them, and no other piece is asked but their
//! power.
ghost use Rattle.std.specs.Prelude.{◌≡◌, ◌+◌, ◌<◌, ◌≤◌, ◌^◌, ◌++◌, ◌∷◌, [], List, None, Ok, IfOk, IfSome, is_some, OnOk, OnErr, ℕ, pos, neg_ℤ, Bool, false, not, if◌then◌else◌};
ghost use Rattle.form_ast.specs.declared.expr.Piece as written;
ghost use Rattle.form_names.specs.Names.{Entry};
ghost use Rattle.form_right_side.specs.Plain as plain;
ghost use Rattle.form_right_side.specs.RightSide as definition;
ghost use Rattle.form_right_side.specs.RightSide.{lone as lone_of};
ghost use Rattle.form_right_side.specs.Walking as walking;
ghost use Rattle.form_right_side.specs.Walking.{walk_of, AreKept, IfPlain};

use crate::ahead::plain_power;
use crate::kinds::{plain_head, plain_symbol};
use crate::known::Known;
use crate::powers::{LARGEST_EXPONENT, LARGEST_NUMBER, LARGEST_POWER, is_over, link_of};
use crate::walk::{Place, Walk, put};
use form_ast::{Link, Named};
use form_names::Names;
use form_number::Number;
use form_tree::{Natural, Piece};
use std::alloc::AllocError;

/// Whether an exponent is below zero, if its size isn't 0.
#[inline(always)]
fn is_below_zero(is_over: bool, is_minus: bool) -> bool
    ensures { result ≡ (if is_over then not is_minus else is_minus) }
{
    is_over != is_minus
}

/// A power of this size, below zero or not.
#[inline(always)]
fn signed(is_below_zero: bool, size: u32) -> i32
    requires { size ≤ definition.largest_exponent }
    ensures { result ≡ (if is_below_zero then neg_ℤ (pos size) else pos size) }
{
    let size = size as i32;
    if is_below_zero { -size } else { size }
}

/// A number to a power that is a number.
#[inline(always)]
fn plain_number(link: Link, number: &Number, rest: &[form_ast::Piece]) -> Option<Piece>
    ensures sum { IfSome result (λ factor. (names : List Entry) → (w : walking.Walk) →
        walking.adds w link (walking.by_power names (walking.is_over link) rest.now (definition.number_base number.now) (definition.number (walking.is_over link) number.now (walking.power_at rest.now)))
        ≡ Ok (walking.at (w.pieces ++ factor ∷ []) Place.Sum w.calls)) }
    ensures exactly { is_some result ≡ plain.is_plain_number number.now rest.now }
{
    let value = number.up_to(LARGEST_NUMBER)?;
    let (is_minus, size) = plain_power(rest, LARGEST_POWER)?;
    let is_inverse_of_zero = value == 0 && is_minus;
    Some(Piece::Number {
        link: link_of(link),
        value: Natural::new(value),
        power: signed(
            is_inverse_of_zero || is_below_zero(is_over(link), is_minus),
            size,
        ),
    })
}

/// A symbol that is no wildcard, to a power that is a number.
#[inline(always)]
fn plain_name(
    names: &Names,
    known: &Known,
    link: Link,
    named: &Named,
    rest: &[form_ast::Piece],
) -> Option<Piece>
    ensures sum { IfSome result (λ factor. (stands : ℕ → Bool) → (w : walking.Walk) →
        walking.adds w link (walking.by_power names.now (walking.is_over link) rest.now (definition.name_base names.now known.now (walking.is_over link) named.now) (definition.name names.now (walking.may_name w.calls stands) known.now (walking.is_over link) named.now (walking.power_at rest.now)))
        ≡ Ok (walking.at (w.pieces ++ factor ∷ []) Place.Sum w.calls)) }
    ensures alone { IfSome result (λ factor. definition.lone_named names.now named.now ≡ None) }
    ensures exactly { is_some result ≡ plain.is_plain_name names.now known.now named.now rest.now }
{
    let Named::Declared(spelled) = named else {
        return None;
    };
    let symbol = plain_symbol(names, spelled)?;
    let (is_minus, size) = plain_power(rest, LARGEST_EXPONENT)?;
    if known.is_wildcard(symbol) {
        return None;
    }
    Some(Piece::Symbol {
        link: link_of(link),
        symbol,
        power: signed(is_below_zero(is_over(link), is_minus), size),
    })
}

/// A factor that is one piece.
#[inline(always)]
fn plain_factor(
    names: &Names,
    known: &Known,
    piece: &form_ast::Piece,
    rest: &[form_ast::Piece],
) -> Option<Piece>
    ensures sum { IfSome result (λ factor. (stands : ℕ → Bool) → (w : walking.Walk) → walking.in_sum names.now stands known.now w piece.now rest.now ≡ Ok (walking.at (w.pieces ++ factor ∷ []) Place.Sum w.calls)) }
    ensures alone { IfSome result (λ factor. lone_of names.now (walking.alone_before rest.now piece.now) ≡ None) }
    ensures begins { IfSome result (λ factor. (walking.ends_call piece.now ≡ false) × (walking.field_of known.now piece.now ≡ None)) }
    ensures exactly { is_some result ≡ plain.is_plain_factor names.now known.now piece.now rest.now }
{
    match piece {
        form_ast::Piece::Number(link, number) => plain_number(*link, number, rest),
        form_ast::Piece::Name(link, named) => plain_name(names, known, *link, named, rest),
        _ => None,
    }
}

impl Walk {
    /// Goes one piece further where it is one of the commonest: whether it is. Otherwise nothing is done.
    #[tactic(auto, using(crate::proofs::Kept::kept_same, crate::proofs::Kept::kept_behind))]
    #[inline(always)]
    pub fn take_plain(
        &mut self,
        names: &Names,
        known: &Known,
        piece: &form_ast::Piece,
        rest: &[form_ast::Piece],
    ) -> Result<bool, AllocError>
        requires { self.old.calls + 1 < 2 ^ 64 }
        ensures plain { IfOk result (λ is_plain. (stands : ℕ → Bool) → IfPlain is_plain (walking.taken names.now stands known.now (walk_of self.old) piece.now rest.now) self.old self.new) }
        ensures exactly { IfOk result (λ is_plain. is_plain ≡ plain.is_plain names.now known.now self.old.place piece.now rest.now) }
        ensures calls { OnOk result (self.new.calls ≤ self.old.calls + 1) }
        ensures kept { OnErr result (AreKept (walk_of self.old) (walk_of self.new)) }
    {
        match self.place {
            Place::Sum => self.plain_in_sum(names, known, piece, rest),
            Place::Argument => self.plain_argument(names, known, piece, rest),
            _ => Ok(false),
        }
    }

    /// A piece of a sum.
    #[tactic(auto, using(crate::proofs::Kept::kept_same, crate::proofs::Kept::kept_behind))]
    #[inline(always)]
    fn plain_in_sum(
        &mut self,
        names: &Names,
        known: &Known,
        piece: &form_ast::Piece,
        rest: &[form_ast::Piece],
    ) -> Result<bool, AllocError>
        requires place { self.old.place ≡ Place.Sum }
        requires calls { self.old.calls + 1 < 2 ^ 64 }
        ensures plain { IfOk result (λ is_plain. (stands : ℕ → Bool) → IfPlain is_plain (walking.in_sum names.now stands known.now (walk_of self.old) piece.now rest.now) self.old self.new) }
        ensures exactly { IfOk result (λ is_plain. is_plain ≡ plain.is_plain_in_sum names.now known.now piece.now rest.now) }
        ensures calls { OnOk result (self.new.calls ≤ self.old.calls + 1) }
        ensures kept { OnErr result (AreKept (walk_of self.old) (walk_of self.new)) }
    {
        match piece {
            form_ast::Piece::Raised(_, _, _) => Ok(true),
            form_ast::Piece::Call(link, named) => self.plain_call(names, *link, named),
            form_ast::Piece::Comma => {
                put(&mut self.pieces, Piece::EndOfArgument)?;
                self.place = Place::Argument;
                Ok(true)
            }
            form_ast::Piece::EndOfCall => self.plain_end(rest),
            _ => match plain_factor(names, known, piece, rest) {
                Some(factor) => {
                    put(&mut self.pieces, factor)?;
                    Ok(true)
                }
                None => Ok(false),
            },
        }
    }

    /// A piece where an argument may begin.
    #[tactic(auto, using(crate::proofs::Kept::kept_same, crate::proofs::Kept::kept_behind))]
    #[inline(always)]
    fn plain_argument(
        &mut self,
        names: &Names,
        known: &Known,
        piece: &form_ast::Piece,
        rest: &[form_ast::Piece],
    ) -> Result<bool, AllocError>
        ensures plain { IfOk result (λ is_plain. (stands : ℕ → Bool) → IfPlain is_plain (walking.in_arguments names.now stands known.now (walk_of self.old) piece.now rest.now) self.old self.new) }
        ensures exactly { IfOk result (λ is_plain. is_plain ≡ plain.is_plain_factor names.now known.now piece.now rest.now) }
        ensures calls { OnOk result (self.new.calls ≡ self.old.calls) }
        ensures kept { OnErr result (AreKept (walk_of self.old) (walk_of self.new)) }
    {
        match plain_factor(names, known, piece, rest) {
            Some(factor) => {
                put(&mut self.pieces, Piece::Argument)?;
                put(&mut self.pieces, factor)?;
                self.place = Place::Sum;
                Ok(true)
            }
            None => Ok(false),
        }
    }

    /// A function begins.
    #[inline(always)]
    fn plain_call(&mut self, names: &Names, link: Link, named: &Named) -> Result<bool, AllocError>
        requires { self.old.calls + 1 < 2 ^ 64 }
        ensures plain { IfOk result (λ is_plain. (rest : List written.Piece) → IfPlain is_plain (walking.called names.now (walk_of self.old) link named.now rest) self.old self.new) }
        ensures exactly { IfOk result (λ is_plain. is_plain ≡ plain.is_plain_call names.now named.now) }
        ensures calls { OnOk result (self.new.calls ≤ self.old.calls + 1) }
        ensures unchanged { OnErr result (walk_of self.new ≡ walk_of self.old) }
    {
        let Named::Declared(spelled) = named else {
            return Ok(false);
        };
        let Some((function, is_commuting)) = plain_head(names, spelled) else {
            return Ok(false);
        };
        put(
            &mut self.pieces,
            Piece::Function {
                link: link_of(link),
                function,
                is_commuting,
            },
        )?;
        self.place = Place::Argument;
        self.calls += 1;
        Ok(true)
    }

    /// A function ends behind an argument that is an expression.
    #[tactic(auto, using(crate::proofs::Kept::kept_same, crate::proofs::Kept::kept_behind))]
    #[inline(always)]
    fn plain_end(&mut self, rest: &[form_ast::Piece]) -> Result<bool, AllocError>
        requires { self.old.place ≡ Place.Sum }
        ensures plain { IfOk result (λ is_plain. (names : List Entry) → IfPlain is_plain (walking.call_ended names (walking.argument_ended (walk_of self.old)) rest.now) self.old self.new) }
        ensures exactly { IfOk result (λ is_plain. is_plain ≡ plain.has_plain_power definition.largest_power rest.now) }
        ensures calls { OnOk result (self.new.calls ≤ self.old.calls) }
        ensures kept { OnErr result (AreKept (walk_of self.old) (walk_of self.new)) }
    {
        let Some((_, power)) = plain_power(rest, LARGEST_POWER) else {
            return Ok(false);
        };
        put(&mut self.pieces, Piece::EndOfArgument)?;
        put(&mut self.pieces, Piece::EndOfFunction { power })?;
        self.calls = self.calls.saturating_sub(1);
        Ok(true)
    }
}
