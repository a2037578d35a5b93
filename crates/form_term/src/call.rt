ghost use Rattle.std.specs.Prelude.{◌≡◌, suc, IfOk};
ghost use Rattle.form_term.specs.Term.{IsCall, size_of_call};
ghost use Rattle.form_term.specs.Pieces.{size_of_pieces, deepest};
ghost use Rattle.form_term.specs.Calls.{kept};

use crate::Piece;
use crate::packed::Packed;
use form_base::Id;
use std::alloc::{AllocError, Global};
use std::cmp::Ordering;
use std::hash::{Hash, Hasher};
use std::marker::Model;

/// A function with its arguments, kept as their pieces. Copies share the arguments, and take no memory: up to nine
/// pieces, as most functions have, and the count of their owners are one block, more pieces and the count are two, and a
/// function without arguments takes no memory at all.
#[derive(Drop)]
pub struct Call {
    packed: Packed,
}

/// The largest size and depth that a function keeps: where they may be larger, its pieces are counted again.
const MOST: u8 = u8::MAX;

const _: () = prove!(size_of::<Call>() == 16);

impl Model for Call {
    ghost use Rattle.form_term.specs.Term as terms;
    ghost use Rattle.form_term.specs.Calls.{call, kept};
    ghost use Rattle.form_term.specs.Pieces.{deepest};
    ghost use Rattle.form_term.specs.Packing.{function_in, size_in, depth_in, pieces_in};
    ghost use Rattle.std.specs.Prelude.{◌≡◌};

    ghost Value = { terms.Call };

    ghost view = { λ c. call (function_in c.packed) (pieces_in c.packed) };

    ghost invariant = { λ c. terms.IsCall (call (function_in c.packed) (pieces_in c.packed))
        × (size_in c.packed ≡ kept (terms.size_of_call (call (function_in c.packed) (pieces_in c.packed))))
        × (depth_in c.packed ≡ kept (deepest 0 (pieces_in c.packed))) };
}

impl Call {
    ghost use Rattle.form_term.specs.Calls.{call};

    /// A function whose arguments have these pieces.
    pub(crate) fn from_pieces(function: Id, pieces: Vec<Piece>) -> Result<Call, AllocError>
        requires { IsCall (call function pieces.items) }
        ensures { IfOk result (λ c. c ≡ call function pieces.items) }
    {
        let size = saturated(size_with(&pieces));
        let depth = saturated(depth_of(&pieces));
        Ok(Call {
            packed: Packed::from_vec(size, depth, function, pieces)?,
        })
    }

    pub fn function(&self) -> Id
        ensures { result ≡ self.now.function }
    {
        self.packed.function()
    }

    /// The pieces of the arguments, from the left.
    pub fn pieces(&self) -> &[Piece]
        ensures pieces { result.now ≡ self.now.pieces }
        ensures lawful { IsCall self.now }
    {
        self.packed.as_slice()
    }

    /// How many factors it counts as: one for itself, one for each argument, and for each term in an argument one and
    /// its size.
    pub fn size(&self) -> usize
        ensures { result ≡ size_of_call self.now }
    {
        let size = self.packed.size();
        if size < MOST {
            return usize::from(size);
        }
        size_with(self.pieces())
    }

    /// The depth of the deepest term in an argument, 0 without one.
    pub fn depth(&self) -> usize
        ensures { result ≡ deepest 0 self.now.pieces }
    {
        let depth = self.packed.depth();
        if depth < MOST {
            return usize::from(depth);
        }
        depth_of(self.pieces())
    }
}

/// How many factors a function counts as whose arguments have these pieces.
fn size_with(pieces: &[Piece]) -> usize
    ensures { result ≡ suc (size_of_pieces pieces.now) }
{
    1 + pieces.iter().filter(|piece| piece.counts()).count()
}

/// The depth of the deepest term in these arguments.
fn depth_of(pieces: &[Piece]) -> usize
    ensures { result ≡ deepest 0 pieces.now }
{
    let mut level: usize = 0;
    let mut depth: usize = 0;
    for piece in pieces {
        match piece {
            Piece::Sum => level += 1,
            Piece::EndOfSum => level = level.saturating_sub(1),
            Piece::EndOfTerm(_) => depth = depth.max(level),
            _ => {}
        }
    }
    depth
}

/// A size or a depth as it is kept.
fn saturated(number: usize) -> u8
    ensures { result ≡ kept number }
{
    if number < usize::from(MOST) {
        number as u8
    } else {
        MOST
    }
}

impl Clone for Call {
    ghost use Rattle.std.specs.Prelude.{◌≡◌};

    ghost is_clone = { λ c d. d ≡ c };

    fn clone(&self) -> Result<Call, AllocError> {
        Ok(Call {
            packed: self.packed.copied()?,
        })
    }
}

impl PartialEq for Call {
    ghost use Rattle.std.specs.Ordering.{eq_by_cmp};
    ghost use Rattle.std.specs.Cmp.{partial_equiv_from_equiv};
    ghost use Rattle.std.proofs.lemmas.Cmp.{eq_by_cmp_equiv};
    ghost use Rattle.form_term.specs.Term.{call_order};
    ghost use Rattle.form_term.specs.TermLaws.{call_order_total};

    ghost eq = { eq_by_cmp call_order };

    ghost laws = { partial_equiv_from_equiv (eq_by_cmp_equiv call_order_total) };

    fn eq(&self, other: &Call) -> bool {
        self.cmp(other) == Ordering::Equal
    }
}

impl Eq for Call {
    ghost use Rattle.std.proofs.lemmas.Cmp.{eq_by_cmp_equiv};
    ghost use Rattle.form_term.specs.TermLaws.{call_order_total};

    ghost laws = { eq_by_cmp_equiv call_order_total };
}

impl PartialOrd for Call {
    ghost use Rattle.std.specs.Prelude.{refl};
    ghost use Rattle.std.specs.Ordering.{as_partial_cmp};
    ghost use Rattle.std.specs.Cmp.{partial_order_from_agreeing_total};
    ghost use Rattle.form_term.specs.Term.{call_order};
    ghost use Rattle.form_term.specs.TermLaws.{call_order_total};

    ghost partial_cmp = { as_partial_cmp call_order };

    ghost laws = { partial_order_from_agreeing_total call_order call_order_total (λ c d. refl) (λ c d. refl) };

    fn partial_cmp(&self, other: &Call) -> Option<Ordering> {
        Some(self.cmp(other))
    }
}

impl Ord for Call {
    ghost use Rattle.std.specs.Prelude.{refl};
    ghost use Rattle.form_term.specs.Term.{call_order};
    ghost use Rattle.form_term.specs.TermLaws.{call_order_total};

    ghost cmp = { call_order };

    ghost total = { call_order_total };

    ghost matches_partial_cmp = { λ c d. refl };

    ghost matches_eq = { λ c d. refl };

    fn cmp(&self, other: &Call) -> Ordering {
        match self.function().cmp(&other.function()) {
            Ordering::Equal => self.pieces().cmp(&other.pieces()),
            ordering => ordering,
        }
    }
}

impl Hash for Call {
    ghost use Rattle.std.specs.Prelude.{◌++◌};
    ghost use Rattle.std.specs.Hash as fed;
    ghost use Rattle.form_term.specs.TermLaws.{calls_alike};

    ghost hash_input = { λ c. fed.u64 c.function ++ fed.slice ⟦<Piece as Hash>⟧.hash_input c.pieces };

    ghost respects_eq = { calls_alike (λ c. fed.u64 c.function ++ fed.slice ⟦<Piece as Hash>⟧.hash_input c.pieces) };

    fn hash<H: Hasher>(&self, state: &mut H) {
        state.write_u64(u64::from(self.function().position()));
        self.pieces().hash(state);
    }
}
