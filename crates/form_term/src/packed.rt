//! A function with its arguments as it lies in memory.
ghost use Rattle.std.specs.Prelude.{◌≡◌, length, IfOk};
ghost use Rattle.std.specs.Arc.{arc_value};
ghost use Rattle.form_term.specs.Packing.{IsPacked, function_in, size_in, depth_in, pieces_in};

use crate::Piece;
use form_base::Id;
use std::alloc::{AllocError, Global};
use std::sync::Arc;

/// A function with its size and its depth as they are kept, its name, and the pieces of its arguments, which copies
/// share: up to nine pieces and the count of their owners are one block of memory, and without pieces there is none.
/// Fields lie in this order, so it has 16 bytes.
#[derive(Drop)]
pub(crate) enum Packed {
    Bare(u8, u8, Id),
    One(u8, u8, Id, Arc<[Piece; 1]>),
    Two(u8, u8, Id, Arc<[Piece; 2]>),
    Three(u8, u8, Id, Arc<[Piece; 3]>),
    Four(u8, u8, Id, Arc<[Piece; 4]>),
    Five(u8, u8, Id, Arc<[Piece; 5]>),
    Six(u8, u8, Id, Arc<[Piece; 6]>),
    Seven(u8, u8, Id, Arc<[Piece; 7]>),
    Eight(u8, u8, Id, Arc<[Piece; 8]>),
    Nine(u8, u8, Id, Arc<[Piece; 9]>),
    Many(u8, u8, Id, Arc<Vec<Piece>>),
}

impl Packed {
    pub(crate) fn from_vec(
        size: u8,
        depth: u8,
        function: Id,
        pieces: Vec<Piece>,
    ) -> Result<Packed, AllocError>
        ensures { IfOk result (IsPacked size depth function pieces.items) }
    {
        if pieces.is_empty() {
            return Ok(Packed::Bare(size, depth, function));
        }
        let alloc = *pieces.allocator();
        match pieces.len() {
            1 => Ok(Packed::One(size, depth, function, shared(alloc, &pieces)?)),
            2 => Ok(Packed::Two(size, depth, function, shared(alloc, &pieces)?)),
            3 => Ok(Packed::Three(size, depth, function, shared(alloc, &pieces)?)),
            4 => Ok(Packed::Four(size, depth, function, shared(alloc, &pieces)?)),
            5 => Ok(Packed::Five(size, depth, function, shared(alloc, &pieces)?)),
            6 => Ok(Packed::Six(size, depth, function, shared(alloc, &pieces)?)),
            7 => Ok(Packed::Seven(size, depth, function, shared(alloc, &pieces)?)),
            8 => Ok(Packed::Eight(size, depth, function, shared(alloc, &pieces)?)),
            9 => Ok(Packed::Nine(size, depth, function, shared(alloc, &pieces)?)),
            _ => Ok(Packed::Many(size, depth, function, Arc::new(alloc, pieces)?)),
        }
    }

    #[inline]
    pub(crate) fn size(&self) -> u8
        ensures { result ≡ size_in self.now }
    {
        match self {
            Packed::Bare(size, ..) => *size,
            Packed::One(size, ..) => *size,
            Packed::Two(size, ..) => *size,
            Packed::Three(size, ..) => *size,
            Packed::Four(size, ..) => *size,
            Packed::Five(size, ..) => *size,
            Packed::Six(size, ..) => *size,
            Packed::Seven(size, ..) => *size,
            Packed::Eight(size, ..) => *size,
            Packed::Nine(size, ..) => *size,
            Packed::Many(size, ..) => *size,
        }
    }

    #[inline]
    pub(crate) fn depth(&self) -> u8
        ensures { result ≡ depth_in self.now }
    {
        match self {
            Packed::Bare(_, depth, ..) => *depth,
            Packed::One(_, depth, ..) => *depth,
            Packed::Two(_, depth, ..) => *depth,
            Packed::Three(_, depth, ..) => *depth,
            Packed::Four(_, depth, ..) => *depth,
            Packed::Five(_, depth, ..) => *depth,
            Packed::Six(_, depth, ..) => *depth,
            Packed::Seven(_, depth, ..) => *depth,
            Packed::Eight(_, depth, ..) => *depth,
            Packed::Nine(_, depth, ..) => *depth,
            Packed::Many(_, depth, ..) => *depth,
        }
    }

    #[inline]
    pub(crate) fn function(&self) -> Id
        ensures { result ≡ function_in self.now }
    {
        match self {
            Packed::Bare(_, _, function) => *function,
            Packed::One(_, _, function, _) => *function,
            Packed::Two(_, _, function, _) => *function,
            Packed::Three(_, _, function, _) => *function,
            Packed::Four(_, _, function, _) => *function,
            Packed::Five(_, _, function, _) => *function,
            Packed::Six(_, _, function, _) => *function,
            Packed::Seven(_, _, function, _) => *function,
            Packed::Eight(_, _, function, _) => *function,
            Packed::Nine(_, _, function, _) => *function,
            Packed::Many(_, _, function, _) => *function,
        }
    }

    #[inline]
    pub(crate) fn as_slice(&self) -> &[Piece]
        ensures { result.now ≡ pieces_in self.now }
    {
        match self {
            Packed::Bare(..) => &[],
            Packed::One(.., pieces) => pieces.as_slice(),
            Packed::Two(.., pieces) => pieces.as_slice(),
            Packed::Three(.., pieces) => pieces.as_slice(),
            Packed::Four(.., pieces) => pieces.as_slice(),
            Packed::Five(.., pieces) => pieces.as_slice(),
            Packed::Six(.., pieces) => pieces.as_slice(),
            Packed::Seven(.., pieces) => pieces.as_slice(),
            Packed::Eight(.., pieces) => pieces.as_slice(),
            Packed::Nine(.., pieces) => pieces.as_slice(),
            Packed::Many(.., pieces) => pieces.as_slice(),
        }
    }

    /// Another owner of the same pieces.
    pub(crate) fn copied(&self) -> Result<Packed, AllocError>
        ensures { IfOk result (IsPacked (size_in self.now) (depth_in self.now) (function_in self.now) (pieces_in self.now)) }
    {
        let (size, depth, function) = (self.size(), self.depth(), self.function());
        match self {
            Packed::Bare(..) => Ok(Packed::Bare(size, depth, function)),
            Packed::One(.., pieces) => Ok(Packed::One(size, depth, function, pieces.clone()?)),
            Packed::Two(.., pieces) => Ok(Packed::Two(size, depth, function, pieces.clone()?)),
            Packed::Three(.., pieces) => Ok(Packed::Three(size, depth, function, pieces.clone()?)),
            Packed::Four(.., pieces) => Ok(Packed::Four(size, depth, function, pieces.clone()?)),
            Packed::Five(.., pieces) => Ok(Packed::Five(size, depth, function, pieces.clone()?)),
            Packed::Six(.., pieces) => Ok(Packed::Six(size, depth, function, pieces.clone()?)),
            Packed::Seven(.., pieces) => Ok(Packed::Seven(size, depth, function, pieces.clone()?)),
            Packed::Eight(.., pieces) => Ok(Packed::Eight(size, depth, function, pieces.clone()?)),
            Packed::Nine(.., pieces) => Ok(Packed::Nine(size, depth, function, pieces.clone()?)),
            Packed::Many(.., pieces) => Ok(Packed::Many(size, depth, function, pieces.clone()?)),
        }
    }
}

/// These pieces in a block of memory with a count of its owners.
#[inline]
fn shared<const N: usize>(alloc: Global, pieces: &[Piece]) -> Result<Arc<[Piece; N]>, AllocError>
    requires { length pieces.now ≡ N }
    ensures { IfOk result (λ block. arc_value block ≡ pieces.now) }
{
    match <[Piece; N]>::try_from(pieces) {
        Ok(array) => Ok(Arc::new(alloc, array)?),
        Err(_) => unreachable!(),
    }
}
