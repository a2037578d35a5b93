//! A list written out by hand.

use form_base::Id;
use form_expand::{Expansion, Standing, expand_tree};
use form_term::Term;
use form_tree::{Link, Piece};
use std::alloc::{AllocError, Global};
use std::test::Fail;

/// A symbol as a piece.
fn symbol(link: Link, position: u32, power: i32) -> Piece {
    Piece::Symbol {
        link,
        symbol: Id::new(position),
        power,
    }
}

/// A term's powers, each as its symbol's position and its exponent.
fn powers_of(alloc: Global, term: &Term) -> Result<Vec<(u32, i32)>, AllocError> {
    let mut powers = Vec::new(alloc);
    for power in term.powers() {
        powers.push((power.symbol.position(), power.exponent))?;
    }
    Ok(powers)
}

/// Whether the next term's powers are these.
fn gives(alloc: Global, list: &mut Expansion, powers: &[(u32, i32)]) -> Result<bool, AllocError> {
    let Ok(Some(item)) = list.next(alloc) else {
        return Ok(false);
    };
    Ok(powers_of(alloc, &item.term)?.as_slice() == powers)
}

/// Whether the next terms' powers are these.
fn gives_all(
    alloc: Global,
    list: &mut Expansion,
    terms: &[&[(u32, i32)]],
) -> Result<bool, AllocError> {
    for powers in terms {
        if !gives(alloc, list, powers)? {
            return Ok(false);
        }
    }
    Ok(true)
}

/// Whether no term follows.
fn ends(alloc: Global, list: &mut Expansion) -> bool {
    matches!(list.next(alloc), Ok(None))
}

/// Whether these powers are all that the pieces of a sum give.
fn is_list(
    alloc: Global,
    pieces: &[Piece],
    limit: u64,
    terms: &[&[(u32, i32)]],
) -> Result<bool, AllocError> {
    let none = Standing::from_vec(Vec::new(alloc));
    let mut list = expand_tree(alloc, pieces, limit, &none);
    Ok(gives_all(alloc, &mut list, terms)? && ends(alloc, &mut list))
}

/// (x+y)^2, x and y being the symbols 0 and 1.
fn square(alloc: Global) -> Result<Vec<Piece>, AllocError> {
    let pieces = [
        Piece::Open { link: Link::Plus },
        symbol(Link::Plus, 0, 1),
        symbol(Link::Plus, 1, 1),
        Piece::Close { power: 2 },
    ];
    Vec::from_slice(alloc, &pieces)
}

#[test]
fn a_square_is_written_out_in_order(rt: HostRuntime) -> Result<(), Fail> {
    let alloc = rt.alloc();
    let pieces = square(alloc)?;
    let terms: [&[(u32, i32)]; 4] = [&[(0, 2)], &[(0, 1), (1, 1)], &[(0, 1), (1, 1)], &[(1, 2)]];
    assert!(rt; is_list(alloc, &pieces, 4, &terms)?);
    Ok(())
}
