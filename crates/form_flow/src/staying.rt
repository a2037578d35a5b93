//! Terms that stay as they are where indices become others.
ghost use Rattle.std.specs.Prelude.{◌≡◌};
ghost use Rattle.std.specs.List.{list_all};
ghost use Rattle.form_flow.specs.Staying.{calls_stay as calls_stay_of, delta_stays as delta_stays_of, is_other as is_other_of, piece_stays as piece_stays_of, stays as stays_of};
ghost use Rattle.form_normal.specs.Product.{is_fixed as is_fixed_of};

use crate::indices::is_declared;
use form_base::Id;
use form_term::{Call, Component, Delta, Index, Piece, Term};

/// Whether none of these indices stands in a term, in arguments neither, and no delta there is 1 or 0.
pub fn stays(indices: &[Id], term: &Term) -> bool
    ensures { result ≡ stays_of indices.now term.now }
{
    components_stay(indices, term.components())
        && deltas_stay(indices, term.deltas())
        && calls_stay(indices, term.functions())
        && calls_stay(indices, term.word())
}

fn components_stay(indices: &[Id], components: &[Component]) -> bool
    ensures { result ≡ list_all (λ c. is_other_of indices.now c.index) components.now }
{
    components
        .iter()
        .all(|component| is_other(indices, &component.index))
}

fn deltas_stay(indices: &[Id], deltas: &[Delta]) -> bool
    ensures { result ≡ list_all (delta_stays_of indices.now) deltas.now }
{
    deltas.iter().all(|delta| delta_stays(indices, delta))
}

fn calls_stay(indices: &[Id], calls: &[Call]) -> bool
    ensures { result ≡ calls_stay_of indices.now calls.now }
{
    calls.iter().all(|call| pieces_stay(indices, call.pieces()))
}

fn pieces_stay(indices: &[Id], pieces: &[Piece]) -> bool
    ensures { result ≡ list_all (piece_stays_of indices.now) pieces.now }
{
    pieces.iter().all(|piece| piece_stays(indices, piece))
}

fn piece_stays(indices: &[Id], piece: &Piece) -> bool
    ensures { result ≡ piece_stays_of indices.now piece.now }
{
    match piece {
        Piece::Component(component) => is_other(indices, &component.index),
        Piece::Delta(delta) => delta_stays(indices, delta),
        Piece::Index(index) => is_other(indices, index),
        _ => true,
    }
}

fn delta_stays(indices: &[Id], delta: &Delta) -> bool
    ensures { result ≡ delta_stays_of indices.now delta.now }
{
    !is_fixed(delta) && is_other(indices, &delta.first) && is_other(indices, &delta.second)
}

/// Whether both indices of a delta are fixed, and it is 1 or 0.
#[tactic(auto, using(crate::proofs::Untaken::equal_or_not))]
pub fn is_fixed(delta: &Delta) -> bool
    ensures { result ≡ is_fixed_of delta.now }
{
    match (delta.first, delta.second) {
        (Index::Fixed(_), Index::Fixed(_)) => true,
        _ => false,
    }
}

/// Whether an index is none of these.
fn is_other(indices: &[Id], index: &Index) -> bool
    ensures { result ≡ is_other_of indices.now index.now }
{
    indices.iter().all(|id| !is_declared(index, *id))
}
