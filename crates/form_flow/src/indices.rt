//! The indices of a term, and what they become.
ghost use Rattle.std.specs.Prelude.{◌≡◌, ◌++◌, map, flat_map, IfOk, OnOk};
ghost use Rattle.std.specs.List.{list_any};
ghost use Rattle.form_flow.specs.Indices.{become, free_dummy as free_dummy_of, indices_in, indices_of_call, indices_of_delta, indices_of_piece, is_declared as is_declared_by, is_dummy as is_dummy_by, put as put_by};
ghost use Rattle.form_flow.specs.Numbering.{AreNumbered};

use form_base::Id;
use form_term::{Call, Component, Delta, Index, Piece, Term};
use std::alloc::{AllocError, Global};

/// An index that becomes another one.
#[derive(Clone, Copy)]
pub struct Renaming {
    pub from: Id,
    pub to: Index,
}

/// What an index becomes by these, one after the other.
pub fn renamed_index(index: Index, renamings: &[Renaming]) -> Index
    ensures { result ≡ become renamings.now index }
{
    let mut last = index;
    for renaming in renamings {
        last = put(last, renaming);
    }
    last
}

fn put(index: Index, renaming: &Renaming) -> Index
    ensures { result ≡ put_by renaming.now.from renaming.now.to index }
{
    if is_declared(&index, renaming.from) {
        return renaming.to;
    }
    index
}

pub fn is_declared(index: &Index, id: Id) -> bool
    ensures { result ≡ is_declared_by id index.now }
{
    match index {
        Index::Declared(declared) => *declared == id,
        _ => false,
    }
}

fn is_dummy(index: &Index, number: u32) -> bool
    ensures { result ≡ is_dummy_by number index.now }
{
    match index {
        Index::Dummy(own) => *own == number,
        _ => false,
    }
}

/// Whether a declared index is among these.
pub fn has_declared(there: &[Index], id: Id) -> bool
    ensures { result ≡ list_any (is_declared_by id) there.now }
{
    there.iter().any(|index| is_declared(index, id))
}

fn has_dummy(there: &[Index], number: u32) -> bool
    ensures { result ≡ list_any (is_dummy_by number) there.now }
{
    there.iter().any(|index| is_dummy(index, number))
}

/// The least number from 1 that is of no dummy among these, where each one below `from` is that of one.
pub fn free_dummy(there: &[Index], from: u32) -> u32
    requires { AreNumbered there.now from }
    ensures { result ≡ free_dummy_of there.now }
{
    let mut number = from;
    for _turn in there {
        if !has_dummy(there, number) {
            return number;
        }
        number += 1;
    }
    number
}

/// What these become.
pub fn all_put(
    alloc: Global,
    there: &[Index],
    renaming: &Renaming,
) -> Result<Vec<Index>, AllocError>
    ensures { IfOk result (λ list. list.items ≡ map (put_by renaming.now.from renaming.now.to) there.now) }
{
    let mut list = Vec::with_capacity(alloc, there.len())?;
    for index in there {
        list.push(put(*index, renaming))?;
    }
    Ok(list)
}

/// All that stand in a term, in arguments too.
pub fn indices_of(alloc: Global, term: &Term) -> Result<Vec<Index>, AllocError>
    ensures { IfOk result (λ list. list.items ≡ indices_in term.now) }
{
    let mut list = Vec::new(alloc);
    put_components(&mut list, term.components())?;
    put_deltas(&mut list, term.deltas())?;
    put_calls(&mut list, term.functions())?;
    put_calls(&mut list, term.word())?;
    Ok(list)
}

fn put_components(list: &mut Vec<Index>, components: &[Component]) -> Result<(), AllocError>
    ensures { OnOk result (list.new.items ≡ list.old.items ++ map (λ c. c.index) components.now) }
{
    for component in components {
        list.extend_from_slice(&[component.index])?;
    }
    Ok(())
}

fn put_deltas(list: &mut Vec<Index>, deltas: &[Delta]) -> Result<(), AllocError>
    ensures { OnOk result (list.new.items ≡ list.old.items ++ flat_map indices_of_delta deltas.now) }
{
    for delta in deltas {
        list.extend_from_slice(&[delta.first, delta.second])?;
    }
    Ok(())
}

fn put_calls(list: &mut Vec<Index>, calls: &[Call]) -> Result<(), AllocError>
    ensures { OnOk result (list.new.items ≡ list.old.items ++ flat_map indices_of_call calls.now) }
{
    for call in calls {
        put_pieces(list, call.pieces())?;
    }
    Ok(())
}

fn put_pieces(list: &mut Vec<Index>, pieces: &[Piece]) -> Result<(), AllocError>
    ensures { OnOk result (list.new.items ≡ list.old.items ++ flat_map indices_of_piece pieces.now) }
{
    for piece in pieces {
        put_piece(list, piece)?;
    }
    Ok(())
}

fn put_piece(list: &mut Vec<Index>, piece: &Piece) -> Result<(), AllocError>
    ensures { OnOk result (list.new.items ≡ list.old.items ++ indices_of_piece piece.now) }
{
    match piece {
        Piece::Component(component) => list.extend_from_slice(&[component.index]),
        Piece::Delta(delta) => list.extend_from_slice(&[delta.first, delta.second]),
        Piece::Index(index) => list.extend_from_slice(&[*index]),
        _ => Ok(()),
    }
}
