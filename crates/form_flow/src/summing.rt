//! `sum`: indices that become dummies, or that take values.
ghost use Rattle.std.specs.Prelude.{◌≡◌, List, map, IfOk, OnOk};
ghost use Rattle.form_flow.specs.Indices.{and_dummy, become, dummies as dummies_of, dummies_put, indices_in, number_put};
ghost use Rattle.form_flow.specs.Left.{Nexts};
ghost use Rattle.form_flow.specs.Made.{Makes};
ghost use Rattle.form_flow.specs.Numbering.{AreNumbered};
ghost use Rattle.form_flow.specs.Sources.{numbers_left};
ghost use Rattle.form_term.specs.declared.index.Index.{Index as Place};

use crate::indices::{Renaming, all_put, free_dummy, has_declared, indices_of};
use crate::renaming::all_renamed;
use crate::staying::stays;
use form_base::Id;
use form_expand::ExpandError;
use form_term::{Index, Monomial, Term};
use std::alloc::{AllocError, Global};

/// A term in which an index takes values, one after the other.
#[derive(Drop)]
pub struct Numbers<'a> {
    pub item: Monomial,
    pub index: Id,
    /// Those that it takes yet.
    pub values: &'a [u32],
}

impl Numbers<'_> {
    /// The next term. Values for which nothing comes are passed over.
    pub fn next(&mut self, alloc: Global) -> Result<Option<Monomial>, ExpandError>
        ensures { Nexts result (numbers_left self.old) (numbers_left self.new) }
    {
        while let Some((value, rest)) = self.values.split_first() {
            self.values = rest;
            match with_number(alloc, &self.item, self.index, *value) {
                Ok(Some(made)) => return Ok(Some(made)),
                Ok(None) => {}
                Err(error) => return Err(error),
            }
        }
        Ok(None)
    }
}

/// A term in which an index becomes this number.
fn with_number(
    alloc: Global,
    item: &Monomial,
    index: Id,
    value: u32,
) -> Result<Option<Monomial>, ExpandError>
    ensures { Makes result (number_put index value item.now) }
{
    if stays(&[index], &item.term) {
        item.laws();
        return Ok(Some(item.clone()?));
    }
    let renaming = Renaming {
        from: index,
        to: Index::Fixed(value),
    };
    all_renamed(alloc, item, &[renaming])
}

/// A term in which these indices become dummies, one after the other: each takes the least number from 1 that isn't there.
pub fn with_dummies(
    alloc: Global,
    indices: &[Id],
    item: Monomial,
) -> Result<Option<Monomial>, ExpandError>
    ensures { Makes result (dummies_put indices.now item) }
{
    if stays(indices, &item.term) {
        item.laws();
        return Ok(Some(item));
    }
    let renamings = dummies(alloc, indices, &item.term)?;
    all_renamed(alloc, &item, &renamings)
}

/// What these indices become in a term.
fn dummies(alloc: Global, indices: &[Id], term: &Term) -> Result<Vec<Renaming>, AllocError>
    ensures { IfOk result (λ list. list.items ≡ dummies_of indices.now (indices_in term.now)) }
{
    let _ = term.powers();
    let mut there = indices_of(alloc, term)?;
    let mut renamings = Vec::new(alloc);
    let mut next: u32 = 1;
    for index in indices {
        add_dummy(alloc, *index, &mut there, &mut renamings, &mut next)?;
    }
    Ok(renamings)
}

/// An index becomes a dummy, where it is there. Its number is `next` or a larger one.
fn add_dummy(
    alloc: Global,
    index: Id,
    there: &mut Vec<Index>,
    renamings: &mut Vec<Renaming>,
    next: &mut u32,
) -> Result<(), AllocError>
    requires { AreNumbered there.old.items next.old }
    ensures renamings { OnOk result ((all : List Place) → there.old.items ≡ map (become renamings.old.items) all →
        renamings.new.items ≡ and_dummy all renamings.old.items index) }
    ensures there { OnOk result ((all : List Place) → there.old.items ≡ map (become renamings.old.items) all →
        there.new.items ≡ map (become renamings.new.items) all) }
    ensures numbered { OnOk result (AreNumbered there.new.items next.new) }
{
    if !has_declared(there, index) {
        return Ok(());
    }
    let number = free_dummy(there, *next);
    let renaming = Renaming {
        from: index,
        to: Index::Dummy(number),
    };
    let list = all_put(alloc, there, &renaming)?;
    renamings.push(renaming)?;
    *there = list;
    *next = number + 1;
    Ok(())
}
