ghost use Rattle.std.specs.Prelude.{◌≡◌, [], ◌++◌, IfOk};
ghost use Rattle.std.specs.Bool.{OnTrue};
ghost use Rattle.form_gathered.specs.Joined.{Stand};

use crate::level::behind;
use crate::pace::Pace;
use form_gathered::{Joined, JoinedTerm};
use std::alloc::{AllocError, Global};
use std::marker::Model;

/// Of so many terms at least one in eight meets another one, or nothing is gained.
const MANY: u64 = 16_384;

/// How many terms are made of a batch at most where few of them meet.
const MOST_MADE: u64 = 500_000;

/// How many terms there are at most where few of them met.
const MOST_APART: usize = 131_072;

/// Joined terms that were made, in a clause their list: equal ones are brought together, where that gains something.
#[derive(Drop)]
pub struct Heap {
    joins: bool,
    /// How many were added to the table.
    added: u64,
    table: Joined,
    /// Those that aren't in the table.
    apart: Vec<JoinedTerm>,
}

impl Model for Heap {
    ghost use Rattle.std.specs.Prelude.{List, ◌++◌};
    ghost use Rattle.form_gathered.specs.declared.joined.JoinedTerm.{JoinedTerm};

    ghost Value = { List JoinedTerm };

    ghost view = { λ h. h.table ++ h.apart.items };
}

impl Heap {
    pub fn new(alloc: Global, joins: bool) -> Heap
        ensures { result ≡ [] }
    {
        Heap {
            joins,
            added: 0,
            table: Joined::new(alloc),
            apart: Vec::new(alloc),
        }
    }

    /// Adds terms that were made of a batch. Answers false where they don't join, or too much is made.
    pub fn put_made(&mut self, made: Vec<JoinedTerm>, pace: &mut Pace) -> Result<bool, AllocError>
        ensures { IfOk result (λ all. OnTrue all (Stand (self.old ++ made.items) self.new)) }
    {
        pace.count(made.len() as u64);
        let all = self.put(made)?;
        Ok(all && self.gains() && (pace.made() <= MOST_MADE || self.len() <= MOST_APART))
    }

    /// Adds terms. Answers false where they don't join.
    pub fn put(&mut self, terms: Vec<JoinedTerm>) -> Result<bool, AllocError>
        ensures { IfOk result (λ all. OnTrue all (Stand (self.old ++ terms.items) self.new)) }
    {
        let joins = self.joins;
        self.put_either(terms, joins)
    }

    /// Adds terms that came through a statement as they were: where there are many of them, they aren't likely to meet others.
    pub fn put_untouched(&mut self, terms: Vec<JoinedTerm>) -> Result<bool, AllocError>
        ensures { IfOk result (λ all. OnTrue all (Stand (self.old ++ terms.items) self.new)) }
    {
        let likely = self.joins && self.table.len() >= terms.len() / 4;
        self.put_either(terms, likely)
    }

    /// Adds terms to the table, or beside it.
    fn put_either(&mut self, terms: Vec<JoinedTerm>, joins: bool) -> Result<bool, AllocError>
        ensures { IfOk result (λ all. OnTrue all (Stand (self.old ++ terms.items) self.new)) }
    {
        if joins {
            return self.put_together(terms);
        }
        self.put_apart(terms)?;
        Ok(true)
    }

    fn put_together(&mut self, terms: Vec<JoinedTerm>) -> Result<bool, AllocError>
        ensures { IfOk result (λ all. OnTrue all (Stand (self.old ++ terms.items) self.new)) }
    {
        self.added = self.added.saturating_add(terms.len() as u64);
        add_each(&mut self.table, terms)
    }

    fn put_apart(&mut self, terms: Vec<JoinedTerm>) -> Result<(), AllocError>
        ensures { IfOk result (λ done. self.new ≡ self.old ++ terms.items) }
    {
        if self.apart.is_empty() {
            self.apart = terms;
            return Ok(());
        }
        let mut rest = terms;
        self.apart.append(&mut rest)
    }

    /// Whether terms that are brought together meet, once there are many.
    fn gains(&self) -> bool {
        self.added < MANY || self.table.len() as u64 <= self.added - self.added / 8
    }

    /// How many there are, or the most that can be counted.
    fn len(&self) -> usize {
        self.table.len().saturating_add(self.apart.len())
    }

    /// All of them. What was gained is noted.
    pub fn into_vec(self, pace: &mut Pace) -> Result<Vec<JoinedTerm>, AllocError>
        ensures { IfOk result (λ all. all.items ≡ self) }
    {
        pace.note(self.added, self.table.len() as u64);
        behind(self.table.into_vec()?, self.apart)
    }
}

/// Adds terms to a table. Answers false where they don't join.
fn add_each(table: &mut Joined, terms: Vec<JoinedTerm>) -> Result<bool, AllocError>
    ensures { IfOk result (λ all. OnTrue all (Stand (table.old ++ terms.items) table.new)) }
{
    for term in terms {
        if !table.add(term)? {
            return Ok(false);
        }
    }
    Ok(true)
}
