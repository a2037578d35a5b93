ghost use Rattle.std.specs.Prelude.{◌≡◌, ◌∷◌, ◌++◌, [], All, IfOk, IfSome, OnErr, OnOk, map, option_map, ◌≤◌, length, take};
ghost use Rattle.form_term.specs.Term.{is_nil};
ghost use Rattle.form_bindings.specs.Entries.{IsEntry, binding_in};
ghost use Rattle.form_bindings.specs.Values.{IsValueOf, is_same_wildcard, value_of};

use crate::is_same;
use form_base::Id;
use form_term::Piece;
use smallvec::SmallVec;
use std::alloc::{AllocError, Global};
use std::marker::Model;

/// What stands in a pattern for something of a term.
#[derive(Clone, Copy)]
pub enum Wildcard {
    /// A symbol, an index, a vector or a function.
    Name(Id),
    /// A field of arguments, by its number among those of the pattern.
    Field(usize),
}

/// For how many pieces room is made at first: the values of two symbols or numbers.
const FIRST_ROOM: usize = 8;

/// A wildcard, and where the pieces of its value stand.
#[derive(Clone, Copy)]
struct Entry {
    wildcard: Wildcard,
    start: usize,
    end: usize,
}

impl Default for Entry {
    fn default() -> Entry {
        Entry {
            wildcard: Wildcard::Field(0),
            start: 0,
            end: 0,
        }
    }
}

impl Entry {
    fn is_of(&self, wildcard: &Wildcard) -> bool
        ensures { result ≡ is_same_wildcard self.now.wildcard wildcard.now }
    {
        match (&self.wildcard, wildcard) {
            (Wildcard::Name(this), Wildcard::Name(that)) => *this == *that,
            (Wildcard::Field(this), Wildcard::Field(that)) => *this == *that,
            (Wildcard::Name(_), Wildcard::Field(_)) => false,
            (Wildcard::Field(_), Wildcard::Name(_)) => false,
        }
    }
}

/// What the wildcards of a match stand for: in a clause the list of their bindings. The value of a wildcard is the pieces
/// of arguments: of one for a symbol, an index or a vector, of any number for a field. That of a function is its piece.
pub struct Bindings {
    entries: SmallVec<Entry, 3>,
    pieces: Vec<Piece>,
}

impl Drop for Bindings {
    fn drop(self) {
        let Bindings {
            entries: _,
            pieces: _,
        } = self;
    }
}

impl Model for Bindings {
    ghost use Rattle.std.specs.Prelude.{All, List, map};
    ghost use Rattle.form_bindings.specs.Entries.{IsEntry, binding_in};
    ghost use Rattle.form_bindings.specs.Values.{Binding};

    ghost Value = { List Binding };

    ghost view = { λ b. map (binding_in b.pieces.items) b.entries.items };

    ghost invariant = { λ b. All (IsEntry b.pieces.items) b.entries.items };
}

impl Bindings {
    ghost use Rattle.form_bindings.specs.Learning.{Tells, and_bound};
    ghost use Rattle.form_bindings.specs.Values.{binding, is_same};

    pub fn new(alloc: Global) -> Bindings
        ensures { result ≡ [] }
    {
        Bindings {
            entries: SmallVec::new(alloc),
            pieces: Vec::new(alloc),
        }
    }

    pub fn is_empty(&self) -> bool
        ensures { result ≡ is_nil self.now }
    {
        self.entries.is_empty()
    }

    /// One binding more, behind those that there are.
    pub fn push(&mut self, wildcard: Wildcard, value: &[Piece]) -> Result<(), AllocError>
        requires { IsValueOf wildcard value.now }
        ensures put { OnOk result (self.new ≡ self.old ++ binding wildcard value.now ∷ []) }
        ensures unchanged { OnErr result (self.new ≡ self.old) }
    {
        let start = self.pieces.len();
        add(&mut self.pieces, value)?;
        let end = self.pieces.len();
        let entry = Entry {
            wildcard,
            start,
            end,
        };
        self.entries.push(entry)?;
        Ok(())
    }

    /// How many there are.
    pub fn count(&self) -> usize
        ensures { result ≡ length self.now }
    {
        self.entries.len()
    }

    /// Leaves the first so many of them.
    pub fn cut_to(&mut self, count: usize)
        ensures { self.new ≡ take count self.old }
    {
        if self.entries.len() <= count {
            return;
        }
        self.entries.truncate(count);
        let end = last_end(self.entries.as_slice());
        self.pieces.truncate(end);
    }

    /// Whether a wildcard may stand for this: it does, or it isn't bound, and then it is bound to it.
    pub fn learn(&mut self, wildcard: Wildcard, value: &[Piece]) -> Result<bool, AllocError>
        requires { IsValueOf wildcard value.now }
        ensures learnt { IfOk result (λ b. Tells b (and_bound self.old (binding wildcard value.now)) self.new) }
        ensures kept { take (length self.old) self.new ≡ self.old }
    {
        match self.agrees(&wildcard, value) {
            Some(same) => Ok(same),
            None => {
                self.push(wildcard, value)?;
                Ok(true)
            }
        }
    }

    /// Whether a wildcard stands for this, none where it isn't bound.
    fn agrees(&self, wildcard: &Wildcard, value: &[Piece]) -> Option<bool>
        ensures { result ≡ option_map (λ bound. is_same bound value.now) (value_of self.now wildcard.now) }
    {
        match self.value_of(*wildcard) {
            Some(bound) => Some(is_same(bound, value)),
            None => None,
        }
    }

    /// What a wildcard stands for, none where it isn't bound.
    pub fn value_of(&self, wildcard: Wildcard) -> Option<&[Piece]>
        ensures found { option_map (λ v. v.now) result ≡ value_of self.now wildcard }
        ensures lawful { IfSome (value_of self.now wildcard) (IsValueOf wildcard) }
    {
        found(self.entries.as_slice(), self.pieces.as_slice(), &wildcard)
    }
}

/// Puts a value last. The first one takes memory for more.
fn add(pieces: &mut Vec<Piece>, value: &[Piece]) -> Result<(), AllocError>
    ensures put { OnOk result (pieces.new.items ≡ pieces.old.items ++ value.now) }
    ensures unchanged { OnErr result (pieces.new.items ≡ pieces.old.items) }
{
    if pieces.is_empty() {
        pieces.reserve(value.len().max(FIRST_ROOM))?;
    }
    pieces.extend_from_slice(value)
}

/// Where the value that ends last ends.
fn last_end(entries: &[Entry]) -> usize
    ensures { All (λ e. e.end ≤ result) entries.now }
{
    let mut last: usize = 0;
    for entry in entries {
        last = last.max(entry.end);
    }
    last
}

/// The pieces of the first entry of a wildcard.
fn found<'a>(entries: &[Entry], pieces: &'a [Piece], wildcard: &Wildcard) -> Option<&'a [Piece]>
    requires { All (IsEntry pieces.now) entries.now }
    ensures { option_map (λ v. v.now) result ≡ value_of (map (binding_in pieces.now) entries.now) wildcard.now }
{
    for entry in entries {
        if entry.is_of(wildcard) {
            return Some(&pieces[entry.start..entry.end]);
        }
    }
    None
}
