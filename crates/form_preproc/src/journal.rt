//! The changes of stacks since calls began.

ghost use Rattle.std.specs.Prelude.{◌≡◌, ℕ, ◌+◌, ◌<◌, ◌≤◌, suc, true, length, [], ◌∷◌, ◌++◌, drop, slice_index, MatchOption, OnOk, vec_len, vec_capacity};
ghost use Rattle.form_preproc.specs.Journal.{height_before, AreMarks, AreBelow, IsFixed, AreNoted, TellTheSame, AreFirsts};

use form_calc::Stack;
use std::alloc::{AllocError, Global};

/// A stack before it was changed.
#[derive(Clone, Copy)]
pub struct Change {
    pub place: usize,
    /// How many values it had.
    pub height: usize,
}

/// The first change of each place since each open call began.
#[derive(Drop)]
pub struct Journal {
    changes: Vec<Change>,
    /// How many changes there were when each open call began.
    marks: Stack<usize>,
    /// Where the last change of each place is, if there is one.
    latest: Vec<usize>,
    /// The heights of places when the call began that ends now.
    firsts: Vec<usize>,
    /// For how many more changes there is room.
    room: usize,
    ghost marked: { AreMarks (length changes.items) marks },
    ghost roomy: { length changes.items + room ≤ vec_capacity changes },
}

impl Journal {
    pub fn new(alloc: Global) -> Journal
        ensures { (result.marks ≡ []) × (result.changes.items ≡ []) }
    {
        Journal {
            changes: Vec::new(alloc),
            marks: Stack::new(alloc),
            latest: Vec::new(alloc),
            firsts: Vec::new(alloc),
            room: 0,
        }
    }

    /// Counts one more place.
    pub fn add_place(&mut self) -> Result<(), AllocError>
        ensures same { (self.new.marks ≡ self.old.marks) × (self.new.changes.items ≡ self.old.changes.items) × (self.new.room ≡ self.old.room) }
        ensures longer { OnOk result (length self.new.firsts.items ≡ length self.old.firsts.items + 1) }
        ensures not_shorter { length self.old.firsts.items ≤ length self.new.firsts.items }
    {
        self.latest.push(0)?;
        self.firsts.push(0)?;
        Ok(())
    }

    /// Makes room for two more changes.
    pub fn make_room(&mut self) -> Result<(), AllocError>
        ensures same { (self.new.marks ≡ self.old.marks) × (self.new.changes.items ≡ self.old.changes.items) × (self.new.firsts.items ≡ self.old.firsts.items) }
        ensures more { OnOk result (self.new.room ≡ self.old.room + 2) }
        ensures not_less { self.old.room ≤ self.new.room }
    {
        let room = self.room + 2;
        self.changes.reserve(room)?;
        self.room = room;
        Ok(())
    }

    /// Gives room for changes back.
    pub fn give_back(&mut self, room: usize)
        requires { room ≤ self.old.room }
        ensures same { (self.new.marks ≡ self.old.marks) × (self.new.changes.items ≡ self.old.changes.items) × (self.new.firsts.items ≡ self.old.firsts.items) }
        ensures less { self.new.room + room ≡ self.old.room }
    {
        self.room -= room;
    }

    /// Whether a change of a place since a mark is kept.
    fn is_noted(&self, mark: usize, place: usize) -> bool
        ensures { result ≡ true → IsFixed self.now.changes.items mark place }
    {
        let Some(at) = self.latest.get(place) else {
            return false;
        };
        let Some(change) = self.changes.get(*at) else {
            return false;
        };
        mark <= *at && change.place == place
    }

    fn keep(&mut self, place: usize, height: usize)
        requires { length self.old.changes.items + self.old.room < vec_capacity self.old.changes }
        ensures kept { self.new.changes.items ≡ self.old.changes.items ++ record { place = place; height = height } ∷ [] }
        ensures same { (self.new.marks ≡ self.old.marks) × (self.new.room ≡ self.old.room) × (self.new.firsts.items ≡ self.old.firsts.items) }
    {
        if place < self.latest.len() {
            self.latest[place] = self.changes.len();
        }
        let _ = self.changes.push(Change { place, height });
    }

    /// Keeps how many values are at a place, before that is changed.
    pub fn note(&mut self, place: usize, height: usize)
        requires { 0 < self.old.room }
        ensures noted { AreNoted self.old.marks self.old.changes.items self.new.changes.items place height }
        ensures same { (self.new.marks ≡ self.old.marks) × (self.new.firsts.items ≡ self.old.firsts.items) }
        ensures below { (size : ℕ) → place < size → AreBelow size self.old.changes.items → AreBelow size self.new.changes.items }
        ensures less { suc self.new.room ≡ self.old.room }
    {
        self.room -= 1;
        let Some(mark) = self.marks.top() else {
            return;
        };
        let mark = *mark;
        if !self.is_noted(mark, place) {
            self.keep(place, height);
        }
    }

    /// A call begins.
    pub fn begin(&mut self) -> Result<(), AllocError>
        ensures begun { OnOk result (self.new.marks ≡ length self.old.changes.items ∷ self.old.marks) }
        ensures same { (self.new.changes.items ≡ self.old.changes.items) × (self.new.room ≡ self.old.room) × (self.new.firsts.items ≡ self.old.firsts.items) }
    {
        self.marks.push(self.changes.len())
    }

    /// The innermost call ends: how many changes there were when it began.
    pub fn end(&mut self) -> Option<usize>
        ensures ended { MatchOption result ((self.old.marks ≡ []) × (self.new.marks ≡ [])) (λ mark. (self.old.marks ≡ mark ∷ self.new.marks) × (mark ≤ length self.old.changes.items) × AreMarks mark self.new.marks) }
        ensures same { (self.new.changes.items ≡ self.old.changes.items) × (self.new.room ≡ self.old.room) × (self.new.firsts.items ≡ self.old.firsts.items) }
    {
        self.marks.pop()
    }

    /// The changes since a mark.
    pub fn since(&self, mark: usize) -> &[Change]
        requires { mark ≤ length self.now.changes.items }
        ensures { result.now ≡ drop mark self.now.changes.items }
    {
        &self.changes[mark..]
    }

    /// Finds what heights there were at a mark, at the places that were changed since.
    pub fn find_firsts(&mut self, mark: usize)
        requires { mark ≤ length self.old.changes.items }
        ensures found { AreFirsts (drop mark self.old.changes.items) self.new.firsts.items }
        ensures size { length self.new.firsts.items ≡ length self.old.firsts.items }
        ensures same { (self.new.marks ≡ self.old.marks) × (self.new.changes.items ≡ self.old.changes.items) × (self.new.room ≡ self.old.room) }
    {
        fill_firsts(&self.changes[mark..], &mut self.firsts);
    }

    pub fn firsts(&self) -> &[usize]
        ensures { result.now ≡ self.now.firsts.items }
    {
        &self.firsts
    }

    /// Drops the changes that no open call asks for.
    pub fn forget(&mut self)
        ensures told { TellTheSame self.old.marks self.old.changes.items self.new.changes.items }
        ensures same { (self.new.marks ≡ self.old.marks) × (self.new.room ≡ self.old.room) × (self.new.firsts.items ≡ self.old.firsts.items) }
        ensures below { (size : ℕ) → AreBelow size self.old.changes.items → AreBelow size self.new.changes.items }
    {
        if self.marks.len() == 0 {
            self.changes.clear();
        }
    }
}

/// Puts the height that the first change of a place found at that place.
fn fill_firsts(changes: &[Change], firsts: &mut [usize])
    ensures found { AreFirsts changes.now firsts.new }
    ensures size { length firsts.new ≡ length firsts.old }
{
    let mut at = changes.len();
    while at > 0 {
        at -= 1;
        let change = changes[at];
        if change.place < firsts.len() {
            firsts[change.place] = change.height;
        }
    }
}
