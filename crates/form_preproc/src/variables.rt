//! The stacks of variables.

ghost use Rattle.std.specs.Prelude.{◌≡◌, ◌+◌, ◌<◌, ◌≤◌, ◌∷◌, [], List, length, set, drop, slice_index, slice_index_or, Some, None, true, false, if◌then◌else◌, OnOk, IfOk, MatchOption};
ghost use Rattle.std.specs.HashMap.{get_by_text};
ghost use Rattle.form_preproc.specs.Bytes.{is_name as is_name_of};
ghost use Rattle.form_preproc.specs.Variables as variables;
ghost use Rattle.form_preproc.specs.Journal.{AreBelow, AreFirsts, AreMarks, TellTheSame};
ghost use Rattle.form_preproc.specs.Places.{ArePlaces, AreCut, AreEmpty, IsCut, IsPut, number_of_values};
ghost use Rattle.form_calc.specs.Stack.{oldest};

use crate::bytes::is_name;
use crate::journal::{Change, Journal};
use form_base::Name;
use form_calc::{Stack, Text};
use std::alloc::{AllocError, Global};
use std::collections::HashMap;

/// The values of every name, and their numbers when each open call began.
#[derive(Drop)]
pub struct Variables {
    places: HashMap<String, usize>,
    stacks: Vec<Stack<Text>>,
    /// The heights of stacks when calls began.
    journal: Journal,
    ghost placed: { ArePlaces places stacks.items },
    ghost below: { AreBelow (length stacks.items) journal.changes.items },
    ghost measured: { length stacks.items ≤ length journal.firsts.items },
    ghost roomy: { number_of_values stacks.items ≤ journal.room },
}

/// A name as text, none where it is no name.
pub fn name_text(name: &[u8]) -> Option<&str>
    ensures { MatchOption result (is_name_of name.now ≡ false) (λ text. (is_name_of name.now ≡ true) × (text.now ≡ name.now)) }
{
    if is_name(name) {
        str::from_utf8(name).ok()
    } else {
        None
    }
}

/// The place of a name.
fn place_of(places: &HashMap<String, usize>, name: &[u8]) -> Option<usize>
    ensures { result ≡ (if is_name_of name.now then get_by_text places.now name.now else None) }
{
    let name = name_text(name)?;
    places.get(name).copied()
}

impl Variables {
    ghost use Rattle.form_preproc.specs.Kept.{kept_in};

    pub fn new(alloc: Global) -> Variables
        ensures { kept_in result ≡ record { values = variables.no_values; calls = [] } }
    {
        Variables {
            places: HashMap::new(alloc),
            stacks: Vec::new(alloc),
            journal: Journal::new(alloc),
        }
    }

    /// The newest value of a name.
    pub fn newest(&self, name: &[u8]) -> Option<&[u8]>
        ensures { MatchOption result (variables.newest (kept_in self.now).values name.now ≡ None)
            (λ value. variables.newest (kept_in self.now).values name.now ≡ Some value.now) }
    {
        let place = place_of(&self.places, name)?;
        let value = self.stacks[place].top()?;
        Some(value.as_slice())
    }

    /// How many values a name has.
    pub fn height(&self, name: &[u8]) -> usize
        ensures { result ≡ variables.height_of (kept_in self.now).values name.now }
    {
        match place_of(&self.places, name) {
            Some(place) => self.stacks[place].len(),
            None => 0,
        }
    }

    /// Puts one more value on a name.
    pub fn push(&mut self, alloc: Global, name: &[u8], value: Text) -> Result<(), AllocError>
        ensures pushed { OnOk result (kept_in self.new ≡ record { values = variables.pushed (kept_in self.old).values name.now value; calls = (kept_in self.old).calls }) }
    {
        let Some(name) = name_text(name) else {
            return Ok(());
        };
        let place = self.place_for(alloc, name)?;
        self.journal.make_room()?;
        self.journal.note(place, self.stacks[place].len());
        self.stacks[place].push(value)?;
        Ok(())
    }

    /// The place of a name, which it is given where it has none.
    fn place_for(&mut self, alloc: Global, name: &str) -> Result<usize, AllocError>
        ensures same { OnOk result (kept_in self.new ≡ kept_in self.old) }
        ensures place { IfOk result (λ place. get_by_text self.new.places name.now ≡ Some place) }
    {
        if let Some(place) = self.places.get(name) {
            return Ok(*place);
        }
        let place = self.stacks.len();
        self.journal.add_place()?;
        self.stacks.push(Stack::new(alloc))?;
        put_place(alloc, &mut self.places, name, place)?;
        Ok(place)
    }

    /// Takes a name's newest value away.
    pub fn pop(&mut self, name: &[u8])
        ensures { kept_in self.new ≡ record { values = variables.uncovered (kept_in self.old).values name.now; calls = (kept_in self.old).calls } }
    {
        if let Some(place) = place_of(&self.places, name) {
            let height = self.stacks[place].len();
            if height > 0 {
                self.cut_at(place, height - 1);
            }
        }
    }

    /// Cuts a name's stack back to a height.
    pub fn cut(&mut self, name: &[u8], height: usize)
        ensures { kept_in self.new ≡ record { values = variables.cut_back (kept_in self.old).values name.now height; calls = (kept_in self.old).calls } }
    {
        if let Some(place) = place_of(&self.places, name) {
            if height < self.stacks[place].len() {
                self.cut_at(place, height);
            }
        }
    }

    /// Cuts the stack at a place back to a height below its own.
    fn cut_at(&mut self, place: usize, height: usize)
        requires at { place < length self.old.stacks.items }
        requires lower { height < length (slice_index_or self.old.stacks.items place []) }
        ensures places { self.new.places ≡ self.old.places }
        ensures stacks { self.new.stacks.items ≡ set self.old.stacks.items place (oldest height (slice_index_or self.old.stacks.items place [])) }
        ensures calls { (kept_in self.new).calls ≡ (kept_in self.old).calls }
    {
        let before = self.stacks[place].len();
        self.journal.note(place, before);
        self.stacks[place].cut(height);
        self.journal.give_back(before - height - 1);
    }

    /// Keeps how many values every name has.
    pub fn begin_call(&mut self, alloc: Global) -> Result<(), AllocError>
        ensures begun { OnOk result (kept_in self.new ≡ record { values = (kept_in self.old).values; calls = variables.heights_of (kept_in self.old).values ∷ (kept_in self.old).calls }) }
    {
        self.journal.begin()
    }

    /// Cuts every name's stack to at most its height when the innermost call began.
    pub fn end_call(&mut self, alloc: Global)
        ensures { kept_in self.new ≡ record {
          values = variables.all_cut (kept_in self.old).values (variables.first_heights (kept_in self.old).calls);
          calls = variables.other_calls (kept_in self.old).calls;
        } }
    {
        match self.journal.end() {
            Some(mark) => self.cut_since(mark),
            None => self.empty(),
        }
    }

    /// Takes all values away.
    fn empty(&mut self)
        ensures places { self.new.places ≡ self.old.places }
        ensures marks { self.new.journal.marks ≡ self.old.journal.marks }
        ensures empty { AreEmpty self.old.stacks.items self.new.stacks.items }
    {
        empty_all(&mut self.stacks);
    }

    /// Cuts every stack to at most its height at a mark.
    fn cut_since(&mut self, mark: usize)
        requires within { mark ≤ length self.old.journal.changes.items }
        requires outer { AreMarks mark self.old.journal.marks }
        ensures places { self.new.places ≡ self.old.places }
        ensures cut { AreCut (drop mark self.old.journal.changes.items) self.old.stacks.items self.new.stacks.items }
        ensures marks { self.new.journal.marks ≡ self.old.journal.marks }
        ensures told { TellTheSame self.old.journal.marks self.old.journal.changes.items self.new.journal.changes.items }
    {
        self.journal.find_firsts(mark);
        let cut = cut_changed(
            &mut self.stacks,
            self.journal.since(mark),
            self.journal.firsts(),
        );
        self.journal.give_back(cut);
        self.journal.forget();
    }
}

/// Gives a name a place.
fn put_place(
    alloc: Global,
    places: &mut HashMap<String, usize>,
    name: &str,
    place: usize,
) -> Result<(), AllocError>
    ensures { IsPut places.old places.new name.now place result }
{
    let key = String::from_str(alloc, name)?;
    places.insert(key, place)?;
    Ok(())
}

/// Cuts the stack at a place to at most its height in a list: how many values are taken away.
fn cut_one(stacks: &mut [Stack<Text>], firsts: &[usize], place: usize) -> usize
    requires { length stacks.old ≤ length firsts.now }
    ensures cut { IsCut place (slice_index firsts.now place) stacks.old stacks.new }
    ensures counted { result + number_of_values stacks.new ≡ number_of_values stacks.old }
{
    if place >= stacks.len() {
        return 0;
    }
    let before = stacks[place].len();
    let height = firsts[place].min(before);
    stacks[place].cut(height);
    before - height
}

/// Cuts the stacks that were changed to at most their heights before these changes: at least how many values are taken away.
fn cut_changed(stacks: &mut [Stack<Text>], changes: &[Change], firsts: &[usize]) -> usize
    requires told { AreFirsts changes.now firsts.now }
    requires all { length stacks.old ≤ length firsts.now }
    ensures cut { AreCut changes.now stacks.old stacks.new }
    ensures counted { result + number_of_values stacks.new ≤ number_of_values stacks.old }
{
    let mut cut: usize = 0;
    for change in changes {
        cut = cut.saturating_add(cut_one(stacks, firsts, change.place));
    }
    cut
}

/// Takes all values away.
fn empty_all(stacks: &mut [Stack<Text>])
    ensures empty { AreEmpty stacks.old stacks.new }
    ensures none { number_of_values stacks.new ≤ number_of_values stacks.old }
{
    for place in 0..stacks.len() {
        stacks[place].cut(0);
    }
}

/// Bytes as a name that an answer speaks of.
///
/// They are plain, and so they are text; bytes that aren't would be answered as want of memory.
pub fn name_of(alloc: Global, bytes: &[u8]) -> Result<Name, AllocError>
    ensures { IfOk result (λ name. name ≡ bytes.now) }
{
    match str::from_utf8(bytes) {
        Ok(text) => Name::new(alloc, text),
        Err(_) => Err(AllocError),
    }
}
