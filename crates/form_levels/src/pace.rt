//! How many inputs are carried out at once, and whether equal terms are brought together: by what was gained lately. What is
//! carried out is right whatever is answered here.
ghost use Rattle.std.specs.Prelude.{◌≡◌, ◌<◌, ◌↔◌, IfSome, IsTrue, Some};
ghost use Rattle.form_levels.specs.Linear.{AreLinear};
ghost use Rattle.form_levels.specs.Pacing.{counted, ended, grown, noted, shrunk};

use crate::gathering::{gathers, go_by_levels};
use form_flow::CompiledModule;

/// What batches gained lately by being carried out level by level.
#[derive(Drop)]
pub struct Pace {
    /// How many terms were made of the batch.
    made: u64,
    /// How many terms were brought together lately, and how many they were then.
    added: u64,
    left: u64,
    /// In so many batches to come they aren't brought together.
    resting: u64,
    /// How many inputs a batch has.
    size: usize,
    /// How many terms were made in a batch of half the size.
    before: u64,
    /// Whether larger batches gain nothing more.
    is_settled: bool,
    /// Whether an input was seen to be refused; none where it wasn't asked yet.
    refused: Option<bool>,
}

/// So many terms tell something.
const TELLING: u64 = 256;
/// What lies further back than so many terms counts half.
const LATELY: u64 = 4096;
/// So many batches rest where one gained nothing, and a quarter of them where a small one wasn't certain.
const REST: u64 = 31;
/// How many inputs the first batch has.
const FIRST: usize = 32;
/// The most inputs of a batch.
const MOST: usize = 4096;
/// Where so many terms were made in a batch, the next one isn't larger.
const MANY: u64 = 100_000;

impl Pace {
    /// That of statements that can be carried out level by level; none where one can't be, or where equal terms aren't likely to
    /// meet on the way.
    pub fn of(compiled: &CompiledModule) -> Option<Pace>
        ensures { IfSome result (λ _. AreLinear compiled.now.statements) }
    {
        if !gathers(compiled) {
            return None;
        }
        Some(Pace::at_first())
    }

    /// The same where inputs are joined, so that equal terms have met in any case.
    pub fn of_joined(compiled: &CompiledModule) -> Option<Pace>
        ensures { IfSome result (λ _. AreLinear compiled.now.statements) }
    {
        if !go_by_levels(compiled) {
            return None;
        }
        Some(Pace::at_first())
    }

    fn at_first() -> Pace {
        Pace {
            made: 0,
            added: 0,
            left: 0,
            resting: 0,
            size: FIRST,
            before: u64::MAX,
            is_settled: false,
            refused: None,
        }
    }

    /// Whether terms are brought together in this batch.
    pub(crate) fn is_likely(&self) -> bool
        ensures { IsTrue result ↔ (self.now.resting ≡ 0) }
    {
        self.resting == 0
    }

    /// Whether an input was seen to be refused; none where it wasn't asked yet.
    pub(crate) fn refused(&self) -> Option<bool>
        ensures { result ≡ self.now.refused }
    {
        self.refused
    }

    /// It was asked whether an input is refused.
    pub(crate) fn note_refused(&mut self, refused: bool)
        ensures { self.new ≡ record self.old { refused = Some refused } }
    {
        self.refused = Some(refused);
    }

    /// How many inputs the next batch has at most.
    pub fn size(&self) -> usize
        ensures { 0 < result }
    {
        self.size.max(1)
    }

    /// How many terms were made of the batch.
    pub(crate) fn made(&self) -> u64
        ensures { result ≡ self.now.made }
    {
        self.made
    }

    /// A batch begins.
    pub(crate) fn begin_batch(&mut self)
        ensures { self.new ≡ record self.old { made = 0 } }
    {
        self.made = 0;
    }

    /// So many terms more were made of the batch.
    pub(crate) fn count(&mut self, made: u64)
        ensures { self.new ≡ record self.old { made = counted self.old.made made } }
    {
        self.made = self.made.saturating_add(made);
    }

    /// So many terms were brought together, and so many are left of them.
    pub(crate) fn note(&mut self, added: u64, left: u64)
        ensures { self.new ≡ noted added left self.old }
    {
        if self.added > LATELY {
            self.added /= 2;
            self.left /= 2;
        }
        self.added = self.added.saturating_add(added);
        self.left = self.left.saturating_add(left);
    }

    /// A batch ends; whether all of it was certain.
    pub(crate) fn end_batch(&mut self, is_certain: bool)
        ensures { self.new ≡ ended is_certain self.old }
    {
        if !is_certain {
            self.shrink();
            return;
        }
        if self.resting > 0 {
            self.resting -= 1;
            return;
        }
        if self.added >= TELLING && self.left >= self.added - self.added / 8 {
            self.resting = REST;
        }
        self.grow();
    }

    /// The next batches are small; where this one was, they aren't likely to be certain, and some rest.
    fn shrink(&mut self)
        ensures { self.new ≡ shrunk self.old }
    {
        self.is_settled = true;
        if self.size > FIRST {
            self.size = FIRST;
        } else {
            self.resting = REST / 4;
        }
    }

    /// Batches become larger as long as less is made for each input.
    fn grow(&mut self)
        ensures { self.new ≡ grown self.old }
    {
        let is_less = self.made / 2 <= self.before - self.before / 16;
        if self.is_settled || !is_less || self.size >= MOST || self.made >= MANY {
            self.is_settled = true;
            return;
        }
        self.before = self.made;
        self.size *= 2;
    }
}
