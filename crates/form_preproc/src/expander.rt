//! Lines that act, one after another, with those that are to act behind them.

ghost use Rattle.std.specs.Prelude.{◌≡◌, ◌≢◌, ◌≤◌, ◌<◌, ◌+◌, ◌^◌, ℕ, suc, List, [], ◌∷◌, length, drop, true, false, Ok, Err, OnOk, IfOk, IfErr, IfSome};
ghost use Rattle.form_outside.specs.Faults.{HasRisen};
ghost use Rattle.form_outside.specs.Texts.{Texts};
ghost use Rattle.form_preproc.specs.Block as block;
ghost use Rattle.form_preproc.specs.Expansion as expansion;
ghost use Rattle.form_preproc.specs.Plainness.{AfterIsPlain, ExpanderIsPlain};
ghost use Rattle.form_preproc.specs.Shallow.{AreShallow};
ghost use Rattle.form_preproc.specs.Stepping.{depth_inside, depth_now, weight_of, left};
ghost use Rattle.form_preproc.specs.Variables.{Heights, first_heights};

use crate::frame::{Action, After, Entry, Frame, Turn};
use crate::machine::Machine;
use crate::source::{Source, SourceLine};
use crate::stop::{ExpandError, StopError};
use form_base::Name;
use form_calc::Stack;
use form_outside::Library;
use std::alloc::{AllocError, Global};
use std::rc::Rc;

/// What one step has done.
#[derive(Clone, Copy)]
pub enum Step {
    /// More is to be done.
    Goes,
    /// A line that ends the program was handed on.
    Ends,
    /// All lines have acted.
    Over,
}

/// The lines that act, each behind those that are to act first.
#[derive(Drop)]
pub struct Expander {
    pub machine: Machine,
    pub frames: Stack<Frame>,
}

impl After {
    /// How many calls are open inside, where so many are outside.
    fn depth_in(&self, depth: usize) -> usize
        ensures { depth_inside self.now depth < 2 ^ 64 → result ≡ depth_inside self.now depth }
    {
        match self {
            After::Branch | After::Turn(_) => depth,
            After::Included | After::Fetched(_) | After::Called => depth.saturating_add(1),
        }
    }
}

impl Machine {
    ghost use Rattle.form_preproc.specs.Machine.{state_of, calls_of, after_of, calls_behind, IsDone, AreKept};
    ghost use Rattle.form_preproc.specs.Stepping.{IsSmaller};

    /// The next turn of a loop, once a turn has acted.
    fn resume_turn(&mut self, alloc: Global, turn: Turn) -> Result<Action, StopError>
        ensures done { IsDone (expansion.resumed (after_of (After.Turn turn) (first_heights (calls_of self.old))) (state_of self.old)) result self.new }
        ensures kept { AreKept (calls_of self.old) result self.new }
        ensures smaller { IsSmaller (left self.old.acted + 1) result self.new.acted }
    {
        let Turn {
            site,
            name,
            height,
            turns,
            body,
        } = turn;
        self.variables.cut(name.as_slice(), height);
        self.turn(alloc, site, name, turns, body)
    }

    /// What follows lines that have acted.
    fn resume(&mut self, alloc: Global, after: After) -> Result<Action, StopError>
        ensures done { IsDone (expansion.resumed (after_of after (first_heights (calls_of self.old))) (state_of self.old)) result self.new }
        ensures kept { AreKept (calls_behind after (calls_of self.old)) result self.new }
        ensures smaller { IsSmaller (left self.old.acted + weight_of after) result self.new.acted }
    {
        match after {
            After::Branch | After::Included => Ok(Action::Goes),
            After::Turn(turn) => self.resume_turn(alloc, turn),
            After::Fetched(fetched) => {
                let site = fetched.site;
                let name = fetched.name;
                self.enter(alloc, &site, name.as_slice(), fetched.arguments)
            }
            After::Called => {
                self.variables.end_call(alloc);
                Ok(Action::Goes)
            }
        }
    }
}

impl Source {
    ghost use Rattle.form_preproc.specs.Sources.{lines_in};

    /// The place behind a line, or behind the block that it begins.
    fn behind(&self, place: usize, line: &SourceLine) -> usize
        requires { place < length self.now.lines.items }
        ensures { drop result (lines_in self.now)
            ≡ expansion.behind (block.placed self.now.name self.now.number line.now.line) (drop (suc place) (lines_in self.now)) }
    {
        if !line.key().is_opening() {
            return place + 1;
        }
        self.close(place).saturating_add(1)
    }
}

impl Expander {
    ghost use Rattle.form_preproc.specs.Machine.{state_of, calls_of, line_of, after_of, calls_behind, behind_place};
    ghost use Rattle.form_preproc.specs.Sources.{lines_in};
    ghost use Rattle.form_preproc.specs.Frames.{running};
    ghost use Rattle.form_preproc.specs.Stepping.{IsStepped, IsRun, IsFollowed, rank, weights};

    /// The lines of a file, before the first acts.
    pub fn new(alloc: Global, file: Name, source: Source) -> Result<Expander, AllocError>
        ensures begun { IfOk result (λ x. (state_of x.machine ≡ expansion.begun file)
            × (running x.frames (calls_of x.machine) ≡ record { lines = lines_in source; after = expansion.branch; depth = 0 } ∷ [])) }
        ensures plain { IfOk result (λ x. ExpanderIsPlain x) }
        ensures shallow { IfOk result (λ x. AreShallow x.frames) }
    {
        let machine = Machine::new(alloc, file)?;
        let source = Rc::new(alloc, source).map_err(AllocError::from)?;
        let entry = Entry {
            source,
            place: 0,
            after: After::Branch,
        };
        let mut frames = Stack::new(alloc);
        frames.push(Frame { entry, depth: 0 })?;
        Ok(Expander { machine, frames })
    }

    /// Lets lines act until one ends the program, or until all have acted; answers whether one did.
    pub fn run<L: Library>(&mut self, alloc: Global, library: &mut L) -> Result<bool, ExpandError>
        requires { AreShallow self.old.frames }
        ensures ran { IfSome (L.texts library.old) (λ texts. IsRun texts self.old result self.new) }
        ensures failed { result ≡ Err ExpandError.Library → HasRisen (L.faults library.old) (L.faults library.new) }
        ensures not_risen { result ≢ Err ExpandError.Library → L.faults library.new ≡ L.faults library.old }
        ensures never_falls { L.faults library.old ≤ L.faults library.new }
        ensures same_texts { L.texts library.new ≡ L.texts library.old }
        ensures plain { ExpanderIsPlain self.old → OnOk result (ExpanderIsPlain self.new) }
    {
        loop {
            match self.step(alloc, library) {
                Ok(Step::Goes) => {}
                Ok(Step::Ends) => return Ok(true),
                Ok(Step::Over) => return Ok(false),
                Err(error) => return Err(error),
            }
        }
    }

    /// How many calls are open.
    fn depth(&self) -> usize
        ensures { result ≡ depth_now self.now.frames }
    {
        match self.frames.top() {
            Some(frame) => frame.depth,
            None => 0,
        }
    }

    /// Lets lines act first that a line asks for.
    fn push_entry(&mut self, entry: Entry) -> Result<(), AllocError>
        requires { AreShallow self.old.frames }
        ensures { OnOk result (self.new ≡ record {
          machine = self.old.machine;
          frames = record { entry = entry; depth = depth_inside entry.after (depth_now self.old.frames) } ∷ self.old.frames;
        }) }
    {
        let depth = entry.after.depth_in(self.depth());
        self.frames.push(Frame { entry, depth })?;
        // the number of frames fits, and so does a depth
        let _ = self.frames.len();
        Ok(())
    }

    fn follow(&mut self, action: Action) -> Result<Step, ExpandError>
        requires { AreShallow self.old.frames }
        ensures { IsFollowed self.old action result self.new }
    {
        match action {
            Action::Goes => Ok(Step::Goes),
            Action::Ends => Ok(Step::Ends),
            Action::Enters(entry) => match self.push_entry(entry) {
                Ok(()) => Ok(Step::Goes),
                Err(_) => Err(ExpandError::Stopped(StopError::Memory)),
            },
        }
    }

    /// Lets a line act, with what follows it behind.
    fn act<L: Library>(
        &mut self,
        alloc: Global,
        library: &mut L,
        entry: Entry,
        depth: usize,
        source: &Rc<Source>,
        place: usize,
        line: &SourceLine,
    ) -> Result<Step, ExpandError>
        requires within { place < length source.now.value.lines.items }
        requires opens { block.is_closer line.now.key ≡ false }
        requires behind { drop entry.place (lines_in entry.source.value) ≡ expansion.behind (line_of source.now.value line.now) (behind_place source.now.value place) }
        requires deep { depth ≤ suc (length self.old.frames) }
        requires shallow { AreShallow self.old.frames }
        ensures stepped { IfSome (L.texts library.old) (λ texts. IsStepped texts
            (record { lines = line_of source.now.value line.now ∷ behind_place source.now.value place; after = after_of entry.after (first_heights (calls_of self.old.machine)); depth = depth }
            ∷ running self.old.frames (calls_behind entry.after (calls_of self.old.machine))) (state_of self.old.machine) result self.new) }
        ensures smaller { OnOk result (rank self.new < left self.old.machine.acted + weight_of entry.after + weights self.old.frames) }
        ensures failed { result ≡ Err ExpandError.Library → HasRisen (L.faults library.old) (L.faults library.new) }
        ensures not_risen { result ≢ Err ExpandError.Library → L.faults library.new ≡ L.faults library.old }
        ensures never_falls { L.faults library.old ≤ L.faults library.new }
        ensures same_texts { L.texts library.new ≡ L.texts library.old }
        ensures plain { AfterIsPlain entry.after → ExpanderIsPlain self.old → OnOk result (ExpanderIsPlain self.new) }
        ensures shallow { OnOk result (AreShallow self.new.frames) }
    {
        if let Err(_) = self.frames.push(Frame { entry, depth }) {
            return Err(ExpandError::Stopped(StopError::Memory));
        }
        match self.machine.act(alloc, library, depth, source, place, line) {
            Ok(action) => self.follow(action),
            Err(error) => Err(error),
        }
    }

    /// Does what follows lines that have acted.
    fn resume(&mut self, alloc: Global, after: After) -> Result<Step, ExpandError>
        requires { AreShallow self.old.frames }
        ensures stepped { (texts : Texts) (lines : List block.Line) (depth : ℕ) → expansion.is_over lines ≡ true → IsStepped texts
            (record { lines = lines; after = after_of after (first_heights (calls_of self.old.machine)); depth = depth }
            ∷ running self.old.frames (calls_behind after (calls_of self.old.machine))) (state_of self.old.machine) result self.new }
        ensures smaller { OnOk result (rank self.new < left self.old.machine.acted + weight_of after + weights self.old.frames) }
        ensures no_fault { result ≢ Err ExpandError.Library }
        ensures plain { AfterIsPlain after → ExpanderIsPlain self.old → OnOk result (ExpanderIsPlain self.new) }
        ensures shallow { OnOk result (AreShallow self.new.frames) }
    {
        match self.machine.resume(alloc, after) {
            Ok(action) => self.follow(action),
            Err(stop) => Err(ExpandError::Stopped(stop)),
        }
    }

    /// Lets one line act, or does what follows lines that have acted.
    pub fn step<L: Library>(&mut self, alloc: Global, library: &mut L) -> Result<Step, ExpandError>
        requires { AreShallow self.old.frames }
        ensures stepped { IfSome (L.texts library.old) (λ texts. IsStepped texts (running self.old.frames (calls_of self.old.machine)) (state_of self.old.machine) result self.new) }
        ensures smaller { result ≡ Ok Step.Goes → rank self.new < rank self.old }
        ensures failed { result ≡ Err ExpandError.Library → HasRisen (L.faults library.old) (L.faults library.new) }
        ensures not_risen { result ≢ Err ExpandError.Library → L.faults library.new ≡ L.faults library.old }
        ensures never_falls { L.faults library.old ≤ L.faults library.new }
        ensures same_texts { L.texts library.new ≡ L.texts library.old }
        ensures plain { ExpanderIsPlain self.old → OnOk result (ExpanderIsPlain self.new) }
        ensures shallow { OnOk result (AreShallow self.new.frames) }
    {
        let Some(frame) = self.frames.pop() else {
            return Ok(Step::Over);
        };
        let Frame { entry, depth } = frame;
        let Entry {
            source,
            place,
            after,
        } = entry;
        let Some(line) = source.line(place) else {
            return self.resume(alloc, after);
        };
        if line.key().is_closer() {
            return self.resume(alloc, after);
        }
        let entry = Entry {
            source: source.clone()?,
            place: source.behind(place, line),
            after,
        };
        self.act(alloc, library, entry, depth, &source, place, line)
    }
}
