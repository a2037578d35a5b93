//! What a line does when it acts.

ghost use Rattle.std.specs.Prelude.{◌≡◌, ◌≢◌, ◌≤◌, ◌<◌, ℕ, length, false, Err, OnOk, IfSome};
ghost use Rattle.form_lines.specs.Program.{most_lines};
ghost use Rattle.form_outside.specs.Faults.{HasRisen};
ghost use Rattle.form_preproc.specs.Expansion as expansion;
ghost use Rattle.form_preproc.specs.Plainness.{MachineIsPlain, IsPlainAction};

use crate::frame::Action;
use crate::key::Key;
use crate::machine::Machine;
use crate::source::{Source, SourceLine};
use crate::stop::{ExpandError, StopError};
use form_outside::Library;
use std::alloc::Global;
use std::rc::Rc;

impl Machine {
    ghost use Rattle.form_preproc.specs.Machine.{state_of, calls_of, line_of, behind_place, IsDone, IsDoneOver, AreKept, AreKeptOver, IsCounted};

    /// What a line does that asks for no text, once it is counted.
    fn act_alone(
        &mut self,
        alloc: Global,
        source: &Rc<Source>,
        place: usize,
        line: &SourceLine,
    ) -> Result<Action, StopError>
        requires { place < length source.now.value.lines.items }
        ensures done { IsDone (expansion.alone_at line.now.key (state_of self.old) (line_of source.now.value line.now) (behind_place source.now.value place)) result self.new }
        ensures kept { AreKept (calls_of self.old) result self.new }
        ensures counted { IsCounted self.old.acted result self.new.acted }
    {
        match line.key() {
            Key::Plain => self.hand_on(alloc, source, line),
            Key::Sign => self.pass(alloc, source, line),
            Key::Define => self.define(alloc, source, line),
            Key::Redefine => self.redefine(alloc, source, line),
            Key::Undefine => self.undefine(alloc, source, line),
            Key::Procedure => self.store(alloc, source, place, line),
            Key::Do => self.begin_loop(alloc, source, place, line),
            Key::Unknown => self.reject(alloc, source, line),
            _ => Ok(Action::Goes),
        }
    }

    /// What a line does once it is counted.
    fn act_counted<L: Library>(
        &mut self,
        alloc: Global,
        library: &mut L,
        depth: usize,
        source: &Rc<Source>,
        place: usize,
        line: &SourceLine,
    ) -> Result<Action, ExpandError>
        requires { place < length source.now.value.lines.items }
        ensures done { IfSome (L.texts library.old) (λ texts. IsDoneOver (expansion.acting_at line.now.key texts depth (state_of self.old) (line_of source.now.value line.now) (behind_place source.now.value place)) result self.new) }
        ensures kept { AreKeptOver (calls_of self.old) result self.new }
        ensures counted { OnOk result ((self.old.acted ≤ self.new.acted) × (self.old.acted ≤ most_lines → self.new.acted ≤ most_lines)) }
        ensures failed { result ≡ Err ExpandError.Library → HasRisen (L.faults library.old) (L.faults library.new) }
        ensures not_risen { result ≢ Err ExpandError.Library → L.faults library.new ≡ L.faults library.old }
        ensures never_falls { L.faults library.old ≤ L.faults library.new }
        ensures same_texts { L.texts library.new ≡ L.texts library.old }
        ensures plain { MachineIsPlain self.old → IsPlainAction result self.new }
    {
        match line.key() {
            Key::Call => self.call(alloc, library, depth, source, line),
            Key::Include => self.include(alloc, library, depth, source, line),
            _ => match self.act_alone(alloc, source, place, line) {
                Ok(action) => Ok(action),
                Err(stop) => Err(ExpandError::Stopped(stop)),
            },
        }
    }
}

impl Machine {
    ghost use Rattle.form_preproc.specs.Machine.{state_of, calls_of, line_of, behind_place, LeadsOver, AreKeptOver};

    /// Lets a line act, or begins the block that it opens.
    pub fn act<L: Library>(
        &mut self,
        alloc: Global,
        library: &mut L,
        depth: usize,
        source: &Rc<Source>,
        place: usize,
        line: &SourceLine,
    ) -> Result<Action, ExpandError>
        requires { place < length source.now.value.lines.items }
        ensures leads { IfSome (L.texts library.old) (λ texts. LeadsOver texts depth (expansion.requested_at line.now.key texts depth (state_of self.old) (line_of source.now.value line.now) (behind_place source.now.value place)) result self.new) }
        ensures kept { AreKeptOver (calls_of self.old) result self.new }
        ensures counted { OnOk result ((self.old.acted < self.new.acted) × (self.new.acted ≤ most_lines)) }
        ensures failed { result ≡ Err ExpandError.Library → HasRisen (L.faults library.old) (L.faults library.new) }
        ensures not_risen { result ≢ Err ExpandError.Library → L.faults library.new ≡ L.faults library.old }
        ensures never_falls { L.faults library.old ≤ L.faults library.new }
        ensures same_texts { L.texts library.new ≡ L.texts library.old }
        ensures plain { MachineIsPlain self.old → IsPlainAction result self.new }
    {
        match line.key() {
            Key::If | Key::Ifdef | Key::Ifndef => match self.choose(alloc, source, place, line) {
                Ok(action) => Ok(action),
                Err(stop) => Err(ExpandError::Stopped(stop)),
            },
            _ => {
                self.count(alloc, source, line.number())?;
                self.act_counted(alloc, library, depth, source, place, line)
            }
        }
    }
}
