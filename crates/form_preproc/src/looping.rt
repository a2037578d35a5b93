//! Loops, turn by turn.

ghost use Rattle.std.specs.Prelude.{◌≡◌, ◌<◌, length, drop};
ghost use Rattle.form_preproc.specs.Expansion as expansion;
ghost use Rattle.form_preproc.specs.Putting.{put_in as put_in_of};
ghost use Rattle.form_preproc.specs.Sources.{lines_in};

use crate::bytes::trimmed;
use crate::frame::{Action, After, Entry, Site, Turn};
use crate::instruction::looped;
use crate::key::{Key, behind_key};
use crate::machine::Machine;
use crate::putting::put_in;
use crate::source::{Source, SourceLine};
use crate::stop::{StopError, stop_of};
use crate::turns::{Looped, Turns};
use form_calc::Text;
use std::alloc::Global;
use std::rc::Rc;

impl Machine {
    ghost use Rattle.form_preproc.specs.Machine.{state_of, calls_of, line_of, site_place, behind_place, IsDone, AreKept, IsCounted, IsGiven};

    /// The next turn of a loop, if a value is left.
    pub fn turn(
        &mut self,
        alloc: Global,
        site: Site,
        name: Text,
        turns: Turns,
        body: usize,
    ) -> Result<Action, StopError>
        ensures done { IsDone (expansion.turning (state_of self.old) (site_place site) name turns (drop body (lines_in site.source.value))) result self.new }
        ensures kept { AreKept (calls_of self.old) result self.new }
        ensures counted { IsCounted self.old.acted result self.new.acted }
    {
        let mut turns = turns;
        let Some(value) = turns.next(alloc)? else {
            return Ok(Action::Goes);
        };
        self.count(alloc, &site.source, site.line)?;
        let height = self.variables.height(name.as_slice());
        self.variables.push(alloc, name.as_slice(), value)?;
        let source = site.source.clone()?;
        let turn = Turn {
            site,
            name,
            height,
            turns,
            body,
        };
        Ok(Action::Enters(Entry {
            source,
            place: body,
            after: After::Turn(turn),
        }))
    }

    /// What a `#do` writes.
    fn loop_at(
        &self,
        alloc: Global,
        source: &Source,
        line: &SourceLine,
    ) -> Result<Looped, StopError>
        ensures { IsGiven (expansion.place_of (line_of source.now line.now)) (expansion.loop_of (state_of self.now).values line.now.line.text) result }
    {
        let text = match put_in(alloc, &self.variables, line.text()) {
            Ok(text) => text,
            Err(error) => return Err(stop_of(alloc, source, line.number(), error)),
        };
        match looped(alloc, trimmed(behind_key(Key::Do, text.as_slice()))) {
            Ok(found) => Ok(found),
            Err(error) => Err(stop_of(alloc, source, line.number(), error)),
        }
    }

    /// Begins the loop at a place.
    pub fn begin_loop(
        &mut self,
        alloc: Global,
        source: &Rc<Source>,
        place: usize,
        line: &SourceLine,
    ) -> Result<Action, StopError>
        requires { place < length source.now.value.lines.items }
        ensures done { IsDone (expansion.looping (state_of self.old) (line_of source.now.value line.now) (behind_place source.now.value place)) result self.new }
        ensures kept { AreKept (calls_of self.old) result self.new }
        ensures counted { IsCounted self.old.acted result self.new.acted }
    {
        let found = self.loop_at(alloc, source, line)?;
        let site = Site {
            source: source.clone()?,
            line: line.number(),
        };
        self.first_turn(alloc, site, found, place + 1)
    }

    fn first_turn(
        &mut self,
        alloc: Global,
        site: Site,
        found: Looped,
        body: usize,
    ) -> Result<Action, StopError>
        ensures done { IsDone (expansion.turning (state_of self.old) (site_place site) found.name found.turns (drop body (lines_in site.source.value))) result self.new }
        ensures kept { AreKept (calls_of self.old) result self.new }
        ensures counted { IsCounted self.old.acted result self.new.acted }
    {
        let Looped { name, turns } = found;
        self.turn(alloc, site, name, turns, body)
    }
}
