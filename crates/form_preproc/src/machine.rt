//! What is kept while lines act.

ghost use Rattle.std.specs.Prelude.{◌≡◌, ◌<◌, suc, length, nat_le, true, false, [], OnOk, IfOk, IfErr};
ghost use Rattle.form_base.specs.declared.cause.Cause.TheVariants.{LineLimit, BadInstruction};
ghost use Rattle.form_lines.specs.Program.{most_lines, begins_with_end as begins_with_end_of};
ghost use Rattle.form_preproc.specs.Answers.{Gives};
ghost use Rattle.form_preproc.specs.Bytes.{trimmed as trimmed_of};
ghost use Rattle.form_preproc.specs.Expansion as expansion;
ghost use Rattle.form_preproc.specs.Instruction as instruction;
ghost use Rattle.form_preproc.specs.Kept.{kept_in};
ghost use Rattle.form_preproc.specs.Stops.{IsStop};

use crate::braces::calculated;
use crate::bytes::{after_blanks, has_byte, is_name, trimmed};
use crate::error::{LineError, PartError};
use crate::frame::Action;
use crate::handed::Handed;
use crate::instruction::{Head, definition, procedure_head};
use crate::key::behind_key;
use crate::laws::braces_calculated;
use crate::procedures::{Procedure, Procedures};
use crate::putting::put_in;
use crate::source::{Source, SourceLine};
use crate::stop::{StopError, refused, stop_of};
use crate::variables::Variables;
use form_base::{Cause, Name, Spot};
use form_calc::{Row, Text};
use std::alloc::{AllocError, Global};
use std::rc::Rc;

/// What stands while lines act.
#[derive(Drop)]
pub struct Machine {
    pub variables: Variables,
    pub procedures: Procedures,
    /// The names of the texts that were taken up.
    pub names: Row<Name>,
    /// How many lines and turns acted.
    pub acted: usize,
    pub handed: Row<Handed>,
}

/// The most lines and turns that may act.
const MOST_LINES: usize = 1_000_000;

/// Variables are put in, and then braces are calculated.
pub fn prepared(alloc: Global, variables: &Variables, text: &[u8]) -> Result<Text, LineError>
    ensures { Gives result (expansion.prepared (kept_in variables.now).values text.now) }
{
    let text = put_in(alloc, variables, text)?;
    braces_calculated();
    if !has_byte(text.as_slice(), b'}') {
        return Ok(text);
    }
    calculated(alloc, text.as_slice())
}

impl Machine {
    ghost use Rattle.form_preproc.specs.Machine.{state_of, calls_of, line_of, behind_place, IsDone, AreKept, IsCounted, IsGiven};

    /// Nothing is defined, and the file of this name is the one text.
    pub fn new(alloc: Global, file: Name) -> Result<Machine, AllocError>
        ensures begun { IfOk result (λ m. state_of m ≡ expansion.begun file) }
        ensures calls { IfOk result (λ m. calls_of m ≡ []) }
    {
        let mut names = Row::new(alloc);
        names.push(file)?;
        Ok(Machine {
            variables: Variables::new(alloc),
            procedures: Procedures::new(alloc),
            names,
            acted: 0,
            handed: Row::new(alloc),
        })
    }

    /// Counts a line or a turn.
    pub fn count(&mut self, alloc: Global, source: &Source, line: u32) -> Result<(), StopError>
        ensures counted { OnOk result ((nat_le most_lines self.old.acted ≡ false) × (self.new ≡ record self.old { acted = suc self.old.acted })) }
        ensures refused { IfErr result (λ error. (nat_le most_lines self.old.acted ≡ true)
            × IsStop error (expansion.refused LineLimit (record { file = source.now.name; line = line }))) }
    {
        if self.acted >= MOST_LINES {
            return Err(refused(alloc, source, line, Cause::LineLimit));
        }
        self.acted += 1;
        Ok(())
    }

    /// The text of a line with its variables and calculations.
    pub fn prepare(
        &self,
        alloc: Global,
        source: &Source,
        line: &SourceLine,
    ) -> Result<Text, StopError>
        ensures { IsGiven (expansion.place_of (line_of source.now line.now)) (expansion.prepared (state_of self.now).values line.now.line.text) result }
    {
        match prepared(alloc, &self.variables, line.text()) {
            Ok(text) => Ok(text),
            Err(error) => Err(stop_of(alloc, source, line.number(), error)),
        }
    }

    /// Hands a line on.
    pub fn hand_on(
        &mut self,
        alloc: Global,
        source: &Source,
        line: &SourceLine,
    ) -> Result<Action, StopError>
        ensures done { IsDone (expansion.given (expansion.place_of (line_of source.now line.now)) (expansion.prepared (state_of self.old).values line.now.line.text)
            (expansion.handed_on (state_of self.old) (line_of source.now line.now))) result self.new }
        ensures kept { AreKept (calls_of self.old) result self.new }
        ensures counted { IsCounted self.old.acted result self.new.acted }
    {
        let text = self.prepare(alloc, source, line)?;
        let is_end = begins_with_end(after_blanks(text.as_slice()));
        let spot = Spot {
            text: source.number(),
            line: line.number(),
        };
        self.handed.push(Handed { spot, text })?;
        if is_end {
            Ok(Action::Ends)
        } else {
            Ok(Action::Goes)
        }
    }

    /// `#-` and `#+`.
    pub fn pass(
        &mut self,
        alloc: Global,
        source: &Source,
        line: &SourceLine,
    ) -> Result<Action, StopError>
        ensures done { IsDone (expansion.instructed (state_of self.old) (line_of source.now line.now)
            (λ text. expansion.nothing_behind (state_of self.old) (expansion.place_of (line_of source.now line.now)) (trimmed_of text))) result self.new }
        ensures kept { AreKept (calls_of self.old) result self.new }
        ensures counted { IsCounted self.old.acted result self.new.acted }
    {
        let text = self.prepare(alloc, source, line)?;
        match trimmed(behind_key(line.key(), text.as_slice())) {
            [] => Ok(Action::Goes),
            [_, ..] => Err(refused(alloc, source, line.number(), Cause::BadInstruction)),
        }
    }

    pub fn define(
        &mut self,
        alloc: Global,
        source: &Source,
        line: &SourceLine,
    ) -> Result<Action, StopError>
        ensures done { IsDone (expansion.instructed (state_of self.old) (line_of source.now line.now)
            (λ text. expansion.formed (expansion.place_of (line_of source.now line.now)) (instruction.definition (trimmed_of text)) (expansion.defined (state_of self.old)))) result self.new }
        ensures kept { AreKept (calls_of self.old) result self.new }
        ensures counted { IsCounted self.old.acted result self.new.acted }
    {
        let text = self.prepare(alloc, source, line)?;
        match definition(trimmed(behind_key(line.key(), text.as_slice()))) {
            Some((name, value)) => {
                let value = Text::from_slice(alloc, value)?;
                self.variables.push(alloc, name, value)?;
                Ok(Action::Goes)
            }
            None => Err(refused(alloc, source, line.number(), Cause::BadInstruction)),
        }
    }

    pub fn redefine(
        &mut self,
        alloc: Global,
        source: &Source,
        line: &SourceLine,
    ) -> Result<Action, StopError>
        ensures done { IsDone (expansion.instructed (state_of self.old) (line_of source.now line.now)
            (λ text. expansion.formed (expansion.place_of (line_of source.now line.now)) (instruction.definition (trimmed_of text)) (expansion.redefined (state_of self.old)))) result self.new }
        ensures kept { AreKept (calls_of self.old) result self.new }
        ensures counted { IsCounted self.old.acted result self.new.acted }
    {
        let text = self.prepare(alloc, source, line)?;
        match definition(trimmed(behind_key(line.key(), text.as_slice()))) {
            Some((name, value)) => {
                let value = Text::from_slice(alloc, value)?;
                self.variables.pop(name);
                self.variables.push(alloc, name, value)?;
                Ok(Action::Goes)
            }
            None => Err(refused(alloc, source, line.number(), Cause::BadInstruction)),
        }
    }

    pub fn undefine(
        &mut self,
        alloc: Global,
        source: &Source,
        line: &SourceLine,
    ) -> Result<Action, StopError>
        ensures done { IsDone (expansion.instructed (state_of self.old) (line_of source.now line.now)
            (λ text. expansion.undefined (state_of self.old) (expansion.place_of (line_of source.now line.now)) (trimmed_of text))) result self.new }
        ensures kept { AreKept (calls_of self.old) result self.new }
        ensures counted { IsCounted self.old.acted result self.new.acted }
    {
        let text = self.prepare(alloc, source, line)?;
        let name = trimmed(behind_key(line.key(), text.as_slice()));
        if is_name(name) {
            self.variables.pop(name);
            Ok(Action::Goes)
        } else {
            Err(refused(alloc, source, line.number(), Cause::BadInstruction))
        }
    }

    /// A line that begins with `#` and has no keyword.
    pub fn reject(
        &mut self,
        alloc: Global,
        source: &Source,
        line: &SourceLine,
    ) -> Result<Action, StopError>
        ensures done { IsDone (expansion.instructed (state_of self.old) (line_of source.now line.now)
            (λ text. expansion.stopped (expansion.place_of (line_of source.now line.now)) BadInstruction)) result self.new }
        ensures kept { AreKept (calls_of self.old) result self.new }
        ensures counted { IsCounted self.old.acted result self.new.acted }
    {
        let _ = self.prepare(alloc, source, line)?;
        Err(refused(alloc, source, line.number(), Cause::BadInstruction))
    }

    /// Stores the procedure that begins at a place.
    pub fn store(
        &mut self,
        alloc: Global,
        source: &Rc<Source>,
        place: usize,
        line: &SourceLine,
    ) -> Result<Action, StopError>
        requires { place < length source.now.value.lines.items }
        ensures done { IsDone (expansion.instructed (state_of self.old) (line_of source.now.value line.now)
            (λ text. expansion.formed (expansion.place_of (line_of source.now.value line.now)) (instruction.procedure_head (trimmed_of text))
            (expansion.storing (state_of self.old) (behind_place source.now.value place)))) result self.new }
        ensures kept { AreKept (calls_of self.old) result self.new }
        ensures counted { IsCounted self.old.acted result self.new.acted }
    {
        let text = self.prepare(alloc, source, line)?;
        match procedure_head(alloc, trimmed(behind_key(line.key(), text.as_slice()))) {
            Ok(Head { name, parts }) => {
                let procedure = Procedure {
                    parameters: parts,
                    source: source.clone()?,
                    place: place + 1,
                };
                self.procedures.insert(alloc, name.as_slice(), procedure)?;
                Ok(Action::Goes)
            }
            Err(PartError::IllFormed) => Err(refused(
                alloc,
                source,
                line.number(),
                Cause::BadInstruction,
            )),
            Err(PartError::NoMemory) => Err(StopError::Memory),
        }
    }
}

/// Whether a text begins with `.end`, in any case of letters.
fn begins_with_end(text: &[u8]) -> bool
    ensures { result ≡ begins_with_end_of text.now }
{
    text.len() >= 4 && text[..4].eq_ignore_ascii_case(b".end")
}
