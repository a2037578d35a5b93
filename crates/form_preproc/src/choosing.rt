//! Branches: the first that holds.

ghost use Rattle.std.specs.Prelude.{◌≡◌, ◌<◌, ◌≤◌, List, length, is_some, Err, OnOk, IfOk, IfErr};
ghost use Rattle.form_lines.specs.Program.{most_lines};
ghost use Rattle.form_preproc.specs.Answers.{Gives};
ghost use Rattle.form_preproc.specs.Block.{Line};
ghost use Rattle.form_preproc.specs.Kept.{kept_in};
ghost use Rattle.form_preproc.specs.Plainness.{MachineIsPlain, IsPlainAction};
ghost use Rattle.form_preproc.specs.Variables.{newest};
ghost use Rattle.form_preproc.specs.Expansion as expansion;

use crate::braces::calculated;
use crate::bytes::trimmed;
use crate::error::LineError;
use crate::frame::{Action, After, Entry};
use crate::instruction::asked_name;
use crate::key::{Key, behind_key};
use crate::machine::{Machine, prepared};
use crate::putting::untouched;
use crate::source::{Source, SourceLine};
use crate::stop::{StopError, stop_of};
use crate::variables::Variables;
use form_base::Cause;
use form_calc::{CalcError, Text, holds};
use std::alloc::Global;
use std::rc::Rc;

/// Whether the condition of a line holds.
fn condition_truth(
    alloc: Global,
    variables: &Variables,
    kind: Key,
    text: &[u8],
) -> Result<bool, LineError>
    ensures { Gives result (expansion.condition_truth kind (kept_in variables.now).values text.now) }
{
    let text = prepared(alloc, variables, text)?;
    match holds(trimmed(behind_key(kind, text.as_slice()))) {
        Ok(truth) => Ok(truth),
        Err(CalcError::IllFormed) => Err(LineError::Refused(Cause::BadInstruction)),
        Err(CalcError::OutOfRange) => Err(LineError::Refused(Cause::CalcRange)),
    }
}

/// The name behind `#ifdef` or `#ifndef`.
fn variable_asked(alloc: Global, kind: Key, text: &[u8]) -> Result<Text, LineError>
    ensures { Gives result (expansion.variable_asked kind text.now) }
{
    let text = untouched(alloc, text)?;
    let text = calculated(alloc, text.as_slice())?;
    match asked_name(trimmed(behind_key(kind, text.as_slice()))) {
        Some(name) => Ok(Text::from_slice(alloc, name)?),
        None => Err(LineError::Refused(Cause::BadInstruction)),
    }
}

fn has_value(variables: &Variables, name: &[u8]) -> bool
    ensures { result ≡ is_some (newest (kept_in variables.now).values name.now) }
{
    match variables.newest(name) {
        Some(_) => true,
        None => false,
    }
}

/// Whether the condition of a line holds, or its variable has a value, or hasn't.
fn truth_at(alloc: Global, variables: &Variables, kind: Key, text: &[u8]) -> Result<bool, LineError>
    ensures { Gives result (expansion.truth_at kind (kept_in variables.now).values text.now) }
{
    match kind {
        Key::Ifdef => {
            let name = variable_asked(alloc, Key::Ifdef, text)?;
            Ok(has_value(variables, name.as_slice()))
        }
        Key::Ifndef => {
            let name = variable_asked(alloc, Key::Ifndef, text)?;
            Ok(!has_value(variables, name.as_slice()))
        }
        _ => condition_truth(alloc, variables, kind, text),
    }
}

impl Machine {
    ghost use Rattle.form_preproc.specs.Machine.{state_of, calls_of, line_of, behind_place, IsDone, AreKept, Leads, IsLed};
    ghost use Rattle.form_preproc.specs.Branches.{part_request, branch_request, IsPartCounted};

    /// Whether the branch behind a line acts.
    fn judge(
        &mut self,
        alloc: Global,
        source: &Source,
        line: &SourceLine,
    ) -> Result<bool, StopError>
        ensures holds { IfOk result (λ holds. (rest : List Line) →
            expansion.testing (state_of self.old) (line_of source.now line.now) rest ≡ expansion.choosing (state_of self.new) rest holds) }
        ensures refused { IfErr result (λ stop. (rest : List Line) →
            IsDone (expansion.testing (state_of self.old) (line_of source.now line.now) rest) (Err stop) self.new) }
        ensures same { OnOk result (calls_of self.new ≡ calls_of self.old) }
        ensures counted { OnOk result ((self.old.acted < self.new.acted) × (self.new.acted ≤ most_lines)) }
        ensures plain { MachineIsPlain self.old → OnOk result (MachineIsPlain self.new) }
    {
        self.count(alloc, source, line.number())?;
        match truth_at(alloc, &self.variables, line.key(), line.text()) {
            Ok(holds) => Ok(holds),
            Err(error) => Err(stop_of(alloc, source, line.number(), error)),
        }
    }

    /// Whether a further part of a block acts, and whether it is one.
    fn judge_part(
        &mut self,
        alloc: Global,
        source: &Source,
        at: usize,
        part: &SourceLine,
    ) -> Result<Part, StopError>
        requires { self.old.acted ≤ most_lines }
        ensures meant { IfOk result (λ found. expansion.trying_at part.now.key (state_of self.old) (line_of source.now part.now) (behind_place source.now at)
            ≡ part_request (state_of self.new) (behind_place source.now at) found) }
        ensures refused { IfErr result (λ stop.
            IsDone (expansion.trying_at part.now.key (state_of self.old) (line_of source.now part.now) (behind_place source.now at)) (Err stop) self.new) }
        ensures same { OnOk result (calls_of self.new ≡ calls_of self.old) }
        ensures counted { IfOk result (λ found. IsPartCounted self.old.acted self.new.acted found) }
        ensures few { OnOk result (self.new.acted ≤ most_lines) }
        ensures plain { MachineIsPlain self.old → OnOk result (MachineIsPlain self.new) }
    {
        match part.key() {
            Key::Elseif => {
                let holds = self.judge(alloc, source, part)?;
                Ok(Part::Begins(holds))
            }
            Key::Else => Ok(Part::Begins(true)),
            _ => Ok(Part::Over),
        }
    }

    /// The place of the first line of the first branch that holds, of the block that begins with a line.
    fn branch_of(
        &mut self,
        alloc: Global,
        source: &Source,
        place: usize,
        line: &SourceLine,
    ) -> Result<Option<usize>, StopError>
        requires { place < length source.now.lines.items }
        ensures led { IfOk result (λ found. IsLed (expansion.testing (state_of self.old) (line_of source.now line.now) (behind_place source.now place)) (branch_request (state_of self.new) source.now found)) }
        ensures refused { IfErr result (λ stop. Leads (expansion.testing (state_of self.old) (line_of source.now line.now) (behind_place source.now place)) (Err stop) self.new) }
        ensures same { OnOk result (calls_of self.new ≡ calls_of self.old) }
        ensures counted { OnOk result ((self.old.acted < self.new.acted) × (self.new.acted ≤ most_lines)) }
        ensures plain { MachineIsPlain self.old → OnOk result (MachineIsPlain self.new) }
    {
        let mut holds = self.judge(alloc, source, line)?;
        let mut at = place;
        while !holds {
            at = source.closer(at);
            let Some(part) = source.line(at) else {
                return Ok(None);
            };
            let found = self.judge_part(alloc, source, at, part)?;
            match found {
                Part::Over => return Ok(None),
                Part::Begins(truth) => holds = truth,
            }
        }
        Ok(Some(at + 1))
    }

    /// Finds the first branch that holds, of the block that begins with a line.
    pub fn choose(
        &mut self,
        alloc: Global,
        source: &Rc<Source>,
        place: usize,
        line: &SourceLine,
    ) -> Result<Action, StopError>
        requires { place < length source.now.value.lines.items }
        ensures leads { Leads (expansion.testing (state_of self.old) (line_of source.now.value line.now) (behind_place source.now.value place)) result self.new }
        ensures kept { AreKept (calls_of self.old) result self.new }
        ensures counted { OnOk result ((self.old.acted < self.new.acted) × (self.new.acted ≤ most_lines)) }
        ensures plain { MachineIsPlain self.old → IsPlainAction result self.new }
    {
        match self.branch_of(alloc, source, place, line) {
            Ok(Some(place)) => Ok(Action::Enters(Entry {
                source: source.clone()?,
                place,
                after: After::Branch,
            })),
            Ok(None) => Ok(Action::Goes),
            Err(error) => Err(error),
        }
    }
}

/// What a part of a block is.
#[derive(Clone, Copy)]
pub enum Part {
    /// The block's end.
    Over,
    /// A further branch, and whether it acts.
    Begins(bool),
}
