//! Calls of procedures, and texts that are included.

ghost use Rattle.std.specs.Prelude.{◌≡◌, ◌≢◌, ◌≤◌, ◌++◌, codes, length, None, Some, Ok, Err, OnOk, IfOk, IfSome};
ghost use Rattle.form_base.specs.declared.cause.Cause.TheVariants.{UnknownProcedure, MissingText};
ghost use Rattle.form_outside.specs.Faults.{HasRisen};
ghost use Rattle.form_preproc.specs.Bytes.{trimmed as trimmed_of};
ghost use Rattle.form_preproc.specs.Expansion as expansion;
ghost use Rattle.form_preproc.specs.Instruction as instruction;
ghost use Rattle.form_preproc.specs.Kept.{kept_in};
ghost use Rattle.form_preproc.specs.PlainTexts.{ArePlain};
ghost use Rattle.form_preproc.specs.Plainness.{MachineIsPlain, IsPlainAction};
ghost use Rattle.form_preproc.specs.Stops.{IsStopIn};
ghost use Rattle.form_preproc.specs.Variables.{first_heights, other_calls};

use crate::bytes::trimmed;
use crate::error::PartError;
use crate::frame::{Action, After, Entry, Fetched, Site};
use crate::instruction::{Head, call_head, included_name, without_empty};
use crate::key::behind_key;
use crate::machine::Machine;
use crate::source::{Source, SourceError, SourceLine};
use crate::stop::{ExpandError, StopError, refused};
use crate::variables::{Variables, name_of};
use form_base::Cause;
use form_calc::{Row, Stack, Text};
use form_outside::{Library, LibraryErr};
use std::alloc::{AllocError, Global};
use std::rc::Rc;

/// The most bytes that a text may have.
const LONGEST_TEXT: u64 = 16_777_216;
/// The most calls and included texts that may be open.
const MOST_CALLS: usize = 64;

/// Gives each parameter its argument.
#[tactic(auto, unfolding(crate::specs::Expansion::with_arguments))]
fn give_arguments(
    alloc: Global,
    variables: &mut Variables,
    parameters: &[Text],
    arguments: Row<Text>,
) -> Result<(), AllocError>
    ensures given { OnOk result (kept_in variables.new ≡ record {
      values = expansion.with_arguments (kept_in variables.old).values parameters.now arguments;
      calls = (kept_in variables.old).calls;
    }) }
{
    let mut arguments: Stack<Text> = arguments.into_stack();
    for parameter in parameters {
        let Some(argument) = arguments.pop() else {
            return Ok(());
        };
        variables.push(alloc, parameter.as_slice(), argument)?;
    }
    Ok(())
}

/// The arguments of a procedure: empty parentheses are none where it has no parameters.
fn fitting(alloc: Global, parameters: &[Text], arguments: Row<Text>) -> Row<Text>
    ensures { result ≡ expansion.fitting parameters.now arguments }
{
    match parameters {
        [] => without_empty(alloc, arguments),
        [_, ..] => arguments,
    }
}

impl Machine {
    ghost use Rattle.form_preproc.specs.Machine.{state_of, calls_of, line_of, site_place, IsDone, IsDoneOver, AreKept, AreKeptOver, IsFetchedText};

    /// Begins the body of a procedure, where its call has begun.
    pub fn enter(
        &mut self,
        alloc: Global,
        site: &Site,
        name: &[u8],
        arguments: Row<Text>,
    ) -> Result<Action, StopError>
        ensures done { IsDone (expansion.entering (state_of self.old) (site_place site.now) name.now arguments (first_heights (calls_of self.old))
            (expansion.procedure_of (state_of self.old).procedures name.now)) result self.new }
        ensures kept { AreKept (other_calls (calls_of self.old)) result self.new }
        ensures same { OnOk result (self.new.acted ≡ self.old.acted) }
    {
        let Some(procedure) = self.procedures.get(name) else {
            let name = name_of(alloc, name)?;
            return Err(refused(
                alloc,
                &site.source,
                site.line,
                Cause::UnknownProcedure(name),
            ));
        };
        let arguments = fitting(alloc, procedure.parameters.as_slice(), arguments);
        if procedure.parameters.len() != arguments.len() {
            return Err(refused(alloc, &site.source, site.line, Cause::WrongArguments));
        }
        let entry = Entry {
            source: procedure.source.clone()?,
            place: procedure.place,
            after: After::Called,
        };
        give_arguments(
            alloc,
            &mut self.variables,
            procedure.parameters.as_slice(),
            arguments,
        )?;
        Ok(Action::Enters(entry))
    }
}

/// The refusal of a line of the text of this name.
fn refused_in(alloc: Global, name: &[u8], cause: Cause, line: u32) -> StopError
    ensures { IsStopIn name.now cause line result }
{
    match name_of(alloc, name) {
        Ok(name) => StopError::Refused(cause, name, line),
        Err(_) => StopError::Memory,
    }
}

impl Machine {
    ghost use Rattle.form_preproc.specs.Machine.{state_of, calls_of, line_of, site_place, IsDone, IsDoneOver, AreKept, AreKeptOver, IsFetchedText, IsTakenText};

    /// Takes up a text that was fetched.
    fn take_text(&mut self, alloc: Global, name: &[u8], bytes: &[u8]) -> Result<Source, StopError>
        requires { length bytes.now ≤ expansion.longest_text }
        ensures taken { IsTakenText (state_of self.old) name.now bytes.now result self.new }
        ensures same { (self.new.variables ≡ self.old.variables) × (self.new.acted ≡ self.old.acted) }
        ensures same_lines { self.new.handed ≡ self.old.handed }
    {
        let Ok(number) = u32::try_from(self.names.len()) else {
            return Err(StopError::Memory);
        };
        self.names.push(name_of(alloc, name)?)?;
        match Source::take_up(alloc, name_of(alloc, name)?, number, bytes) {
            Ok(source) => Ok(source),
            Err(SourceError::Refused(cause, line)) => Err(refused_in(alloc, name, cause, line)),
            Err(SourceError::NoMemory) => Err(StopError::Memory),
        }
    }

    /// Fetches a text and takes it up, none where there is none of that name.
    fn fetch<L: Library>(
        &mut self,
        alloc: Global,
        library: &mut L,
        name: &[u8],
    ) -> Result<Option<Source>, ExpandError>
        ensures found { IfSome (L.texts library.old) (λ texts. IsFetchedText texts (state_of self.old) name.now result self.new) }
        ensures same { (self.new.variables ≡ self.old.variables) × (self.new.acted ≡ self.old.acted) }
        ensures failed { result ≡ Err ExpandError.Library → HasRisen (L.faults library.old) (L.faults library.new) }
        ensures not_risen { result ≢ Err ExpandError.Library → L.faults library.new ≡ L.faults library.old }
        ensures never_falls { L.faults library.old ≤ L.faults library.new }
        ensures same_texts { L.texts library.new ≡ L.texts library.old }
        ensures same_lines { self.new.handed ≡ self.old.handed }
    {
        let text = name_of(alloc, name)?;
        match library.fetch(alloc, text.as_str(), LONGEST_TEXT) {
            Ok(Some(bytes)) => match self.take_text(alloc, name, &bytes) {
                Ok(source) => Ok(Some(source)),
                Err(stop) => Err(ExpandError::Stopped(stop)),
            },
            Ok(None) => Ok(None),
            Err(LibraryErr::TooLong) => Err(ExpandError::Stopped(StopError::TooLong(text))),
            Err(LibraryErr::Failed) => Err(ExpandError::Library),
            Err(LibraryErr::Memory) => Err(ExpandError::Stopped(StopError::Memory)),
        }
    }

    /// Fetches the text of a procedure, which acts before the procedure is looked for again.
    fn fetch_procedure<L: Library>(
        &mut self,
        alloc: Global,
        library: &mut L,
        site: Site,
        head: Head,
    ) -> Result<Action, ExpandError>
        ensures done { IfSome (L.texts library.old) (λ texts. IsDoneOver (expansion.fetching texts (state_of self.old) (head.name ++ codes ".prc")
            (expansion.stopped (site_place site) (UnknownProcedure head.name)) (expansion.fetched (site_place site) head.name head.parts (first_heights (calls_of self.old)))) result self.new) }
        ensures kept { AreKeptOver (other_calls (calls_of self.old)) result self.new }
        ensures counted { OnOk result (self.new.acted ≡ self.old.acted) }
        ensures failed { result ≡ Err ExpandError.Library → HasRisen (L.faults library.old) (L.faults library.new) }
        ensures not_risen { result ≢ Err ExpandError.Library → L.faults library.new ≡ L.faults library.old }
        ensures never_falls { L.faults library.old ≤ L.faults library.new }
        ensures same_texts { L.texts library.new ≡ L.texts library.old }
        ensures plain { ArePlain head.parts → MachineIsPlain self.old → IsPlainAction result self.new }
    {
        let Head { name, parts } = head;
        let file = procedure_file(alloc, &name)?;
        match self.fetch(alloc, library, file.as_slice()) {
            Ok(Some(source)) => {
                let source = Rc::new(alloc, source).map_err(AllocError::from)?;
                Ok(Action::Enters(Entry {
                    source,
                    place: 0,
                    after: After::Fetched(Fetched {
                        site,
                        name,
                        arguments: parts,
                    }),
                }))
            }
            Ok(None) => {
                let name = name_of(alloc, name.as_slice())?;
                Err(ExpandError::Stopped(refused(
                    alloc,
                    &site.source,
                    site.line,
                    Cause::UnknownProcedure(name),
                )))
            }
            Err(failure) => Err(failure),
        }
    }

    fn call_stored(&mut self, alloc: Global, site: &Site, head: Head) -> Result<Action, StopError>
        ensures done { IsDone (expansion.entering (state_of self.old) (site_place site.now) head.name head.parts (first_heights (calls_of self.old))
            (expansion.procedure_of (state_of self.old).procedures head.name)) result self.new }
        ensures kept { AreKept (other_calls (calls_of self.old)) result self.new }
        ensures counted { OnOk result (self.new.acted ≡ self.old.acted) }
        ensures plain { ArePlain head.parts → MachineIsPlain self.old → IsPlainAction result self.new }
    {
        let Head { name, parts } = head;
        self.enter(alloc, site, name.as_slice(), parts)
    }

    /// Calls a procedure.
    fn call_procedure<L: Library>(
        &mut self,
        alloc: Global,
        library: &mut L,
        depth: usize,
        site: Site,
        head: Head,
    ) -> Result<Action, ExpandError>
        ensures done { IfSome (L.texts library.old) (λ texts. IsDoneOver (expansion.calling texts depth (state_of self.old) (site_place site) head) result self.new) }
        ensures kept { AreKeptOver (calls_of self.old) result self.new }
        ensures counted { OnOk result (self.new.acted ≡ self.old.acted) }
        ensures failed { result ≡ Err ExpandError.Library → HasRisen (L.faults library.old) (L.faults library.new) }
        ensures not_risen { result ≢ Err ExpandError.Library → L.faults library.new ≡ L.faults library.old }
        ensures never_falls { L.faults library.old ≤ L.faults library.new }
        ensures same_texts { L.texts library.new ≡ L.texts library.old }
        ensures plain { ArePlain head.parts → MachineIsPlain self.old → IsPlainAction result self.new }
    {
        if depth >= MOST_CALLS {
            return Err(ExpandError::Stopped(refused(
                alloc,
                &site.source,
                site.line,
                Cause::CallDepth,
            )));
        }
        self.variables.begin_call(alloc)?;
        if self.procedures.contains(head.name.as_slice()) {
            return match self.call_stored(alloc, &site, head) {
                Ok(action) => Ok(action),
                Err(stop) => Err(ExpandError::Stopped(stop)),
            };
        }
        self.fetch_procedure(alloc, library, site, head)
    }

    /// `#call`.
    pub fn call<L: Library>(
        &mut self,
        alloc: Global,
        library: &mut L,
        depth: usize,
        source: &Rc<Source>,
        line: &SourceLine,
    ) -> Result<Action, ExpandError>
        ensures done { IfSome (L.texts library.old) (λ texts. IsDoneOver (expansion.instructed (state_of self.old) (line_of source.now.value line.now)
            (λ text. expansion.formed (expansion.place_of (line_of source.now.value line.now)) (instruction.call_head (trimmed_of text))
            (expansion.calling texts depth (state_of self.old) (expansion.place_of (line_of source.now.value line.now))))) result self.new) }
        ensures kept { AreKeptOver (calls_of self.old) result self.new }
        ensures counted { OnOk result (self.new.acted ≡ self.old.acted) }
        ensures failed { result ≡ Err ExpandError.Library → HasRisen (L.faults library.old) (L.faults library.new) }
        ensures not_risen { result ≢ Err ExpandError.Library → L.faults library.new ≡ L.faults library.old }
        ensures never_falls { L.faults library.old ≤ L.faults library.new }
        ensures same_texts { L.texts library.new ≡ L.texts library.old }
        ensures plain { MachineIsPlain self.old → IsPlainAction result self.new }
    {
        let text = self.prepare(alloc, source, line)?;
        match call_head(alloc, trimmed(behind_key(line.key(), text.as_slice()))) {
            Ok(head) => {
                let site = Site {
                    source: source.clone()?,
                    line: line.number(),
                };
                self.call_procedure(alloc, library, depth, site, head)
            }
            Err(PartError::IllFormed) => Err(ExpandError::Stopped(refused(
                alloc,
                source,
                line.number(),
                Cause::BadInstruction,
            ))),
            Err(PartError::NoMemory) => Err(ExpandError::Stopped(StopError::Memory)),
        }
    }

    /// Includes a text of this name.
    fn include_text<L: Library>(
        &mut self,
        alloc: Global,
        library: &mut L,
        depth: usize,
        source: &Source,
        line: u32,
        name: &[u8],
    ) -> Result<Action, ExpandError>
        ensures done { IfSome (L.texts library.old) (λ texts. IsDoneOver (expansion.including texts depth (state_of self.old) (record { file = source.now.name; line = line }) name.now) result self.new) }
        ensures kept { AreKeptOver (calls_of self.old) result self.new }
        ensures counted { OnOk result (self.new.acted ≡ self.old.acted) }
        ensures failed { result ≡ Err ExpandError.Library → HasRisen (L.faults library.old) (L.faults library.new) }
        ensures not_risen { result ≢ Err ExpandError.Library → L.faults library.new ≡ L.faults library.old }
        ensures never_falls { L.faults library.old ≤ L.faults library.new }
        ensures same_texts { L.texts library.new ≡ L.texts library.old }
        ensures plain { MachineIsPlain self.old → IsPlainAction result self.new }
    {
        if depth >= MOST_CALLS {
            return Err(ExpandError::Stopped(refused(alloc, source, line, Cause::CallDepth)));
        }
        match self.fetch(alloc, library, name) {
            Ok(Some(text)) => {
                let source = Rc::new(alloc, text).map_err(AllocError::from)?;
                Ok(Action::Enters(Entry {
                    source,
                    place: 0,
                    after: After::Included,
                }))
            }
            Ok(None) => {
                let name = name_of(alloc, name)?;
                Err(ExpandError::Stopped(refused(alloc, source, line, Cause::MissingText(name))))
            }
            Err(error) => Err(error),
        }
    }

    /// `#include`.
    pub fn include<L: Library>(
        &mut self,
        alloc: Global,
        library: &mut L,
        depth: usize,
        source: &Source,
        line: &SourceLine,
    ) -> Result<Action, ExpandError>
        ensures done { IfSome (L.texts library.old) (λ texts. IsDoneOver (expansion.instructed (state_of self.old) (line_of source.now line.now)
            (λ text. expansion.formed (expansion.place_of (line_of source.now line.now)) (instruction.included_name text)
            (expansion.including texts depth (state_of self.old) (expansion.place_of (line_of source.now line.now))))) result self.new) }
        ensures kept { AreKeptOver (calls_of self.old) result self.new }
        ensures counted { OnOk result (self.new.acted ≡ self.old.acted) }
        ensures failed { result ≡ Err ExpandError.Library → HasRisen (L.faults library.old) (L.faults library.new) }
        ensures not_risen { result ≢ Err ExpandError.Library → L.faults library.new ≡ L.faults library.old }
        ensures never_falls { L.faults library.old ≤ L.faults library.new }
        ensures same_texts { L.texts library.new ≡ L.texts library.old }
        ensures plain { MachineIsPlain self.old → IsPlainAction result self.new }
    {
        let text = self.prepare(alloc, source, line)?;
        match included_name(behind_key(line.key(), text.as_slice())) {
            Some(name) => self.include_text(alloc, library, depth, source, line.number(), name),
            None => Err(ExpandError::Stopped(refused(
                alloc,
                source,
                line.number(),
                Cause::BadInstruction,
            ))),
        }
    }
}

/// The name of a procedure's text.
fn procedure_file(alloc: Global, name: &Text) -> Result<Text, AllocError>
    ensures { IfOk result (λ file. file ≡ name.now ++ codes ".prc") }
{
    let mut file = Text::from_slice(alloc, name.as_slice())?;
    file.append(b".prc")?;
    Ok(file)
}
