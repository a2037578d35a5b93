//! The lines of a file.

ghost use Rattle.std.specs.Prelude.{◌≡◌, ◌≢◌, ◌≤◌, length, All, Err, OnOk, IfOk, IfSome};
ghost use Rattle.form_lines.specs.Text.{IsPlain};
ghost use Rattle.form_outside.specs.Faults.{HasRisen};
ghost use Rattle.form_preproc.specs.Answer.{IsMeant, IsAnswer, IsRefusal, IsLongRefusal, IsBegun, IsConcluded, ending_of};
ghost use Rattle.form_preproc.specs.Block.{taken_up};
ghost use Rattle.form_preproc.specs.Expansion.{AreExpanded, longest_text};
ghost use Rattle.form_preproc.specs.Plainness.{HandedArePlain, ExpanderIsPlain};
ghost use Rattle.form_preproc.specs.Shallow.{AreShallow};

use crate::expander::Expander;
use crate::handed::Handed;
use crate::machine::Machine;
use crate::source::{Source, SourceError};
use crate::stop::{ExpandError, StopError};
use form_base::{Cause, Name};
use form_calc::Row;
use form_lines::last_line;
use form_outside::{Library, LibraryErr};
use std::alloc::{AllocError, Global};

/// The most bytes that a text may have.
const LONGEST_TEXT: u64 = 16_777_216;

/// The lines that are handed on, and the names of the texts that their places count: that of the file, and then in the
/// order in which texts were taken up.
pub struct Expanded {
    pub lines: Row<Handed>,
    pub names: Row<Name>,
}

impl Drop for Expanded {
    fn drop(self) {
        let Expanded { lines: _, names: _ } = self;
    }
}

/// Why a file has no lines.
#[derive(Drop)]
pub enum FileError {
    /// The library has no text of its name.
    Missing,
    /// It is refused for this cause, at this line of the text of that name.
    Refused(Cause, Name, u32),
    /// The text of that name is longer than a text may be.
    TooLong(Name),
    /// The library failed.
    Library,
    Memory,
}

impl From<AllocError> for FileError {
    ghost use Rattle.std.specs.Prelude.{◌≡◌};
    ghost use Rattle.form_preproc.specs.declared.file.FileError.TheVariants.{Memory};

    ghost from_gives = { λ _ e. e ≡ Memory };

    fn from(_e: AllocError) -> FileError {
        FileError::Memory
    }
}

/// The refusal of a file at one of its lines.
fn refused_at(alloc: Global, file: &Name, cause: Cause, line: u32) -> FileError
    ensures { IsRefusal cause file.now line result }
{
    match Name::new(alloc, file.as_str()) {
        Ok(name) => FileError::Refused(cause, name, line),
        Err(_) => FileError::Memory,
    }
}

fn too_long(alloc: Global, file: &Name) -> FileError
    ensures { IsLongRefusal file.now result }
{
    match Name::new(alloc, file.as_str()) {
        Ok(name) => FileError::TooLong(name),
        Err(_) => FileError::Memory,
    }
}

/// The file of these bytes, before its first line acts.
fn begin(alloc: Global, file: &Name, bytes: &[u8]) -> Result<Expander, FileError>
    requires { length bytes.now ≤ longest_text }
    ensures begun { IsBegun file.now bytes.now result }
    ensures plain { IfOk result (λ x. ExpanderIsPlain x) }
    ensures shallow { IfOk result (λ x. AreShallow x.frames) }
{
    match Source::take_up(alloc, Name::new(alloc, file.as_str())?, 0, bytes) {
        Ok(source) => Ok(Expander::new(alloc, Name::new(alloc, file.as_str())?, source)?),
        Err(SourceError::Refused(cause, line)) => Err(refused_at(alloc, file, cause, line)),
        Err(SourceError::NoMemory) => Err(FileError::Memory),
    }
}

/// What was handed on.
fn handed_by(machine: Machine) -> Expanded
    requires { HandedArePlain machine.handed }
    ensures lines { (result.lines ≡ machine.handed) × (result.names ≡ machine.names) }
    ensures plain { All (λ h. IsPlain h.text) result.lines }
{
    let Machine { names, handed, .. } = machine;
    Expanded {
        lines: handed,
        names,
    }
}

/// What a file comes to whose lines ended so.
fn conclude(
    alloc: Global,
    file: &Name,
    bytes: &[u8],
    ran: Result<bool, ExpandError>,
    machine: Machine,
) -> Result<Expanded, FileError>
    requires short { length bytes.now ≤ longest_text }
    requires handed { OnOk ran (HandedArePlain machine.handed) }
    ensures concluded { IsConcluded file.now bytes.now (ending_of ran machine) result }
    ensures plain { IfOk result (λ x. All (λ h. IsPlain h.text) x.lines) }
    ensures failed { result ≡ Err FileError.Library → ran ≡ Err ExpandError.Library }
    ensures fails { ran ≡ Err ExpandError.Library → result ≡ Err FileError.Library }
{
    match ran {
        Ok(true) => Ok(handed_by(machine)),
        Ok(false) => Err(refused_at(alloc, file, Cause::NoEnd, last_line(bytes))),
        Err(ExpandError::Stopped(StopError::Refused(cause, name, line))) => {
            Err(FileError::Refused(cause, name, line))
        }
        Err(ExpandError::Stopped(StopError::TooLong(name))) => Err(FileError::TooLong(name)),
        Err(ExpandError::Stopped(StopError::Memory)) => Err(FileError::Memory),
        Err(ExpandError::Library) => Err(FileError::Library),
    }
}

/// The lines that a file of these bytes comes to.
fn expand_text<L: Library>(
    alloc: Global,
    library: &mut L,
    file: &Name,
    bytes: &[u8],
) -> Result<Expanded, FileError>
    requires { length bytes.now ≤ longest_text }
    ensures expanded { IfSome (L.texts library.old) (λ texts. IsMeant (λ x. AreExpanded texts file.now bytes.now (taken_up file.now 0 bytes.now) x) result) }
    ensures plain { IfOk result (λ x. All (λ h. IsPlain h.text) x.lines) }
    ensures failed { result ≡ Err FileError.Library → HasRisen (L.faults library.old) (L.faults library.new) }
    ensures not_risen { result ≢ Err FileError.Library → L.faults library.new ≡ L.faults library.old }
    ensures never_falls { L.faults library.old ≤ L.faults library.new }
    ensures same { L.texts library.new ≡ L.texts library.old }
{
    match begin(alloc, file, bytes) {
        Ok(mut expander) => {
            let ran = expander.run(alloc, library);
            conclude(alloc, file, bytes, ran, expander.machine)
        }
        Err(error) => Err(error),
    }
}

/// The lines that a file comes to, through the texts that it includes and the procedures that it calls.
pub fn expand<L: Library>(
    alloc: Global,
    library: &mut L,
    file: &Name,
) -> Result<Expanded, FileError>
    ensures expanded { IfSome (L.texts library.old) (λ texts. IsAnswer texts file.now result) }
    ensures plain { IfOk result (λ e. All (λ h. IsPlain h.text) e.lines) }
    ensures failed { result ≡ Err FileError.Library → HasRisen (L.faults library.old) (L.faults library.new) }
    ensures not_risen { result ≢ Err FileError.Library → L.faults library.new ≡ L.faults library.old }
    ensures never_falls { L.faults library.old ≤ L.faults library.new }
    ensures same { L.texts library.new ≡ L.texts library.old }
{
    match library.fetch(alloc, file.as_str(), LONGEST_TEXT) {
        Ok(Some(bytes)) => expand_text(alloc, library, file, &bytes),
        Ok(None) => Err(FileError::Missing),
        Err(LibraryErr::TooLong) => Err(too_long(alloc, file)),
        Err(LibraryErr::Failed) => Err(FileError::Library),
        Err(LibraryErr::Memory) => Err(FileError::Memory),
    }
}
