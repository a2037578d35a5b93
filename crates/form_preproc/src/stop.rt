//! Why expansion stops.

ghost use Rattle.std.specs.Prelude.{◌≡◌};
ghost use Rattle.form_preproc.specs.Stops.{IsStop, IsStopAt};
ghost use Rattle.form_preproc.specs.Expansion as expansion;

use crate::error::LineError;
use crate::source::Source;
use form_base::{Cause, Name};
use std::alloc::{AllocError, Global};

/// Why a line stops all.
#[derive(Drop)]
pub enum StopError {
    /// It is refused for this cause at this line of the text of that name.
    Refused(Cause, Name, u32),
    /// The text of that name is longer than a text may be.
    TooLong(Name),
    Memory,
}

impl From<AllocError> for StopError {
    ghost use Rattle.std.specs.Prelude.{◌≡◌};
    ghost use Rattle.form_preproc.specs.declared.stop.StopError.TheVariants.{Memory};

    ghost from_gives = { λ _ e. e ≡ Memory };

    fn from(_e: AllocError) -> StopError {
        StopError::Memory
    }
}

/// The refusal of a line of a text.
pub fn refused(alloc: Global, source: &Source, line: u32, cause: Cause) -> StopError
    ensures { IsStop result (expansion.refused cause (record { file = source.now.name; line = line })) }
{
    match Name::new(alloc, source.name()) {
        Ok(name) => StopError::Refused(cause, name, line),
        Err(_) => StopError::Memory,
    }
}

/// The same for an error of a line.
pub fn stop_of(alloc: Global, source: &Source, line: u32, error: LineError) -> StopError
    ensures { IsStopAt error (record { file = source.now.name; line = line }) result }
{
    match error {
        LineError::Refused(cause) => refused(alloc, source, line, cause),
        LineError::Memory => StopError::Memory,
    }
}

/// Why expansion stops.
#[derive(Drop)]
pub enum ExpandError {
    Stopped(StopError),
    /// The library failed.
    Library,
}

impl From<StopError> for ExpandError {
    ghost use Rattle.std.specs.Prelude.{◌≡◌};
    ghost use Rattle.form_preproc.specs.declared.stop.ExpandError.TheVariants.{Stopped};

    ghost from_gives = { λ stop e. e ≡ Stopped stop };

    fn from(stop: StopError) -> ExpandError {
        ExpandError::Stopped(stop)
    }
}

impl From<AllocError> for ExpandError {
    ghost use Rattle.std.specs.Prelude.{◌≡◌};
    ghost use Rattle.form_preproc.specs.declared.stop.StopError.TheVariants.{Memory};
    ghost use Rattle.form_preproc.specs.declared.stop.ExpandError.TheVariants.{Stopped};

    ghost from_gives = { λ _ e. e ≡ Stopped Memory };

    fn from(_e: AllocError) -> ExpandError {
        ExpandError::Stopped(StopError::Memory)
    }
}
