ghost use Rattle.std.specs.Prelude.{◌≡◌, Some};

use crate::{Cause, Name, Place};
use std::fmt;

/// How a call of `tform` ended.
#[derive(Debug, Drop, PartialEq, Eq)]
pub enum Status {
    /// The text was read to its `.end` and every module was carried out.
    Done,
    /// The command line isn't one.
    Usage,
    /// The library has no text of that name.
    Missing(Name),
    /// The text of that name is longer than a text may be.
    TextTooLong(Name),
    /// The text is refused.
    RefusedText(Cause, Place),
    /// A module is refused.
    RefusedRun(Cause, Place),
    /// The library failed.
    LibraryFault,
    /// The sink failed.
    SinkFault,
    /// The store of that number failed.
    StoreFault(u64),
    /// What was read at that place of a run of that store isn't what was written: the run is to have `kept`
    /// records, and `found` of them were read.
    StoreDamaged {
        store: u64,
        run: u64,
        place: u64,
        kept: u64,
        found: u64,
    },
    OutOfMemory,
}

impl Status {
    ghost use Rattle.form_base.specs.Status.{code_of};

    /// The code with which the process ends.
    pub fn code(&self) -> u8
        ensures { result ≡ code_of self.now }
    {
        match self {
            Status::Done => 0,
            Status::Usage => 1,
            Status::Missing(_) | Status::TextTooLong(_) => 2,
            Status::RefusedText(_, _) => 3,
            Status::RefusedRun(_, _) => 4,
            Status::LibraryFault => 5,
            Status::SinkFault => 6,
            Status::StoreFault(_) => 7,
            Status::StoreDamaged { .. } => 8,
            Status::OutOfMemory => 9,
        }
    }
}

/// The line that says how a call ended, without its newline: that of a refusal for the output, and that of a fault for
/// the standard error.
impl fmt::Display for Status {
    ghost use Rattle.form_base.specs.Status.{status_text};

    ghost output = { λ status. Some (status_text status) };

    fn fmt<W: fmt::Write>(&self, f: &mut fmt::Formatter<W>) -> fmt::Result {
        match self {
            Status::Done => Ok(()),
            Status::Usage => f.write_str("error: usage"),
            Status::Missing(name) => write!(f, "error: missing {name}"),
            Status::TextTooLong(name) => write!(f, "error: text too long {name}"),
            Status::RefusedText(cause, place) | Status::RefusedRun(cause, place) => {
                write!(f, "error: {place}: {cause}")
            }
            Status::LibraryFault => f.write_str("tform: library fault"),
            Status::SinkFault => f.write_str("tform: output fault"),
            Status::StoreFault(store) => write!(f, "tform: store fault {store}"),
            Status::StoreDamaged {
                store,
                run,
                place,
                kept,
                found,
            } => write!(
                f,
                "tform: store damaged {store} {run} {place} {kept} {found}"
            ),
            Status::OutOfMemory => f.write_str("tform: out of memory"),
        }
    }
}
