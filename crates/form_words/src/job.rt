use clap::error::ErrorKind;
use form_base::{Name, Settings};
use std::alloc::AllocError;

/// What a command line asks for.
#[derive(Drop)]
pub struct Job {
    pub settings: Settings,
    /// The text that is to be run, by its name in the library.
    pub file: Name,
}

/// Why the words give no job.
#[derive(Clone, Copy, PartialEq, Eq)]
pub enum WordsError {
    /// They are no command line.
    Usage,
    Memory,
}

impl From<AllocError> for WordsError {
    ghost use Rattle.std.specs.Prelude.{◌≡◌};
    ghost use Rattle.form_words.specs.declared.job.WordsError.TheVariants.{Memory};

    ghost from_gives = { λ _ error. error ≡ Memory };

    fn from(_: AllocError) -> Self {
        WordsError::Memory
    }
}

impl From<clap::Error> for WordsError {
    ghost use Rattle.std.specs.Prelude.{◌≡◌};
    ghost use Rattle.clap.specs.Words.{kind_of};
    ghost use Rattle.form_words.specs.Words.{error_of};

    ghost from_gives = { λ refused error. error ≡ error_of (kind_of refused) };

    fn from(refused: clap::Error) -> Self {
        match refused.kind() {
            ErrorKind::OutOfMemory => WordsError::Memory,
            _ => WordsError::Usage,
        }
    }
}
