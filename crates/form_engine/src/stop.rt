ghost use Rattle.std.specs.Prelude.{◌≡◌};
ghost use Rattle.form_engine.specs.Stop.{status_of};

use form_base::Status;
use form_outside::SinkErr;
use std::alloc::AllocError;

/// What ends a call before its outcome is carried out.
#[derive(Clone, Copy, PartialEq, Eq)]
pub enum Stop {
    Library,
    Sink,
    Memory,
}

impl Stop {
    pub fn status(self) -> Status
        ensures { result ≡ status_of self }
    {
        match self {
            Stop::Library => Status::LibraryFault,
            Stop::Sink => Status::SinkFault,
            Stop::Memory => Status::OutOfMemory,
        }
    }
}

impl From<AllocError> for Stop {
    ghost use Rattle.std.specs.Prelude.{◌≡◌};
    ghost use Rattle.form_engine.specs.declared.stop.Stop.TheVariants.{Memory};

    ghost from_gives = { λ _ stop. stop ≡ Memory };

    fn from(_: AllocError) -> Self {
        Stop::Memory
    }
}

impl From<SinkErr> for Stop {
    ghost use Rattle.std.specs.Prelude.{◌≡◌};
    ghost use Rattle.form_engine.specs.Stop.{stop_of_sink};

    ghost from_gives = { λ error stop. stop ≡ stop_of_sink error };

    fn from(error: SinkErr) -> Self {
        match error {
            SinkErr::Failed => Stop::Sink,
            SinkErr::Memory => Stop::Memory,
        }
    }
}
