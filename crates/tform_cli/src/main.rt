//! The command `tform`: its library is the files, and its sink is the standard output.
#![tactic(auto)]

ghost use Rattle.std.specs.Prelude.{◌≡◌, ◌≢◌, [], IsErr, IsOkAnd};
ghost use Rattle.std.specs.IoError.{error_kind};

mod command;

use crate::command::run_command;
use form_base::Status;
use form_files::{FileLibrary, OutSink};
use std::alloc::{AllocError, Global};
use std::io::ErrorKind;
use std::process::ExitCode;
use std::rt::{Env, Files};
use std::sync::Wait;
use std::thread::Threads;
use std::{env, io};

fn main(rt: HostRuntime) -> ExitCode {
    let status = call(&rt).unwrap_or(Status::OutOfMemory);
    let code = status.code();
    if code > 4 {
        let _ = eprintln!(rt; "{status}");
    }
    ExitCode::from(code)
}

/// The one call, over the real objects.
fn call<R: AllocGlobal + Clone + Drop + Env + Files + Print + Threads + Wait>(
    rt: &R,
) -> Result<Status, AllocError> {
    let alloc = rt.alloc();
    let words = words(rt)?;
    let mut library = FileLibrary::new(rt.clone()?);
    let mut out = OutSink::new(alloc, io::writer(rt));
    run_command(rt, alloc, &words, &mut library, &mut out)
}

/// The words of the command line. Where one isn't UTF-8 there are none, which is no command line either.
fn words(rt: &(impl AllocGlobal + Env)) -> Result<Vec<String>, AllocError> {
    match env::args(rt) {
        Ok(words) => words.collect(rt.alloc()),
        Err(error) => no_words(rt.alloc(), &error),
    }
}

/// The answer where the words can't be told: none, or an error where memory lacks.
fn no_words(alloc: Global, error: &io::Error) -> Result<Vec<String>, AllocError>
    ensures memory { error_kind error.now ≡ ErrorKind.OutOfMemory → IsErr result }
    ensures none { error_kind error.now ≢ ErrorKind.OutOfMemory → IsOkAnd result (λ words. words.items ≡ []) }
{
    if error.kind() == ErrorKind::OutOfMemory {
        return Err(AllocError);
    }
    Ok(Vec::new(alloc))
}
