ghost use Rattle.std.specs.Prelude.{◌≡◌, IfOk, false};
ghost use Rattle.clap.specs.Words.{app_of, rule_of};
ghost use Rattle.form_words.specs.Words as spec;

use clap::{Arg, Command};
use std::alloc::{AllocError, Global};

/// The command, as `clap` is to read it.
pub fn command<'a>(alloc: Global) -> Result<Command<'a>, AllocError>
    ensures { IfOk result (λ made. app_of made ≡ spec.command) }
{
    Command::new(alloc, "tform")
        .disable_help_flag(true)
        .disable_version_flag(true)
        .arg(workers_option(alloc))?
        .arg(long_option(alloc, "bucket"))?
        .arg(long_option(alloc, "buffer"))?
        .arg(long_option(alloc, "fan"))?
        .arg(long_option(alloc, "hold"))?
        .arg(long_option(alloc, "max-repeat"))?
        .arg(long_option(alloc, "max-expand"))?
        .arg(long_option(alloc, "max-terms"))?
        .arg(file(alloc))
}

/// The option `-w N`.
fn workers_option<'a>(alloc: Global) -> Arg<'a>
    ensures rule { rule_of result ≡ spec.workers_option }
    ensures local { result.global ≡ false }
{
    Arg::new(alloc, "w").short('w')
}

/// An option `--name N`.
fn long_option<'a>(alloc: Global, name: &'a str) -> Arg<'a>
    ensures rule { rule_of result ≡ spec.long_option name.now }
    ensures local { result.global ≡ false }
{
    Arg::new(alloc, name).long(name)
}

/// FILE, which has to stand.
fn file<'a>(alloc: Global) -> Arg<'a>
    ensures rule { rule_of result ≡ spec.file }
    ensures local { result.global ≡ false }
{
    Arg::new(alloc, "file").required(true)
}
