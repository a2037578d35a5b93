ghost use Rattle.std.specs.Prelude.{◌≡◌, map, Some, None, Err, IfOk, string_bytes};
ghost use Rattle.clap.specs.Words.{first_value, found_of};
ghost use Rattle.form_words.specs.Words as spec;
ghost use Rattle.form_words.specs.declared.job.WordsError.TheVariants.{Usage};

use crate::command::command;
use crate::job::{Job, WordsError};
use crate::numbers::settings_of;
use clap::ArgMatches;
use form_base::Name;
use std::alloc::Global;

/// What a command line asks for. `words` begins with the program's own name.
pub fn read_words(alloc: Global, words: &[String]) -> Result<Job, WordsError>
    ensures job { IfOk result (λ job. spec.job_of (map string_bytes words.now) ≡ Some job) }
    ensures usage { result ≡ Err Usage → spec.job_of (map string_bytes words.now) ≡ None }
{
    let matches = command(alloc)?.try_get_matches_from(words)?;
    job_of(alloc, &matches)
}

/// What the words ask for that `clap` took.
fn job_of(alloc: Global, matches: &ArgMatches<'_>) -> Result<Job, WordsError>
    ensures job { IfOk result (λ job. spec.job_by (first_value (found_of matches.now)) ≡ Some job) }
    ensures usage { result ≡ Err Usage → spec.job_by (first_value (found_of matches.now)) ≡ None }
{
    let (Some(settings), Some(file)) = (settings_of(matches), matches.get_str("file")) else {
        return Err(WordsError::Usage);
    };
    Ok(Job {
        settings,
        file: Name::new(alloc, file)?,
    })
}
