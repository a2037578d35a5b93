ghost use Rattle.std.specs.Prelude.{◌≡◌, ◌≢◌, ◌≤◌, ◌⊎◌, ℕ, List, map, Some, None, Ok, Err, All, IfOk, IfSome};
ghost use Rattle.form_base.specs.declared.place.Place.TheVariants as places;
ghost use Rattle.form_base.specs.declared.status.Status.TheVariants.{Usage, Missing, RefusedText};
ghost use Rattle.form_ast.specs.Lawful.{AreLawfulModules};
ghost use Rattle.form_lines.specs.Text.{IsPlain};
ghost use Rattle.form_outside.specs.Faults.{HasRisen};
ghost use Rattle.form_outside.specs.Texts.{Texts};
ghost use Rattle.form_preproc.specs.Answer.{IsAnswer};
ghost use Rattle.form_engine.specs.Answer.{IsAnswerOutcome, IsSoundAnswer, IsEarly, IsOfText};
ghost use Rattle.form_engine.specs.Call.{bytes_of_words};
ghost use Rattle.form_engine.specs.Outcome.{Outcome, IsOutcome, IsJobOutcome, AreLines, AreStatements, line_of, name_at as name_at_of};
ghost use Rattle.form_engine.specs.Words.{file_of};

use crate::answer::Answer;
use crate::stop::Stop;
use form_ast::Module as Statements;
use form_base::{Cause, Name, Place, Settings, Spot, Status};
use form_check::{CheckError, check};
use form_outside::Library;
use form_preproc::{Expanded, FileError, Handed, expand};
use form_stmts::{Line, ProgramError, read_program};
use form_words::{Job, WordsError, read_words};
use std::alloc::{AllocError, Global};

/// What a call with these words is to do over this library.
pub fn decide<L: Library>(alloc: Global, words: &[String], library: &mut L) -> Result<Answer, Stop>
    ensures outcome { IfOk result (λ answer. IfSome (L.texts library.old) (λ texts.
        (outcome : Outcome) → IsAnswerOutcome answer outcome → IsOutcome (bytes_of_words words.now) texts outcome)) }
    ensures sound { IfOk result IsSoundAnswer }
    ensures usage { result ≡ Ok (Answer.Refused Usage) → file_of (bytes_of_words words.now) ≡ None }
    ensures usage_wherever { file_of (bytes_of_words words.now) ≡ None →
        (result ≡ Ok (Answer.Refused Usage)) ⊎ (result ≡ Err Stop.Memory) }
    ensures untouched { file_of (bytes_of_words words.now) ≡ None → library.new ≡ library.old }
    ensures missing { (name : List ℕ) → result ≡ Ok (Answer.Refused (Missing name)) →
        file_of (bytes_of_words words.now) ≡ Some name }
    ensures early { IfOk result IsEarly }
    ensures failed { result ≡ Err Stop.Library → HasRisen (L.faults library.old) (L.faults library.new) }
    ensures not_risen { result ≢ Err Stop.Library → L.faults library.new ≡ L.faults library.old }
    ensures never_sink { result ≢ Err Stop.Sink }
    ensures never_falls { L.faults library.old ≤ L.faults library.new }
    ensures same { L.texts library.new ≡ L.texts library.old }
{
    match read_words(alloc, words) {
        Ok(job) => decide_job(alloc, job, library),
        Err(WordsError::Usage) => Ok(Answer::Refused(Status::Usage)),
        Err(WordsError::Memory) => Err(Stop::Memory),
    }
}

/// What a job is to do over this library.
fn decide_job<L: Library>(alloc: Global, job: Job, library: &mut L) -> Result<Answer, Stop>
    ensures outcome { IfOk result (λ answer. IfSome (L.texts library.old) (λ texts.
        (outcome : Outcome) → IsAnswerOutcome answer outcome → IsJobOutcome texts job outcome)) }
    ensures sound { IfOk result IsSoundAnswer }
    ensures never_usage { result ≢ Ok (Answer.Refused Usage) }
    ensures missing { (name : List ℕ) → result ≡ Ok (Answer.Refused (Missing name)) → job.file ≡ name }
    ensures early { IfOk result IsEarly }
    ensures failed { result ≡ Err Stop.Library → HasRisen (L.faults library.old) (L.faults library.new) }
    ensures not_risen { result ≢ Err Stop.Library → L.faults library.new ≡ L.faults library.old }
    ensures never_sink { result ≢ Err Stop.Sink }
    ensures never_falls { L.faults library.old ≤ L.faults library.new }
    ensures same { L.texts library.new ≡ L.texts library.old }
{
    let expanded = expand(alloc, library, &job.file);
    answer_to(alloc, job, expanded)
}

/// What is to be done for what the preprocessor answers.
fn answer_to(alloc: Global, job: Job, expanded: Result<Expanded, FileError>) -> Result<Answer, Stop>
    requires { IfOk expanded (λ x. All (λ line. IsPlain line.text) x.lines) }
    ensures outcome { IfOk result (λ answer. (texts : Texts) → IsAnswer texts job.file expanded →
        (outcome : Outcome) → IsAnswerOutcome answer outcome → IsJobOutcome texts job outcome) }
    ensures sound { IfOk result IsSoundAnswer }
    ensures never_usage { result ≢ Ok (Answer.Refused Usage) }
    ensures missing { (name : List ℕ) → result ≡ Ok (Answer.Refused (Missing name)) → job.file ≡ name }
    ensures early { IfOk result IsEarly }
    ensures failed { result ≡ Err Stop.Library → expanded ≡ Err FileError.Library }
    ensures told { expanded ≡ Err FileError.Library → result ≡ Err Stop.Library }
    ensures never_sink { result ≢ Err Stop.Sink }
{
    match expanded {
        Ok(expanded) => {
            let answer = answer_to_lines(alloc, job.settings, &expanded);
            drop(expanded);
            Ok(answer?)
        }
        Err(FileError::Missing) => Ok(Answer::Refused(Status::Missing(job.file))),
        Err(FileError::TooLong(name)) => Ok(Answer::Refused(Status::TextTooLong(name))),
        Err(FileError::Refused(cause, file, line)) => Ok(refused_at(file, cause, line)),
        Err(FileError::Library) => Err(Stop::Library),
        Err(FileError::Memory) => Err(Stop::Memory),
    }
}

/// What is to be done for the lines that are handed on.
fn answer_to_lines(
    alloc: Global,
    settings: Settings,
    expanded: &Expanded,
) -> Result<Answer, AllocError>
    requires { All (λ line. IsPlain line.text) expanded.now.lines }
    ensures outcome { IfOk result (λ answer. (outcome : Outcome) → IsAnswerOutcome answer outcome →
        AreLines settings expanded.now.names (map line_of expanded.now.lines) outcome) }
    ensures sound { IfOk result IsSoundAnswer }
    ensures of_text { IfOk result IsOfText }
{
    let names = expanded.names.as_slice();
    let lines = program_lines(alloc, expanded.lines.as_slice())?;
    match read_program(alloc, lines) {
        Ok(modules) => answer_to_statements(alloc, settings, names, modules),
        Err(ProgramError::BadSyntax(spot)) => refused_in(alloc, names, Cause::BadSyntax, spot),
        Err(ProgramError::Memory) => Err(AllocError),
    }
}

/// The lines that are handed on, as those of a program.
fn program_lines<'a>(alloc: Global, handed: &'a [Handed]) -> Result<Vec<Line<'a>>, AllocError>
    requires { All (λ line. IsPlain line.text) handed.now }
    ensures { IfOk result (λ lines. lines.items ≡ map line_of handed.now) }
{
    let mut lines = Vec::with_capacity(alloc, handed.len())?;
    for line in handed {
        lines.push(Line::new(line.spot, line.text.as_slice()))?;
    }
    Ok(lines)
}

/// What is to be done for statements of texts with these names.
fn answer_to_statements(
    alloc: Global,
    settings: Settings,
    names: &[Name],
    modules: Vec<Statements>,
) -> Result<Answer, AllocError>
    requires { AreLawfulModules modules.items }
    ensures outcome { IfOk result (λ answer. (outcome : Outcome) →
        IsAnswerOutcome answer outcome → AreStatements settings names.now modules.items outcome) }
    ensures sound { IfOk result IsSoundAnswer }
    ensures of_text { IfOk result IsOfText }
{
    match check(alloc, modules) {
        Ok(program) => Ok(Answer::Runs(settings, program)),
        Err(CheckError::Refused(cause, spot)) => refused_in(alloc, names, cause, spot),
        Err(CheckError::Memory) => Err(AllocError),
    }
}

/// The refusal at a spot of texts with these names.
fn refused_in(alloc: Global, names: &[Name], cause: Cause, spot: Spot) -> Result<Answer, AllocError>
    ensures { IfOk result (λ answer. answer ≡ Answer.Refused (RefusedText cause (places.Line (name_at_of names.now spot.text) spot.line))) }
{
    let name = Name::new(alloc, name_at(names, spot.text))?;
    Ok(refused_at(name, cause, spot.line))
}

/// The name of the text of a number.
fn name_at(names: &[Name], number: u32) -> &str
    ensures { result.now ≡ name_at_of names.now number }
{
    let number = number as usize;
    if number < names.len() {
        names[number].as_str()
    } else {
        ""
    }
}

/// The refusal of a text at a line.
fn refused_at(file: Name, cause: Cause, line: u32) -> Answer
    ensures { result ≡ Answer.Refused (RefusedText cause (places.Line file line)) }
{
    Answer::Refused(Status::RefusedText(cause, Place::Line(file, u64::from(line))))
}
