//! Stretches of the word of a term.
ghost use Rattle.std.specs.Prelude.{◌≡◌, IfOk, drop, take};
ghost use Rattle.form_term.specs.Term.{IsTerm};
ghost use Rattle.form_flow.specs.Words.{front, of_word};

use form_term::{Call, Others, Term};
use std::alloc::{AllocError, Global};

/// A term with so many functions of its word, from the left. They and its other factors stay in their memory.
pub fn with_front(alloc: Global, term: Term, count: usize) -> Result<Term, AllocError>
    ensures { IfOk result (λ t. t ≡ front count term) }
{
    let (powers, mut others) = term.into_factors(alloc);
    keep_first(&mut others.word, count);
    Term::from_factors(alloc, powers, others)
}

/// Leaves so many functions of a word, from the left.
fn keep_first(word: &mut Vec<Call>, count: usize)
    ensures { word.new.items ≡ take count word.old.items }
{
    word.truncate(count);
}

/// So many functions of the word of a term, from a place on, as a term, where there are some.
pub fn word_of(
    alloc: Global,
    term: &Term,
    start: usize,
    count: usize,
) -> Result<Option<Term>, AllocError>
    requires { IsTerm term.now }
    ensures { IfOk result (λ t. t ≡ of_word (take count (drop start term.now.others.word))) }
{
    let calls = stretch(term.word(), start, count);
    if calls.is_empty() {
        return Ok(None);
    }
    let others = Others {
        is_imaginary: false,
        dots: Vec::new(alloc),
        components: Vec::new(alloc),
        deltas: Vec::new(alloc),
        functions: Vec::new(alloc),
        word: copies(alloc, calls)?,
    };
    let term = Term::from_factors(alloc, Vec::new(alloc), others)?;
    Ok(Some(term))
}

/// So many functions of a word from a place on, as far as there are any.
fn stretch(word: &[Call], start: usize, count: usize) -> &[Call]
    ensures { result.now ≡ take count (drop start word.now) }
{
    let rest = &word[start.min(word.len())..];
    &rest[..count.min(rest.len())]
}

fn copies(alloc: Global, calls: &[Call]) -> Result<Vec<Call>, AllocError>
    ensures { IfOk result (λ copies. copies.items ≡ calls.now) }
{
    let mut copies = Vec::with_capacity(alloc, calls.len())?;
    for call in calls {
        copies.push(call.clone()?)?;
    }
    Ok(copies)
}
