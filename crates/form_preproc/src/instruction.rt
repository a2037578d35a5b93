//! What is written behind the keyword of an instruction.

ghost use Rattle.std.specs.Prelude.{◌≡◌, ◌==◌, ◌≤◌, not, length, Some, None, MatchOption};
ghost use Rattle.std.specs.List.{list_any, list_all, prefix_len};
ghost use Rattle.form_preproc.specs.Answers.{Gives, IsMade};
ghost use Rattle.form_preproc.specs.Bytes.{is_name as is_name_of};
ghost use Rattle.form_preproc.specs.Instruction as instruction;
ghost use Rattle.form_preproc.specs.Parts.{parted as parted_of};
ghost use Rattle.form_preproc.specs.declared.parts.Parting.TheVariants.{CommasOrBars};

use crate::braces::calculated;
use crate::bytes::{after_blanks, between, is_name, named, trimmed};
use crate::error::{LineError, PartError};
use crate::parts::{Parting, parted};
use crate::turns::{Looped, Turns, counted_parts};
use form_base::Cause;
use form_calc::{Row, Text};
use std::alloc::Global;

/// A name and what stands in the parentheses behind it.
#[derive(Drop)]
pub struct Head {
    pub name: Text,
    pub parts: Row<Text>,
}

/// The name and the text of a definition.
pub fn definition(text: &[u8]) -> Option<(&[u8], &[u8])>
    ensures { MatchOption result (instruction.definition text.now ≡ None) (λ x. instruction.definition text.now ≡ Some (x.0.now, x.1.now)) }
{
    let (name, rest) = named(text)?;
    let value = between(b'"', b'"', rest)?;
    Some((name, value))
}

fn parts_behind(alloc: Global, parting: Parting, rest: &[u8]) -> Result<Row<Text>, PartError>
    ensures { IsMade result (instruction.parts_behind parting rest.now) }
{
    if rest.is_empty() {
        return Ok(Row::new(alloc));
    }
    match between(b'(', b')', rest) {
        Some(inner) => parted(alloc, parting, inner),
        None => Err(PartError::IllFormed),
    }
}

fn head_of(alloc: Global, parting: Parting, text: &[u8]) -> Result<Head, PartError>
    ensures { IsMade result (instruction.head_of parting text.now) }
{
    let Some((name, rest)) = named(text) else {
        return Err(PartError::IllFormed);
    };
    let parts = parts_behind(alloc, parting, rest)?;
    Ok(Head {
        name: Text::from_slice(alloc, name)?,
        parts,
    })
}

/// Without the one part that is empty.
pub fn without_empty(alloc: Global, parts: Row<Text>) -> Row<Text>
    ensures { result ≡ instruction.without_empty parts }
{
    let is_empty = match parts.as_slice() {
        [part] => part.len() == 0,
        _ => false,
    };
    if is_empty { Row::new(alloc) } else { parts }
}

fn hold_names(parts: &[Text]) -> bool
    ensures { result ≡ list_all is_name_of parts.now }
{
    parts.iter().all(|part| is_name(part.as_slice()))
}

/// The name and the parameters of a procedure.
pub fn procedure_head(alloc: Global, text: &[u8]) -> Result<Head, PartError>
    ensures { IsMade result (instruction.procedure_head text.now) }
{
    let Head { name, parts } = head_of(alloc, Parting::Commas, text)?;
    let parts = without_empty(alloc, parts);
    if !hold_names(parts.as_slice()) {
        return Err(PartError::IllFormed);
    }
    Ok(Head { name, parts })
}

/// The name and the arguments of a call.
pub fn call_head(alloc: Global, text: &[u8]) -> Result<Head, PartError>
    ensures { IsMade result (instruction.call_head text.now) }
{
    head_of(alloc, Parting::Arguments, text)
}

fn name_or_none(text: &[u8]) -> Option<&[u8]>
    ensures { MatchOption result (instruction.name_or_none text.now ≡ None) (λ x. instruction.name_or_none text.now ≡ Some x.now) }
{
    if is_name(text) { Some(text) } else { None }
}

/// A name, with or without its quotes.
pub fn asked_name(text: &[u8]) -> Option<&[u8]>
    ensures { MatchOption result (instruction.asked_name text.now ≡ None) (λ x. instruction.asked_name text.now ≡ Some x.now) }
{
    match between(b'`', b'\'', text) {
        Some(inner) => name_or_none(inner),
        None => name_or_none(text),
    }
}

fn has_quote(text: &[u8]) -> bool
    ensures { result ≡ list_any (λ c. c == 34) text.now }
{
    text.iter().any(|byte| *byte == b'"')
}

fn has_blank_or_quote(text: &[u8]) -> bool
    ensures { result ≡ list_any instruction.is_outside_quotes text.now }
{
    text.iter()
        .any(|byte| *byte == b' ' || *byte == b'\t' || *byte == b'"')
}

fn file_name(text: &[u8]) -> Option<&[u8]>
    ensures { MatchOption result (instruction.file_name text.now ≡ None) (λ x. instruction.file_name text.now ≡ Some x.now) }
{
    match between(b'"', b'"', text) {
        Some(inner) => unless(has_quote(inner), inner),
        None => unless(has_blank_or_quote(text), text),
    }
}

/// A text that isn't empty, unless it is bad.
fn unless(is_bad: bool, text: &[u8]) -> Option<&[u8]>
    ensures { MatchOption result (instruction.unless_bad is_bad text.now ≡ None) (λ x. instruction.unless_bad is_bad text.now ≡ Some x.now) }
{
    if text.is_empty() || is_bad {
        None
    } else {
        Some(text)
    }
}

fn without_sign(text: &[u8]) -> &[u8]
    ensures { result.now ≡ instruction.without_sign text.now }
{
    match text {
        [b'+' | b'-', rest @ ..] => rest,
        _ => text,
    }
}

/// The name of a text that is to be included.
pub fn included_name(text: &[u8]) -> Option<&[u8]>
    ensures { MatchOption result (instruction.included_name text.now ≡ None) (λ x. instruction.included_name text.now ≡ Some x.now) }
{
    file_name(trimmed(without_sign(text)))
}

/// How many bytes stand before the first `=`.
fn size_before_equals(text: &[u8]) -> usize
    ensures count { result ≡ prefix_len (λ c. not (c == 61)) text.now }
    ensures within { result ≤ length text.now }
{
    text.iter().take_while(|byte| **byte != b'=').count()
}

/// What stands before the first `=`, and what stands behind it and its blanks.
fn sides(text: &[u8]) -> (&[u8], &[u8])
    ensures before { result.0.now ≡ instruction.before_equals text.now }
    ensures behind { result.1.now ≡ instruction.behind_equals text.now }
{
    let (before, rest) = text.split_at(size_before_equals(text));
    match rest {
        [_, behind @ ..] => (before, after_blanks(behind)),
        [] => (before, &[]),
    }
}

fn has_brace(text: &[u8]) -> bool
    ensures { result ≡ list_any instruction.is_brace text.now }
{
    text.iter().any(|byte| *byte == b'{' || *byte == b'}')
}

/// What stands in braces, where this is braces with no brace inside.
fn listed(text: &[u8]) -> Option<&[u8]>
    ensures { MatchOption result (instruction.listed text.now ≡ None) (λ x. instruction.listed text.now ≡ Some x.now) }
{
    let inner = between(b'{', b'}', text)?;
    if has_brace(inner) { None } else { Some(inner) }
}

/// A loop over the texts of a list.
fn over_texts(alloc: Global, name: &[u8], inner: &[u8]) -> Result<Looped, LineError>
    ensures { Gives result (instruction.over_texts name.now inner.now) }
{
    if !is_name(name) {
        return Err(LineError::Refused(Cause::BadInstruction));
    }
    let texts = parted(alloc, Parting::CommasOrBars, inner)?;
    Ok(Looped {
        name: Text::from_slice(alloc, name)?,
        turns: Turns::of_texts(texts),
    })
}

/// A loop over numbers.
fn over_numbers(alloc: Global, name: &[u8], text: &[u8]) -> Result<Looped, LineError>
    ensures { Gives result (instruction.over_numbers name.now text.now) }
{
    if !is_name(name) {
        return Err(LineError::Refused(Cause::BadInstruction));
    }
    let parts = parted(alloc, Parting::Commas, text)?;
    counted_parts(alloc, name, parts.as_slice())
}

/// A loop whose braces are calculated.
fn looped_from(alloc: Global, text: &[u8]) -> Result<Looped, LineError>
    ensures { Gives result (instruction.looped_from text.now (instruction.listed (instruction.behind_equals text.now))) }
{
    let (before, behind) = sides(text);
    match listed(behind) {
        Some(inner) => over_texts(alloc, trimmed(before), inner),
        None => over_numbers(alloc, trimmed(before), behind),
    }
}

/// A loop's variable and its values.
pub fn looped(alloc: Global, text: &[u8]) -> Result<Looped, LineError>
    ensures { Gives result (instruction.looped text.now) }
{
    let (before, behind) = sides(text);
    match listed(behind) {
        Some(inner) => {
            let known = calculated(alloc, before)?;
            over_texts(alloc, trimmed(known.as_slice()), inner)
        }
        None => {
            let known = calculated(alloc, text)?;
            looped_from(alloc, known.as_slice())
        }
    }
}
