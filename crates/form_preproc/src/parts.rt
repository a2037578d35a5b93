//! Lists of arguments and of texts: parts of a text, between commas.

ghost use Rattle.std.specs.Prelude.{◌≡◌, OnOk};
ghost use Rattle.form_preproc.specs.Answers.{IsMade, IsStep};
ghost use Rattle.form_preproc.specs.Parts as parts_of;

use crate::bytes::trimmed;
use crate::error::PartError;
use form_calc::{Row, Stack, Text};
use std::alloc::{AllocError, Global};
use std::mem;

/// What parts a text.
#[derive(Clone, Copy)]
pub enum Parting {
    /// Commas outside brackets.
    Arguments,
    Commas,
    CommasOrBars,
}

/// A list that is read up to a place.
#[derive(Drop)]
pub struct Parts {
    parting: Parting,
    /// The brackets that are to end those that are open, the innermost first.
    closings: Stack<u8>,
    part: Text,
    parts: Row<Text>,
}

fn is_separator(parting: Parting, byte: u8) -> bool
    ensures { result ≡ parts_of.is_separator parting byte }
{
    match parting {
        Parting::CommasOrBars => byte == b',' || byte == b'|',
        _ => byte == b',',
    }
}

fn is_opening(parting: Parting, byte: u8) -> bool
    ensures { result ≡ parts_of.is_opening parting byte }
{
    match parting {
        Parting::Arguments => byte == b'(' || byte == b'[' || byte == b'{',
        _ => false,
    }
}

fn is_closing(parting: Parting, byte: u8) -> bool
    ensures { result ≡ parts_of.is_closing parting byte }
{
    match parting {
        Parting::Arguments => byte == b')' || byte == b']' || byte == b'}',
        _ => false,
    }
}

/// The bracket that ends what this one begins.
fn closing_of(byte: u8) -> u8
    ensures { result ≡ parts_of.closing_of byte }
{
    match byte {
        b'(' => b')',
        b'[' => b']',
        _ => b'}',
    }
}

impl Parts {
    fn new(alloc: Global, parting: Parting) -> Parts
        ensures { result ≡ parts_of.begun parting }
    {
        Parts {
            parting,
            closings: Stack::new(alloc),
            part: Text::new(alloc),
            parts: Row::new(alloc),
        }
    }

    fn end_part(&mut self, alloc: Global) -> Result<(), AllocError>
        ensures { OnOk result (self.new ≡ parts_of.with_part self.old) }
    {
        let part = mem::replace(&mut self.part, Text::new(alloc));
        let part = Text::from_slice(alloc, trimmed(part.as_slice()))?;
        self.parts.push(part)
    }

    fn close(&mut self, byte: u8) -> Result<(), PartError>
        ensures { IsStep self.new result (parts_of.closed self.old byte self.old.closings) }
    {
        match self.closings.pop() {
            Some(closing) if closing == byte => Ok(self.part.push(byte)?),
            _ => Err(PartError::IllFormed),
        }
    }

    /// Reads one more byte.
    fn take(&mut self, alloc: Global, byte: u8) -> Result<(), PartError>
        ensures { IsStep self.new result (parts_of.step self.old byte) }
    {
        if is_opening(self.parting, byte) {
            self.closings.push(closing_of(byte))?;
            return Ok(self.part.push(byte)?);
        }
        if is_closing(self.parting, byte) {
            return self.close(byte);
        }
        if is_separator(self.parting, byte) && self.closings.len() == 0 {
            return Ok(self.end_part(alloc)?);
        }
        Ok(self.part.push(byte)?)
    }

    fn end(mut self, alloc: Global) -> Result<Row<Text>, PartError>
        ensures { IsMade result (parts_of.end_of self) }
    {
        if self.closings.len() != 0 {
            return Err(PartError::IllFormed);
        }
        self.end_part(alloc)?;
        Ok(self.parts)
    }
}

/// The parts of a text.
#[tactic(auto, unfolding(crate::specs::Parts::read))]
pub fn parted(alloc: Global, parting: Parting, text: &[u8]) -> Result<Row<Text>, PartError>
    ensures { IsMade result (parts_of.parted parting text.now) }
{
    let mut parts = Parts::new(alloc, parting);
    for byte in text {
        parts.take(alloc, *byte)?;
    }
    parts.end(alloc)
}
