//! A text that is taken up.

ghost use Rattle.std.specs.Prelude.{◌≡◌, ◌<◌, ◌^◌, suc, [], ◌∷◌, length, drop, slice_index_or, map, Ok, IfOk, IfErr, MatchOption};
ghost use Rattle.form_lines.specs.Text.{IsPlain};
ghost use Rattle.form_preproc.specs.Key.{key_of as key_of_text};
ghost use Rattle.form_preproc.specs.PlainTexts.{LinesArePlain};
ghost use Rattle.form_preproc.specs.Links.{AreLinks, no_link};
ghost use Rattle.form_preproc.specs.Block as block;

use crate::key::{Key, key_of};
use crate::links::{Link, links_of};
use crate::nesting::check_nesting;
use form_base::{Cause, Name};
use form_calc::Row;
use form_lines::{Line, LinesError, lines_of};
use std::alloc::{AllocError, Global};

/// A line with its kind.
#[derive(Drop)]
pub struct SourceLine {
    line: Line,
    key: Key,
    ghost keyed: { key ≡ key_of_text line.text },
    ghost plain: { IsPlain line.text },
}

impl SourceLine {
    pub fn new(line: Line) -> SourceLine
        requires { IsPlain line.text }
        ensures { result.line ≡ line }
    {
        let key = key_of(line.text().as_bytes());
        SourceLine { line, key }
    }

    pub fn key(&self) -> Key
        ensures value { result ≡ self.now.key }
        ensures kind { result ≡ key_of_text self.now.line.text }
    {
        self.key
    }

    /// Its number in its text, from 1.
    pub fn number(&self) -> u32
        ensures { result ≡ self.now.line.number }
    {
        self.line.number()
    }

    pub fn text(&self) -> &[u8]
        ensures { result.now ≡ self.now.line.text }
    {
        self.line.text().as_bytes()
    }
}

/// The lines of a text, nested into blocks.
#[derive(Drop)]
pub struct Source {
    name: Name,
    number: u32,
    lines: Vec<SourceLine>,
    links: Row<Link>,
    ghost linked: { AreLinks (λ line. line.key) lines.items links },
}

/// Why a text can't be taken up.
#[derive(Drop)]
pub enum SourceError {
    /// It is refused for this cause at this line.
    Refused(Cause, u32),
    NoMemory,
}

impl From<AllocError> for SourceError {
    ghost use Rattle.std.specs.Prelude.{◌≡◌};
    ghost use Rattle.form_preproc.specs.declared.source.SourceError.TheVariants.{NoMemory};

    ghost from_gives = { λ _ e. e ≡ NoMemory };

    fn from(_e: AllocError) -> SourceError {
        SourceError::NoMemory
    }
}

/// The lines with their kinds.
fn with_keys(alloc: Global, lines: Vec<Line>) -> Result<Vec<SourceLine>, AllocError>
    requires { LinesArePlain lines.items }
    ensures { IfOk result (λ keyed. map (λ line. line.line) keyed.items ≡ lines.items) }
{
    let mut keyed = Vec::new(alloc);
    for line in lines {
        keyed.push(SourceLine::new(line))?;
    }
    Ok(keyed)
}

impl Source {
    ghost use Rattle.form_preproc.specs.Sources.{lines_in, IsRefused};

    /// Takes a text up: the lines of a text of this name, which is the one of that number.
    pub fn take_up(
        alloc: Global,
        name: Name,
        number: u32,
        bytes: &[u8],
    ) -> Result<Source, SourceError>
        requires { length bytes.now < 2 ^ 32 }
        ensures lines { IfOk result (λ source. (block.taken_up name number bytes.now ≡ Ok (lines_in source)) × (source.name ≡ name)) }
        ensures refused { IfErr result (λ error. IsRefused error (block.taken_up name number bytes.now)) }
    {
        let lines = match lines_of(alloc, bytes) {
            Ok(lines) => with_keys(alloc, lines)?,
            Err(LinesError::BadByte(line)) => {
                return Err(SourceError::Refused(Cause::BadByte, line));
            }
            Err(LinesError::Memory) => return Err(SourceError::NoMemory),
        };
        check_nesting(alloc, &lines)?;
        let links = links_of(alloc, &lines)?;
        Ok(Source {
            name,
            number,
            lines,
            links,
        })
    }

    pub fn name(&self) -> &str
        ensures { result.now ≡ self.now.name }
    {
        self.name.as_str()
    }

    /// The number of its text.
    pub fn number(&self) -> u32
        ensures { result ≡ self.now.number }
    {
        self.number
    }

    /// The line at a place.
    pub fn line(&self, place: usize) -> Option<&SourceLine>
        ensures { MatchOption result (drop place (lines_in self.now) ≡ []) (λ line. (place < length self.now.lines.items)
            × (drop place (lines_in self.now) ≡ block.placed self.now.name self.now.number line.now.line ∷ drop (suc place) (lines_in self.now))) }
    {
        self.lines.get(place)
    }

    /// Where the block that is open behind a line goes on and ends.
    fn link(&self, place: usize) -> Link
        ensures { result ≡ slice_index_or self.now.links place (no_link (length self.now.lines.items)) }
    {
        let links = self.links.as_slice();
        if place < links.len() {
            links[place]
        } else {
            Link {
                closer: self.lines.len(),
                close: self.lines.len(),
            }
        }
    }

    /// The first place behind this one at which the block that is open there ends or a further part of it begins.
    pub fn closer(&self, place: usize) -> usize
        requires { place < length self.now.lines.items }
        ensures { drop result (lines_in self.now) ≡ block.to_closer block.key_in 0 (drop (suc place) (lines_in self.now)) }
    {
        let link = self.link(place);
        link.closer
    }

    /// The place behind this one at which that block ends.
    pub fn close(&self, place: usize) -> usize
        requires { place < length self.now.lines.items }
        ensures { drop result (lines_in self.now) ≡ block.to_end block.key_in 0 (drop (suc place) (lines_in self.now)) }
    {
        let link = self.link(place);
        link.close
    }
}
