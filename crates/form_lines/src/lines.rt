ghost use Rattle.std.specs.Prelude.{◌≡◌, ◌==◌, ◌<◌, ◌^◌, [], length, MatchOption, IfOk, IfErr, IsTrue, position};
ghost use Rattle.std.specs.List.{list_all};
ghost use Rattle.std.specs.Str.Lines.{strip_carriage_return};
ghost use Rattle.form_lines.specs.Text.{IsFirstLine, lines_but_commentary, begins_with, is_plain_byte as is_plain_byte_of, has_other_bytes, IsPlain};
ghost use Rattle.form_lines.specs.Answers.{IsBadLine, IsBadAt};
ghost use Rattle.form_lines.specs.Program.{last_line as last_line_of};

use crate::Line;
use std::alloc::{AllocError, AllocFailed, Global};

/// Why a text's lines can't be had.
#[derive(Drop)]
pub enum LinesError {
    /// The line of that number is the first that has another byte than a tab and 32 to 126 and isn't commentary.
    BadByte(u32),
    Memory,
}

impl From<AllocError> for LinesError {
    ghost use Rattle.form_lines.specs.declared.lines.LinesError.TheVariants.{Memory};

    ghost from_gives = { λ _ e. e ≡ Memory };

    fn from(_e: AllocError) -> LinesError {
        LinesError::Memory
    }
}

impl<T: Drop> From<AllocFailed<T>> for LinesError {
    ghost use Rattle.form_lines.specs.declared.lines.LinesError.TheVariants.{Memory};

    ghost from_gives = { λ _ e. e ≡ Memory };

    fn from(_e: AllocFailed<T>) -> LinesError {
        LinesError::Memory
    }
}

/// The text of a line that a newline ends, without a carriage return before that.
fn without_return(text: &[u8]) -> &[u8]
    ensures { result.now ≡ strip_carriage_return text.now }
{
    match text {
        [front @ .., b'\r'] => front,
        _ => text,
    }
}

/// Where the first newline is.
fn newline(bytes: &[u8]) -> Option<usize>
    ensures { result ≡ position (λ c. c == 10) bytes.now }
{
    memchr::memchr(b'\n', bytes)
}

/// The first line and what follows it, none where there is no line.
fn first_line(bytes: &[u8]) -> Option<(&[u8], &[u8])>
    ensures { MatchOption result (bytes.now ≡ []) (λ x. IsFirstLine bytes.now x.0.now x.1.now) }
{
    if bytes.is_empty() {
        return None;
    }
    match newline(bytes) {
        Some(end) => Some((without_return(&bytes[..end]), &bytes[end + 1..])),
        None => Some((bytes, &bytes[bytes.len()..])),
    }
}

/// Whether a line begins with this byte.
fn begins_with_byte(text: &[u8], byte: u8) -> bool
    ensures { result ≡ begins_with byte text.now }
{
    match text {
        [first, ..] => *first == byte,
        [] => false,
    }
}

fn is_plain_byte(byte: u8) -> bool
    ensures { result ≡ is_plain_byte_of byte }
{
    matches!(byte, b' '..=b'~') || is_tab(byte)
}

/// Apart, so that the test of a byte is one comparison.
#[cold]
#[inline(never)]
fn is_tab(byte: u8) -> bool
    ensures { result ≡ (byte == 9) }
{
    byte == b'\t'
}

fn is_plain(text: &[u8]) -> bool
    ensures { result ≡ list_all is_plain_byte_of text.now }
{
    text.iter().all(|byte| is_plain_byte(*byte))
}

/// The text of a line, none where it has a bad byte.
fn plain_text(text: &[u8]) -> Option<&str>
    ensures { MatchOption result (IsTrue (has_other_bytes text.now)) (λ plain. (plain.now ≡ text.now) × IsPlain text.now) }
{
    if is_plain(text) {
        simdutf8::basic::from_utf8(text).ok()
    } else {
        None
    }
}

/// The line of this number and text.
fn line(alloc: Global, number: u32, text: &[u8]) -> Result<Line, LinesError>
    ensures plain { IfOk result (λ line. (line ≡ record { number = number; text = text.now }) × IsPlain text.now) }
    ensures bad { IfErr result (λ error. IsBadAt error number (has_other_bytes text.now)) }
{
    let plain = plain_text(text).ok_or(LinesError::BadByte(number))?;
    Ok(Line::new(alloc, number, plain)?)
}

/// The lines of a text but its commentary.
pub fn lines_of(alloc: Global, bytes: &[u8]) -> Result<Vec<Line>, LinesError>
    requires { length bytes.now < 2 ^ 32 }
    ensures lines { IfOk result (λ lines. lines_but_commentary bytes.now ≡ Ok lines.items) }
    ensures bad { IfErr result (λ error. IsBadLine error (lines_but_commentary bytes.now)) }
{
    let mut lines = Vec::new(alloc);
    let mut number = 0;
    let mut rest = bytes;
    while let Some((text, others)) = first_line(rest) {
        number += 1;
        if !begins_with_byte(text, b'*') {
            lines.push(line(alloc, number, text)?)?;
        }
        rest = others;
    }
    Ok(lines)
}

/// The number of a text's last line, and 1 where it has none.
pub fn last_line(bytes: &[u8]) -> u32
    requires { length bytes.now < 2 ^ 32 }
    ensures { result ≡ last_line_of bytes.now }
{
    let mut number: u32 = 0;
    let mut rest = bytes;
    while let Some((_, others)) = first_line(rest) {
        number += 1;
        rest = others;
    }
    number.max(1)
}
