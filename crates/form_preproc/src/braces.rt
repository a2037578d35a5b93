//! Calculations in braces.

ghost use Rattle.std.specs.Prelude.{◌≡◌, ◌&&◌, List, ℕ, ◌∷◌, ◌++◌, MatchOption, OnOk};
ghost use Rattle.std.specs.Fmt.{signed_decimal};
ghost use Rattle.std.specs.List.{list_all, list_any};
ghost use Rattle.form_calc.specs.Calculation.{value_of as value_of_text};
ghost use Rattle.form_preproc.specs.Answers.{Gives};
ghost use Rattle.form_preproc.specs.Braces as braces;
ghost use Rattle.form_preproc.specs.Bytes.{is_digit as is_digit_of, HasNo};

use crate::bytes::{first_split, is_digit, last_split};
use crate::error::LineError;
use form_base::Cause;
use form_calc::{CalcError, Text, calculate};
use std::alloc::{AllocError, Global};

/// Whether a byte may stand in braces that are calculated.
fn is_calculable(byte: u8) -> bool
    ensures { result ≡ braces.is_calculable byte }
{
    is_digit(byte)
        || byte == b' '
        || byte == b'\t'
        || byte == b'+'
        || byte == b'-'
        || byte == b'*'
        || byte == b'/'
        || byte == b'%'
        || byte == b'('
        || byte == b')'
}

fn has_digit(text: &[u8]) -> bool
    ensures { result ≡ list_any is_digit_of text.now }
{
    text.iter().any(|byte| is_digit(*byte))
}

fn are_calculable(text: &[u8]) -> bool
    ensures { result ≡ list_all braces.is_calculable text.now }
{
    text.iter().all(|byte| is_calculable(*byte))
}

/// Puts a number behind a text.
fn append_number(alloc: Global, text: &mut Text, number: i128) -> Result<(), AllocError>
    ensures { OnOk result (text.new ≡ text.old ++ signed_decimal number) }
{
    let digits = format!(in alloc; "{number}")?;
    text.append(digits.as_bytes())
}

/// Whether what stands in braces is calculated.
fn is_calculation(text: &[u8]) -> bool
    ensures { result ≡ (list_all braces.is_calculable text.now && list_any is_digit_of text.now) }
{
    are_calculable(text) && has_digit(text)
}

/// The value of what stands in braces.
fn value_of(text: &[u8]) -> Result<i128, LineError>
    ensures { Gives result (braces.known (value_of_text text.now)) }
{
    match calculate(text) {
        Ok(number) => Ok(number),
        Err(CalcError::IllFormed) => Err(LineError::Refused(Cause::BadInstruction)),
        Err(CalcError::OutOfRange) => Err(LineError::Refused(Cause::CalcRange)),
    }
}

/// The calculation that a `}` behind a text ends, and what stands before its braces.
fn calculation_in(before: &[u8]) -> Option<(&[u8], &[u8])>
    requires { HasNo 125 before.now }
    ensures { MatchOption result (braces.IsKept before.now) (λ x. braces.IsCalculation before.now x.0.now x.1.now) }
{
    match last_split(before, b'{') {
        Some((outside, inside)) => {
            if is_calculation(inside) {
                Some((outside, inside))
            } else {
                None
            }
        }
        None => None,
    }
}

/// Puts what stands before a `}`, and that, behind a text: the value of a calculation in place of its braces.
fn append_closed(alloc: Global, done: &mut Text, before: &[u8]) -> Result<(), LineError>
    requires { HasNo 125 before.now }
    ensures { (rest : List ℕ) → braces.GoesOn done.old done.new result (braces.calculated (before.now ++ 125 ∷ rest)) (braces.calculated rest) }
{
    match calculation_in(before) {
        Some((outside, inside)) => {
            let number = value_of(inside)?;
            done.append(outside)?;
            Ok(append_number(alloc, done, number)?)
        }
        None => {
            done.append(before)?;
            Ok(done.push(b'}')?)
        }
    }
}

/// The line with the values of its calculations in place of their braces.
pub fn calculated(alloc: Global, text: &[u8]) -> Result<Text, LineError>
    ensures { Gives result (braces.calculated text.now) }
{
    let mut done = Text::with_room(alloc, text.len())?;
    let mut rest = text;
    while let Some((before, behind)) = first_split(rest, b'}') {
        append_closed(alloc, &mut done, before)?;
        rest = behind;
    }
    done.append(rest)?;
    Ok(done)
}
