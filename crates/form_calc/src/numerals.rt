//! Whole numbers as they are written, and the signs before a factor.

ghost use Rattle.std.specs.Prelude.{◌≡◌, ◌≤◌, length, Some, None, MatchOption};
ghost use Rattle.std.specs.Char.{is_ascii_digit};
ghost use Rattle.form_calc.specs.Calculation as calculation;
ghost use Rattle.form_calc.specs.Reading.{front};

use crate::number::opposite;
use crate::number_of;

/// How many digits are at the front.
#[tactic(auto, using(crate::proofs::Fronts::front_within))]
pub fn digit_length(text: &[u8]) -> usize
    ensures length { result ≡ front is_ascii_digit text.now }
    ensures within { result ≤ length text.now }
{
    text.iter().take_while(|byte| byte.is_ascii_digit()).count()
}

/// The number of the digits at the front, and what follows it.
#[tactic(auto, unfolding(crate::specs::Calculation::numeral))]
pub fn numeral(text: &[u8]) -> Option<(Option<i128>, &[u8])>
    ensures { MatchOption result (calculation.numeral text.now ≡ None) (λ x. calculation.numeral text.now ≡ Some (x.0, x.1.now)) }
{
    let size = digit_length(text);
    if size == 0 {
        return None;
    }
    let number = number_of(&text[..size]).value();
    Some((number, &text[size..]))
}

/// What follows the blanks and signs at the front.
pub fn after_signs(text: &[u8]) -> &[u8]
    ensures { result.now ≡ calculation.after_signs text.now }
{
    let mut rest = text;
    while let [b' ' | b'\t' | b'+' | b'-', others @ ..] = rest {
        rest = others;
    }
    rest
}

fn is_lead(byte: u8) -> bool
    ensures { result ≡ calculation.is_lead byte }
{
    byte == b' ' || byte == b'\t' || byte == b'+' || byte == b'-'
}

/// The number behind a blank or a sign.
fn turned(byte: u8, number: Option<i128>) -> Option<i128>
    ensures { result ≡ calculation.turned byte number }
{
    if byte == b'-' {
        opposite(number)
    } else {
        number
    }
}

/// The number behind the blanks and signs at the front of a text.
#[tactic(auto, unfolding(crate::specs::Calculation::signed))]
pub fn signed(text: &[u8], number: Option<i128>) -> Option<i128>
    ensures { result ≡ calculation.signed text.now number }
{
    let mut value = number;
    for byte in text {
        if !is_lead(*byte) {
            return value;
        }
        value = turned(*byte, value);
    }
    value
}
