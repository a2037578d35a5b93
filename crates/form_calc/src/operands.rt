//! What is compared: a number as it is written, or a text, which is a word or stands in quotes.

ghost use Rattle.std.specs.Prelude.{◌≡◌, ◌≤◌, ◌+◌, length, take, drop, Some, None, MatchOption};
ghost use Rattle.std.specs.Char.{is_ascii_digit};
ghost use Rattle.std.specs.List.{list_all};
ghost use Rattle.form_calc.specs.Condition as condition;
ghost use Rattle.form_calc.specs.Reading.{front};

use crate::blanks::after_blanks;
use crate::numerals::digit_length;

/// How many letters, digits and underscores are at the front.
#[tactic(auto, using(crate::proofs::Fronts::front_within))]
fn word_length(text: &[u8]) -> usize
    ensures length { result ≡ front condition.is_word_character text.now }
    ensures within { result ≤ length text.now }
{
    text.iter()
        .take_while(|byte| byte.is_ascii_alphanumeric() || **byte == b'_')
        .count()
}

/// How many characters stand before a quote.
#[tactic(auto, using(crate::proofs::Fronts::front_within))]
fn quote_length(text: &[u8]) -> usize
    ensures length { result ≡ front condition.is_inside_quotes text.now }
    ensures within { result ≤ length text.now }
{
    text.iter().take_while(|byte| **byte != b'"').count()
}

fn are_digits(text: &[u8]) -> bool
    ensures { result ≡ list_all is_ascii_digit text.now }
{
    text.iter().all(|byte| byte.is_ascii_digit())
}

/// So many characters as an operand, and what follows them.
fn cut(text: &[u8], size: usize, is_number: bool) -> (&[u8], bool, &[u8])
    requires { size ≤ length text.now }
    ensures word { result.0.now ≡ take size text.now }
    ensures kind { result.1 ≡ is_number }
    ensures rest { result.2.now ≡ drop size text.now }
{
    (&text[..size], is_number, &text[size..])
}

/// The text that a quote opened, and what follows the quote that closes it.
#[tactic(auto, unfolding(crate::specs::Condition::quoted))]
fn quoted(text: &[u8]) -> Option<(&[u8], bool, &[u8])>
    ensures { MatchOption result (condition.quoted text.now ≡ None) (λ x. condition.quoted text.now ≡ Some (record { text = x.0.now; is_number = x.1 }, x.2.now)) }
{
    let size = quote_length(text);
    let [_quote, rest @ ..] = &text[size..] else {
        return None;
    };
    Some((&text[..size], false, rest))
}

/// The number whose sign is the first character of a text, before the rest of it.
#[tactic(auto, unfolding(crate::specs::Condition::behind_sign))]
fn behind_sign<'a>(text: &'a [u8], rest: &[u8]) -> Option<(&'a [u8], bool, &'a [u8])>
    requires { length rest.now + 1 ≡ length text.now }
    ensures { MatchOption result (condition.behind_sign text.now rest.now ≡ None) (λ x. condition.behind_sign text.now rest.now ≡ Some (record { text = x.0.now; is_number = x.1 }, x.2.now)) }
{
    let size = digit_length(rest);
    if size == 0 {
        return None;
    }
    Some(cut(text, size + 1, true))
}

/// The word or the digits at the front, and what follows them.
#[tactic(auto, unfolding(crate::specs::Condition::plain))]
fn plain(text: &[u8]) -> Option<(&[u8], bool, &[u8])>
    ensures { MatchOption result (condition.plain text.now ≡ None) (λ x. condition.plain text.now ≡ Some (record { text = x.0.now; is_number = x.1 }, x.2.now)) }
{
    let size = word_length(text);
    if size == 0 {
        return None;
    }
    let is_number = are_digits(&text[..size]);
    Some(cut(text, size, is_number))
}

/// The operand at the front behind blanks, whether it is a number, and what follows it.
#[tactic(auto, unfolding(crate::specs::Condition::operand))]
pub fn operand(text: &[u8]) -> Option<(&[u8], bool, &[u8])>
    ensures { MatchOption result (condition.operand text.now ≡ None) (λ x. condition.operand text.now ≡ Some (record { text = x.0.now; is_number = x.1 }, x.2.now)) }
{
    let text = after_blanks(text);
    let [first, rest @ ..] = text else {
        return None;
    };
    if *first == b'"' {
        return quoted(rest);
    }
    if *first == b'+' || *first == b'-' {
        return behind_sign(text, rest);
    }
    plain(text)
}
