//! The front of a text read as one token, as far as that needs no memory.

ghost use Rattle.std.specs.Prelude.{◌≡◌, ◌==◌, ℕ, List, ◌∷◌, position, IfSome};
ghost use Rattle.std.specs.Char.{is_ascii_digit, is_ascii_alphanumeric};
ghost use Rattle.form_lexer.specs.Tokens.{is_blank};
ghost use Rattle.form_lexer.specs.Reading.{front, double_mark as double_mark_of, single_mark as single_mark_of, underscored as underscored_of, number_at, word_at, bracket_at, mark_at, token_at as token_at_front};

use crate::{BuiltIn, Mark};

/// What a token is, before its name or its number is read.
#[derive(Clone, Copy)]
pub enum Shape {
    Number,
    Name,
    BuiltIn(BuiltIn),
    Mark(Mark),
    Stray,
}

/// How many blanks the text begins with.
pub(crate) fn blanks(text: &[u8]) -> usize
    ensures { result ≡ front is_blank text.now }
{
    text.iter()
        .take_while(|byte| matches!(**byte, b' ' | b'\t'))
        .count()
}

/// How many digits the text begins with.
fn digits(text: &[u8]) -> usize
    ensures { result ≡ front is_ascii_digit text.now }
{
    text.iter().take_while(|byte| byte.is_ascii_digit()).count()
}

/// How many letters and digits the text begins with.
fn letters(text: &[u8]) -> usize
    ensures { result ≡ front is_ascii_alphanumeric text.now }
{
    text.iter()
        .take_while(|byte| byte.is_ascii_alphanumeric())
        .count()
}

/// How many underscores the text begins with.
fn underscores(text: &[u8]) -> usize
    ensures { result ≡ front (λ c. c == 95) text.now }
{
    text.iter().take_while(|byte| **byte == b'_').count()
}

/// Where the first `]` is.
fn closing(text: &[u8]) -> Option<usize>
    ensures { result ≡ position (λ c. c == 93) text.now }
{
    text.iter().position(|byte| *byte == b']')
}

/// The mark of two characters.
#[tactic(auto, unfolding(crate::specs::Reading::double_mark))]
fn double_mark(first: u8, second: u8) -> Option<Mark>
    ensures { result ≡ double_mark_of first second }
{
    match (first, second) {
        (b'&', b'&') => Some(Mark::And),
        (b'|', b'|') => Some(Mark::Or),
        (b'=', b'=') => Some(Mark::EqualTo),
        (b'!', b'=') => Some(Mark::NotEqualTo),
        (b'<', b'=') => Some(Mark::AtMost),
        (b'>', b'=') => Some(Mark::AtLeast),
        _ => None,
    }
}

/// The mark of one character.
#[tactic(auto, unfolding(crate::specs::Reading::single_mark))]
fn single_mark(character: u8) -> Option<Mark>
    ensures { result ≡ single_mark_of character }
{
    match character {
        b'-' => Some(Mark::Minus),
        b'+' => Some(Mark::Plus),
        b'*' => Some(Mark::Times),
        b'/' => Some(Mark::Over),
        b'^' => Some(Mark::Power),
        b'(' => Some(Mark::Open),
        b')' => Some(Mark::Close),
        b'{' => Some(Mark::OpenBrace),
        b'}' => Some(Mark::CloseBrace),
        b',' => Some(Mark::Comma),
        b';' => Some(Mark::Semicolon),
        b':' => Some(Mark::Colon),
        b'=' => Some(Mark::Equals),
        b'.' => Some(Mark::Period),
        b'?' => Some(Mark::Question),
        b'<' => Some(Mark::Less),
        b'>' => Some(Mark::Greater),
        _ => None,
    }
}

/// What a word is that ends in underscores.
#[tactic(auto, unfolding(crate::specs::Reading::underscored))]
fn underscored(word: &[u8]) -> Shape
    ensures { result ≡ underscored_of word.now }
{
    match word {
        [b'i', b'_'] => Shape::BuiltIn(BuiltIn::Imaginary),
        [b'd', b'_'] => Shape::BuiltIn(BuiltIn::Delta),
        [b'g', b'_'] => Shape::BuiltIn(BuiltIn::Gamma),
        _ => Shape::Stray,
    }
}

/// A text that begins with a digit.
#[tactic(auto, unfolding(crate::specs::Reading::number_at))]
fn number(text: &[u8]) -> (Shape, usize)
    ensures { result ≡ number_at text.now }
{
    (Shape::Number, digits(text))
}

/// A text that begins with a letter.
#[tactic(auto, using(crate::proofs::Fronts::front_within), unfolding(crate::specs::Reading::word_at))]
fn word(text: &[u8]) -> (Shape, usize)
    ensures { result ≡ word_at text.now }
{
    let letters = letters(text);
    let length = letters + underscores(&text[letters..]);
    if length == letters {
        (Shape::Name, length)
    } else {
        (underscored(&text[..length]), length)
    }
}

/// A text that begins with `[`.
#[tactic(auto, unfolding(crate::specs::Reading::bracket_at))]
fn bracket(text: &[u8]) -> (Shape, usize)
    ensures { result ≡ bracket_at text.now }
{
    match closing(text) {
        Some(end) => (Shape::Name, end + 1),
        None => (Shape::Stray, text.len()),
    }
}

/// A text that begins with a mark, or with what begins no token.
#[tactic(auto, unfolding(crate::specs::Reading::mark_at))]
fn mark(text: &[u8]) -> (Shape, usize)
    ensures { result ≡ mark_at text.now }
{
    if let [first, second, ..] = text
        && let Some(mark) = double_mark(*first, *second)
    {
        return (Shape::Mark(mark), 2);
    }
    if let [first, ..] = text
        && let Some(mark) = single_mark(*first)
    {
        return (Shape::Mark(mark), 1);
    }
    (Shape::Stray, 1)
}

/// The mark of a character, where it is one of the commonest, with which no mark of two characters begins.
#[tactic(auto, using(crate::proofs::Lone::times, crate::proofs::Lone::power, crate::proofs::Lone::opening, crate::proofs::Lone::close, crate::proofs::Lone::comma, crate::proofs::Lone::plus, crate::proofs::Lone::minus))]
fn lone_mark(character: u8) -> Option<Mark>
    ensures { IfSome result (λ mark. (rest : List ℕ) → token_at_front (character ∷ rest) ≡ (Shape.Mark mark, 1)) }
{
    match character {
        b'*' => Some(Mark::Times),
        b'^' => Some(Mark::Power),
        b'(' => Some(Mark::Open),
        b')' => Some(Mark::Close),
        b',' => Some(Mark::Comma),
        b'+' => Some(Mark::Plus),
        b'-' => Some(Mark::Minus),
        _ => None,
    }
}

/// The token that a text begins with, which isn't empty and begins with no blank; and how many bytes it has.
#[tactic(auto, unfolding(crate::specs::Reading::token_at))]
pub(crate) fn token_at(text: &[u8]) -> (Shape, usize)
    ensures { result ≡ token_at_front text.now }
{
    if let [first, ..] = text
        && let Some(mark) = lone_mark(*first)
    {
        return (Shape::Mark(mark), 1);
    }
    match text {
        [b'0'..=b'9', ..] => number(text),
        [b'A'..=b'Z' | b'a'..=b'z', ..] => word(text),
        [b'[', ..] => bracket(text),
        _ => mark(text),
    }
}
