//! What kind of line a line is, by its keyword.

ghost use Rattle.std.specs.Prelude.{◌≡◌};
ghost use Rattle.std.specs.List.{prefix_len};
ghost use Rattle.std.specs.Char.{is_ascii_alphabetic};
ghost use Rattle.form_preproc.specs.Key as key;

use crate::bytes::after_blanks;

/// The kind of a line.
#[derive(Clone, Copy)]
pub enum Key {
    /// No instruction.
    Plain,
    Do,
    If,
    Ifdef,
    Ifndef,
    Procedure,
    Elseif,
    Else,
    Enddo,
    Endif,
    Endprocedure,
    Define,
    Redefine,
    Undefine,
    Call,
    Include,
    /// `#-` or `#+`.
    Sign,
    /// An instruction without a keyword that is known.
    Unknown,
}

fn is_word(text: &[u8], word: &[u8]) -> bool
    ensures { result ≡ key.is_word text.now word.now }
{
    text.eq_ignore_ascii_case(word)
}

fn key_of_word(word: &[u8]) -> Key
    ensures { result ≡ key.key_of_word word.now }
{
    if is_word(word, b"do") {
        Key::Do
    } else if is_word(word, b"if") {
        Key::If
    } else if is_word(word, b"ifdef") {
        Key::Ifdef
    } else if is_word(word, b"ifndef") {
        Key::Ifndef
    } else if is_word(word, b"procedure") {
        Key::Procedure
    } else if is_word(word, b"elseif") {
        Key::Elseif
    } else if is_word(word, b"else") {
        Key::Else
    } else if is_word(word, b"enddo") {
        Key::Enddo
    } else if is_word(word, b"endif") {
        Key::Endif
    } else if is_word(word, b"endprocedure") {
        Key::Endprocedure
    } else if is_word(word, b"define") {
        Key::Define
    } else if is_word(word, b"redefine") {
        Key::Redefine
    } else if is_word(word, b"undefine") {
        Key::Undefine
    } else if is_word(word, b"call") {
        Key::Call
    } else if is_word(word, b"include") {
        Key::Include
    } else {
        Key::Unknown
    }
}

/// How many letters are at the front.
fn word_length(text: &[u8]) -> usize
    ensures { result ≡ prefix_len is_ascii_alphabetic text.now }
{
    text.iter()
        .take_while(|byte| byte.is_ascii_alphabetic())
        .count()
}

/// The kind of an instruction, by what follows its `#`.
fn key_behind(text: &[u8]) -> Key
    ensures { result ≡ key.key_behind text.now }
{
    let [first, ..] = text else {
        return Key::Unknown;
    };
    if *first == b'-' || *first == b'+' {
        return Key::Sign;
    }
    let size = word_length(text).min(text.len());
    key_of_word(&text[..size])
}

/// The kind of a line.
#[tactic(auto, unfolding(crate::specs::Key::key_of))]
pub fn key_of(text: &[u8]) -> Key
    ensures { result ≡ key.key_of text.now }
{
    let [first, others @ ..] = after_blanks(text) else {
        return Key::Plain;
    };
    if *first == b'#' {
        key_behind(others)
    } else {
        Key::Plain
    }
}

impl Key {
    /// How many bytes the keyword has.
    fn len(self) -> usize
        ensures { result ≡ key.key_length self }
    {
        match self {
            Key::Plain | Key::Unknown => 0,
            Key::Sign => 1,
            Key::Do | Key::If => 2,
            Key::Else | Key::Call => 4,
            Key::Ifdef | Key::Enddo | Key::Endif => 5,
            Key::Ifndef | Key::Elseif | Key::Define => 6,
            Key::Include => 7,
            Key::Redefine | Key::Undefine => 8,
            Key::Procedure => 9,
            Key::Endprocedure => 12,
        }
    }
}

/// What stands behind the keyword of a line.
pub fn behind_key(kind: Key, text: &[u8]) -> &[u8]
    ensures { result.now ≡ key.behind_key kind text.now }
{
    let text = after_blanks(text);
    &text[(kind.len() + 1).min(text.len())..]
}
