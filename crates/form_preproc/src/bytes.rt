//! Blanks, names and quotes in a line.

ghost use Rattle.std.specs.Prelude.{◌≡◌, ◌==◌, ◌∷◌, ◌++◌, Some, None, MatchOption};
ghost use Rattle.form_lines.specs.Program.{after_blanks as after_blanks_of, is_blank as is_blank_byte};
ghost use Rattle.form_preproc.specs.Bytes as bytes;
ghost use Rattle.std.specs.List.{list_all, list_any, prefix_len};
ghost use Rattle.std.specs.Char.{is_ascii_alphanumeric};

fn is_blank(byte: u8) -> bool
    ensures { result ≡ is_blank_byte byte }
{
    byte == b' ' || byte == b'\t'
}

/// Whether a byte stands in a text.
pub fn has_byte(text: &[u8], byte: u8) -> bool
    ensures { result ≡ list_any (λ c. c == byte) text.now }
{
    memchr::memchr(byte, text).is_some()
}

/// What stands before the first place of a byte and behind it.
pub fn first_split(text: &[u8], byte: u8) -> Option<(&[u8], &[u8])>
    ensures { MatchOption result (bytes.HasNo byte text.now) (λ x. (text.now ≡ x.0.now ++ byte ∷ x.1.now) × bytes.HasNo byte x.0.now) }
{
    match memchr::memchr(byte, text) {
        Some(place) => Some((&text[..place], &text[place + 1..])),
        None => None,
    }
}

/// What stands before the last place of a byte and behind it.
pub fn last_split(text: &[u8], byte: u8) -> Option<(&[u8], &[u8])>
    ensures { MatchOption result (bytes.HasNo byte text.now) (λ x. (text.now ≡ x.0.now ++ byte ∷ x.1.now) × bytes.HasNo byte x.1.now) }
{
    match memchr::memrchr(byte, text) {
        Some(place) => Some((&text[..place], &text[place + 1..])),
        None => None,
    }
}

/// What follows the blanks at the front.
pub fn after_blanks(text: &[u8]) -> &[u8]
    ensures { result.now ≡ after_blanks_of text.now }
{
    let mut rest = text;
    while let [b' ' | b'\t', others @ ..] = rest {
        rest = others;
    }
    rest
}

/// What stands before the blanks at the end.
fn before_blanks(text: &[u8]) -> &[u8]
    ensures { result.now ≡ bytes.before_blanks text.now }
{
    let mut rest = text;
    while let [others @ .., b' ' | b'\t'] = rest {
        rest = others;
    }
    rest
}

/// Without the blanks at both ends.
pub fn trimmed(text: &[u8]) -> &[u8]
    ensures { result.now ≡ bytes.trimmed text.now }
{
    before_blanks(after_blanks(text))
}

/// Whether this is a letter, then letters and digits.
pub fn is_name(text: &[u8]) -> bool
    ensures { result ≡ bytes.is_name text.now }
{
    let [first, others @ ..] = text else {
        return false;
    };
    first.is_ascii_alphabetic() && are_alphanumeric(others)
}

fn are_alphanumeric(text: &[u8]) -> bool
    ensures { result ≡ list_all is_ascii_alphanumeric text.now }
{
    text.iter().all(|byte| byte.is_ascii_alphanumeric())
}

/// How many letters and digits are at the front.
fn name_length(text: &[u8]) -> usize
    ensures { result ≡ prefix_len is_ascii_alphanumeric text.now }
{
    text.iter()
        .take_while(|byte| byte.is_ascii_alphanumeric())
        .count()
}

/// The name at the front, and what follows it after blanks.
pub fn named(text: &[u8]) -> Option<(&[u8], &[u8])>
    ensures { MatchOption result (bytes.named text.now ≡ None) (λ x. bytes.named text.now ≡ Some (x.0.now, x.1.now)) }
{
    let size = name_length(text).min(text.len());
    let name = &text[..size];
    if is_name(name) {
        Some((name, after_blanks(&text[size..])))
    } else {
        None
    }
}

/// What stands between an opening at the front and a closing at the end.
pub fn between(opening: u8, closing: u8, text: &[u8]) -> Option<&[u8]>
    ensures { MatchOption result (bytes.between opening closing text.now ≡ None) (λ x. bytes.between opening closing text.now ≡ Some x.now) }
{
    let size = text.len();
    if size >= 2 && (text[0] == opening && text[size - 1] == closing) {
        Some(&text[1..size - 1])
    } else {
        None
    }
}

pub fn is_digit(byte: u8) -> bool
    ensures { result ≡ bytes.is_digit byte }
{
    byte >= b'0' && byte <= b'9'
}

fn holds_digits(text: &[u8]) -> bool
    ensures { result ≡ list_all bytes.is_digit text.now }
{
    text.iter().all(|byte| is_digit(*byte))
}

fn are_digits(text: &[u8]) -> bool
    ensures { result ≡ bytes.are_digits text.now }
{
    match text {
        [] => false,
        [_, ..] => holds_digits(text),
    }
}

/// Whether this is a sign, if there is one, and digits.
pub fn is_signed_number(text: &[u8]) -> bool
    ensures { result ≡ bytes.is_signed_number text.now }
{
    let [first, digits @ ..] = text else {
        return false;
    };
    if *first == b'+' || *first == b'-' {
        are_digits(digits)
    } else {
        are_digits(text)
    }
}
