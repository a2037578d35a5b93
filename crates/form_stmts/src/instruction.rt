ghost use Rattle.std.specs.Prelude.{◌≡◌, Option};
ghost use Rattle.std.specs.Option.{option_copied};
ghost use Rattle.form_lines.specs.Program.{after_blanks as after_blanks_of};
ghost use Rattle.form_stmts.specs.Instruction.{after_word as after_word_of, begins_with_period as begins_with_period_of, ends as ends_so, is_module_instruction as is_instruction_of_module};

/// What follows the blanks at the front.
fn after_blanks(text: &[u8]) -> &[u8]
    ensures { result.now ≡ after_blanks_of text.now }
{
    let mut rest = text;
    while let [b' ' | b'\t', others @ ..] = rest {
        rest = others;
    }
    rest
}

/// What stands behind a word in lower case, in any case of letters.
fn after_word<'a>(text: &'a [u8], word: &[u8]) -> Option<&'a [u8]>
    ensures { option_copied result ≡ after_word_of word.now text.now }
{
    let mut rest = text;
    for letter in word {
        let [c, others @ ..] = rest else {
            return None;
        };
        if c.to_ascii_lowercase() != *letter {
            return None;
        }
        rest = others;
    }
    Some(rest)
}

/// Whether nothing, a `:` or a last `;` stands behind a word and blanks.
fn ends(rest: Option<&[u8]>) -> bool
    ensures { result ≡ ends_so (option_copied rest.entry) }
{
    match rest {
        None => false,
        Some(rest) => match after_blanks(rest) {
            [] => true,
            [b':', ..] => true,
            [b';', others @ ..] => after_blanks(others).is_empty(),
            _ => false,
        },
    }
}

/// Whether the first byte that is no blank is a period.
pub fn begins_with_period(text: &[u8]) -> bool
    ensures { result ≡ begins_with_period_of text.now }
{
    matches!(after_blanks(text), [b'.', ..])
}

/// Whether the line is `.sort` or `.end`, with what may follow that.
pub fn is_module_instruction(text: &[u8]) -> bool
    ensures { result ≡ is_instruction_of_module text.now }
{
    let text = after_blanks(text);
    ends(after_word(text, b".sort")) || ends(after_word(text, b".end"))
}
