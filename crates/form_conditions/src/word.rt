ghost use Rattle.std.specs.Prelude.{◌≡◌};
ghost use Rattle.form_conditions.specs.Word.{word_of as word_spelled};

/// A word that a value begins with.
#[derive(Clone, Copy)]
pub enum Word {
    Coefficient,
    Count,
    Match,
    Occurs,
}

/// The word that the name is, in any case of letters.
pub fn word_of(name: &str) -> Option<Word>
    ensures { result ≡ word_spelled name.now }
{
    let is = |word: &str| name.eq_ignore_ascii_case(word);
    if is("coefficient") {
        Some(Word::Coefficient)
    } else if is("count") {
        Some(Word::Count)
    } else if is("match") {
        Some(Word::Match)
    } else if is("occurs") {
        Some(Word::Occurs)
    } else {
        None
    }
}
