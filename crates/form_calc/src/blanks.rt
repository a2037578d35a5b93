//! What stands behind blanks.

ghost use Rattle.std.specs.Prelude.{◌≡◌, Some, None, MatchOption};
ghost use Rattle.form_calc.specs.Reading as reading;

/// What follows the blanks at the front.
pub fn after_blanks(text: &[u8]) -> &[u8]
    ensures { result.now ≡ reading.after_blanks text.now }
{
    let mut rest = text;
    while let [b' ' | b'\t', others @ ..] = rest {
        rest = others;
    }
    rest
}

/// What follows a parenthesis that ends here, behind blanks.
pub fn closing(text: &[u8]) -> Option<&[u8]>
    ensures { MatchOption result (reading.closing text.now ≡ None) (λ x. reading.closing text.now ≡ Some x.now) }
{
    let [first, rest @ ..] = after_blanks(text) else {
        return None;
    };
    if *first == b')' { Some(rest) } else { None }
}
