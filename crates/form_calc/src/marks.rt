//! What is written with marks: comparisons, `&&` and `||`.

ghost use Rattle.std.specs.Prelude.{◌≡◌, Some, None, MatchOption};
ghost use Rattle.form_calc.specs.Condition as condition;
ghost use Rattle.form_calc.specs.Reading.{looked_up};

use crate::blanks::after_blanks;
use crate::operand::Comparison;

/// The comparison that a character and `=` write.
fn longer(first: u8) -> Option<Comparison>
    ensures { result ≡ looked_up condition.longer first }
{
    match first {
        b'=' => Some(Comparison::Equal),
        b'!' => Some(Comparison::Unequal),
        b'<' => Some(Comparison::LessOrEqual),
        b'>' => Some(Comparison::GreaterOrEqual),
        _ => None,
    }
}

/// The comparison that a character writes alone.
fn shorter(first: u8) -> Option<Comparison>
    ensures { result ≡ looked_up condition.shorter first }
{
    match first {
        b'<' => Some(Comparison::Less),
        b'>' => Some(Comparison::Greater),
        _ => None,
    }
}

/// The comparison that begins with this character before a text, and what follows it.
fn begun_with(first: u8, text: &[u8]) -> Option<(Comparison, &[u8])>
    ensures { MatchOption result (condition.begun_with first text.now ≡ None) (λ x. condition.begun_with first text.now ≡ Some (x.0, x.1.now)) }
{
    let [second, rest @ ..] = text else {
        let comparison = shorter(first)?;
        return Some((comparison, text));
    };
    if *second == b'=' {
        let comparison = longer(first)?;
        Some((comparison, rest))
    } else {
        let comparison = shorter(first)?;
        Some((comparison, text))
    }
}

/// The comparison at the front behind blanks, and what follows it.
#[tactic(auto, unfolding(crate::specs::Condition::comparison_at))]
pub fn comparison_at(text: &[u8]) -> Option<(Comparison, &[u8])>
    ensures { MatchOption result (condition.comparison_at text.now ≡ None) (λ x. condition.comparison_at text.now ≡ Some (x.0, x.1.now)) }
{
    let [first, rest @ ..] = after_blanks(text) else {
        return None;
    };
    begun_with(*first, rest)
}

/// What follows a mark that is written twice, behind blanks.
pub fn behind_double(mark: u8, text: &[u8]) -> Option<&[u8]>
    ensures { MatchOption result (condition.behind_double mark text.now ≡ None) (λ x. condition.behind_double mark text.now ≡ Some x.now) }
{
    let [first, others @ ..] = after_blanks(text) else {
        return None;
    };
    let [second, rest @ ..] = others else {
        return None;
    };
    if *first == mark && *second == mark {
        Some(rest)
    } else {
        None
    }
}
