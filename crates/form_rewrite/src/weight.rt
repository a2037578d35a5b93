//! How much there is in a term to be taken out.
ghost use Rattle.std.specs.Prelude.{◌≡◌, ◌+◌, ◌<◌, ◌^◌, map, nat_abs, sum};
ghost use Rattle.form_rewrite.specs.Taking.{weight as weight_of};

use form_term::{DotPower, Power, Term};

/// How many matches may be taken out of a term, one of which may be taken where nothing is left.
pub fn most_matches(term: &Term) -> u128
    ensures { result ≡ weight_of term.now + 1 }
{
    weight(term) + 1
}

/// What the exponents of a term and the number of its other things add up to.
fn weight(term: &Term) -> u128
    ensures weight { result ≡ weight_of term.now }
    ensures bounded { result < 2 ^ 100 }
{
    of_powers(term.powers())
        + of_dots(term.dots())
        + term.components().len() as u128
        + term.deltas().len() as u128
        + term.functions().len() as u128
        + term.word().len() as u128
}

fn of_powers(powers: &[Power]) -> u128
    ensures weight { result ≡ sum (map (λ p. nat_abs p.exponent) powers.now) }
    ensures bounded { result < 2 ^ 96 }
{
    let mut weight = 0;
    for power in powers {
        weight += size(&power.exponent);
    }
    weight
}

fn of_dots(dots: &[DotPower]) -> u128
    ensures weight { result ≡ sum (map (λ d. nat_abs d.exponent) dots.now) }
    ensures bounded { result < 2 ^ 96 }
{
    let mut weight = 0;
    for dot in dots {
        weight += size(&dot.exponent);
    }
    weight
}

/// An exponent without its sign.
fn size(exponent: &i32) -> u128
    ensures size { result ≡ nat_abs exponent.now }
    ensures bounded { result < 2 ^ 32 }
{
    u128::from(exponent.unsigned_abs())
}
