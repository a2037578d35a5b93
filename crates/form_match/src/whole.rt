//! Whether a term in an argument is taken whole.
ghost use Rattle.std.specs.Prelude.{◌≡◌, not, ◌+◌, ◌-◌, min, IsTrue};
ghost use Rattle.form_term.specs.Term.{is_nil};
ghost use Rattle.form_match.specs.Left.{dot_taken as dot_taken_by, dots_left, is_one, left_of as left_of_term, powers_left, symbol_taken as symbol_taken_by, taken, untaken};
ghost use Rattle.form_match.specs.Taken.{takes_thing};
ghost use Rattle.form_match.specs.Matching.{are_apart};
ghost use Rattle.form_match.specs.Whole.{differ, length_left, shorter};

use crate::Use;
use crate::taken::{Things, dot_taken, is_taken, symbol_taken};
use form_term::{DotPower, Power, Term};

/// Whether nothing is left of a term once these are taken out.
pub fn is_taken_whole(term: &Term, takes: &[Use]) -> bool
    requires { IsTrue (are_apart takes.now) }
    ensures { result ≡ is_one (left_of_term term.now takes.now) }
{
    !are_powers_left(term.powers(), takes)
        & (!term.is_imaginary()
            & !are_dots_left(term.dots(), takes)
            & !are_left(term.components(), Things::Components, takes)
            & !are_left(term.deltas(), Things::Deltas, takes)
            & !are_left(term.functions(), Things::Functions, takes)
            & (word_len(term.word().len(), takes) == 0))
}

fn are_powers_left(powers: &[Power], takes: &[Use]) -> bool
    requires { IsTrue (are_apart takes.now) }
    ensures { result ≡ not (is_nil (powers_left takes.now powers.now)) }
{
    for power in powers {
        if is_power_left(power, takes) {
            return true;
        }
    }
    false
}

/// Whether something is left of a power.
fn is_power_left(power: &Power, takes: &[Use]) -> bool
    requires { IsTrue (are_apart takes.now) }
    ensures { result ≡ differ power.now.exponent (taken (symbol_taken_by power.now.symbol) takes.now) }
{
    let taken = symbol_taken(power.symbol, takes);
    let exponent = i64::from(power.exponent);
    exponent < taken || taken < exponent
}

fn are_dots_left(dots: &[DotPower], takes: &[Use]) -> bool
    requires { IsTrue (are_apart takes.now) }
    ensures { result ≡ not (is_nil (dots_left takes.now dots.now)) }
{
    let mut place: usize = 0;
    for dot in dots {
        if is_dot_left(dot, place, takes) {
            return true;
        }
        place += 1;
    }
    false
}

/// Whether something is left of the power of a dot product at a place.
fn is_dot_left(dot: &DotPower, place: usize, takes: &[Use]) -> bool
    requires { IsTrue (are_apart takes.now) }
    ensures { result ≡ differ dot.now.exponent (taken (dot_taken_by place) takes.now) }
{
    let taken = dot_taken(place, takes);
    let exponent = i64::from(dot.exponent);
    exponent < taken || taken < exponent
}

/// Whether one of these things isn't taken.
fn are_left<T>(list: &[T], of: Things, takes: &[Use]) -> bool
    ensures { result ≡ not (is_nil (untaken (takes_thing of) takes.now list.now)) }
{
    let mut place: usize = 0;
    for _one in list {
        if is_taken(of, place, takes) {
            place += 1;
        } else {
            return true;
        }
    }
    false
}

/// How long a word is once the stretches are taken out.
fn word_len(length: usize, takes: &[Use]) -> usize
    ensures { result ≡ length_left takes.now length }
{
    let mut left = length;
    for one in takes {
        left = shortened(left, one);
    }
    left
}

fn shortened(length: usize, one: &Use) -> usize
    ensures { result ≡ shorter one.now length }
{
    match one {
        Use::Stretch(start, count) => without_stretch(length, *start, *count),
        _ => length,
    }
}

fn without_stretch(length: usize, start: u32, count: u32) -> usize
    ensures { result ≡ min start length + (length - (start + count)) }
{
    let start = start as usize;
    length.min(start) + length.saturating_sub(start).saturating_sub(count as usize)
}
