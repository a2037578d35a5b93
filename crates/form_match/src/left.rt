ghost use Rattle.std.specs.Prelude.{◌≡◌, ◌++◌, ◌+◌, ◌<◌, ◌-ℤ◌, All, IsTrue, IfOk, OnOk, length, nat_abs, nat_lt, take, drop};
ghost use Rattle.std.specs.Bool.{OnTrue};
ghost use Rattle.std.specs.List.{list_any};
ghost use Rattle.form_match.specs.Fits.{Fits, FitsExponent};
ghost use Rattle.form_match.specs.Left.{left_of as left_of_term, dots_left as dots_left_of, powers_left as powers_left_of, symbol_taken as symbol_taken_by, dot_taken as dot_taken_by, taken, untaken, without_stretch as without_stretch_of, word_left as word_left_of};
ghost use Rattle.form_match.specs.Matching.{are_apart};
ghost use Rattle.form_match.specs.Taken.{FitsDots, FitsSymbols, IsOfFunctions, is_of_symbol, present_dot, present_power, rest_left, takes_thing};

use crate::Use;
use crate::taken::{Things, dot_taken, is_taken, symbol_taken};
use form_term::{Call, DotPower, Others, Power, Term};
use std::alloc::{AllocError, Global};
use std::mem;

/// What is left of a term once a match is taken out. Its powers and functions stay in their memory.
pub fn left_of(alloc: Global, term: Term, takes: &[Use]) -> Result<Term, AllocError>
    requires { Fits takes.now term }
    ensures { IfOk result (λ t. t ≡ left_of_term term takes.now) }
{
    let (powers, others) = term.into_factors(alloc);
    let powers = powers_left(powers, takes);
    let mut others = others;
    leave(&mut others.functions, Things::Functions, takes);
    leave_rest(alloc, &mut others, takes)?;
    Term::from_factors(alloc, powers, others)
}

/// Leaves what isn't taken of other factors, of which no commuting function is taken here.
fn leave_rest(alloc: Global, others: &mut Others, takes: &[Use]) -> Result<(), AllocError>
    requires apart { IsTrue (are_apart takes.now) }
    requires fits { FitsDots takes.now others.old.dots }
    ensures { OnOk result (others.new ≡ rest_left takes.now others.old) }
{
    if has_functions_alone(others) {
        return Ok(());
    }
    leave_each(alloc, others, takes)
}

/// Whether there are surely no other factors than commuting functions and `i_`.
fn has_functions_alone(others: &Others) -> bool
    ensures { OnTrue result (IsOfFunctions others.now) }
{
    others.dots.is_empty()
        && others.components.is_empty()
        && others.deltas.is_empty()
        && others.word.is_empty()
}

#[inline(never)]
fn leave_each(alloc: Global, others: &mut Others, takes: &[Use]) -> Result<(), AllocError>
    requires apart { IsTrue (are_apart takes.now) }
    requires fits { FitsDots takes.now others.old.dots }
    ensures { OnOk result (others.new ≡ rest_left takes.now others.old) }
{
    others.dots = dots_left(alloc, others.dots.as_slice(), takes)?;
    leave(&mut others.components, Things::Components, takes);
    leave(&mut others.deltas, Things::Deltas, takes);
    let word = mem::replace(&mut others.word, Vec::new(alloc));
    others.word = word_left(word, takes);
    Ok(())
}

fn powers_left(powers: Vec<Power>, takes: &[Use]) -> Vec<Power>
    requires apart { IsTrue (are_apart takes.now) }
    requires fits { FitsSymbols takes.now powers.items }
    requires present { All (λ p. 0 < nat_abs p.exponent) powers.items }
    ensures { result.items ≡ powers_left_of takes.now powers.items }
{
    if !takes_symbol(takes) {
        return powers;
    }
    let mut left = powers;
    let mut place = left.len();
    while place > 0 {
        place -= 1;
        let lowered = lowered_power(&left[place], takes);
        put_power(&mut left, place, lowered);
    }
    left
}

/// Whether something is taken of a symbol.
fn takes_symbol(takes: &[Use]) -> bool
    ensures { result ≡ list_any is_of_symbol takes.now }
{
    takes.iter().any(|one| is_of_symbol(one))
}

fn is_of_symbol(one: &Use) -> bool
    ensures { result ≡ is_of_symbol one.now }
{
    match one {
        Use::Symbol(_, _) => true,
        _ => false,
    }
}

/// A power once what is taken of it is gone.
fn lowered_power(power: &Power, takes: &[Use]) -> Power
    requires apart { IsTrue (are_apart takes.now) }
    requires fits { FitsExponent power.now.exponent (taken (symbol_taken_by power.now.symbol) takes.now) }
    ensures { result ≡ record {
      symbol = power.now.symbol;
      exponent = power.now.exponent -ℤ taken (symbol_taken_by power.now.symbol) takes.now;
    } }
{
    let taken = symbol_taken(power.symbol, takes);
    Power {
        symbol: power.symbol,
        exponent: (i64::from(power.exponent) - taken) as i32,
    }
}

/// Puts a power at a place, where it isn't 1.
fn put_power(left: &mut Vec<Power>, place: usize, power: Power)
    requires { place < length left.old.items }
    ensures { left.new.items ≡ take place left.old.items ++ (present_power power ++ drop (place + 1) left.old.items) }
{
    if is_present(&power) {
        left[place] = power;
    } else {
        left.remove(place);
    }
}

/// Whether a power isn't 1.
fn is_present(power: &Power) -> bool
    ensures { result ≡ nat_lt 0 (nat_abs power.now.exponent) }
{
    power.exponent != 0
}

fn dots_left(alloc: Global, dots: &[DotPower], takes: &[Use]) -> Result<Vec<DotPower>, AllocError>
    requires apart { IsTrue (are_apart takes.now) }
    requires fits { FitsDots takes.now dots.now }
    ensures { IfOk result (λ left. left.items ≡ dots_left_of takes.now dots.now) }
{
    let mut left = Vec::with_capacity(alloc, dots.len())?;
    let mut place: usize = 0;
    for dot in dots {
        put_dot(&mut left, &lowered_dot(dot, place, takes))?;
        place += 1;
    }
    Ok(left)
}

/// A power of the dot product at a place once what is taken of it is gone.
fn lowered_dot(dot: &DotPower, place: usize, takes: &[Use]) -> DotPower
    requires apart { IsTrue (are_apart takes.now) }
    requires fits { FitsExponent dot.now.exponent (taken (dot_taken_by place) takes.now) }
    ensures { result ≡ record {
      left = dot.now.left;
      right = dot.now.right;
      exponent = dot.now.exponent -ℤ taken (dot_taken_by place) takes.now;
    } }
{
    let taken = dot_taken(place, takes);
    DotPower {
        left: dot.left,
        right: dot.right,
        exponent: (i64::from(dot.exponent) - taken) as i32,
    }
}

/// Puts a power of a dot product last that isn't 1.
fn put_dot(left: &mut Vec<DotPower>, dot: &DotPower) -> Result<(), AllocError>
    ensures { OnOk result (left.new.items ≡ left.old.items ++ present_dot dot.now) }
{
    if dot.exponent != 0 {
        left.push(*dot)?;
    }
    Ok(())
}

/// Leaves those of these things that aren't taken.
fn leave<T: Drop>(things: &mut Vec<T>, of: Things, takes: &[Use])
    ensures { things.new.items ≡ untaken (takes_thing of) takes.now things.old.items }
{
    let mut place = things.len();
    while place > 0 {
        place -= 1;
        if is_taken(of, place, takes) {
            things.remove(place);
        }
    }
}

fn word_left(word: Vec<Call>, takes: &[Use]) -> Vec<Call>
    ensures { result.items ≡ word_left_of takes.now word.items }
{
    let mut left = word;
    for one in takes {
        left = without_use(left, one);
    }
    left
}

/// A word without what is taken of it here.
fn without_use(word: Vec<Call>, one: &Use) -> Vec<Call>
    ensures { result.items ≡ without_stretch_of one.now word.items }
{
    match one {
        Use::Stretch(start, count) => without_stretch(word, *start as usize, *count as usize),
        _ => word,
    }
}

/// A word without the stretch that begins at a place and has so many functions. The others stay in their memory.
fn without_stretch(word: Vec<Call>, start: usize, count: usize) -> Vec<Call>
    ensures { result.items ≡ take start word.items ++ drop (start + count) word.items }
{
    let mut left = word;
    let mut gone: usize = 0;
    while gone < count {
        let length = left.len();
        if length <= start {
            return left;
        }
        left.remove(start);
        gone += 1;
    }
    left
}
