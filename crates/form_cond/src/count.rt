//! Sums of weights times numbers.
ghost use Rattle.std.specs.Prelude.{◌≡◌, ◌+◌, ◌*◌, ◌≤◌, ◌^◌, ◌==◌, ◌*ℤ◌, ◌+ℤ◌, length, nat_abs, pos, if◌then◌else◌};
ghost use Rattle.std.specs.List.{count_by};
ghost use Rattle.form_frac.specs.Fraction.{largest, whole};
ghost use Rattle.form_term.specs.Term.{IsTerm, exponent_in as exponent_of, largest_size};
ghost use Rattle.form_tree.specs.Weights.{most_weights};
ghost use Rattle.form_cond.specs.Condition.{count_of as count_in, number_of as number_in, times_in as times_of, total};

use form_base::Id;
use form_frac::Frac;
use form_term::{Call, Component, DotPower, Power, Term};
use form_tree::{Counted, Weighted, Weights};

pub fn count_of(weights: &Weights, term: &Term) -> Frac
    ensures { result ≡ whole (count_in weights.now term.now) }
{
    Frac::whole(sum_of(weights.as_slice(), term))
}

fn sum_of(weights: &[Weighted], term: &Term) -> i128
    requires { length weights.now ≤ most_weights }
    ensures sum { result ≡ count_in weights.now term.now }
    ensures bounded { nat_abs result ≤ largest }
{
    let mut sum = 0;
    for weighted in weights {
        sum += weighted_number(weighted, term);
    }
    sum
}

/// A weight times its number.
fn weighted_number(weighted: &Weighted, term: &Term) -> i128
    ensures product { result ≡ weighted.now.weight *ℤ number_in weighted.now.counted term.now }
    ensures bounded { nat_abs result ≤ 2 ^ 80 }
{
    i128::from(weighted.weight) * number_of(weighted.counted, term)
}

/// How often something stands in a term.
fn number_of(counted: Counted, term: &Term) -> i128
    ensures number { result ≡ number_in counted term.now }
    ensures bounded { nat_abs result ≤ 2 ^ 48 }
{
    match counted {
        Counted::Symbol(symbol) => exponent_in(term.powers(), symbol),
        Counted::Vector(vector) => number_of_vector(vector, term),
        Counted::Function(function) => number_of_function(function, term),
    }
}

/// The exponent of a symbol, 0 where it is absent.
fn exponent_in(powers: &[Power], symbol: Id) -> i128
    ensures exponent { result ≡ exponent_of powers.now symbol }
    ensures bounded { nat_abs result ≤ 2 ^ 31 }
{
    for power in powers {
        if power.symbol == symbol {
            return i128::from(power.exponent);
        }
    }
    0
}

fn number_of_vector(vector: Id, term: &Term) -> i128
    ensures number { result ≡ total (times_of vector) term.now.others.dots +ℤ pos (count_by (λ c. c.vector == vector) term.now.others.components) }
    ensures bounded { nat_abs result ≤ 2 ^ 48 }
{
    term_laws(term);
    in_dots(vector, term.dots()) + in_components(vector, term.components()) as i128
}

fn in_dots(vector: Id, dots: &[DotPower]) -> i128
    requires { length dots.now ≤ largest_size }
    ensures number { result ≡ total (times_of vector) dots.now }
    ensures bounded { nat_abs result ≤ 2 ^ 32 * length dots.now }
{
    let mut number = 0;
    for dot in dots {
        number += times_in(vector, dot);
    }
    number
}

/// How often a vector stands in a power of a dot product.
fn times_in(vector: Id, dot: &DotPower) -> i128
    ensures number { result ≡ times_of vector dot.now }
    ensures bounded { nat_abs result ≤ 2 ^ 32 }
{
    let exponent = i128::from(dot.exponent);
    times_if(dot.left == vector, exponent) + times_if(dot.right == vector, exponent)
}

fn times_if(is_it: bool, times: i128) -> i128
    ensures { result ≡ (if is_it then times else pos 0) }
{
    if is_it { times } else { 0 }
}

fn in_components(vector: Id, components: &[Component]) -> usize
    ensures number { result ≡ count_by (λ c. c.vector == vector) components.now }
    ensures within { result ≤ length components.now }
{
    components
        .iter()
        .filter(|component| component.vector == vector)
        .count()
}

fn number_of_function(function: Id, term: &Term) -> i128
    ensures number { result ≡ pos (count_by (λ c. c.function == function) term.now.others.functions + count_by (λ c. c.function == function) term.now.others.word) }
    ensures bounded { nat_abs result ≤ 2 ^ 48 }
{
    term_laws(term);
    let commuting = in_calls(function, term.functions());
    let others = in_calls(function, term.word());
    (commuting + others) as i128
}

fn in_calls(function: Id, calls: &[Call]) -> usize
    ensures number { result ≡ count_by (λ c. c.function == function) calls.now }
    ensures within { result ≤ length calls.now }
{
    calls
        .iter()
        .filter(|call| call.function() == function)
        .count()
}

/// A term is lawful.
fn term_laws(term: &Term)
    ensures { IsTerm term.now }
{
    let _ = term.powers();
}
