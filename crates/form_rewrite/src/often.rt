//! How often a match of powers can be taken.
ghost use Rattle.std.specs.Int.{w64};
ghost use Rattle.std.specs.Prelude.{◌≡◌, All, FitsSigned, IfOk, map, pos, ◌*ℤ◌};
ghost use Rattle.form_term.specs.Term.{exponent_in};
ghost use Rattle.form_rewrite.specs.Taking.{fits_times, so_often as so_often_of, times_at, times_in};
ghost use Rattle.form_rewrite.specs.Ways.{HasRoom};

use form_base::Id;
use form_match::{Use, Uses};
use form_term::{Power, Term};
use std::alloc::{AllocError, Global};

/// How often a match fits into a term: once where it takes nothing.
pub fn fits_times(term: &Term, takes: &[Use]) -> u32
    ensures { result ≡ fits_times term.now takes.now }
{
    let Some((first, others)) = takes.split_first() else {
        return 1;
    };
    let mut times = times_of(term, first);
    for one in others {
        times = times.min(times_of(term, one));
    }
    times
}

/// How often a power fits into its exponent in a term, and 0 for what is no power.
fn times_of(term: &Term, one: &Use) -> u32
    ensures { result ≡ times_at term.now one.now }
{
    match one {
        Use::Symbol(symbol, power) => times_in(exponent_in(term.powers(), *symbol), *power),
        Use::Dot(place, power) => match term.dots().get(*place) {
            Some(dot) => times_in(dot.exponent, *power),
            None => times_in(0, *power),
        },
        _ => 0,
    }
}

fn times_in(exponent: i32, power: i64) -> u32
    ensures { result ≡ times_in exponent power }
{
    let Some(times) = u64::from(exponent.unsigned_abs()).checked_div(power.unsigned_abs()) else {
        return 0;
    };
    times as u32
}

/// The exponent of a symbol, 0 where it is absent.
fn exponent_in(powers: &[Power], symbol: Id) -> i32
    ensures { result ≡ exponent_in powers.now symbol }
{
    for power in powers {
        if power.symbol == symbol {
            return power.exponent;
        }
    }
    0
}

/// A match that is taken so often.
pub fn so_often(alloc: Global, times: u32, takes: &[Use]) -> Result<Uses, AllocError>
    requires { All (HasRoom times) takes.now }
    ensures { IfOk result (λ uses. uses ≡ map (so_often_of times) takes.now) }
{
    let mut uses = Uses::new(alloc);
    for one in takes {
        uses.push(use_so_often(times, one))?;
    }
    Ok(uses)
}

fn use_so_often(times: u32, one: &Use) -> Use
    requires { HasRoom times one.now }
    ensures { result ≡ so_often_of times one.now }
{
    match one {
        Use::Symbol(symbol, power) => Use::Symbol(*symbol, multiple(times, power)),
        Use::Dot(place, power) => Use::Dot(*place, multiple(times, power)),
        other => *other,
    }
}

fn multiple(times: u32, power: &i64) -> i64
    requires { FitsSigned w64 (pos times *ℤ power.now) }
    ensures { result ≡ pos times *ℤ power.now }
{
    i64::from(times) * *power
}
