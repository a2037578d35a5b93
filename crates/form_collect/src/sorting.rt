//! Sorting terms by numbers made of the exponents of a few symbols, which decide most comparisons.
ghost use Rattle.std.specs.Prelude.{◌≡◌, ◌<◌, ◌≤◌, ◌+◌, ◌*◌, ◌^◌, ◌&&◌, ◌==◌, None, All, IfOk, length, map, drop, set, if◌then◌else◌};
ghost use Rattle.std.specs.List.{IsDistinct, list_all, slice_get};
ghost use Rattle.std.specs.Option.{option_cmp};
ghost use Rattle.std.specs.List.Sorted.{IsPermutation, IsSorted};
ghost use Rattle.form_term.specs.Monomial.{unit};
ghost use Rattle.form_term.specs.Term.{RiseFrom, exponent_in, imaginary_exponent};
ghost use Rattle.form_collect.specs.Keys.{AreSorted, arguments_digit, call_tie, digit, first_of, first_symbol, has_none_between, is_near, is_told, is_whole, item_at, key_of, keyed_order, keys_from, number_digit, piece_digit, same_place, ArePlacedFrom, sum_digit, term_order, tie_of};

use crate::Terms;
use form_term::{Call, Monomial, Piece, Power, Term, compare};
use std::alloc::{AllocError, Global};
use std::cmp::Ordering;
use std::mem;

/// Up to how many terms are sorted as they stand.
const SHORT: usize = 16;
/// How many terms have places.
const PLACES: usize = 4_000_000_000;
/// How many symbols' exponents are in a key.
const SYMBOLS: u64 = 9;
/// The digit of the exponent 0.
const ZERO: u64 = 64;
/// How many functions have ties of their own.
const FUNCTIONS: u32 = 2047;
/// The tie of those behind.
const LAST_TIE: u32 = 2_146_435_073;

/// A term in a list by its place, with its key, and its tie, which decides where keys are equal.
#[derive(Clone, Copy)]
struct Keyed {
    key: u64,
    tie: u32,
    place: u32,
}

/// These terms in their order.
pub fn sorted(alloc: Global, mut terms: Vec<Monomial>) -> Result<Terms, AllocError>
    ensures { IfOk result (λ list. AreSorted terms.items list) }
{
    if terms.len() <= SHORT {
        sort_plainly(&mut terms);
        return Ok(Terms::from_vec(terms));
    }
    if terms.len() > PLACES {
        sort_plainly(&mut terms);
        return Ok(Terms::from_vec(terms));
    }
    let list = sorted_by_keys(alloc, terms)?;
    Ok(list)
}

fn sort_plainly(terms: &mut [Monomial])
    ensures { AreSorted terms.old terms.new }
{
    terms.sort_unstable_by(|a, b| compare(&a.term, &b.term));
}

fn sorted_by_keys(alloc: Global, terms: Vec<Monomial>) -> Result<Terms, AllocError>
    requires { length terms.items ≤ 4000000000 }
    ensures { IfOk result (λ list. AreSorted terms.items list) }
{
    let first = first_symbol(&terms);
    let is_told = are_whole(&terms, first);
    let mut keys = keys_of(alloc, &terms, first, is_told)?;
    sort_keys(&mut keys, &terms);
    let came = places_in(alloc, &keys)?;
    let list = by_places(alloc, terms, &keys)?;
    Ok(Terms::that_came(list, came))
}

fn sort_keys(keys: &mut Vec<Keyed>, terms: &[Monomial])
    ensures moved { IsPermutation keys.old.items keys.new.items }
    ensures rising { IsSorted (keyed_order terms.now) keys.new.items }
{
    keys.sort_unstable_by(|a, b| compare_keyed(a, b, terms));
}

/// The order of two terms, by their keys, their ties and then by themselves.
fn compare_keyed(a: &Keyed, b: &Keyed, terms: &[Monomial]) -> Ordering
    ensures { result ≡ keyed_order terms.now a.now b.now }
{
    if a.key < b.key {
        return Ordering::Less;
    }
    if b.key < a.key {
        return Ordering::Greater;
    }
    if a.tie < b.tie {
        return Ordering::Less;
    }
    if b.tie < a.tie {
        return Ordering::Greater;
    }
    compare_at(terms, a.place, b.place)
}

/// The order of the terms at two places, where none is before all.
fn compare_at(terms: &[Monomial], a: u32, b: u32) -> Ordering
    ensures { result ≡ option_cmp term_order (slice_get terms.now a) (slice_get terms.now b) }
{
    let Some(left) = terms.get(a as usize) else {
        return compare_none(terms, b);
    };
    let Some(right) = terms.get(b as usize) else {
        return Ordering::Greater;
    };
    compare(&left.term, &right.term)
}

/// The order of no term and the one at a place.
fn compare_none(terms: &[Monomial], place: u32) -> Ordering
    ensures { result ≡ option_cmp term_order None (slice_get terms.now place) }
{
    match terms.get(place as usize) {
        Some(_) => Ordering::Less,
        None => Ordering::Equal,
    }
}

/// The keys of these terms in their places, with their ties where these tell something.
fn keys_of(
    alloc: Global,
    terms: &[Monomial],
    first: u32,
    is_told: bool,
) -> Result<Vec<Keyed>, AllocError>
    requires short { length terms.now ≤ 4000000000 }
    requires rise { All (λ m. RiseFrom first m.term.symbols) terms.now }
    ensures { IfOk result (λ keys. keys.items ≡ keys_from first is_told 0 terms.now) }
{
    let mut keys = Vec::with_capacity(alloc, terms.len())?;
    let mut place: u32 = 0;
    for item in terms {
        let key = key_of(&item.term, first);
        let tie = tie_if(&item.term, is_told);
        keys.push(Keyed { key, tie, place })?;
        place += 1;
    }
    Ok(keys)
}

/// The symbol declared first that stands in these terms.
fn first_symbol(terms: &[Monomial]) -> u32
    ensures is { result ≡ first_symbol terms.now }
    ensures rise { All (λ m. RiseFrom result m.term.symbols) terms.now }
{
    let mut first = u32::MAX;
    for item in terms {
        first = first.min(first_of(&item.term));
    }
    first
}

/// The first symbol of a term, and one that no term has where there is none.
fn first_of(term: &Term) -> u32
    ensures is { result ≡ first_of term.now }
    ensures rise { RiseFrom result term.now.symbols }
{
    let Some((power, _)) = term.powers().split_first() else {
        return u32::MAX;
    };
    power.symbol.position()
}

/// The key of a term none of whose symbols is before this one.
fn key_of(term: &Term, first: u32) -> u64
    requires { RiseFrom first term.now.symbols }
    ensures { result ≡ key_of first term.now }
{
    let mut key = first_digit(term);
    let mut rest = term.powers();
    let mut symbol = u64::from(first);
    let mut left = SYMBOLS;
    let mut is_open = true;
    while left > 0 {
        let digit = digit_at(rest, symbol);
        key = with_digit(key, is_open, digit);
        if digit != ZERO {
            is_open = is_told_too(is_open, digit);
            rest = behind(rest);
        }
        symbol += 1;
        left -= 1;
    }
    key
}

fn first_digit(term: &Term) -> u64
    ensures { result ≡ imaginary_exponent term.now }
{
    if term.is_imaginary() {
        return 1;
    }
    0
}

/// The exponent, as a digit, of a symbol that no power but the first can be of.
fn digit_at(powers: &[Power], symbol: u64) -> u64
    requires { RiseFrom symbol powers.now }
    ensures { result ≡ digit (exponent_in powers.now symbol) }
{
    let Some((power, _)) = powers.split_first() else {
        return ZERO;
    };
    if u64::from(power.symbol.position()) == symbol {
        return digit_of(power);
    }
    ZERO
}

fn behind(powers: &[Power]) -> &[Power]
    ensures { result.now ≡ drop 1 powers.now }
{
    match powers.split_first() {
        Some((_, rest)) => rest,
        None => powers,
    }
}

fn with_digit(key: u64, is_open: bool, digit: u64) -> u64
    requires { key * 128 + digit < 2 ^ 64 }
    ensures { result ≡ key * 128 + (if is_open then digit else 0) }
{
    if is_open {
        return key * 128 + digit;
    }
    key * 128
}

fn is_told_too(is_open: bool, digit: u64) -> bool
    ensures { result ≡ is_open && is_told digit }
{
    is_open && 0 < digit && digit < 127
}

/// An exponent as a digit.
fn digit_of(power: &Power) -> u64
    ensures { result ≡ digit power.now.exponent }
{
    let size = u64::from(power.exponent.unsigned_abs());
    if power.exponent < 0 {
        return ZERO - size.min(64);
    }
    ZERO + size.min(63)
}

/// Whether the keys of these terms tell all that is before functions in their order.
fn are_whole(terms: &[Monomial], first: u32) -> bool
    ensures { result ≡ list_all (λ m. is_whole first m.term) terms.now }
{
    for item in terms {
        if !is_whole(&item.term, first) {
            return false;
        }
    }
    true
}

fn is_whole(term: &Term, first: u32) -> bool
    ensures { result ≡ is_whole first term.now }
{
    has_none_between(term) && are_near(term.powers(), u64::from(first) + SYMBOLS)
}

/// Whether there are no factors that stand between symbols and functions in the order.
fn has_none_between(term: &Term) -> bool
    ensures { result ≡ has_none_between term.now }
{
    term.dots().is_empty() && term.components().is_empty() && term.deltas().is_empty()
}

/// Whether a key tells all of these powers.
fn are_near(powers: &[Power], end: u64) -> bool
    ensures { result ≡ list_all (is_near end) powers.now }
{
    for power in powers {
        if !is_near(power, end) {
            return false;
        }
    }
    true
}

fn is_near(power: &Power, end: u64) -> bool
    ensures { result ≡ is_near end power.now }
{
    u64::from(power.symbol.position()) < end && power.exponent.unsigned_abs() < 63
}

fn tie_if(term: &Term, is_told: bool) -> u32
    ensures { result ≡ (if is_told then tie_of term.now else 0) }
{
    if is_told {
        return tie_of(term);
    }
    0
}

/// The tie of a term, which its first function gives.
fn tie_of(term: &Term) -> u32
    ensures { result ≡ tie_of term.now }
{
    let Some((call, _)) = term.functions().split_first() else {
        return 0;
    };
    tie_of_call(call)
}

fn tie_of_call(call: &Call) -> u32
    ensures { result ≡ call_tie call.now }
{
    let position = call.function().position();
    if position < FUNCTIONS {
        return 1 + position * 1_048_576 + digit_of_arguments(call.pieces());
    }
    LAST_TIE
}

fn digit_of_arguments(pieces: &[Piece]) -> u32
    ensures is { result ≡ arguments_digit pieces.now }
    ensures below { result ≤ 524289 }
{
    let Some((first, rest)) = pieces.split_first() else {
        return 0;
    };
    match first {
        Piece::Sum => digit_of_sum(rest),
        _ => 0,
    }
}

fn digit_of_sum(pieces: &[Piece]) -> u32
    ensures is { result ≡ sum_digit pieces.now }
    ensures below { result ≤ 524289 }
{
    let Some((first, _)) = pieces.split_first() else {
        return 0;
    };
    digit_of_piece(first)
}

fn digit_of_piece(piece: &Piece) -> u32
    ensures is { result ≡ piece_digit piece.now }
    ensures below { result ≤ 524289 }
{
    match piece {
        Piece::EndOfArguments => 0,
        Piece::EndOfSum => 0,
        Piece::Negative(_) => 0,
        Piece::NegativeDot(_) => 0,
        Piece::EndOfTerm(coefficient) => 1 + digit_of_number(coefficient.numerator()),
        _ => 524_289,
    }
}

/// A numerator as a digit.
fn digit_of_number(number: i128) -> u32
    ensures is { result ≡ number_digit number }
    ensures below { result ≤ 524287 }
{
    let size = number.unsigned_abs();
    if number < 0 {
        return 262_144 - (size.min(262_144) as u32);
    }
    262_144 + (size.min(262_143) as u32)
}

/// The terms at these places.
fn by_places(
    alloc: Global,
    mut terms: Vec<Monomial>,
    keys: &[Keyed],
) -> Result<Vec<Monomial>, AllocError>
    requires within { All (λ k. k.place < length terms.items) keys.now }
    requires apart { IsDistinct same_place keys.now }
    ensures { IfOk result (λ list. list.items ≡ map (item_at terms.items) keys.now) }
{
    let mut list = Vec::with_capacity(alloc, keys.len())?;
    for keyed in keys {
        list.push(take_at(alloc, &mut terms, *keyed))?;
    }
    Ok(list)
}

/// Takes a term out and leaves 1 in its place.
fn take_at(alloc: Global, terms: &mut Vec<Monomial>, keyed: Keyed) -> Monomial
    requires { keyed.place < length terms.old.items }
    ensures taken { result ≡ item_at terms.old.items keyed }
    ensures left { terms.new.items ≡ set terms.old.items keyed.place unit }
{
    mem::replace(&mut terms[keyed.place as usize], Monomial::unit(alloc))
}

/// The places that terms have among these, in the order of the places that the keys tell.
fn places_in(alloc: Global, keys: &[Keyed]) -> Result<Vec<u32>, AllocError>
    requires short { length keys.now ≤ 4000000000 }
    requires within { All (λ k. k.place < length keys.now) keys.now }
    requires apart { IsDistinct same_place keys.now }
    ensures long { IfOk result (λ places. length places.items ≡ length keys.now) }
    ensures stand { IfOk result (λ places. ArePlacedFrom places.items 0 keys.now) }
{
    let mut places = Vec::with_capacity(alloc, keys.len())?;
    places.resize(keys.len(), 0)?;
    let mut stands: u32 = 0;
    for keyed in keys {
        stand_at(&mut places, *keyed, stands);
        stands += 1;
    }
    Ok(places)
}

/// Puts a number at the place of a key.
fn stand_at(places: &mut Vec<u32>, keyed: Keyed, stands: u32)
    requires { keyed.place < length places.old.items }
    ensures { places.new.items ≡ set places.old.items keyed.place stands }
{
    places[keyed.place as usize] = stands;
}
