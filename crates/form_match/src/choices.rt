//! The candidates of the factors of a pattern in a term: what each takes, and what it asks of wildcards.
ghost use Rattle.std.specs.Prelude.{◌≡◌, ◌==◌, ◌||◌, ◌+◌, ◌<◌, ◌≤◌, ◌^◌, ◌/◌, ◌%◌, nat_abs, nat_le, length, option_map, slice_get, take, true, IfOk, IfSome};
ghost use Rattle.form_bindings.specs.Learning.{Tells};
ghost use Rattle.form_term.specs.Term.{exponent_in as exponent_in_powers};
ghost use Rattle.form_match.specs.Candidates.{candidates};
ghost use Rattle.form_match.specs.Factors.{IsNext, IsSmallUse, asked_at, behind_end, component_asked, delta_asked, dot_asked, dot_fits, exponent_or_none, first_call, first_vector, id_of as id_of_name, is_fit, may_be as may_be_named, may_be_absent as may_be_absent_from, may_begin as may_begin_with, second_vector, symbol_of as symbol_of_power, use_at, whole_asked};
ghost use Rattle.form_match.specs.Learning.{learnt_of};
ghost use Rattle.form_match.specs.Matching.{and_asked, asked_index, fits as fits_exponent, is_uncut as is_uncut_by};
ghost use Rattle.form_tree.specs.declared.pattern.PatternPiece.TheVariants as of_pattern;

use crate::Use;
use crate::asking::{ask_exponent, ask_function, ask_index, ask_symbol, ask_vector, ask_zero};
use crate::host::Host;
use form_base::Id;
use form_bindings::Bindings;
use form_term::{Call, Component, Delta, DotPower, Index, Power};
use form_tree::{IndexName, Name, PatternPiece};
use std::alloc::AllocError;

/// The first candidate of a factor from one on, unless its power or its name is seen not to fit. These pieces are behind it.
/// Behind the symbols of the term there is one that is absent; a dot product and a delta are taken as they stand, and then
/// swapped.
pub fn next_candidate(
    host: &Host,
    piece: &PatternPiece,
    behind: &[PatternPiece],
    from: usize,
) -> Option<usize>
    ensures next { IsNext (is_fit host.now piece.now behind.now) (candidates host.now piece.now) from result }
    ensures small { IfSome result (λ n. n + 1 < 2 ^ 64) }
{
    let term = host.term();
    match piece {
        PatternPiece::Symbol(name, power) => next_symbol(host, name, power, behind, from),
        PatternPiece::Whole(name, exponent) => next_whole(host, name, exponent, behind, from),
        PatternPiece::Dot(left, right, power) => next_dot(host, left, right, power, behind, from),
        PatternPiece::Component(vector, index) => {
            next_component(host, vector, index, behind, from)
        }
        PatternPiece::Delta(_, _) => within(from, term.deltas().len() * 2),
        PatternPiece::Function(name) => next_function(host, name, behind, from),
        PatternPiece::Word(count) => next_stretch(host, *count, behind, from),
        _ => None,
    }
}

fn within(candidate: usize, count: usize) -> Option<usize>
    ensures next { IsNext (λ k. true) count candidate result }
    ensures small { IfSome result (λ n. n + 1 < 2 ^ 64) }
{
    if candidate < count {
        Some(candidate)
    } else {
        None
    }
}

/// Whether a name may stand for this, unless its sets or what is bound are against it.
fn may_be(name: &Name, this: Id) -> bool
    ensures { result ≡ may_be_named name.now this }
{
    match name {
        Name::Itself(that) => *that == this,
        Name::Wild(_, _) => true,
    }
}

fn next_symbol(
    host: &Host,
    name: &Name,
    power: &i64,
    behind: &[PatternPiece],
    from: usize,
) -> Option<usize>
    ensures next { IsNext (is_fit host.now (of_pattern.Symbol name.now power.now) behind.now) (length host.now.term.symbols) from result }
    ensures small { IfSome result (λ n. n + 1 < 2 ^ 64) }
{
    let powers = host.term().powers();
    for candidate in from..powers.len() {
        let of = &powers[candidate];
        if may_be(name, of.symbol) && fits(host.is_exact(), &of.exponent, power) {
            return Some(candidate);
        }
    }
    None
}

fn next_whole(
    host: &Host,
    name: &Name,
    exponent: &Name,
    behind: &[PatternPiece],
    from: usize,
) -> Option<usize>
    ensures next { IsNext (is_fit host.now (of_pattern.Whole name.now exponent.now) behind.now) (length host.now.term.symbols + 1) from result }
    ensures small { IfSome result (λ n. n + 1 < 2 ^ 64) }
{
    let powers = host.term().powers();
    for candidate in from..powers.len() {
        if may_be(name, powers[candidate].symbol) {
            return Some(candidate);
        }
    }
    if from <= powers.len() && may_be_absent(host, name) {
        return Some(powers.len());
    }
    None
}

/// Whether a name is that of a symbol that is absent from a term that isn't an inner one.
fn may_be_absent(host: &Host, name: &Name) -> bool
    ensures { result ≡ may_be_absent_from host.now name.now }
{
    match name {
        Name::Itself(symbol) => !host.is_inner() && is_absent(host.term().powers(), *symbol),
        Name::Wild(_, _) => false,
    }
}

fn next_dot(
    host: &Host,
    left: &Name,
    right: &Name,
    power: &i64,
    behind: &[PatternPiece],
    from: usize,
) -> Option<usize>
    ensures next { IsNext (is_fit host.now (of_pattern.Dot left.now right.now power.now) behind.now) (candidates host.now (of_pattern.Dot left.now right.now power.now)) from result }
    ensures small { IfSome result (λ n. n + 1 < 2 ^ 64) }
{
    let dots = host.term().dots();
    for candidate in from..dots.len() * 2 {
        if may_be_dot(host, left, right, power, candidate) {
            return Some(candidate);
        }
    }
    None
}

/// Whether a candidate is a dot product of which a power may be taken.
fn may_be_dot(host: &Host, left: &Name, right: &Name, power: &i64, candidate: usize) -> bool
    ensures { result ≡ dot_fits host.now.is_exact left.now right.now power.now (candidate % 2 == 1)
        (slice_get host.now.term.others.dots (candidate / 2)) }
{
    match host.term().dots().get(candidate / 2) {
        Some(of) => fits_dot(host.is_exact(), left, right, power, of, candidate % 2 == 1),
        None => false,
    }
}

fn fits_dot(
    is_exact: bool,
    left: &Name,
    right: &Name,
    power: &i64,
    of: &DotPower,
    is_swapped: bool,
) -> bool
    ensures { result ≡ dot_fits is_exact left.now right.now power.now is_swapped (Some of.now) }
{
    let (first, second) = vectors_of(of, is_swapped);
    may_be(left, first) && may_be(right, second) && fits(is_exact, &of.exponent, power)
}

/// The vectors of a dot product, as it stands or swapped.
fn vectors_of(of: &DotPower, is_swapped: bool) -> (Id, Id)
    ensures { result ≡ (first_vector of.now is_swapped, second_vector of.now is_swapped) }
{
    if is_swapped {
        (of.right, of.left)
    } else {
        (of.left, of.right)
    }
}

fn next_component(
    host: &Host,
    vector: &Name,
    index: &IndexName,
    behind: &[PatternPiece],
    from: usize,
) -> Option<usize>
    ensures next { IsNext (is_fit host.now (of_pattern.Component vector.now index.now) behind.now) (length host.now.term.others.components) from result }
    ensures small { IfSome result (λ n. n + 1 < 2 ^ 64) }
{
    let components = host.term().components();
    for candidate in from..components.len() {
        if may_be(vector, components[candidate].vector) {
            return Some(candidate);
        }
    }
    None
}

fn next_function(host: &Host, name: &Name, behind: &[PatternPiece], from: usize) -> Option<usize>
    ensures next { IsNext (is_fit host.now (of_pattern.Function name.now) behind.now) (length host.now.term.others.functions) from result }
    ensures small { IfSome result (λ n. n + 1 < 2 ^ 64) }
{
    let functions = host.term().functions();
    for candidate in from..functions.len() {
        if may_be(name, functions[candidate].function()) {
            return Some(candidate);
        }
    }
    None
}

/// Where a stretch of so many functions may begin: it crosses no cut, and its functions may be those of the pattern as far
/// as these have no arguments, and the next one.
fn next_stretch(host: &Host, count: u32, behind: &[PatternPiece], from: usize) -> Option<usize>
    ensures next { IsNext (is_fit host.now (of_pattern.Word count) behind.now) (candidates host.now (of_pattern.Word count)) from result }
    ensures small { IfSome result (λ n. n + 1 < 2 ^ 64) }
{
    let word = host.term().word();
    let length = count as usize;
    if word.len() < length {
        return None;
    }
    for start in from..word.len() - length + 1 {
        if may_begin(&word[start..], behind) && is_uncut(host.cuts(), count, start) {
            return Some(start);
        }
    }
    None
}

/// Whether a word may begin with the functions of these pieces, as far as their names tell.
fn may_begin(word: &[Call], pieces: &[PatternPiece]) -> bool
    ensures { result ≡ may_begin_with word.now pieces.now }
{
    let mut rest = word;
    let mut asked = pieces;
    while let Some((name, behind)) = first_call(asked) {
        let Some((call, others)) = rest.split_first() else {
            return false;
        };
        if !may_be(name, call.function()) {
            return false;
        }
        let Some(later) = behind_end(behind) else {
            return true;
        };
        rest = others;
        asked = later;
    }
    true
}

/// The name of a function that these pieces begin with, and those behind that.
pub fn first_call(pieces: &[PatternPiece]) -> Option<(&Name, &[PatternPiece])>
    ensures { option_map (λ first. (first.0.now, first.1.now)) result ≡ first_call pieces.now }
{
    match pieces {
        [PatternPiece::Call(name), behind @ ..] => Some((name, behind)),
        _ => None,
    }
}

/// The pieces behind the end of arguments, where these begin with that.
pub fn behind_end(pieces: &[PatternPiece]) -> Option<&[PatternPiece]>
    ensures { option_map (λ behind. behind.now) result ≡ behind_end pieces.now }
{
    match pieces {
        [PatternPiece::EndOfArguments, behind @ ..] => Some(behind),
        _ => None,
    }
}

/// What a factor takes by such a candidate.
pub fn use_of(host: &Host, piece: &PatternPiece, candidate: usize) -> Use
    requires some { candidate < candidates host.now piece.now }
    requires small { candidate + 1 < 2 ^ 64 }
    ensures made { result ≡ use_at host.now piece.now candidate }
    ensures small { IsSmallUse result }
{
    let powers = host.term().powers();
    match piece {
        PatternPiece::Symbol(name, power) => Use::Symbol(
            symbol_at(powers, name, candidate),
            *power,
        ),
        PatternPiece::Whole(name, _) => {
            Use::Symbol(
                symbol_at(powers, name, candidate),
                exponent_at(powers, candidate),
            )
        }
        PatternPiece::Dot(_, _, power) => Use::Dot(candidate / 2, *power),
        PatternPiece::Component(_, _) => Use::Component(candidate),
        PatternPiece::Delta(_, _) => Use::Delta(candidate / 2),
        PatternPiece::Word(count) => Use::Stretch(place_in_word(host, candidate), *count),
        _ => Use::Function(candidate),
    }
}

/// A place in the word of a term, which is no longer than a term may be.
fn place_in_word(host: &Host, place: usize) -> u32
    requires { place ≤ length host.now.term.others.word }
    ensures { result ≡ place }
{
    let _ = host.term().powers();
    place as u32
}

/// The symbol of a power, and behind all powers that of the name.
fn symbol_at(powers: &[Power], name: &Name, place: usize) -> Id
    ensures { result ≡ symbol_of_power name.now (slice_get powers.now place) }
{
    match powers.get(place) {
        Some(of) => of.symbol,
        None => id_of(name),
    }
}

fn id_of(name: &Name) -> Id
    ensures { result ≡ id_of_name name.now }
{
    match name {
        Name::Itself(id) => *id,
        Name::Wild(id, _) => *id,
    }
}

/// The exponent of a power, and 0 behind all powers.
fn exponent_at(powers: &[Power], place: usize) -> i64
    ensures { result ≡ exponent_or_none (slice_get powers.now place) }
{
    match powers.get(place) {
        Some(of) => i64::from(of.exponent),
        None => 0,
    }
}

/// What a candidate asks of the wildcards of a factor.
pub fn ask(
    bindings: &mut Bindings,
    host: &Host,
    piece: &PatternPiece,
    candidate: usize,
) -> Result<bool, AllocError>
    ensures told { IfOk result (λ b. Tells b (learnt_of bindings.old (asked_at host.now piece.now candidate)) bindings.new) }
    ensures kept { take (length bindings.old) bindings.new ≡ bindings.old }
{
    let term = host.term();
    match piece {
        PatternPiece::Symbol(name, _) => match term.powers().get(candidate) {
            Some(of) => ask_symbol(bindings, name, of.symbol),
            None => Ok(false),
        },
        PatternPiece::Whole(name, exponent) => match term.powers().get(candidate) {
            Some(of) => ask_whole(bindings, name, exponent, of),
            None => ask_zero(bindings, exponent),
        },
        PatternPiece::Dot(left, right, _) => match term.dots().get(candidate / 2) {
            Some(of) => ask_dot(bindings, left, right, of, candidate % 2 == 1),
            None => Ok(false),
        },
        PatternPiece::Component(vector, index) => match term.components().get(candidate) {
            Some(of) => ask_component(bindings, vector, index, of),
            None => Ok(false),
        },
        PatternPiece::Delta(first, second) => match term.deltas().get(candidate / 2) {
            Some(of) => ask_delta(bindings, first, second, of, candidate % 2 == 1),
            None => Ok(false),
        },
        PatternPiece::Function(name) => match term.functions().get(candidate) {
            Some(call) => ask_function(bindings, name, call.function()),
            None => Ok(false),
        },
        _ => Ok(true),
    }
}

fn ask_whole(
    bindings: &mut Bindings,
    name: &Name,
    exponent: &Name,
    of: &Power,
) -> Result<bool, AllocError>
    ensures told { IfOk result (λ b.
        Tells b (learnt_of bindings.old (whole_asked name.now exponent.now (Some of.now))) bindings.new) }
    ensures kept { take (length bindings.old) bindings.new ≡ bindings.old }
{
    if !ask_symbol(bindings, name, of.symbol)? {
        return Ok(false);
    }
    ask_exponent(bindings, exponent, of)
}

fn ask_dot(
    bindings: &mut Bindings,
    left: &Name,
    right: &Name,
    of: &DotPower,
    is_swapped: bool,
) -> Result<bool, AllocError>
    ensures told { IfOk result (λ b.
        Tells b (learnt_of bindings.old (dot_asked left.now right.now is_swapped of.now)) bindings.new) }
    ensures kept { take (length bindings.old) bindings.new ≡ bindings.old }
{
    let (first, second) = vectors_of(of, is_swapped);
    if !ask_vector(bindings, left, first)? {
        return Ok(false);
    }
    ask_vector(bindings, right, second)
}

fn ask_component(
    bindings: &mut Bindings,
    vector: &Name,
    index: &IndexName,
    of: &Component,
) -> Result<bool, AllocError>
    ensures told { IfOk result (λ b.
        Tells b (learnt_of bindings.old (component_asked vector.now index.now of.now)) bindings.new) }
    ensures kept { take (length bindings.old) bindings.new ≡ bindings.old }
{
    if !ask_vector(bindings, vector, of.vector)? {
        return Ok(false);
    }
    ask_index(bindings, index, &of.index)
}

fn ask_delta(
    bindings: &mut Bindings,
    first: &IndexName,
    second: &IndexName,
    of: &Delta,
    is_swapped: bool,
) -> Result<bool, AllocError>
    ensures told { IfOk result (λ b.
        Tells b (learnt_of bindings.old (delta_asked first.now second.now is_swapped of.now)) bindings.new) }
    ensures kept { take (length bindings.old) bindings.new ≡ bindings.old }
{
    if is_swapped {
        return ask_indices(bindings, first, second, &of.second, &of.first);
    }
    ask_indices(bindings, first, second, &of.first, &of.second)
}

/// Whether these names may stand for these indices.
fn ask_indices(
    bindings: &mut Bindings,
    first: &IndexName,
    second: &IndexName,
    left: &Index,
    right: &Index,
) -> Result<bool, AllocError>
    ensures told { IfOk result (λ b. Tells b (learnt_of bindings.old
        (and_asked (asked_index first.now left.now) (asked_index second.now right.now))) bindings.new) }
    ensures kept { take (length bindings.old) bindings.new ≡ bindings.old }
{
    if !ask_index(bindings, first, left)? {
        return Ok(false);
    }
    ask_index(bindings, second, right)
}

/// Whether a power that isn't 0 can be taken of an exponent: it leaves a rest of the same sign or none, and none where it
/// is exact.
pub fn fits(is_exact: bool, exponent: &i32, power: &i64) -> bool
    ensures { result ≡ fits_exponent is_exact exponent.now power.now }
{
    let exponent = i64::from(*exponent);
    if *power == 0 {
        return false;
    }
    if is_exact {
        return exponent <= *power && *power <= exponent;
    }
    if 0 < *power {
        *power <= exponent
    } else {
        exponent <= *power
    }
}

/// Whether a symbol is absent among such powers.
pub fn is_absent(powers: &[Power], symbol: Id) -> bool
    ensures { result ≡ (nat_abs (exponent_in_powers powers.now symbol) == 0) }
{
    for power in powers {
        if is_of(power, &symbol) {
            return is_zero(power);
        }
    }
    true
}

fn is_of(power: &Power, symbol: &Id) -> bool
    ensures { result ≡ (power.now.symbol == symbol.now) }
{
    power.symbol == *symbol
}

fn is_zero(power: &Power) -> bool
    ensures { result ≡ (nat_abs power.now.exponent == 0) }
{
    power.exponent == 0
}

/// Whether a stretch of so many functions that begins here crosses none of the cuts.
pub fn is_uncut(cuts: &[u32], length: u32, start: usize) -> bool
    ensures { result ≡ is_uncut_by cuts.now length start }
{
    cuts.iter().all(|cut| is_outside(*cut, length, start))
}

fn is_outside(cut: u32, length: u32, start: usize) -> bool
    ensures { result ≡ (nat_le cut start || nat_le (start + length) cut) }
{
    let cut = cut as usize;
    cut <= start || (length as usize <= cut && start <= cut - length as usize)
}
