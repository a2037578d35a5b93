//! Products with a single factor, made in place where they can be.
ghost use Rattle.std.specs.Prelude.{◌≡◌, ◌≤◌, ◌<◌, ◌↔◌, ◌++◌, nat_abs, length, [], ◌∷◌, false, Ok, Err, None, Some, IfOk, IfSome, IsTrue, OnOk};
ghost use Rattle.std.specs.Bool.{OnTrue};
ghost use Rattle.std.specs.List.{list_any, prefix_len};
ghost use Rattle.form_base.specs.declared.cause.Cause.{Cause};
ghost use Rattle.form_term.specs.Factor.{function_factor};
ghost use Rattle.form_term.specs.Term.{Call, IsTerm, RisesBy, call_order, nothing, of_others, one, largest_exponent};
ghost use Rattle.form_term.specs.Terms.{term};
ghost use Rattle.form_normal.specs.Factors.{HasRoom, HasRoomForWord, HasRoomForWords, IsPlain, IsWord, is_upto, words_put};
ghost use Rattle.form_normal.specs.Lists.{in_order};
ghost use Rattle.form_normal.specs.Product.{is_fixed as is_fixed_of, number_alone, power_alone, function_alone, word_alone, limited as limited_of, term_product, product_of, Multiplies, StandsAlone};

use crate::merging::merged_onto;
use crate::products::{LARGEST_SIZE, ProductError, is_one, is_plain, is_zero, limited, product};
use form_base::Cause;
use form_frac::Frac;
use form_term::{Call, Delta, Monomial, Power, Term};
use std::alloc::{AllocError, Global};
use std::cmp::Ordering;

/// How deep a term may be.
pub(crate) const LARGEST_DEPTH: usize = 64;

/// Multiplies a term with its coefficient by a factor. Answers false where the product is 0.
pub fn multiply(
    alloc: Global,
    front: &mut Monomial,
    factor: &Monomial,
) -> Result<bool, ProductError>
    ensures { Multiplies result front.old factor.now front.new }
{
    let Some(made) = product(alloc, front, factor)? else {
        return Ok(false);
    };
    *front = made;
    Ok(true)
}

/// Multiplies a term with its coefficient by a number.
pub fn multiply_by_number(
    alloc: Global,
    front: &mut Monomial,
    number: Frac,
) -> Result<bool, ProductError>
    ensures { Multiplies result front.old (number_alone number) front.new }
{
    front.laws();
    if has_fixed(front.term.deltas()) {
        let factor = Monomial {
            coefficient: number,
            term: Term::one(alloc),
        };
        return multiply(alloc, front, &factor);
    }
    let Ok(coefficient) = front.coefficient.mul(number) else {
        return Err(ProductError::Refused(Cause::Overflow));
    };
    front.coefficient = coefficient;
    Ok(true)
}

/// Multiplies a term with its coefficient by a power of a symbol. One that is declared behind all that stand there, as
/// most are in a text, is put last.
pub fn multiply_by_power(
    alloc: Global,
    front: &mut Monomial,
    power: Power,
) -> Result<bool, ProductError>
    requires { nat_abs power.exponent ≤ largest_exponent }
    ensures { Multiplies result front.old (power_alone power) front.new }
{
    front.laws();
    if goes_last(&front.term, power) {
        front.term.push(power)?;
        return Ok(true);
    }
    let factor = Monomial {
        coefficient: Frac::one(),
        term: Term::symbol(alloc, power.symbol, power.exponent)?,
    };
    multiply(alloc, front, &factor)
}

/// Whether a term has room for a function as a further factor.
pub fn has_room(front: &Monomial, call: &Call) -> bool
    ensures { IsTrue result ↔ HasRoom front.now.term call.now }
{
    front.laws();
    call.depth() < LARGEST_DEPTH
        && call.size() <= LARGEST_SIZE - front.term.size()
        && !has_fixed(front.term.deltas())
}

/// A term with its coefficient times a commuting function for which it has room.
pub fn times_function(alloc: Global, front: Monomial, call: Call) -> Result<Monomial, AllocError>
    requires { HasRoom front.term call }
    ensures product { IfOk result (λ m. product_of front (function_alone call) ≡ Ok (Some m)) }
    ensures alone { OnOk result (StandsAlone (function_alone call)) }
{
    front.laws();
    let _ = call.pieces();
    let place = place_of(front.term.functions(), &call);
    let Monomial { coefficient, term } = front;
    let term = term.with_function(alloc, place, call)?;
    Ok(Monomial { coefficient, term })
}

/// The same with a non-commuting function.
pub fn times_word(alloc: Global, front: Monomial, call: Call) -> Result<Monomial, AllocError>
    requires { HasRoom front.term call }
    ensures product { IfOk result (λ m. product_of front (word_alone call) ≡ Ok (Some m)) }
    ensures alone { OnOk result (StandsAlone (word_alone call)) }
{
    front.laws();
    let _ = call.pieces();
    let Monomial { coefficient, term } = front;
    let term = term.with_word(alloc, call)?;
    Ok(Monomial { coefficient, term })
}

/// The product of two terms with their coefficients as `product` gives it, of which the first is the caller's own: where
/// the second is a number or one commuting function, the first is changed in place, and where both have powers of symbols
/// and commuting functions alone, its functions stay where they are.
pub fn product_onto(
    alloc: Global,
    front: Monomial,
    factor: &Monomial,
) -> Result<Option<Monomial>, ProductError>
    ensures ok { IfOk result (λ m. product_of front factor.now ≡ Ok m) }
    ensures refused { (cause : Cause) → result ≡ Err (ProductError.Refused cause) →
        product_of front factor.now ≡ Err cause }
{
    if is_number(&factor.term) {
        return number_onto(alloc, front, factor.coefficient);
    }
    if let Some(call) = lone_function(&factor.term) {
        if has_room(&front, call) {
            return function_onto(alloc, front, factor.coefficient, call);
        }
    }
    if is_plain(&front.term) && is_plain(&factor.term) {
        return plain_onto(alloc, front, factor);
    }
    if is_word(&factor.term) && has_room_for(&front.term, &factor.term) {
        return word_onto(alloc, front, factor);
    }
    product(alloc, &front, factor)
}

fn number_onto(
    alloc: Global,
    mut front: Monomial,
    number: Frac,
) -> Result<Option<Monomial>, ProductError>
    ensures ok { IfOk result (λ m. product_of front (number_alone number) ≡ Ok m) }
    ensures refused { (cause : Cause) → result ≡ Err (ProductError.Refused cause) →
        product_of front (number_alone number) ≡ Err cause }
{
    match multiply_by_number(alloc, &mut front, number) {
        Ok(true) => Ok(Some(front)),
        Ok(false) => Ok(None),
        Err(error) => Err(error),
    }
}

fn function_onto(
    alloc: Global,
    front: Monomial,
    number: Frac,
    call: &Call,
) -> Result<Option<Monomial>, ProductError>
    requires { HasRoom front.term call.now }
    ensures ok { IfOk result (λ m. product_of front (record { coefficient = number; term = function_factor call.now }) ≡ Ok m) }
    ensures refused { (cause : Cause) → result ≡ Err (ProductError.Refused cause) →
        product_of front (record { coefficient = number; term = function_factor call.now }) ≡ Err cause }
{
    front.laws();
    let _ = call.pieces();
    let Ok(coefficient) = front.coefficient.mul(number) else {
        return Err(ProductError::Refused(Cause::Overflow));
    };
    let place = place_of(front.term.functions(), call);
    let own = call.clone()?;
    let Monomial { term, .. } = front;
    let term = term.with_function(alloc, place, own)?;
    Ok(Some(Monomial { coefficient, term }))
}

/// Whether a term is a product of non-commuting functions alone.
fn is_word(term: &Term) -> bool
    ensures is { OnTrue result (IsWord term.now) }
    ensures none { result ≡ false → IsWord term.now → ⊥ }
{
    term.powers().is_empty()
        && term.functions().is_empty()
        && !term.is_imaginary()
        && term.dots().is_empty()
        && term.components().is_empty()
        && term.deltas().is_empty()
}

/// Whether a term and such a one are within the limits together, where no delta of the term has two fixed indices.
fn has_room_for(front: &Term, word: &Term) -> bool
    ensures { IsTrue result ↔ HasRoomForWord front.now word.now }
{
    let _ = front.powers();
    word.size() <= LARGEST_SIZE - front.size() && !has_fixed(front.deltas())
}

/// A term times non-commuting functions for which it has room.
fn word_onto(
    alloc: Global,
    front: Monomial,
    factor: &Monomial,
) -> Result<Option<Monomial>, ProductError>
    requires word { IsWord factor.now.term }
    requires room { HasRoomForWord front.term factor.now.term }
    ensures ok { IfOk result (λ m. product_of front factor.now ≡ Ok m) }
    ensures refused { (cause : Cause) → result ≡ Err (ProductError.Refused cause) →
        product_of front factor.now ≡ Err cause }
{
    front.laws();
    factor.laws();
    let Ok(coefficient) = front.coefficient.mul(factor.coefficient) else {
        return Err(ProductError::Refused(Cause::Overflow));
    };
    let term = words_behind(alloc, front.term, factor.term.word())?;
    Ok(Some(Monomial { coefficient, term }))
}

/// A term with copies of these behind its own non-commuting functions.
fn words_behind(alloc: Global, term: Term, words: &[Call]) -> Result<Term, AllocError>
    requires lawful { IsTerm term }
    requires room { HasRoomForWords term words.now }
    ensures { IfOk result (λ made. made ≡ words_put words.now term) }
{
    let mut made = term;
    let mut rest = words;
    while let Some((call, others)) = rest.split_first() {
        let own = call.clone()?;
        let next = made.with_word(alloc, own)?;
        made = next;
        rest = others;
    }
    Ok(made)
}

fn plain_onto(
    alloc: Global,
    front: Monomial,
    factor: &Monomial,
) -> Result<Option<Monomial>, ProductError>
    requires front { IsPlain front.term }
    requires factor { IsPlain factor.now.term }
    ensures ok { IfOk result (λ m. product_of front factor.now ≡ Ok m) }
    ensures refused { (cause : Cause) → result ≡ Err (ProductError.Refused cause) →
        product_of front factor.now ≡ Err cause }
{
    let Ok(coefficient) = front.coefficient.mul(factor.coefficient) else {
        return Err(ProductError::Refused(Cause::Overflow));
    };
    let term = plain_terms(alloc, front.term, &factor.term)?;
    Ok(Some(Monomial { coefficient, term }))
}

fn plain_terms(alloc: Global, front: Term, factor: &Term) -> Result<Term, ProductError>
    requires front { IsPlain front }
    requires factor { IsPlain factor.now }
    ensures ok { IfOk result (λ t. limited_of (term_product (front ∷ factor.now ∷ [])) ≡ Ok t) }
    ensures refused { (cause : Cause) → result ≡ Err (ProductError.Refused cause) →
        limited_of (term_product (front ∷ factor.now ∷ [])) ≡ Err cause }
{
    let (powers, mut others) = front.into_factors(alloc);
    let powers = merged_onto(alloc, powers, factor.powers())?;
    put_among(&mut others.functions, factor.functions())?;
    limited(alloc, powers, others)
}

/// Puts copies of functions among others in their places.
fn put_among(functions: &mut Vec<Call>, more: &[Call]) -> Result<(), AllocError>
    requires { RisesBy call_order functions.old.items }
    ensures { OnOk result (functions.new.items ≡ in_order call_order (functions.old.items ++ more.now)) }
{
    let mut rest = more;
    while let Some((call, others)) = rest.split_first() {
        let place = place_of(functions, call);
        let own = call.clone()?;
        functions.insert(place, own)?;
        rest = others;
    }
    Ok(())
}

/// Whether a term is 1.
fn is_number(term: &Term) -> bool
    ensures is { OnTrue result (term.now ≡ one) }
    ensures none { result ≡ false → term.now ≡ one → ⊥ }
{
    term.has_only_symbols() && term.powers().is_empty()
}

/// The function that a term is, where it is one commuting function.
fn lone_function(term: &Term) -> Option<&Call>
    ensures is { IfSome result (λ call. term.now ≡ function_factor call.now) }
    ensures none { result ≡ None → (call : Call) → term.now ≡ function_factor call → ⊥ }
{
    match term.functions() {
        [call] if has_no_more(term) => Some(call),
        _ => None,
    }
}

/// Whether a term is a product of commuting functions alone.
fn has_no_more(term: &Term) -> bool
    ensures is { OnTrue result (term.now ≡ of_others (record nothing { functions = term.now.others.functions })) }
    ensures none { result ≡ false → term.now ≡ of_others (record nothing { functions = term.now.others.functions }) → ⊥ }
{
    term.powers().is_empty() && is_plain(term)
}

/// How many of these functions are no higher than another. It looks from behind: most functions are declared later than
/// those that stand there.
fn place_of(calls: &[Call], call: &Call) -> usize
    requires { RisesBy call_order calls.now }
    ensures within { result ≤ length calls.now }
    ensures place { result ≡ prefix_len (λ other. is_upto other call.now) calls.now }
{
    let mut rest = calls;
    while let Some((last, others)) = rest.split_last() {
        if is_no_higher(last, call) {
            return rest.len();
        }
        rest = others;
    }
    0
}

fn is_no_higher(other: &Call, call: &Call) -> bool
    ensures { result ≡ is_upto other.now call.now }
{
    other.cmp(call) != Ordering::Greater
}

/// Whether a power surely isn't 1 and can be put behind those of a term.
fn goes_last(front: &Term, power: Power) -> bool
    requires { nat_abs power.exponent ≤ largest_exponent }
    ensures { OnTrue result (IsTerm (term (front.now.symbols ++ power ∷ []) front.now.others) × (0 < nat_abs power.exponent) × (list_any is_fixed_of front.now.others.deltas ≡ false)) }
{
    if power.exponent == 0 || front.size() >= LARGEST_SIZE || has_fixed(front.deltas()) {
        return false;
    }
    match front.powers() {
        [.., last] => last.symbol < power.symbol,
        [] => true,
    }
}

/// Whether one of these deltas has two fixed indices, so that it is 1 or 0.
fn has_fixed(deltas: &[Delta]) -> bool
    ensures { result ≡ list_any is_fixed_of deltas.now }
{
    deltas.iter().any(|delta| is_fixed(delta))
}

fn is_fixed(delta: &Delta) -> bool
    ensures { result ≡ is_fixed_of delta.now }
{
    is_one(delta) || is_zero(delta)
}
