ghost use Rattle.std.specs.Prelude.{◌≡◌, ◌≢◌, ◌≤◌, true, ℕ, [], ◌∷◌, ◌++◌, ◌||◌, not, Err, IfOk, OnOk, string_bytes};
ghost use Rattle.form_outside.specs.Faults.{HasRisen};
ghost use Rattle.form_outside.specs.Taken.{Takes};
ghost use Rattle.form_frac.specs.Fraction.{has_size_one as is_of_size_one};
ghost use Rattle.form_print.specs.Joined.{beginning, first_piece, has_no_factors, is_first_behind, later_piece, later_pieces, piece, starred};
ghost use Rattle.form_print.specs.Printing.{factor_texts, imaginary_texts, printed};

use crate::call::push_functions;
use crate::factor::{push_factors, push_star};
use crate::size::{has_size_one, push_size};
use form_base::Name;
use form_names::Names;
use form_outside::{Sink, SinkErr};
use form_term::{Monomial, Term};
use std::alloc::{AllocError, Global};

/// Prints an expression: its name and its collected terms, in their order. `names` are those that are declared; an Id
/// that isn't among them prints as nothing.
///
/// After an error a front of the text was taken.
pub fn print_expression<O: Sink>(
    alloc: Global,
    out: &mut O,
    names: &Names,
    name: &Name,
    terms: &[Monomial],
) -> Result<(), SinkErr>
    ensures taken { Takes (O.taken out.old)
        (printed names.now name.now terms.now) (O.taken out.new) result }
    ensures failed { result ≡ Err SinkErr.Failed → HasRisen (O.faults out.old) (O.faults out.new) }
    ensures not_risen { result ≢ Err SinkErr.Failed → O.faults out.new ≡ O.faults out.old }
    ensures never_falls { O.faults out.old ≤ O.faults out.new }
    ensures unfinished { O.is_finished out.new ≡ true → O.is_finished out.old ≡ true }
{
    let mut text = String::new(alloc);
    let Some((first, later)) = terms.split_first() else {
        push_zero(&mut text, name)?;
        return out.put(alloc, text.as_bytes());
    };
    push_beginning(alloc, &mut text, names, name, first)?;
    out.put(alloc, text.as_bytes())?;
    put_later_pieces(alloc, out, &mut text, names, later)?;
    out.put(alloc, b";\n\n")
}

/// Puts each piece behind a blank. The text is room that is used again for each.
fn put_later_pieces<O: Sink>(
    alloc: Global,
    out: &mut O,
    text: &mut String,
    names: &Names,
    terms: &[Monomial],
) -> Result<(), SinkErr>
    ensures taken { Takes (O.taken out.old) (later_pieces names.now terms.now) (O.taken out.new) result }
    ensures failed { result ≡ Err SinkErr.Failed → HasRisen (O.faults out.old) (O.faults out.new) }
    ensures not_risen { result ≢ Err SinkErr.Failed → O.faults out.new ≡ O.faults out.old }
    ensures never_falls { O.faults out.old ≤ O.faults out.new }
    ensures unfinished { O.is_finished out.new ≡ true → O.is_finished out.old ≡ true }
{
    for term in terms {
        text.clear();
        push_later_piece(alloc, text, names, term)?;
        out.put(alloc, text.as_bytes())?;
    }
    Ok(())
}

/// An expression without terms.
fn push_zero(text: &mut String, name: &Name) -> Result<(), AllocError>
    ensures { OnOk result (string_bytes text.new ≡ string_bytes text.old ++ printed [] name.now []) }
{
    text.push_str("\n   ")?;
    text.push_str(name.as_str())?;
    text.push_str(" = 0;\n\n")
}

/// The name and the first piece.
fn push_beginning(
    alloc: Global,
    text: &mut String,
    names: &Names,
    name: &Name,
    first: &Monomial,
) -> Result<(), AllocError>
    ensures { OnOk result (string_bytes text.new
        ≡ string_bytes text.old ++ beginning names.now name.now first.now) }
{
    text.push_str("\n   ")?;
    text.push_str(name.as_str())?;
    text.push_str(" =\n      ")?;
    push_first_piece(alloc, text, names, first)
}

/// A first piece has a sign where it is negative.
fn push_first_piece(
    alloc: Global,
    text: &mut String,
    names: &Names,
    term: &Monomial,
) -> Result<(), AllocError>
    ensures { OnOk result (string_bytes text.new ≡ string_bytes text.old ++ first_piece names.now term.now) }
{
    if term.coefficient.is_negative() {
        text.push('-')?;
    }
    push_piece(alloc, text, names, term)
}

/// A blank and a later piece, which always has a sign.
fn push_later_piece(
    alloc: Global,
    text: &mut String,
    names: &Names,
    term: &Monomial,
) -> Result<(), AllocError>
    ensures { OnOk result (string_bytes text.new ≡ string_bytes text.old ++ 32 ∷ later_piece names.now term.now) }
{
    if term.coefficient.is_negative() {
        text.push_str(" - ")?;
    } else {
        text.push_str(" + ")?;
    }
    push_piece(alloc, text, names, term)
}

/// The coefficient's size and the factors. A size of 1 is left out where there is a factor.
fn push_piece(
    alloc: Global,
    text: &mut String,
    names: &Names,
    term: &Monomial,
) -> Result<(), AllocError>
    ensures { OnOk result (string_bytes text.new ≡ string_bytes text.old ++ piece names.now term.now) }
{
    if is_size_shown(term) {
        push_size(text, term.coefficient)?;
        return push_term(alloc, text, names, &term.term, false);
    }
    push_term(alloc, text, names, &term.term, true)
}

/// Whether a term is a number, or its coefficient isn't 1 or -1.
fn is_size_shown(term: &Monomial) -> bool
    ensures { result ≡ (has_no_factors term.now.term || not (is_of_size_one term.now.coefficient)) }
{
    is_one(&term.term) || !has_size_one(term.coefficient)
}

/// Whether a term has no factors.
fn is_one(term: &Term) -> bool
    ensures { result ≡ has_no_factors term.now }
{
    term.powers().is_empty() && term.has_only_symbols()
}

/// Puts the factors of a term, each behind `*`, but for the first one where nothing stands before it.
fn push_term(
    alloc: Global,
    text: &mut String,
    names: &Names,
    term: &Term,
    is_first: bool,
) -> Result<(), AllocError>
    ensures { OnOk result (string_bytes text.new
        ≡ string_bytes text.old ++ starred is_first (factor_texts names.now term.now)) }
{
    let at_symbols = push_imaginary(text, term.is_imaginary(), is_first)?;
    let at_dots = push_factors(alloc, text, names, term.powers(), at_symbols)?;
    let at_components = push_factors(alloc, text, names, term.dots(), at_dots)?;
    let at_deltas = push_factors(alloc, text, names, term.components(), at_components)?;
    let at_functions = push_factors(alloc, text, names, term.deltas(), at_deltas)?;
    let at_word = push_functions(alloc, text, names, term.functions(), at_functions)?;
    push_factors(alloc, text, names, term.word(), at_word)?;
    Ok(())
}

/// Puts `i_` where it is there. Answers whether nothing stands there yet.
fn push_imaginary(text: &mut String, is_imaginary: bool, is_first: bool) -> Result<bool, AllocError>
    ensures put { OnOk result (string_bytes text.new
        ≡ string_bytes text.old ++ starred is_first (imaginary_texts is_imaginary)) }
    ensures first { IfOk result (λ first. first ≡ is_first_behind is_first (imaginary_texts is_imaginary)) }
{
    if !is_imaginary {
        return Ok(is_first);
    }
    push_star(text, is_first)?;
    text.push_str("i_")?;
    Ok(false)
}
