//! What a wildcard stands for, where it is one thing of a kind.
ghost use Rattle.std.specs.Prelude.{◌≡◌, ◌≤◌, nat_abs, IfSome, option_map};
ghost use Rattle.form_frac.specs.Fraction.{largest};
ghost use Rattle.form_expand.specs.Bound.{turned_by};
ghost use Rattle.form_expand.specs.Meanings as definition;

use form_base::Id;
use form_term::{Index, Monomial, Piece};

pub fn index_in(value: &[Piece]) -> Option<Index>
    ensures { result ≡ definition.index_in value.now }
{
    match value {
        [Piece::Index(index), ..] => Some(*index),
        _ => None,
    }
}

pub fn vector_in(value: &[Piece]) -> Option<Id>
    ensures { result ≡ definition.vector_in value.now }
{
    match value {
        [Piece::Vector(vector), ..] => Some(*vector),
        _ => None,
    }
}

pub fn function_in(value: &[Piece]) -> Option<Id>
    ensures { result ≡ definition.function_in value.now }
{
    match value {
        [Piece::Function(function), ..] => Some(*function),
        _ => None,
    }
}

/// The value, where it is an expression.
pub fn expression_in(value: &[Piece]) -> Option<&[Piece]>
    ensures { option_map (λ v. v.now) result ≡ definition.expression_in value.now }
{
    match value {
        [Piece::Sum, ..] => Some(value),
        _ => None,
    }
}

/// The whole number that these terms are.
pub fn whole_number(terms: &[Monomial]) -> Option<i128>
    ensures value { result ≡ definition.whole_number terms.now }
    ensures range { IfSome result (λ number. nat_abs number ≤ largest) }
{
    match terms {
        [] => Some(0),
        [term] => number_in(term),
        _ => None,
    }
}

fn number_in(term: &Monomial) -> Option<i128>
    ensures value { result ≡ definition.number_in term.now }
    ensures range { IfSome result (λ number. nat_abs number ≤ largest) }
{
    if term.term.powers().is_empty()
        && term.term.has_only_symbols()
        && term.coefficient.is_whole()
    {
        Some(term.coefficient.numerator())
    } else {
        None
    }
}

/// An exponent behind a sign, or after `/`.
pub fn turned(is_turned: bool, exponent: i128) -> i128
    requires { nat_abs exponent ≤ largest }
    ensures value { result ≡ turned_by is_turned exponent }
    ensures range { nat_abs result ≤ largest }
{
    if is_turned { -exponent } else { exponent }
}
