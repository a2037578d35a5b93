//! What is asked of wildcards: values as the pieces of arguments, and the sets that have to have them.
ghost use Rattle.std.specs.Prelude.{◌≡◌, ◌<◌, pos, nat_abs};
ghost use Rattle.form_bindings.specs.Values.{is_same as is_same_value, number_value, symbol_value};

use form_base::Id;
use form_bindings::is_same;
use form_term::{Coefficient, Piece, Power};
use std::cmp::Reverse;

/// What a wildcard stands for, by which the elements of its sets are read.
#[derive(Clone, Copy)]
pub enum Kind {
    Expression,
    Index,
    Vector,
    Function,
}

/// The expression that is a symbol alone.
pub fn symbol_pieces(symbol: Id) -> [Piece; 4]
    ensures { result ≡ symbol_value symbol }
{
    [
        Piece::Sum,
        Piece::Positive(Reverse(symbol), 1),
        Piece::EndOfTerm(Coefficient::new(1, 1)),
        Piece::EndOfSum,
    ]
}

/// The expression of a number that isn't 0.
pub fn number_pieces(number: &i128) -> [Piece; 3]
    requires { 0 < nat_abs number.now }
    ensures { result ≡ number_value number.now }
{
    [
        Piece::Sum,
        Piece::EndOfTerm(Coefficient::new(*number, 1)),
        Piece::EndOfSum,
    ]
}

/// The expression of an exponent that isn't 0.
pub fn exponent_pieces(of: &Power) -> [Piece; 3]
    requires { 0 < nat_abs of.now.exponent }
    ensures { result ≡ number_value of.now.exponent }
{
    [
        Piece::Sum,
        Piece::EndOfTerm(Coefficient::new(i128::from(of.exponent), 1)),
        Piece::EndOfSum,
    ]
}

/// The expression of 0.
pub fn zero_pieces() -> [Piece; 2]
    ensures { result ≡ number_value (pos 0) }
{
    [Piece::Sum, Piece::EndOfSum]
}

/// Whether a value is the expression of this number.
pub fn is_number(value: &[Piece], number: &i128) -> bool
    ensures { result ≡ is_same_value value.now (number_value number.now) }
{
    if *number == 0 {
        return is_same(value, &zero_pieces());
    }
    is_same(value, &number_pieces(number))
}
