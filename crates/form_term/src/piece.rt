ghost use Rattle.std.specs.Prelude.{◌≡◌};

use crate::{Component, Delta, DotPower, Index, Integer, Natural, Power};
use form_base::Id;
use std::cmp::Reverse;
use std::hash::{Hash, Hasher};

/// The coefficient of a term inside an argument, in lowest terms.
#[derive(Clone, Copy, PartialEq, Eq, PartialOrd, Ord)]
pub struct Coefficient {
    pub numerator: Integer,
    pub denominator: Natural,
}

impl Coefficient {
    pub fn new(numerator: i128, denominator: u128) -> Coefficient
        ensures { result ≡ record { numerator = numerator; denominator = denominator } }
    {
        Coefficient {
            numerator: Integer::new(numerator),
            denominator: Natural::new(denominator),
        }
    }

    pub fn numerator(&self) -> i128
        ensures { result ≡ self.now.numerator }
    {
        self.numerator.get()
    }

    pub fn denominator(&self) -> u128
        ensures { result ≡ self.now.denominator }
    {
        self.denominator.get()
    }
}

impl Hash for Coefficient {
    ghost use Rattle.form_term.specs.FedPieces.{fed_coefficient};
    ghost use Rattle.form_term.specs.TermLaws.{coefficients_alike};

    ghost hash_input = { fed_coefficient };

    ghost respects_eq = { coefficients_alike fed_coefficient };

    fn hash<H: Hasher>(&self, state: &mut H) {
        state.write_i128(self.numerator());
        if self.denominator() != 1 {
            state.write_u128(self.denominator());
        }
    }
}

/// A piece of a function's arguments. They are kept flat, with marks where a sum, one of its terms and an inner
/// function's arguments end, so that arguments of any depth are compared, copied and dropped without recursion.
///
/// The order of the variants is that of terms: where two lists of pieces part, the lower term goes on with the lower
/// piece. A negative power is below the end of a term, as the symbol's exponent is 0 there, and a positive one is above
/// it; so is each other factor, since of two lists of factors a prefix comes first. A positive power of an earlier
/// symbol is above one of a later symbol.
#[derive(Clone, Copy, PartialEq, Eq, PartialOrd, Ord)]
pub enum Piece {
    /// The arguments of an inner function end.
    EndOfArguments,
    /// A sum as an argument ends.
    EndOfSum,
    /// A symbol with a negative exponent.
    Negative(Power),
    NegativeDot(DotPower),
    /// A term of a sum ends, whose coefficient this is.
    EndOfTerm(Coefficient),
    /// A non-commuting function, whose arguments follow.
    NonCommuting(Id),
    /// A commuting function, whose arguments follow.
    Function(Id),
    Delta(Delta),
    Component(Component),
    /// A dot product with a positive exponent.
    PositiveDot(Reverse<Id>, Reverse<Id>, i32),
    /// A symbol with a positive exponent.
    Positive(Reverse<Id>, i32),
    /// `i_`.
    Imaginary,
    /// An argument that is an index alone.
    Index(Index),
    /// An argument that is a vector alone.
    Vector(Id),
    /// An argument that is an expression begins; its terms follow.
    Sum,
}

const _: () = prove!(size_of::<Piece>() == 36);

/// How many marks there are that hold nothing: each is fed to a hasher as a number below this, and a name as one above.
const MARKS: u64 = 4;

impl Hash for Piece {
    ghost use Rattle.form_term.specs.FedPieces.{fed_piece};
    ghost use Rattle.form_term.specs.TermLaws.{pieces_alike};

    ghost hash_input = { fed_piece };

    ghost respects_eq = { pieces_alike fed_piece };

    /// Whole words are fed where that can be: what isn't is fed byte by byte, and so is all behind it.
    fn hash<H: Hasher>(&self, state: &mut H) {
        match self {
            Piece::EndOfArguments => state.write_u64(0),
            Piece::EndOfSum => state.write_u64(1),
            Piece::Negative(power) => power.hash(state),
            Piece::NegativeDot(dot) => dot.hash(state),
            Piece::EndOfTerm(coefficient) => coefficient.hash(state),
            Piece::NonCommuting(function) => {
                state.write_u64(u64::from(function.position()) + MARKS);
            }
            Piece::Function(function) => state.write_u64(u64::from(function.position()) + MARKS),
            Piece::Delta(delta) => delta.hash(state),
            Piece::Component(component) => component.hash(state),
            Piece::PositiveDot(left, right, exponent) => {
                state.write_u64(u64::from(left.0.position()) + MARKS);
                Power {
                    symbol: right.0,
                    exponent: *exponent,
                }
                .hash(state);
            }
            Piece::Positive(symbol, exponent) => {
                Power {
                    symbol: symbol.0,
                    exponent: *exponent,
                }
                .hash(state);
            }
            Piece::Imaginary => state.write_u64(2),
            Piece::Index(index) => index.hash(state),
            Piece::Vector(vector) => state.write_u64(u64::from(vector.position()) + MARKS),
            Piece::Sum => state.write_u64(3),
        }
    }
}

impl Piece {
    ghost use Rattle.std.specs.Prelude.{◌<◌, ◌^◌};
    ghost use Rattle.form_term.specs.Arguments.{level_behind};
    ghost use Rattle.form_term.specs.Pieces.{piece_of_power, piece_of_dot, counts};

    pub fn of_power(power: Power) -> Piece
        ensures { result ≡ piece_of_power power }
    {
        if power.exponent < 0 {
            Piece::Negative(power)
        } else {
            Piece::Positive(Reverse(power.symbol), power.exponent)
        }
    }

    pub fn of_dot(dot: DotPower) -> Piece
        ensures { result ≡ piece_of_dot dot }
    {
        if dot.exponent < 0 {
            Piece::NegativeDot(dot)
        } else {
            Piece::PositiveDot(Reverse(dot.left), Reverse(dot.right), dot.exponent)
        }
    }

    /// Whether it counts as a factor, an argument or a term of an argument.
    pub fn counts(&self) -> bool
        ensures { result ≡ counts self.now }
    {
        !matches!(
            self,
            Piece::EndOfArguments | Piece::EndOfSum | Piece::Imaginary
        )
    }

    /// How many sums and functions are open behind it, where so many are before it.
    pub(crate) fn level_behind(&self, level: usize) -> usize
        requires { level < 2 ^ 63 }
        ensures { result ≡ level_behind level self.now }
    {
        match self {
            Piece::Sum | Piece::Function(_) | Piece::NonCommuting(_) => level + 1,
            Piece::EndOfSum | Piece::EndOfArguments => level.saturating_sub(1),
            _ => level,
        }
    }
}
