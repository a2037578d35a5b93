ghost use Rattle.std.specs.Prelude.{◌≡◌, ◌<◌, ◌≤◌, ◌++◌, [], ◌∷◌, false, nat_abs, map, flat_map, All, IfOk, OnOk};
ghost use Rattle.std.specs.List.Sorted.{IsStrictlySortedBy};
ghost use Rattle.std.specs.Ordering.{on};
ghost use Rattle.form_frac.specs.Fraction.{IsLowest, is_zero};
ghost use Rattle.form_term.specs.declared.piece.Piece.TheVariants as marks;
ghost use Rattle.form_term.specs.Calls.{call};
ghost use Rattle.form_term.specs.Pieces.{piece_of_power, piece_of_dot};
ghost use Rattle.form_term.specs.Term as terms;
ghost use Rattle.form_term.specs.Monomial.{summands_of, number_argument, power_argument};

use crate::{Call, Coefficient, Component, Delta, DotPower, Index, Monomial, Piece, Power, Term};
use form_base::Id;
use form_frac::Frac;
use std::alloc::{AllocError, Global};
use std::marker::Model;

/// The arguments of a function, one after another: in a clause the list of their pieces.
#[derive(Drop)]
pub struct Arguments {
    pieces: Vec<Piece>,
}

impl Model for Arguments {
    ghost use Rattle.std.specs.Prelude.{List};
    ghost use Rattle.form_term.specs.Term as terms;
    ghost use Rattle.form_term.specs.declared.piece.Piece.{Piece};

    ghost Value = { List Piece };

    ghost view = { λ a. a.pieces.items };

    ghost invariant = { λ a. terms.AreArguments a.pieces.items };
}

impl Arguments {
    /// No arguments, which takes no memory.
    pub fn new(alloc: Global) -> Arguments
        ensures { result ≡ [] }
    {
        Arguments {
            pieces: Vec::new(alloc),
        }
    }

    /// No arguments, with room for so many pieces.
    pub fn with_capacity(alloc: Global, capacity: usize) -> Result<Arguments, AllocError>
        ensures { IfOk result (λ all. all ≡ []) }
    {
        Ok(Arguments {
            pieces: Vec::with_capacity(alloc, capacity)?,
        })
    }

    /// These and those whose pieces these are.
    pub fn with_pieces(self, list: &[Piece]) -> Result<Arguments, AllocError>
        requires { terms.AreArguments list.now }
        ensures { IfOk result (λ all. all ≡ self ++ list.now) }
    {
        let Arguments { mut pieces } = self;
        pieces.extend_from_slice(list)?;
        Ok(Arguments { pieces })
    }

    /// These and one more, an index alone.
    pub fn with_index(self, index: Index) -> Result<Arguments, AllocError>
        ensures { IfOk result (λ all. all ≡ self ++ terms.pieces_of_argument (terms.index index)) }
    {
        let Arguments { mut pieces } = self;
        put(&mut pieces, Piece::Index(index))?;
        Ok(Arguments { pieces })
    }

    /// These and one more, a vector alone.
    pub fn with_vector(self, vector: Id) -> Result<Arguments, AllocError>
        ensures { IfOk result (λ all. all ≡ self ++ terms.pieces_of_argument (terms.vector vector)) }
    {
        let Arguments { mut pieces } = self;
        put(&mut pieces, Piece::Vector(vector))?;
        Ok(Arguments { pieces })
    }

    /// These and one more, the expression of these terms.
    pub fn with_expression(self, list: &[Monomial]) -> Result<Arguments, AllocError>
        requires rising { IsStrictlySortedBy (on (λ m. m.term) terms.order) list.now }
        requires present { All (λ m. is_zero m.coefficient ≡ false) list.now }
        ensures { IfOk result (λ all. all
            ≡ self ++ terms.pieces_of_argument (terms.expression (summands_of list.now))) }
    {
        let Arguments { mut pieces } = self;
        put_expression(&mut pieces, list)?;
        Ok(Arguments { pieces })
    }

    /// These and one more, the expression that is this number.
    pub fn with_number(self, number: Frac) -> Result<Arguments, AllocError>
        requires { is_zero number ≡ false }
        ensures { IfOk result (λ all. all ≡ self ++ terms.pieces_of_argument (number_argument number)) }
    {
        let Arguments { mut pieces } = self;
        let end = end_of_term(number);
        pieces.extend_from_slice(&[Piece::Sum, end, Piece::EndOfSum])?;
        Ok(Arguments { pieces })
    }

    /// These and one more, the expression that is this power of a symbol.
    pub fn with_power(self, power: Power) -> Result<Arguments, AllocError>
        requires present { 0 < nat_abs power.exponent }
        requires in_range { nat_abs power.exponent ≤ terms.largest_exponent }
        ensures { IfOk result (λ all. all ≡ self ++ terms.pieces_of_argument (power_argument power)) }
    {
        let Arguments { mut pieces } = self;
        let factor = Piece::of_power(power);
        let end = end_of_term(Frac::one());
        pieces.extend_from_slice(&[Piece::Sum, factor, end, Piece::EndOfSum])?;
        Ok(Arguments { pieces })
    }

    /// The function with these arguments.
    pub fn into_call(self, function: Id) -> Result<Call, AllocError>
        ensures { IfOk result (λ c. c ≡ call function self) }
    {
        let Arguments { pieces } = self;
        Call::from_pieces(function, pieces)
    }
}

/// The end of a term with this coefficient.
fn end_of_term(number: Frac) -> Piece
    ensures piece { result ≡ marks.EndOfTerm (record { numerator = number.numerator; denominator = number.denominator }) }
    ensures lowest { IsLowest number }
{
    Piece::EndOfTerm(Coefficient::new(number.numerator(), number.denominator()))
}

fn put_expression(pieces: &mut Vec<Piece>, list: &[Monomial]) -> Result<(), AllocError>
    ensures written { OnOk result (pieces.new.items
        ≡ pieces.old.items ++ terms.pieces_of_argument (terms.expression (summands_of list.now))) }
    ensures lawful { OnOk result (All (λ m. IsLowest m.coefficient × terms.IsTerm m.term) list.now) }
{
    put(pieces, Piece::Sum)?;
    for item in list {
        put_summand(pieces, item)?;
    }
    put(pieces, Piece::EndOfSum)?;
    Ok(())
}

/// Puts a term of an expression last.
fn put_summand(pieces: &mut Vec<Piece>, item: &Monomial) -> Result<(), AllocError>
    ensures written { OnOk result (pieces.new.items ≡ pieces.old.items
        ++ terms.pieces_of_summand (record { coefficient = item.now.coefficient; term = item.now.term })) }
    ensures lawful { OnOk result (IsLowest item.now.coefficient × terms.IsTerm item.now.term) }
{
    item.laws();
    put_factors(pieces, &item.term)?;
    put(pieces, end_of_term(item.coefficient))
}

/// Puts the factors of a term last.
fn put_factors(pieces: &mut Vec<Piece>, term: &Term) -> Result<(), AllocError>
    ensures { OnOk result (pieces.new.items ≡ pieces.old.items ++ terms.pieces_of_term term.now) }
{
    if term.is_imaginary() {
        put(pieces, Piece::Imaginary)?;
    }
    put_powers(pieces, term.powers())?;
    put_dots(pieces, term.dots())?;
    put_components(pieces, term.components())?;
    put_deltas(pieces, term.deltas())?;
    put_functions(pieces, term.functions())?;
    put_word(pieces, term.word())
}

fn put_powers(pieces: &mut Vec<Piece>, powers: &[Power]) -> Result<(), AllocError>
    ensures { OnOk result (pieces.new.items ≡ pieces.old.items ++ map piece_of_power powers.now) }
{
    for power in powers {
        put(pieces, Piece::of_power(*power))?;
    }
    Ok(())
}

fn put_dots(pieces: &mut Vec<Piece>, dots: &[DotPower]) -> Result<(), AllocError>
    ensures { OnOk result (pieces.new.items ≡ pieces.old.items ++ map piece_of_dot dots.now) }
{
    for dot in dots {
        put(pieces, Piece::of_dot(*dot))?;
    }
    Ok(())
}

fn put_components(pieces: &mut Vec<Piece>, components: &[Component]) -> Result<(), AllocError>
    ensures { OnOk result (pieces.new.items ≡ pieces.old.items ++ map marks.Component components.now) }
{
    for component in components {
        put(pieces, Piece::Component(*component))?;
    }
    Ok(())
}

fn put_deltas(pieces: &mut Vec<Piece>, deltas: &[Delta]) -> Result<(), AllocError>
    ensures { OnOk result (pieces.new.items ≡ pieces.old.items ++ map marks.Delta deltas.now) }
{
    for delta in deltas {
        put(pieces, Piece::Delta(*delta))?;
    }
    Ok(())
}

fn put_functions(pieces: &mut Vec<Piece>, calls: &[Call]) -> Result<(), AllocError>
    ensures { OnOk result (pieces.new.items
        ≡ pieces.old.items ++ flat_map (terms.pieces_of_call marks.Function) calls.now) }
{
    for call in calls {
        put(pieces, Piece::Function(call.function()))?;
        put_inner(pieces, call)?;
    }
    Ok(())
}

fn put_word(pieces: &mut Vec<Piece>, calls: &[Call]) -> Result<(), AllocError>
    ensures { OnOk result (pieces.new.items
        ≡ pieces.old.items ++ flat_map (terms.pieces_of_call marks.NonCommuting) calls.now) }
{
    for call in calls {
        put(pieces, Piece::NonCommuting(call.function()))?;
        put_inner(pieces, call)?;
    }
    Ok(())
}

/// Puts the arguments of an inner function, and their end.
fn put_inner(pieces: &mut Vec<Piece>, call: &Call) -> Result<(), AllocError>
    ensures { OnOk result (pieces.new.items
        ≡ pieces.old.items ++ call.now.pieces ++ marks.EndOfArguments ∷ []) }
{
    pieces.extend_from_slice(call.pieces())?;
    put(pieces, Piece::EndOfArguments)
}

/// Puts a piece last.
fn put(pieces: &mut Vec<Piece>, piece: Piece) -> Result<(), AllocError>
    ensures { OnOk result (pieces.new.items ≡ pieces.old.items ++ piece ∷ []) }
{
    pieces.extend_from_slice(&[piece])
}
