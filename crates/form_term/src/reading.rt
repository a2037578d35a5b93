//! Reading a function's arguments from their pieces.
ghost use Rattle.std.specs.Prelude.{◌≡◌, ◌≤◌, ◌<◌, ◌-◌, ◌++◌, pos, List, [], ◌∷◌, length, take, drop, map, All, IfOk, IfSome, OnOk, option_map};
ghost use Rattle.form_frac.specs.Fraction.{IsLowest, largest, make};
ghost use Rattle.form_term.specs.declared.piece.Piece.{Piece};
ghost use Rattle.form_term.specs.declared.piece.Piece.TheVariants as marks;
ghost use Rattle.form_term.specs.Arguments.{arguments_of, before_last, first_summands, parts_of, summands_from, with_part};
ghost use Rattle.form_term.specs.Calls.{call};
ghost use Rattle.form_term.specs.Monomial.{as_monomial};
ghost use Rattle.form_term.specs.Reading.{IsLawfulPart, begins_sum as begins_sum_of, coefficient_of, end_in, first_length};
ghost use Rattle.form_term.specs.Term as terms;
ghost use Rattle.form_term.specs.Term.{Argument, Call, Summand, AreArguments, IsArgumentOf, IsCall, IsExpression, IsTerm, pieces_of_argument, pieces_of_call};

use crate::{Call, Coefficient, DotPower, Monomial, Others, Piece, Power, Term};
use form_base::Id;
use form_frac::{Frac, FracError};
use std::alloc::{AllocError, Global};
use std::marker::Model;
use std::mem;

/// How many pieces the first of these arguments, or the first factor of these, has: one, or all up to the end of what it
/// opens.
pub fn part_len(pieces: &[Piece]) -> usize
    ensures first { result ≡ first_length (parts_of pieces.now) }
    ensures part { 0 < length pieces.now →
        parts_of pieces.now ≡ take result pieces.now ∷ parts_of (drop result pieces.now) }
    ensures some { 0 < length pieces.now → 0 < result }
    ensures within { result ≤ length pieces.now }
    ensures argument { (a : Argument) (rest : List Piece) → IsArgumentOf IsTerm a →
        pieces.now ≡ pieces_of_argument a ++ rest → result ≡ length (pieces_of_argument a) }
    ensures function { (c : Call) (rest : List Piece) → IsCall c →
        pieces.now ≡ pieces_of_call marks.Function c ++ rest → result ≡ length (pieces_of_call marks.Function c) }
    ensures non_commuting { (c : Call) (rest : List Piece) → IsCall c →
        pieces.now ≡ pieces_of_call marks.NonCommuting c ++ rest →
        result ≡ length (pieces_of_call marks.NonCommuting c) }
{
    let mut level: usize = 0;
    let mut len: usize = 0;
    for piece in pieces {
        level = piece.level_behind(level);
        len += 1;
        if level == 0 {
            return len;
        }
    }
    len
}

/// The terms of the first of these arguments, none where that is no expression.
pub fn terms_in(alloc: Global, pieces: &[Piece]) -> Result<Vec<Monomial>, AllocError>
    requires { AreArguments pieces.now }
    ensures first { IfOk result (λ ms. ms.items ≡ map as_monomial (first_summands (arguments_of pieces.now))) }
    ensures whole { IfOk result (λ ms. (ss : List Summand) → IsExpression ss →
        pieces.now ≡ pieces_of_argument (terms.expression ss) → ms.items ≡ map as_monomial ss) }
{
    if !begins_sum(pieces) {
        return Ok(Vec::new(alloc));
    }
    let list = read_terms(alloc, between(pieces, part_len(pieces)))?;
    Ok(list)
}

/// The number that an argument is; none where it is no number, or 0.
pub fn number_in(pieces: &[Piece]) -> Option<Frac>
    requires { AreArguments pieces.now }
    ensures terms { IfSome result (λ number. map as_monomial (first_summands (arguments_of pieces.now))
        ≡ record { coefficient = number; term = terms.one } ∷ []) }
    ensures lowest { IfSome result IsLowest }
    ensures exactly { option_map (λ q. record { numerator = q.numerator; denominator = q.denominator }) result
        ≡ coefficient_of pieces.now }
{
    match coefficient_in(pieces) {
        Some(coefficient) => Some(number(coefficient)),
        None => None,
    }
}

/// The coefficient of an argument that is a number.
fn coefficient_in(pieces: &[Piece]) -> Option<Coefficient>
    ensures { result ≡ coefficient_of pieces.now }
{
    match pieces {
        [Piece::Sum, Piece::EndOfTerm(coefficient), Piece::EndOfSum] => Some(*coefficient),
        _ => None,
    }
}

/// The fraction of a coefficient, which is in lowest terms.
fn number(coefficient: Coefficient) -> Frac
    requires { IsLowest (record { numerator = coefficient.numerator; denominator = coefficient.denominator }) }
    ensures { result ≡ record { numerator = coefficient.numerator; denominator = coefficient.denominator } }
{
    fraction(coefficient.numerator(), coefficient.denominator())
}

/// Whether a sum begins here.
fn begins_sum(pieces: &[Piece]) -> bool
    ensures { result ≡ begins_sum_of pieces.now }
{
    match pieces {
        [Piece::Sum, ..] => true,
        _ => false,
    }
}

/// The first so many pieces without the first and the last of them.
fn between(pieces: &[Piece], len: usize) -> &[Piece]
    requires some { 2 ≤ len }
    requires within { len ≤ length pieces.now }
    ensures { result.now ≡ take (len - 1 - 1) (drop 1 pieces.now) }
{
    &pieces[1..len - 1]
}

/// The terms of an expression by their pieces.
fn read_terms(alloc: Global, pieces: &[Piece]) -> Result<Vec<Monomial>, AllocError>
    requires parts { All IsLawfulPart (parts_of pieces.now) }
    requires terms { All (λ m. IsLowest m.coefficient × IsTerm m.term)
        (map as_monomial (summands_from terms.one (parts_of pieces.now))) }
    ensures { IfOk result (λ ms. ms.items ≡ map as_monomial (summands_from terms.one (parts_of pieces.now))) }
{
    let mut list = Vec::new(alloc);
    let mut factors = Begun::none(alloc);
    let mut rest = pieces;
    while !rest.is_empty() {
        let (part, behind) = rest.split_at(part_len(rest));
        match end_of(part) {
            Some(coefficient) => {
                let term = mem::replace(&mut factors, Begun::none(alloc));
                list.push(term.times(alloc, coefficient)?)?;
            }
            None => factors.put(alloc, part)?,
        }
        rest = behind;
    }
    Ok(list)
}

/// The coefficient of the term that ends here.
fn end_of(part: &[Piece]) -> Option<Coefficient>
    ensures { result ≡ end_in part.now }
{
    match part {
        [Piece::EndOfTerm(coefficient), ..] => Some(*coefficient),
        _ => None,
    }
}

/// The fraction of these parts, which are in lowest terms.
fn fraction(numerator: i128, denominator: u128) -> Frac
    requires { IsLowest (record { numerator = numerator; denominator = denominator }) }
    ensures { result ≡ record { numerator = numerator; denominator = denominator } }
{
    if denominator == 1 {
        return Frac::whole(numerator);
    }
    match quotient(numerator, denominator) {
        Ok(fraction) => fraction,
        Err(_) => Frac::zero(),
    }
}

fn quotient(numerator: i128, denominator: u128) -> Result<Frac, FracError>
    requires { denominator ≤ largest }
    ensures { result ≡ make numerator (pos denominator) }
{
    Frac::make(numerator, denominator as i128)
}

/// The factors of a term that have been read so far.
#[derive(Drop)]
struct Begun {
    powers: Vec<Power>,
    others: Others,
}

impl Model for Begun {
    ghost use Rattle.form_term.specs.Term as terms;
    ghost use Rattle.form_term.specs.Terms.{term};

    ghost Value = { terms.Term };

    ghost view = { λ f. term f.powers.items f.others };
}

impl Begun {
    /// No factors, which takes no memory.
    fn none(alloc: Global) -> Begun
        ensures { result ≡ terms.one }
    {
        Begun {
            powers: Vec::new(alloc),
            others: Others::none(alloc),
        }
    }

    /// The term of these factors, with a coefficient.
    fn times(self, alloc: Global, coefficient: Coefficient) -> Result<Monomial, AllocError>
        requires lowest { IsLowest (record { numerator = coefficient.numerator; denominator = coefficient.denominator }) }
        requires lawful { IsTerm self }
        ensures { IfOk result (λ m. m ≡ record {
          coefficient = record { numerator = coefficient.numerator; denominator = coefficient.denominator };
          term = self;
        }) }
    {
        let Begun { powers, others } = self;
        Ok(Monomial {
            coefficient: fraction(coefficient.numerator(), coefficient.denominator()),
            term: Term::from_factors(alloc, powers, others)?,
        })
    }

    /// Puts a factor behind these.
    fn put(&mut self, alloc: Global, part: &[Piece]) -> Result<(), AllocError>
        requires { IsLawfulPart part.now }
        ensures { OnOk result (self.new ≡ with_part self.old part.now) }
    {
        let others = &mut self.others;
        match part {
            [Piece::Imaginary, ..] => {
                others.is_imaginary = true;
                Ok(())
            }
            [Piece::Negative(power), ..] => self.powers.extend_from_slice(&[*power]),
            [Piece::Positive(symbol, exponent), ..] => self.powers.extend_from_slice(&[Power {
                symbol: symbol.0,
                exponent: *exponent,
            }]),
            [Piece::NegativeDot(dot), ..] => others.dots.extend_from_slice(&[*dot]),
            [Piece::PositiveDot(left, right, exponent), ..] => others.dots.extend_from_slice(&[
                DotPower {
                    left: left.0,
                    right: right.0,
                    exponent: *exponent,
                },
            ]),
            [Piece::Component(component), ..] => others.components.extend_from_slice(&[*component]),
            [Piece::Delta(delta), ..] => others.deltas.extend_from_slice(&[*delta]),
            [Piece::Function(name), rest @ ..] => put_call(
                alloc,
                &mut others.functions,
                *name,
                rest,
            ),
            [Piece::NonCommuting(name), rest @ ..] => put_call(
                alloc,
                &mut others.word,
                *name,
                rest,
            ),
            _ => Ok(()),
        }
    }
}

/// Puts a function last, by the pieces of its arguments and the mark of their end.
fn put_call(
    alloc: Global,
    calls: &mut Vec<Call>,
    name: Id,
    rest: &[Piece],
) -> Result<(), AllocError>
    requires { IsCall (call name (before_last rest.now)) }
    ensures { OnOk result (calls.new.items ≡ calls.old.items ++ call name (before_last rest.now) ∷ []) }
{
    let arguments = &rest[..rest.len().saturating_sub(1)];
    let mut pieces = Vec::new(alloc);
    pieces.extend_from_slice(arguments)?;
    calls.push(Call::from_pieces(name, pieces)?)?;
    Ok(())
}
