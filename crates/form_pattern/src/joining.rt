//! The factors of a product of a pattern, equal ones joined.
ghost use Rattle.std.specs.Prelude.{◌≡◌, ◌+◌, ◌++◌, ◌+ℤ◌, ◌∷◌, [], replicate, position, IfOk, OnOk};
ghost use Rattle.form_pattern.specs.Joining.{times, begun as begun_by, ended as ended_by, is_joined as is_joined_to, are_dots_alike as are_dots_alike_by, join_dot as joined_dots, join as joined_to, put as put_to, alone as alone_factors, pieces_of as pieces_of_factor, pieces_of_level};
ghost use Rattle.form_pattern.specs.Pattern.{is_same_name as is_same_name_by, both_sets as both_sets_of};

use form_tree::{IndexName, Name, PatternPiece, Sets};
use std::alloc::{AllocError, Global};
use std::marker::Model;
use std::mem;

/// Pieces of a pattern in a row: in a clause their list.
#[derive(Drop)]
pub struct Pieces {
    pieces: Vec<PatternPiece>,
}

impl Model for Pieces {
    ghost use Rattle.std.specs.Prelude.{List};
    ghost use Rattle.form_tree.specs.declared.pattern.PatternPiece.{PatternPiece};

    ghost Value = { List PatternPiece };

    ghost view = { λ p. p.pieces.items };
}

/// A factor so far.
#[derive(Drop)]
pub enum Factor {
    /// A power of a symbol.
    Symbol(Name, i64),
    /// A power of a dot product.
    Dot(Name, Name, i64),
    /// So many non-commuting functions in a row, by their pieces.
    Word(Pieces, u32),
    /// Any other one, by its pieces.
    Other(Pieces),
}

/// A factor as it is written, with its power or how often it stands.
#[derive(Drop)]
pub enum Raw {
    Symbol(Name, i64),
    Dot(Name, Name, i64),
    /// A non-commuting function, by its pieces.
    Word(Pieces, u32),
    Other(Pieces, u32),
}

/// The factors of a product so far, in trial order: in a clause their list.
#[derive(Drop)]
pub struct Level {
    factors: Vec<Factor>,
}

impl Model for Level {
    ghost use Rattle.std.specs.Prelude.{List};
    ghost use Rattle.form_pattern.specs.declared.joining.Factor.{Factor};

    ghost Value = { List Factor };

    ghost view = { λ l. l.factors.items };
}

/// Puts the sets behind others.
fn put_sets(sets: &Sets, out: &mut Vec<form_names::Elements>) -> Result<(), AllocError>
    ensures { OnOk result (out.new.items ≡ out.old.items ++ sets.now) }
{
    for elements in sets.as_slice() {
        out.push(elements.clone()?)?;
    }
    Ok(())
}

fn copy_of_sets(alloc: Global, sets: &Sets) -> Result<Sets, AllocError>
    ensures { IfOk result (λ s. s ≡ sets.now) }
{
    let mut all = Vec::new(alloc);
    put_sets(sets, &mut all)?;
    Ok(Sets::from_vec(all))
}

fn all_sets(alloc: Global, sets: &Sets, others: &Sets) -> Result<Sets, AllocError>
    ensures { IfOk result (λ s. s ≡ sets.now ++ others.now) }
{
    let mut all = Vec::new(alloc);
    put_sets(sets, &mut all)?;
    put_sets(others, &mut all)?;
    Ok(Sets::from_vec(all))
}

fn copy_of_name(alloc: Global, name: &Name) -> Result<Name, AllocError>
    ensures { IfOk result (λ n. n ≡ name.now) }
{
    match name {
        Name::Itself(id) => Ok(Name::Itself(*id)),
        Name::Wild(id, sets) => Ok(Name::Wild(*id, copy_of_sets(alloc, sets)?)),
    }
}

fn copy_of_index(alloc: Global, index: &IndexName) -> Result<IndexName, AllocError>
    ensures { IfOk result (λ i. i ≡ index.now) }
{
    match index {
        IndexName::Fixed(value) => Ok(IndexName::Fixed(*value)),
        IndexName::Name(name) => Ok(IndexName::Name(copy_of_name(alloc, name)?)),
    }
}

fn copy_of_piece(alloc: Global, piece: &PatternPiece) -> Result<PatternPiece, AllocError>
    ensures { IfOk result (λ p. p ≡ piece.now) }
{
    match piece {
        PatternPiece::Symbol(n, k) => Ok(PatternPiece::Symbol(copy_of_name(alloc, n)?, *k)),
        PatternPiece::Whole(n, m) => Ok(PatternPiece::Whole(
            copy_of_name(alloc, n)?,
            copy_of_name(alloc, m)?,
        )),
        PatternPiece::Dot(p, q, k) => Ok(PatternPiece::Dot(
            copy_of_name(alloc, p)?,
            copy_of_name(alloc, q)?,
            *k,
        )),
        PatternPiece::Component(p, i) => Ok(PatternPiece::Component(
            copy_of_name(alloc, p)?,
            copy_of_index(alloc, i)?,
        )),
        PatternPiece::Delta(i, j) => Ok(PatternPiece::Delta(
            copy_of_index(alloc, i)?,
            copy_of_index(alloc, j)?,
        )),
        PatternPiece::Function(n) => Ok(PatternPiece::Function(copy_of_name(alloc, n)?)),
        PatternPiece::Word(count) => Ok(PatternPiece::Word(*count)),
        PatternPiece::Call(n) => Ok(PatternPiece::Call(copy_of_name(alloc, n)?)),
        PatternPiece::EndOfArguments => Ok(PatternPiece::EndOfArguments),
        PatternPiece::EndOfWord => Ok(PatternPiece::EndOfWord),
        PatternPiece::Fixed(number) => Ok(PatternPiece::Fixed(*number)),
        PatternPiece::Any(sort, n) => Ok(PatternPiece::Any(*sort, copy_of_name(alloc, n)?)),
        PatternPiece::Field(number) => Ok(PatternPiece::Field(*number)),
        PatternPiece::Product => Ok(PatternPiece::Product),
        PatternPiece::EndOfProduct => Ok(PatternPiece::EndOfProduct),
    }
}

/// Puts copies of pieces behind others.
fn put_copies(
    alloc: Global,
    pieces: &[PatternPiece],
    out: &mut Vec<PatternPiece>,
) -> Result<(), AllocError>
    ensures { OnOk result (out.new.items ≡ out.old.items ++ pieces.now) }
{
    for piece in pieces {
        out.push(copy_of_piece(alloc, piece)?)?;
    }
    Ok(())
}

/// Puts copies of pieces behind others, so often.
fn put_times(
    alloc: Global,
    pieces: &[PatternPiece],
    count: u32,
    out: &mut Vec<PatternPiece>,
) -> Result<(), AllocError>
    ensures { OnOk result (out.new.items ≡ out.old.items ++ times count pieces.now) }
{
    for _made in 0..count {
        put_copies(alloc, pieces, out)?;
    }
    Ok(())
}

/// Puts a factor with these pieces behind others, so often.
fn put_others(
    alloc: Global,
    pieces: &[PatternPiece],
    count: u32,
    out: &mut Vec<Factor>,
) -> Result<(), AllocError>
    ensures { OnOk result (out.new.items ≡ out.old.items ++ replicate count (Factor.Other pieces.now)) }
{
    for _made in 0..count {
        let mut copy = Vec::with_capacity(alloc, pieces.len())?;
        put_copies(alloc, pieces, &mut copy)?;
        out.push(Factor::Other(Pieces { pieces: copy }))?;
    }
    Ok(())
}

impl Pieces {
    pub fn new(alloc: Global) -> Pieces
        ensures { result ≡ [] }
    {
        Pieces {
            pieces: Vec::new(alloc),
        }
    }

    pub fn single(alloc: Global, piece: PatternPiece) -> Result<Pieces, AllocError>
        ensures { IfOk result (λ p. p ≡ piece ∷ []) }
    {
        let mut pieces = Vec::new(alloc);
        pieces.push(piece)?;
        Ok(Pieces { pieces })
    }

    /// These and one more.
    pub fn with(self, piece: PatternPiece) -> Result<Pieces, AllocError>
        ensures { IfOk result (λ p. p ≡ self ++ piece ∷ []) }
    {
        let Pieces { mut pieces } = self;
        pieces.push(piece)?;
        Ok(Pieces { pieces })
    }

    /// These and others behind them.
    pub fn with_all(self, others: Pieces) -> Result<Pieces, AllocError>
        ensures { IfOk result (λ p. p ≡ self ++ others) }
    {
        let Pieces { mut pieces } = self;
        let Pieces { pieces: mut more } = others;
        pieces.append(&mut more)?;
        Ok(Pieces { pieces })
    }

    pub fn into_vec(self) -> Vec<PatternPiece>
        ensures { result.items ≡ self }
    {
        self.pieces
    }
}

/// A function that begins.
pub fn begun(alloc: Global, is_commuting: bool, name: Name) -> Result<Pieces, AllocError>
    ensures { IfOk result (λ p. p ≡ begun_by is_commuting name) }
{
    if is_commuting {
        Pieces::single(alloc, PatternPiece::Function(name))
    } else {
        Pieces::single(alloc, PatternPiece::Call(name))
    }
}

/// A function that ends, so often.
pub fn ended(is_commuting: bool, pieces: Pieces, count: u32) -> Result<Raw, AllocError>
    ensures { IfOk result (λ r. r ≡ ended_by is_commuting pieces count) }
{
    let pieces = pieces.with(PatternPiece::EndOfArguments)?;
    if is_commuting {
        Ok(Raw::Other(pieces, count))
    } else {
        Ok(Raw::Word(pieces, count))
    }
}

/// One name, or two wildcards of one name.
fn is_same_name(a: &Name, b: &Name) -> bool
    ensures { result ≡ is_same_name_by a.now b.now }
{
    match a {
        Name::Itself(m) => match b {
            Name::Itself(n) => m == n,
            Name::Wild(_, _) => false,
        },
        Name::Wild(m, _) => match b {
            Name::Wild(n, _) => m == n,
            Name::Itself(_) => false,
        },
    }
}

/// The sets of both hold for the first.
fn both_sets(alloc: Global, name: Name, other: &Name) -> Result<Name, AllocError>
    ensures { IfOk result (λ n. n ≡ both_sets_of name other.now) }
{
    match name {
        Name::Itself(id) => Ok(Name::Itself(id)),
        Name::Wild(id, sets) => match other {
            Name::Itself(_) => Ok(Name::Wild(id, sets)),
            Name::Wild(_, others) => Ok(Name::Wild(id, all_sets(alloc, &sets, others)?)),
        },
    }
}

fn are_dots_alike(p: &Name, q: &Name, r: &Name, s: &Name) -> bool
    ensures { result ≡ are_dots_alike_by p.now q.now r.now s.now }
{
    is_same_name(p, r) && is_same_name(q, s)
}

/// Whether a factor is joined with one before it.
fn is_joined(raw: &Raw, factor: &Factor) -> bool
    ensures { result ≡ is_joined_to raw.now factor.now }
{
    match raw {
        Raw::Symbol(m, _) => match factor {
            Factor::Symbol(n, _) => is_same_name(m, n),
            _ => false,
        },
        Raw::Dot(p, q, _) => match factor {
            Factor::Dot(r, s, _) => are_dots_alike(p, q, r, s) || are_dots_alike(p, q, s, r),
            _ => false,
        },
        Raw::Word(_, _) => matches!(factor, Factor::Word(_, _)),
        Raw::Other(_, _) => false,
    }
}

/// The sum of two powers. Only a text past all memory has one that doesn't fit.
fn sum_of(a: i64, b: i64) -> Result<i64, AllocError>
    ensures { IfOk result (λ sum. sum ≡ a +ℤ b) }
{
    match a.checked_add(b) {
        Some(sum) => Ok(sum),
        None => Err(AllocError),
    }
}

/// How many functions two rows of them have.
fn count_of(a: u32, b: u32) -> Result<u32, AllocError>
    ensures { IfOk result (λ sum. sum ≡ a + b) }
{
    match a.checked_add(b) {
        Some(sum) => Ok(sum),
        None => Err(AllocError),
    }
}

/// A dot product joined with one before it.
fn join_dot(
    alloc: Global,
    raw: &Raw,
    left: Name,
    right: Name,
    power: i64,
) -> Result<Factor, AllocError>
    ensures { IfOk result (λ f. f ≡ joined_dots raw.now left right power) }
{
    let Raw::Dot(p, q, more) = raw else {
        return Ok(Factor::Dot(left, right, power));
    };
    let power = sum_of(power, *more)?;
    if are_dots_alike(p, q, &left, &right) {
        Ok(Factor::Dot(
            both_sets(alloc, left, p)?,
            both_sets(alloc, right, q)?,
            power,
        ))
    } else {
        Ok(Factor::Dot(
            both_sets(alloc, left, q)?,
            both_sets(alloc, right, p)?,
            power,
        ))
    }
}

/// A factor joined with one before it: the first way of writing fixes which is tried first.
fn join(alloc: Global, raw: &Raw, factor: Factor) -> Result<Factor, AllocError>
    ensures { IfOk result (λ f. f ≡ joined_to raw.now factor) }
{
    match factor {
        Factor::Symbol(name, power) => match raw {
            Raw::Symbol(other, more) => Ok(Factor::Symbol(
                both_sets(alloc, name, other)?,
                sum_of(power, *more)?,
            )),
            _ => Ok(Factor::Symbol(name, power)),
        },
        Factor::Dot(left, right, power) => join_dot(alloc, raw, left, right, power),
        Factor::Word(pieces, count) => match raw {
            Raw::Word(others, more) => {
                let Pieces { mut pieces } = pieces;
                put_times(alloc, others.pieces.as_slice(), *more, &mut pieces)?;
                Ok(Factor::Word(Pieces { pieces }, count_of(count, *more)?))
            }
            _ => Ok(Factor::Word(pieces, count)),
        },
        Factor::Other(pieces) => Ok(Factor::Other(pieces)),
    }
}

fn join_in(alloc: Global, raw: &Raw, slot: &mut Factor) -> Result<(), AllocError>
    ensures { OnOk result (slot.new ≡ joined_to raw.now slot.old) }
{
    let factor = mem::replace(slot, Factor::Other(Pieces::new(alloc)));
    *slot = join(alloc, raw, factor)?;
    Ok(())
}

/// It is no longer needed.
fn discard(_raw: Raw) {}

/// Others, and behind them its pieces where it has a power left.
fn with_factor(factor: Factor, others: Pieces) -> Result<Pieces, AllocError>
    ensures { IfOk result (λ p. p ≡ others ++ pieces_of_factor factor) }
{
    match factor {
        Factor::Symbol(name, power) => {
            if power.unsigned_abs() == 0 {
                return Ok(others);
            }
            others.with(PatternPiece::Symbol(name, power))
        }
        Factor::Dot(left, right, power) => {
            if power.unsigned_abs() == 0 {
                return Ok(others);
            }
            others.with(PatternPiece::Dot(left, right, power))
        }
        Factor::Other(pieces) => others.with_all(pieces),
        Factor::Word(pieces, count) => {
            let begun = others.with(PatternPiece::Word(count))?;
            begun.with_all(pieces)?.with(PatternPiece::EndOfWord)
        }
    }
}

impl Level {
    pub fn new(alloc: Global) -> Level
        ensures { result ≡ [] }
    {
        Level {
            factors: Vec::new(alloc),
        }
    }

    /// These, and one that is joined with none.
    fn with_alone(self, alloc: Global, raw: Raw) -> Result<Level, AllocError>
        ensures { IfOk result (λ l. l ≡ self ++ alone_factors raw) }
    {
        let Level { mut factors } = self;
        match raw {
            Raw::Symbol(name, power) => factors.push(Factor::Symbol(name, power))?,
            Raw::Dot(left, right, power) => factors.push(Factor::Dot(left, right, power))?,
            Raw::Other(pieces, count) => {
                put_others(alloc, pieces.pieces.as_slice(), count, &mut factors)?
            }
            Raw::Word(pieces, count) => {
                if count > 0 {
                    let mut word = Vec::new(alloc);
                    put_times(alloc, pieces.pieces.as_slice(), count, &mut word)?;
                    factors.push(Factor::Word(Pieces { pieces: word }, count))?;
                }
            }
        }
        Ok(Level { factors })
    }

    /// The first factor that one is joined with.
    fn place_of(&self, raw: &Raw) -> Option<usize>
        ensures { result ≡ position (is_joined_to raw.now) self.now }
    {
        self.factors
            .iter()
            .position(|factor| is_joined(raw, factor))
    }

    /// These and one more: joined with the first that it can be joined with, else last.
    pub fn with(self, alloc: Global, raw: Raw) -> Result<Level, AllocError>
        ensures { IfOk result (λ l. l ≡ put_to self raw) }
    {
        match self.place_of(&raw) {
            Some(place) => {
                let Level { mut factors } = self;
                join_in(alloc, &raw, &mut factors[place])?;
                discard(raw);
                Ok(Level { factors })
            }
            None => self.with_alone(alloc, raw),
        }
    }

    /// Others, and behind them the pieces of all factors that have a power left.
    pub fn pieces_behind(self, others: Pieces) -> Result<Pieces, AllocError>
        ensures { IfOk result (λ p. p ≡ others ++ pieces_of_level self) }
    {
        with_factors(self.factors, others)
    }
}

/// Others, and behind them the pieces of these factors.
fn with_factors(factors: Vec<Factor>, others: Pieces) -> Result<Pieces, AllocError>
    ensures { IfOk result (λ p. p ≡ others ++ pieces_of_level factors.items) }
{
    let mut pieces = others;
    for factor in factors {
        pieces = with_factor(factor, pieces)?;
    }
    Ok(pieces)
}
