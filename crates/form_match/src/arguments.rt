//! Pieces of a pattern where arguments of a function are open.
ghost use Rattle.std.specs.Prelude.{◌≡◌, ◌≢◌, ◌+◌, ◌<◌, ◌≤◌, ◌^◌, ◌∷◌, List, Option, None, Some, [], if◌then◌else◌, IfOk, IfSome, MatchOption, ℕ, length, option_map, take as take_first};
ghost use Rattle.form_term.specs.declared.piece.Piece.{Piece};
ghost use Rattle.form_term.specs.Arguments.{arguments_of};
ghost use Rattle.form_term.specs.Term.{Argument, AreArguments, is_nil, pieces_of_argument};
ghost use Rattle.form_tree.specs.declared.pattern.PatternPiece.{PatternPiece};
ghost use Rattle.form_tree.specs.declared.pattern.PatternPiece.TheVariants as of_pattern;
ghost use Rattle.form_tree.specs.declared.pattern.Sort.TheVariants as sorts;
ghost use Rattle.form_match.specs.declared.places.Frame.TheVariants as frames;
ghost use Rattle.form_match.specs.Parts.{BeginsOtherwise, BeginsWith, IsFirstOf, IsFront, IsOnly, any_asked, begins_sum, index_alone, single_count as single_count_of, table_of, vector_alone};
ghost use Rattle.form_match.specs.Leading.{IsPlain, LeadsTo, Takes, TakesAlone, TakesFirst, next_standing};
ghost use Rattle.form_match.specs.States.{Open, arguments as left_of_arguments, moves};
ghost use Rattle.form_bindings.specs.Learning.{Tells};
ghost use Rattle.form_match.specs.Learning.{learnt_of};
ghost use Rattle.form_match.specs.Places.{behind as behind_span, ground_of};
ghost use Rattle.form_match.specs.Running.{IsCandidate, IsLess, IsSomewhere, IsStep};
ghost use Rattle.form_match.specs.Matching.{is_coefficient_one, is_fixed_argument as is_fixed_argument_of};

use crate::asking::{ask_declared, ask_expression, ask_vector};
use crate::places::{Frame, Inner, Span, Terms};
use crate::trail::{Standing, Trail};
use form_base::Id;
use form_bindings::{Bindings, Wildcard, is_same};
use form_frac::Frac;
use form_term::{Call, Index, Monomial, Piece, part_len, terms_in};
use form_tree::{Name, PatternPiece, Sort};
use std::alloc::{AllocError, Global};

/// Takes the first of these pieces, and those behind it that have one candidate each, where arguments are open.
pub fn in_arguments(
    alloc: Global,
    terms: &mut Terms,
    trail: &mut Trail,
    at: &Standing,
    span: &Span,
    pieces: &[PatternPiece],
    fixed: &[Option<Call>],
) -> Result<Option<Standing>, AllocError>
    requires framed { at.now.frame ≡ frames.Arguments span.now }
    requires stands { IsSomewhere (ground_of terms.old) trail.old.takes.items at.now pieces.now }
    ensures goes_on { IsStep result (table_of fixed.now) pieces.now at.now (ground_of terms.old) (ground_of terms.new)
        trail.old trail.new }
    ensures less { IsLess result pieces.now at.now trail.old trail.new }
{
    let Some((piece, behind)) = pieces.split_first() else {
        return Ok(None);
    };
    match piece {
        PatternPiece::Product => product(alloc, terms, trail, at, span, behind),
        _ => arguments(terms, trail, at, span, pieces, fixed),
    }
}

/// Takes arguments up to their end, or to a piece that begins a product.
fn arguments(
    terms: &Terms,
    trail: &mut Trail,
    at: &Standing,
    span: &Span,
    pieces: &[PatternPiece],
    fixed: &[Option<Call>],
) -> Result<Option<Standing>, AllocError>
    requires framed { at.now.frame ≡ frames.Arguments span.now }
    requires stands { IsSomewhere (ground_of terms.now) trail.old.takes.items at.now pieces.now }
    requires no_product { (behind : List PatternPiece) → pieces.now ≢ of_pattern.Product ∷ behind }
    ensures goes_on { IsStep result (table_of fixed.now) pieces.now at.now (ground_of terms.now) (ground_of terms.now)
        trail.old trail.new }
    ensures less { IsLess result pieces.now at.now trail.old trail.new }
{
    let mut now = *at;
    let mut left = *span;
    let mut rest = terms.pieces(span);
    let mut asked = pieces;
    while let Some((piece, behind)) = asked.split_first() {
        let taken = match piece {
            PatternPiece::EndOfArguments => return Ok(end_of_arguments(&now, &left, rest)),
            PatternPiece::Product => return Ok(Some(now)),
            _ => argument_len(terms, trail, &now, piece, behind, rest, fixed)?,
        };
        let Some(len) = taken else {
            return Ok(None);
        };
        left = left.without(len);
        now = now.ahead(1, Frame::Arguments(left));
        let (_, others) = rest.split_at(len);
        rest = others;
        asked = behind;
    }
    Ok(Some(now))
}

/// The arguments of a function end: what is around them goes on.
fn end_of_arguments(at: &Standing, span: &Span, rest: &[Piece]) -> Option<Standing>
    requires room { at.now.piece + 1 < 2 ^ 64 }
    requires place { span.now.place + 1 < 2 ^ 64 }
    ensures { result ≡ (if is_nil rest.now then Some (next_standing at.now 1 (behind_span span.now)) else None) }
{
    if rest.is_empty() {
        Some(at.ahead(1, span.around()))
    } else {
        None
    }
}

/// How many pieces of these arguments a piece takes that begins no product, none where it can't take them. These pieces are
/// behind it.
fn argument_len(
    terms: &Terms,
    trail: &mut Trail,
    at: &Standing,
    piece: &PatternPiece,
    behind: &[PatternPiece],
    rest: &[Piece],
    fixed: &[Option<Call>],
) -> Result<Option<usize>, AllocError>
    requires lawful { AreArguments rest.now }
    requires candidate { IsCandidate piece.now (left_of_arguments (arguments_of rest.now) ∷ []) at.now.candidate }
    requires no_end { piece.now ≢ of_pattern.EndOfArguments }
    requires no_product { piece.now ≢ of_pattern.Product }
    ensures { IfOk result (Takes (table_of fixed.now) piece.now behind.now rest.now at.now
        (length (ground_of terms.now).inners) trail.old trail.new) }
{
    match piece {
        PatternPiece::Field(field) => take_field(terms, trail, at, *field, rest, behind),
        _ => single_len(&mut trail.bindings, fixed, piece, rest),
    }
}

/// How many pieces of these arguments a piece takes that takes one argument, none where it can't take the first one.
fn single_len(
    bindings: &mut Bindings,
    fixed: &[Option<Call>],
    piece: &PatternPiece,
    rest: &[Piece],
) -> Result<Option<usize>, AllocError>
    requires { AreArguments rest.now }
    ensures alone { IsPlain piece.now → IfOk result (TakesAlone (table_of fixed.now) piece.now rest.now bindings.old bindings.new) }
    ensures front { IfOk result (λ n. IfSome n (IsFront rest.now 1)) }
    ensures kept { take_first (length bindings.old) bindings.new ≡ bindings.old }
{
    let Some((part, _)) = first_argument(rest) else {
        return Ok(None);
    };
    let is_taken = take_argument(bindings, fixed, piece, part)?;
    Ok(where_taken(is_taken, part.len()))
}

fn where_taken(is_taken: bool, len: usize) -> Option<usize>
    ensures { result ≡ (if is_taken then Some len else None) }
{
    if is_taken { Some(len) } else { None }
}

/// The pieces of the first of these arguments, and those behind it; none where there are no arguments.
pub fn first_argument(pieces: &[Piece]) -> Option<(&[Piece], &[Piece])>
    requires { AreArguments pieces.now }
    ensures { IsFirstOf pieces.now (option_map (λ parts. (parts.0.now, parts.1.now)) result) }
{
    if pieces.is_empty() {
        return None;
    }
    Some(pieces.split_at(part_len(pieces)))
}

/// How many pieces a field takes of these arguments from a candidate on, none where it can't take any: a candidate is how
/// many it takes. What it is bound to already is the only one, and so is all but the arguments that the pieces behind it take
/// one by one, where they do.
fn take_field(
    terms: &Terms,
    trail: &mut Trail,
    at: &Standing,
    field: usize,
    pieces: &[Piece],
    behind: &[PatternPiece],
) -> Result<Option<usize>, AllocError>
    requires lawful { AreArguments pieces.now }
    requires candidate { (count : ℕ) × IsFront pieces.now count at.now.candidate }
    ensures { IfOk result (λ n. (table : List (Option (List Piece))) →
        Takes table (of_pattern.Field field) behind.now pieces.now at.now (length (ground_of terms.now).inners) trail.old trail.new n) }
{
    if at.candidate != 0 {
        return take_one_by_one(terms, trail, at, field, pieces);
    }
    if let Some(value) = trail.bindings.value_of(Wildcard::Field(field)) {
        return Ok(front_len(pieces, value));
    }
    match single_count(behind) {
        Some(count) => take_all_but(&mut trail.bindings, field, pieces, count),
        None => take_one_by_one(terms, trail, at, field, pieces),
    }
}

/// All but so many arguments for a field.
fn take_all_but(
    bindings: &mut Bindings,
    field: usize,
    pieces: &[Piece],
    count: usize,
) -> Result<Option<usize>, AllocError>
    requires { AreArguments pieces.now }
    ensures first { (behind : List PatternPiece) → single_count_of behind ≡ Some count →
        IfOk result (λ n. TakesFirst field behind pieces.now bindings.old bindings.new 0 n None) }
    ensures front { IfOk result (λ n. IfSome n (λ len. (first : ℕ) × IsFront pieces.now first len)) }
    ensures kept { take_first (length bindings.old) bindings.new ≡ bindings.old }
{
    let Some(len) = len_without_last(pieces, count) else {
        return Ok(None);
    };
    let is_learnt = bindings.learn(Wildcard::Field(field), &pieces[..len])?;
    Ok(where_taken(is_learnt, len))
}

/// The arguments of a candidate for a field, and maybe more as a choice that is left.
fn take_one_by_one(
    terms: &Terms,
    trail: &mut Trail,
    at: &Standing,
    field: usize,
    pieces: &[Piece],
) -> Result<Option<usize>, AllocError>
    requires lawful { AreArguments pieces.now }
    requires candidate { (count : ℕ) × IsFront pieces.now count at.now.candidate }
    ensures { IfOk result (λ n. (table : List (Option (List Piece))) (behind : List PatternPiece) →
        Takes table (of_pattern.Field field) behind pieces.now at.now (length (ground_of terms.now).inners) trail.old trail.new n) }
{
    let more = one_more(pieces, at.candidate);
    trail.keep_next(at, more, terms.count())?;
    let is_learnt = trail
        .bindings
        .learn(Wildcard::Field(field), &pieces[..at.candidate])?;
    Ok(where_taken(is_learnt, at.candidate))
}

/// How many pieces this value of a field has, where these arguments begin with it.
fn front_len(pieces: &[Piece], value: &[Piece]) -> Option<usize>
    requires lawful { AreArguments pieces.now }
    requires lawful_value { AreArguments value.now }
    ensures { MatchOption result (BeginsOtherwise pieces.now value.now) (BeginsWith pieces.now value.now) }
{
    let len = value.len();
    if len <= pieces.len() && is_same(value, &pieces[..len]) {
        Some(len)
    } else {
        None
    }
}

/// How many arguments these pieces take up to the end of the arguments, where each takes one: none where a field or a
/// product is among them.
fn single_count(pieces: &[PatternPiece]) -> Option<usize>
    ensures { result ≡ single_count_of pieces.now }
{
    let mut count: usize = 0;
    for piece in pieces {
        match piece {
            PatternPiece::Fixed(_) | PatternPiece::Any(_, _) => count += 1,
            PatternPiece::EndOfArguments => return Some(count),
            _ => return None,
        }
    }
    None
}

/// How many pieces these arguments have without so many of the last ones, none where there are fewer.
fn len_without_last(pieces: &[Piece], count: usize) -> Option<usize>
    requires { AreArguments pieces.now }
    ensures { MatchOption result (length (arguments_of pieces.now) < count)
        (λ n. (first : ℕ) × IsFront pieces.now first n × (first + count ≡ length (arguments_of pieces.now))) }
{
    if count == 0 {
        return Some(pieces.len());
    }
    let all = argument_count(pieces);
    if all < count {
        None
    } else {
        Some(len_of_first(pieces, all - count))
    }
}

/// How many arguments these are.
fn argument_count(pieces: &[Piece]) -> usize
    requires { AreArguments pieces.now }
    ensures { result ≡ length (arguments_of pieces.now) }
{
    let mut count: usize = 0;
    let mut rest = pieces;
    while let Some((_part, behind)) = first_argument(rest) {
        count += 1;
        rest = behind;
    }
    count
}

/// How many pieces the first so many of these arguments have.
fn len_of_first(pieces: &[Piece], count: usize) -> usize
    requires lawful { AreArguments pieces.now }
    requires within { count ≤ length (arguments_of pieces.now) }
    ensures { IsFront pieces.now count result }
{
    let mut len: usize = 0;
    for _argument in 0..count {
        len += part_len(&pieces[len..]);
    }
    len
}

/// How many pieces an argument more than these first pieces has, none where there is none.
fn one_more(pieces: &[Piece], len: usize) -> Option<usize>
    requires lawful { AreArguments pieces.now }
    requires front { (count : ℕ) × IsFront pieces.now count len }
    ensures { (count : ℕ) → IsFront pieces.now count len →
        MatchOption result (count ≡ length (arguments_of pieces.now))
        (λ more. (count < length (arguments_of pieces.now)) × IsFront pieces.now (count + 1) more) }
{
    if len < pieces.len() {
        Some(len + part_len(&pieces[len..]))
    } else {
        None
    }
}

/// Whether a piece that takes one argument takes this one.
fn take_argument(
    bindings: &mut Bindings,
    fixed: &[Option<Call>],
    piece: &PatternPiece,
    part: &[Piece],
) -> Result<bool, AllocError>
    requires { AreArguments part.now }
    ensures told { (a : Argument) (xs : List Argument) (os : List Open) → IsPlain piece.now → part.now ≡ pieces_of_argument a →
        IfOk result (λ b. LeadsTo b (moves (table_of fixed.now) piece.now (left_of_arguments (a ∷ xs) ∷ os) bindings.old) (left_of_arguments xs ∷ os) bindings.new) }
    ensures kept { take_first (length bindings.old) bindings.new ≡ bindings.old }
{
    match piece {
        PatternPiece::Fixed(number) => Ok(is_fixed_argument(fixed, *number, part)),
        PatternPiece::Any(sort, name) => ask_argument(bindings, *sort, name, part),
        _ => Ok(false),
    }
}

/// Whether an argument is the one of this number, which has no wildcards.
fn is_fixed_argument(fixed: &[Option<Call>], number: usize, part: &[Piece]) -> bool
    ensures { result ≡ is_fixed_argument_of (table_of fixed.now) number part.now }
{
    match fixed.get(number) {
        Some(Some(call)) => is_same(part, call.pieces()),
        _ => false,
    }
}

/// What is asked of a wildcard for an argument.
fn ask_argument(
    bindings: &mut Bindings,
    sort: Sort,
    name: &Name,
    part: &[Piece],
) -> Result<bool, AllocError>
    requires { AreArguments part.now }
    ensures told { (a : Argument) → part.now ≡ pieces_of_argument a →
        IfOk result (λ b. Tells b (learnt_of bindings.old (any_asked sort name.now a)) bindings.new) }
    ensures kept { take_first (length bindings.old) bindings.new ≡ bindings.old }
{
    match sort {
        Sort::Expression => ask_sum(bindings, name, part),
        Sort::Index => ask_index_alone(bindings, name, part),
        Sort::Vector => ask_vector_alone(bindings, name, part),
    }
}

fn ask_sum(bindings: &mut Bindings, name: &Name, part: &[Piece]) -> Result<bool, AllocError>
    requires { AreArguments part.now }
    ensures told { (a : Argument) → part.now ≡ pieces_of_argument a →
        IfOk result (λ b. Tells b (learnt_of bindings.old (any_asked sorts.Expression name.now a)) bindings.new) }
    ensures kept { take_first (length bindings.old) bindings.new ≡ bindings.old }
{
    if !begins_sum(part) {
        return Ok(false);
    }
    ask_expression(bindings, name, part)
}

fn ask_index_alone(bindings: &mut Bindings, name: &Name, part: &[Piece]) -> Result<bool, AllocError>
    ensures told { (a : Argument) → part.now ≡ pieces_of_argument a →
        IfOk result (λ b. Tells b (learnt_of bindings.old (any_asked sorts.Index name.now a)) bindings.new) }
    ensures kept { take_first (length bindings.old) bindings.new ≡ bindings.old }
{
    match index_alone(part) {
        Some(index) => ask_declared(bindings, name, &index),
        None => Ok(false),
    }
}

fn ask_vector_alone(
    bindings: &mut Bindings,
    name: &Name,
    part: &[Piece],
) -> Result<bool, AllocError>
    ensures told { (a : Argument) → part.now ≡ pieces_of_argument a →
        IfOk result (λ b. Tells b (learnt_of bindings.old (any_asked sorts.Vector name.now a)) bindings.new) }
    ensures kept { take_first (length bindings.old) bindings.new ≡ bindings.old }
{
    match vector_alone(part) {
        Some(vector) => ask_vector(bindings, name, vector),
        None => Ok(false),
    }
}

fn begins_sum(part: &[Piece]) -> bool
    ensures { result ≡ begins_sum part.now }
{
    match part {
        [Piece::Sum, ..] => true,
        _ => false,
    }
}

fn index_alone(part: &[Piece]) -> Option<Index>
    ensures { result ≡ index_alone part.now }
{
    match part {
        [Piece::Index(index), ..] => Some(*index),
        _ => None,
    }
}

fn vector_alone(part: &[Piece]) -> Option<Id>
    ensures { result ≡ vector_alone part.now }
{
    match part {
        [Piece::Vector(vector), ..] => Some(*vector),
        _ => None,
    }
}

/// An argument that is a product: it has to be an expression of one term, of coefficient 1, whose factors are then tried.
fn product(
    alloc: Global,
    terms: &mut Terms,
    trail: &Trail,
    at: &Standing,
    span: &Span,
    behind: &[PatternPiece],
) -> Result<Option<Standing>, AllocError>
    requires framed { at.now.frame ≡ frames.Arguments span.now }
    requires stands { IsSomewhere (ground_of terms.old) trail.now.takes.items at.now (of_pattern.Product ∷ behind.now) }
    ensures goes_on { (table : List (Option (List Piece))) →
        IsStep result table (of_pattern.Product ∷ behind.now) at.now (ground_of terms.old) (ground_of terms.new) trail.now trail.now }
    ensures less { IsLess result (of_pattern.Product ∷ behind.now) at.now trail.now trail.now }
{
    let pieces = terms.pieces(span);
    let Some((part, _)) = first_argument(pieces) else {
        return Ok(None);
    };
    let others = span.without(part.len());
    let Some(only) = only_one(terms_in(alloc, pieces)?) else {
        return Ok(None);
    };
    if !is_one(&only.coefficient) {
        return Ok(None);
    }
    terms.push(Inner {
        term: only.term,
        behind: others,
    })?;
    Ok(Some(at.ahead(1, Frame::Factors(terms.count()))))
}

/// The only one of these, none where there is another number of them.
fn only_one(terms: Vec<Monomial>) -> Option<Monomial>
    ensures { IsOnly result terms.items }
{
    let mut terms = terms;
    let Some(last) = terms.pop() else {
        return None;
    };
    if terms.is_empty() {
        return Some(last);
    }
    None
}

fn is_one(coefficient: &Frac) -> bool
    ensures { result ≡ is_coefficient_one coefficient.now }
{
    let numerator = coefficient.numerator();
    numerator <= 1 && 1 <= numerator && coefficient.denominator() == 1
}
