//! What a name of a pattern asks where a thing of the term is to stand for it: what is learnt then.
ghost use Rattle.std.specs.Prelude.{◌≡◌, IfOk, length, pos, take};
ghost use Rattle.form_term.specs.Term.{AreArguments};
ghost use Rattle.form_match.specs.Asking.{asked_wild};
ghost use Rattle.form_bindings.specs.Learning.{Tells};
ghost use Rattle.form_match.specs.Learning.{learnt_of};
ghost use Rattle.form_match.specs.Matching.{asked_expression, asked_function, asked_index, asked_number, asked_symbol, asked_vector, is_declared as is_declared_as, is_fixed as is_fixed_as};
ghost use Rattle.form_bindings.specs.Values.{IsValueOf};
ghost use Rattle.form_bindings.specs.declared.bindings.Wildcard.TheVariants as wildcards;
ghost use Rattle.form_tree.specs.declared.pattern.IndexName.TheVariants as index_names;

use crate::sets::{is_allowed, is_name};
use crate::values::{Kind, exponent_pieces, symbol_pieces, zero_pieces};
use form_base::Id;
use form_bindings::{Bindings, Wildcard};
use form_names::Elements;
use form_term::{Index, Piece, Power};
use form_tree::{IndexName, Name};
use std::alloc::AllocError;

/// A wildcard is to stand for this, which its sets have to have.
fn ask_wild(
    bindings: &mut Bindings,
    kind: &Kind,
    wildcard: Id,
    sets: &[Elements],
    value: &[Piece],
) -> Result<bool, AllocError>
    requires { IsValueOf (wildcards.Name wildcard) value.now }
    ensures told { IfOk result (λ b.
        Tells b (learnt_of bindings.old (asked_wild kind.now wildcard sets.now value.now)) bindings.new) }
    ensures kept { take (length bindings.old) bindings.new ≡ bindings.old }
{
    if !is_allowed(kind, value, sets) {
        return Ok(false);
    }
    bindings.learn(Wildcard::Name(wildcard), value)
}

/// A symbol of the term.
pub fn ask_symbol(bindings: &mut Bindings, name: &Name, symbol: Id) -> Result<bool, AllocError>
    ensures told { IfOk result (λ b. Tells b (learnt_of bindings.old (asked_symbol name.now symbol)) bindings.new) }
    ensures kept { take (length bindings.old) bindings.new ≡ bindings.old }
{
    match name {
        Name::Itself(this) => Ok(*this == symbol),
        Name::Wild(wildcard, sets) => ask_wild(
            bindings,
            &Kind::Expression,
            *wildcard,
            sets.as_slice(),
            &symbol_pieces(symbol),
        ),
    }
}

/// An expression in an argument, by its pieces.
pub fn ask_expression(
    bindings: &mut Bindings,
    name: &Name,
    value: &[Piece],
) -> Result<bool, AllocError>
    requires { AreArguments value.now }
    ensures told { IfOk result (λ b.
        Tells b (learnt_of bindings.old (asked_expression name.now value.now)) bindings.new) }
    ensures kept { take (length bindings.old) bindings.new ≡ bindings.old }
{
    match name {
        Name::Itself(this) => Ok(is_name(&Kind::Expression, value, *this)),
        Name::Wild(wildcard, sets) => ask_wild(
            bindings,
            &Kind::Expression,
            *wildcard,
            sets.as_slice(),
            value,
        ),
    }
}

/// The exponent of a power, as the expression that it is.
pub fn ask_exponent(bindings: &mut Bindings, name: &Name, of: &Power) -> Result<bool, AllocError>
    ensures told { IfOk result (λ b.
        Tells b (learnt_of bindings.old (asked_number name.now of.now.exponent)) bindings.new) }
    ensures kept { take (length bindings.old) bindings.new ≡ bindings.old }
{
    if of.exponent == 0 {
        return ask_zero(bindings, name);
    }
    ask_expression(bindings, name, &exponent_pieces(of))
}

/// 0, as the expression that it is.
pub fn ask_zero(bindings: &mut Bindings, name: &Name) -> Result<bool, AllocError>
    ensures told { IfOk result (λ b. Tells b (learnt_of bindings.old (asked_number name.now (pos 0))) bindings.new) }
    ensures kept { take (length bindings.old) bindings.new ≡ bindings.old }
{
    ask_expression(bindings, name, &zero_pieces())
}

/// A vector of the term.
pub fn ask_vector(bindings: &mut Bindings, name: &Name, vector: Id) -> Result<bool, AllocError>
    ensures told { IfOk result (λ b. Tells b (learnt_of bindings.old (asked_vector name.now vector)) bindings.new) }
    ensures kept { take (length bindings.old) bindings.new ≡ bindings.old }
{
    match name {
        Name::Itself(this) => Ok(*this == vector),
        Name::Wild(wildcard, sets) => ask_wild(
            bindings,
            &Kind::Vector,
            *wildcard,
            sets.as_slice(),
            &[Piece::Vector(vector)],
        ),
    }
}

/// A function of the term.
pub fn ask_function(bindings: &mut Bindings, name: &Name, function: Id) -> Result<bool, AllocError>
    ensures told { IfOk result (λ b.
        Tells b (learnt_of bindings.old (asked_function name.now function)) bindings.new) }
    ensures kept { take (length bindings.old) bindings.new ≡ bindings.old }
{
    match name {
        Name::Itself(this) => Ok(*this == function),
        Name::Wild(wildcard, sets) => ask_wild(
            bindings,
            &Kind::Function,
            *wildcard,
            sets.as_slice(),
            &[Piece::Function(function)],
        ),
    }
}

/// An index of the term.
pub fn ask_index(
    bindings: &mut Bindings,
    name: &IndexName,
    index: &Index,
) -> Result<bool, AllocError>
    ensures told { IfOk result (λ b. Tells b (learnt_of bindings.old (asked_index name.now index.now)) bindings.new) }
    ensures kept { take (length bindings.old) bindings.new ≡ bindings.old }
{
    match name {
        IndexName::Fixed(value) => Ok(is_fixed(index, *value)),
        IndexName::Name(name) => ask_declared(bindings, name, index),
    }
}

fn is_fixed(index: &Index, value: u32) -> bool
    ensures { result ≡ is_fixed_as index.now value }
{
    match index {
        Index::Fixed(this) => *this == value,
        _ => false,
    }
}

fn is_declared(index: &Index, name: Id) -> bool
    ensures { result ≡ is_declared_as index.now name }
{
    match index {
        Index::Declared(this) => *this == name,
        _ => false,
    }
}

/// An index of the term, for a name.
pub fn ask_declared(bindings: &mut Bindings, name: &Name, index: &Index) -> Result<bool, AllocError>
    ensures told { IfOk result (λ b.
        Tells b (learnt_of bindings.old (asked_index (index_names.Name name.now) index.now)) bindings.new) }
    ensures kept { take (length bindings.old) bindings.new ≡ bindings.old }
{
    match name {
        Name::Itself(this) => Ok(is_declared(index, *this)),
        Name::Wild(wildcard, sets) => ask_wild(
            bindings,
            &Kind::Index,
            *wildcard,
            sets.as_slice(),
            &[Piece::Index(*index)],
        ),
    }
}
