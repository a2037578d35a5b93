//! Whether sets have the value of a wildcard.
ghost use Rattle.std.specs.Prelude.{◌≡◌, map, flat_map};
ghost use Rattle.std.specs.List.{list_all, list_any};
ghost use Rattle.form_match.specs.Asking.{is_in, name_value, number_values};
ghost use Rattle.form_bindings.specs.Values.{is_same as is_same_value, number_value};

use crate::values::{Kind, is_number, symbol_pieces};
use form_base::Id;
use form_bindings::is_same;
use form_names::{Elements, Numbers};
use form_term::{Index, Piece};

/// Whether each of these sets has a value.
pub fn is_allowed(kind: &Kind, value: &[Piece], sets: &[Elements]) -> bool
    ensures { result ≡ list_all (λ set. is_in kind.now value.now set) sets.now }
{
    sets.iter().all(|set| has(kind, value, set))
}

/// Whether a set has a value.
fn has(kind: &Kind, value: &[Piece], set: &Elements) -> bool
    ensures { result ≡ is_in kind.now value.now set.now }
{
    match set {
        Elements::Names(names) => has_name(kind, value, names.as_slice()),
        Elements::Numbers(numbers) => has_number(kind, value, numbers),
    }
}

fn has_name(kind: &Kind, value: &[Piece], names: &[Id]) -> bool
    ensures { result ≡ list_any (is_same_value value.now) (map (λ n. name_value kind.now n) names.now) }
{
    is_one_of(kind, value, names)
}

fn is_one_of(kind: &Kind, value: &[Piece], names: &[Id]) -> bool
    ensures { result ≡ list_any (λ n. is_same_value value.now (name_value kind.now n)) names.now }
{
    names.iter().any(|name| is_name(kind, value, *name))
}

fn has_number(kind: &Kind, value: &[Piece], numbers: &Numbers) -> bool
    ensures { result ≡ list_any (is_same_value value.now) (flat_map (λ z. number_values kind.now z) numbers.now) }
{
    match kind {
        Kind::Expression => is_among(value, numbers.as_slice()),
        Kind::Index => false,
        Kind::Vector => false,
        Kind::Function => false,
    }
}

fn is_among(value: &[Piece], numbers: &[i128]) -> bool
    ensures { result ≡ list_any (λ z. is_same_value value.now (number_value z)) numbers.now }
{
    numbers.iter().any(|number| is_number(value, number))
}

/// Whether a value is that of a name, where such a thing stands for a wildcard.
pub fn is_name(kind: &Kind, value: &[Piece], name: Id) -> bool
    ensures { result ≡ is_same_value value.now (name_value kind.now name) }
{
    match kind {
        Kind::Expression => is_same(value, &symbol_pieces(name)),
        Kind::Index => is_same(value, &[Piece::Index(Index::Declared(name))]),
        Kind::Vector => is_same(value, &[Piece::Vector(name)]),
        Kind::Function => is_same(value, &[Piece::Function(name)]),
    }
}
