//! What a right side may have as powers and fields: what its pattern has.
ghost use Rattle.std.specs.Prelude.{◌≡◌};
ghost use Rattle.std.specs.List.{list_all, list_any};
ghost use Rattle.form_ast.specs.Patterns.{text_of as text_of_name, is_power_by as is_power_by_name, is_field as is_field_named, is_known_piece};

use form_ast::{Named, Piece};

/// How a name is spelled.
pub fn text_of(name: &Named) -> &str
    ensures { result.now ≡ text_of_name name.now }
{
    match name {
        Named::Declared(spelled) => spelled.name.as_str(),
        Named::Imaginary(_) => "i_",
    }
}

/// Whether a piece is a power by this name.
fn is_power_by(text: &str, piece: &Piece) -> bool
    ensures { result ≡ is_power_by_name text.now piece.now }
{
    match piece {
        Piece::RaisedByName(_, name) => text == text_of(name),
        _ => false,
    }
}

/// Whether a piece is this field.
fn is_field(text: &str, piece: &Piece) -> bool
    ensures { result ≡ is_field_named text.now piece.now }
{
    match piece {
        Piece::Field(spelled) => text == spelled.name.as_str(),
        _ => false,
    }
}

/// Whether one of these pieces is a power by this name.
fn has_power(pattern: &[Piece], text: &str) -> bool
    ensures { result ≡ list_any (is_power_by_name text.now) pattern.now }
{
    pattern.iter().any(|piece| is_power_by(text, piece))
}

/// Whether one of these pieces is this field.
fn has_field(pattern: &[Piece], text: &str) -> bool
    ensures { result ≡ list_any (is_field_named text.now) pattern.now }
{
    pattern.iter().any(|piece| is_field(text, piece))
}

/// Whether a pattern with these pieces has such a power or such a field, where the piece is one.
fn is_known(pattern: &[Piece], piece: &Piece) -> bool
    ensures { result ≡ is_known_piece pattern.now piece.now }
{
    match piece {
        Piece::RaisedByName(_, name) => has_power(pattern, text_of(name)),
        Piece::Field(spelled) => has_field(pattern, spelled.name.as_str()),
        _ => true,
    }
}

/// Whether it has all those of these pieces.
pub fn are_known(pattern: &[Piece], pieces: &[Piece]) -> bool
    ensures { result ≡ list_all (is_known_piece pattern.now) pieces.now }
{
    pieces.iter().all(|piece| is_known(pattern, piece))
}
