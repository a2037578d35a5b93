//! What the right side of an `id` knows of its pattern.
ghost use Rattle.std.specs.Prelude.{◌≡◌, IfOk, OnOk, option_copied, option_to_list, option_and_then};
ghost use Rattle.std.specs.List.{list_any};
ghost use Rattle.std.specs.Str.{bytes_eq};
ghost use Rattle.form_pattern.specs.Pattern.{id_of, named_in as name_in, wildcard_at as wildcard_before, wildcards_of as wildcards_in, with_field, fields_of as fields_in, known_of as known_of_pattern};

use form_ast::{Named, Piece};
use form_base::{Id, Name};
use form_names::Names;
use form_right_side::Known;
use std::alloc::{AllocError, Global};

/// The name of a piece that may have a mark behind it.
fn named_in(piece: &Piece) -> Option<&Named>
    ensures { option_copied result ≡ name_in piece.now }
{
    match piece {
        Piece::Name(_, named) => Some(named),
        Piece::Dot(_, named) => Some(named),
        Piece::EndOfDot(named) => Some(named),
        Piece::EntryName(named) => Some(named),
        Piece::Call(_, named) => Some(named),
        Piece::RaisedByName(_, named) => Some(named),
        _ => None,
    }
}

/// The Id of a name, where it has been declared.
fn id_named(names: &Names, named: &Named) -> Option<Id>
    ensures { result ≡ id_of names.now named.now }
{
    match named {
        Named::Declared(spelled) => names.lookup(spelled.name.as_str()),
        Named::Imaginary(_) => None,
    }
}

/// The Id of the name in a piece, where it has been declared.
fn id_in(names: &Names, piece: &Piece) -> Option<Id>
    ensures { result ≡ option_and_then (id_of names.now) (name_in piece.now) }
{
    match named_in(piece) {
        Some(named) => id_named(names, named),
        None => None,
    }
}

/// The Id of the name in a piece, where a mark stands behind it.
fn wildcard_at(names: &Names, piece: &Piece, rest: &[Piece]) -> Option<Id>
    ensures { option_to_list result ≡ wildcard_before names.now piece.now rest.now }
{
    match rest {
        [Piece::Marked(_), ..] => id_in(names, piece),
        _ => None,
    }
}

/// The Ids of names that are wildcards.
fn wildcards_of(alloc: Global, names: &Names, list: &[Piece]) -> Result<Vec<Id>, AllocError>
    ensures { IfOk result (λ ids. ids.items ≡ wildcards_in names.now list.now) }
{
    let mut wildcards = Vec::new(alloc);
    let mut rest = list;
    while let [piece, others @ ..] = rest {
        if let Some(id) = wildcard_at(names, piece, others) {
            wildcards.push(id)?;
        }
        rest = others;
    }
    Ok(wildcards)
}

fn has_field(fields: &[Name], name: &str) -> bool
    ensures { result ≡ list_any (λ f. bytes_eq name.now f) fields.now }
{
    fields.iter().any(|field| name == field.as_str())
}

/// The name of a field is put behind others, where it is new.
fn put_field(alloc: Global, piece: &Piece, fields: &mut Vec<Name>) -> Result<(), AllocError>
    ensures { OnOk result (fields.new.items ≡ with_field fields.old.items piece.now) }
{
    match piece {
        Piece::Field(field) => {
            if has_field(fields.as_slice(), field.name.as_str()) {
                return Ok(());
            }
            fields.push(Name::new(alloc, field.name.as_str())?)?;
            Ok(())
        }
        _ => Ok(()),
    }
}

/// The names of fields, in the order in which each stands first.
fn fields_of(alloc: Global, list: &[Piece]) -> Result<Vec<Name>, AllocError>
    ensures { IfOk result (λ fields. fields.items ≡ fields_in list.now) }
{
    let mut fields = Vec::new(alloc);
    for piece in list {
        put_field(alloc, piece, &mut fields)?;
    }
    Ok(fields)
}

/// What a right side knows of a pattern.
pub fn known_of(alloc: Global, names: &Names, list: &[Piece]) -> Result<Known, AllocError>
    ensures { IfOk result (λ known. known ≡ known_of_pattern names.now list.now) }
{
    Ok(Known::new(wildcards_of(alloc, names, list)?, fields_of(alloc, list)?))
}
