//! What the pieces say that come next in a right side.
ghost use Rattle.std.specs.Prelude.{◌≡◌, None, Ok, IfOk, IfSome, is_some};
ghost use Rattle.form_right_side.specs.Plain.{has_plain_power};
ghost use Rattle.form_right_side.specs.Refusal.{error_of};
ghost use Rattle.form_right_side.specs.RightSide.{lone as lone_of, wrong, spelled_of};
ghost use Rattle.form_right_side.specs.RightSide as definition;
ghost use Rattle.form_right_side.specs.Walking as walking;
ghost use Rattle.form_right_side.specs.Walking.{misplaced_to_end, is_single as is_single_at};

use crate::CheckError;
use crate::kinds::{lone, misplaced, wrong_delta, wrong_name};
use crate::known::Known;
use crate::powers::Power;
use form_ast::{Link, Named, Sign};
use form_names::Names;
use form_tree::Piece;
use std::alloc::{AllocError, Global};

/// The power that a piece is.
fn power_of(piece: &form_ast::Piece) -> Option<Power>
    ensures { result ≡ walking.power_of piece.now }
{
    match piece {
        form_ast::Piece::Raised(_, sign, number) => Some(Power {
            sign: *sign,
            number: number.capped(),
        }),
        _ => None,
    }
}

/// The power of the factor that ends before these.
pub fn power_at(rest: &[form_ast::Piece]) -> Option<Power>
    ensures { result ≡ walking.power_at rest.now }
{
    match rest {
        [first, ..] => power_of(first),
        [] => None,
    }
}

/// The power of the factor that ends before these, where it is a number of at most so much: whether it has a minus, and
/// its size.
#[inline(always)]
pub fn plain_power(rest: &[form_ast::Piece], most: u32) -> Option<(bool, u32)>
    ensures some { IfSome result (λ power. (walking.name_power_at rest.now ≡ None) × (definition.has_minus (walking.power_at rest.now) ≡ power.0) × (definition.size_within most (walking.power_at rest.now) ≡ Ok power.1)) }
    ensures exactly { is_some result ≡ has_plain_power most rest.now }
{
    match rest {
        [form_ast::Piece::Raised(_, sign, number), ..] => {
            let size = number.up_to(u128::from(most))?;
            Some((matches!(sign, Some(Sign::Minus)), size as u32))
        }
        [form_ast::Piece::RaisedByName(_, _), ..] => None,
        _ => Some((false, 1)),
    }
}

/// Whether an argument ends here.
pub fn ends_argument(rest: &[form_ast::Piece]) -> bool
    ensures { result ≡ walking.ends_argument rest.now }
{
    match rest {
        [first, ..] => matches!(first, form_ast::Piece::Comma | form_ast::Piece::EndOfCall),
        [] => false,
    }
}

/// Whether the piece is one number or one name, without a sign.
fn is_alone(piece: &form_ast::Piece) -> bool
    ensures { result ≡ is_some (walking.alone_piece piece.now) }
{
    match piece {
        form_ast::Piece::Number(Link::First, _) => true,
        form_ast::Piece::Name(Link::First, _) => true,
        _ => false,
    }
}

/// Whether arguments begin with one number or one name alone.
pub fn begin_alone(rest: &[form_ast::Piece]) -> bool
    ensures { result ≡ is_some (walking.alone_at rest.now) }
{
    match rest {
        [first, others @ ..] => ends_argument(others) && is_alone(first),
        [] => false,
    }
}

/// Whether no comma parts the arguments that end next.
#[tactic(auto, unfolding(crate::specs::Walking::is_single))]
pub fn is_single(list: &[form_ast::Piece]) -> bool
    ensures { result ≡ is_single_at 0 list.now }
{
    let mut opened: usize = 0;
    let mut rest = list;
    while let [piece, others @ ..] = rest {
        match piece {
            form_ast::Piece::Call(_, _) => opened += 1,
            form_ast::Piece::Comma if opened == 0 => return false,
            form_ast::Piece::EndOfCall if opened == 0 => return true,
            form_ast::Piece::EndOfCall => opened -= 1,
            _ => {}
        }
        rest = others;
    }
    false
}

/// A refusal of the first name up to the end of arguments, that of a power passed over, or of the vector whose they are.
#[tactic(auto, unfolding(crate::specs::Walking::misplaced_to_end))]
pub fn misplaced_in(
    alloc: Global,
    names: &Names,
    list: &[form_ast::Piece],
    owner: &Named,
) -> Result<CheckError, AllocError>
    ensures { IfOk result (λ e. e ≡ error_of (misplaced_to_end names.now list.now (wrong (spelled_of owner.now)))) }
{
    let mut rest = list;
    while let [piece, others @ ..] = rest {
        match piece {
            form_ast::Piece::Name(_, named) => return misplaced(alloc, names, named),
            form_ast::Piece::Dot(_, named) => return misplaced(alloc, names, named),
            form_ast::Piece::Call(_, named) => return misplaced(alloc, names, named),
            form_ast::Piece::Delta(_, spot) => return wrong_delta(alloc, *spot),
            form_ast::Piece::EndOfCall => break,
            _ => {}
        }
        rest = others;
    }
    wrong_name(alloc, owner)
}

/// Whether a piece is the `)` that ends arguments.
pub fn ends_call(piece: &form_ast::Piece) -> bool
    ensures { result ≡ walking.ends_call piece.now }
{
    matches!(piece, form_ast::Piece::EndOfCall)
}

/// The number of a field, where a piece is one.
pub fn field_of(known: &Known, piece: &form_ast::Piece) -> Option<usize>
    ensures { result ≡ walking.field_of known.now piece.now }
{
    match piece {
        form_ast::Piece::Field(field) => Some(known.field_number(field.name.as_str())),
        _ => None,
    }
}

/// An argument that is a name alone of an index or a vector.
pub fn lone_argument(
    names: &Names,
    piece: &form_ast::Piece,
    rest: &[form_ast::Piece],
) -> Option<Piece>
    ensures { walking.IsLone result (lone_of names.now (walking.alone_before rest.now piece.now)) }
{
    if !ends_argument(rest) {
        return None;
    }
    match piece {
        form_ast::Piece::Name(Link::First, named) => lone(names, named),
        _ => None,
    }
}
