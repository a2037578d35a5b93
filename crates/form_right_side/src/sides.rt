//! Right sides over Ids.
ghost use Rattle.std.specs.Prelude.{◌≡◌, ◌+◌, ◌≤◌, ◌^◌, [], IfOk, length};
ghost use Rattle.form_ast.specs.Lawful.{AreLawful, AreRight};
ghost use Rattle.form_right_side.specs.Marks.{stands_in};
ghost use Rattle.form_right_side.specs.Refusal.{Gives};
ghost use Rattle.form_right_side.specs.RightSide as definition;
ghost use Rattle.form_right_side.specs.Parting as parting;
ghost use Rattle.form_right_side.specs.Walking as walking;
ghost use Rattle.form_right_side.specs.Walking.{at, walk_of, walked as walked_over, IsLone};
ghost use Rattle.form_right_side.specs.declared.walk.Place.TheVariants.{Sum};

use crate::CheckError;
use crate::kinds::lone;
use crate::known::Known;
use crate::standing::Standing;
use crate::walk::Walk;
use form_ast::{Link, LongExpr, Piece, append, laws};
use form_names::Names;
use form_tree::Tree;
use std::alloc::Global;

/// Of a block above 32 MiB glibc learns nothing.
const MOST_SPARE: usize = 690_000;

/// What is made of all pieces.
#[tactic(auto, unfolding(crate::specs::Walking::walked))]
fn walked(
    alloc: Global,
    names: &Names,
    standing: &Standing,
    known: &Known,
    mut walk: Walk,
    list: &[Piece],
) -> Result<Walk, CheckError>
    requires { walk.calls ≤ 2 ^ 63 }
    ensures made { Gives walk_of result (walked_over names.now (stands_in standing.now) known.now (walk_of walk) list.now) }
    ensures calls { IfOk result (λ w. w.calls ≤ walk.calls + length list.now) }
{
    let mut rest = list;
    while let [piece, others @ ..] = rest {
        if !walk.take_plain(names, known, piece, others)? {
            walk.take(alloc, names, standing, known, piece, others)?;
        }
        rest = others;
    }
    Ok(walk)
}

/// How many calls are open behind pieces, before which so many are.
#[tactic(auto, unfolding(crate::specs::Parting::open_behind))]
fn open_behind(before: usize, list: &[Piece]) -> usize
    requires { before ≤ 2 ^ 63 }
    ensures opened { result ≡ parting.open_behind before list.now }
    ensures few { result ≤ before + length list.now }
{
    let mut opened = before;
    let mut rest = list;
    while let [piece, others @ ..] = rest {
        match piece {
            Piece::Call(_, _) => opened += 1,
            Piece::EndOfCall => opened = opened.saturating_sub(1),
            _ => {}
        }
        rest = others;
    }
    opened
}

/// Whether a link is a written sign between terms.
fn is_sign(link: Link) -> bool
    ensures { result ≡ parting.is_sign link }
{
    match link {
        Link::Plus | Link::Minus => true,
        Link::First | Link::Times | Link::Over => false,
    }
}

/// Whether a further term begins.
fn begins_term(list: &[Piece]) -> bool
    ensures { result ≡ parting.begins_term list.now }
{
    match list {
        [first, ..] => match first {
            Piece::Number(link, _) => is_sign(*link),
            Piece::Name(link, _) => is_sign(*link),
            Piece::Dot(link, _) => is_sign(*link),
            Piece::Delta(link, _) => is_sign(*link),
            Piece::Call(link, _) => is_sign(*link),
            Piece::Open(link) => is_sign(*link),
            _ => false,
        },
        [] => false,
    }
}

/// Room for more than half of so many pieces, where there is so much. It is dropped at once: from a large block that comes
/// and goes glibc learns to keep twice as much, so that what the parts leave is used again and not given back.
#[inline(never)]
fn spare(alloc: Global, count: usize) -> Option<Vec<Piece>> {
    let half = (count / 8).saturating_mul(5);
    let room = if half < MOST_SPARE { half } else { MOST_SPARE };
    match Vec::with_capacity(alloc, room) {
        Ok(pieces) => Some(pieces),
        Err(_) => None,
    }
}

/// The same of a whole right side. A part is dropped as soon as the one behind it is reached.
fn walked_whole(
    alloc: Global,
    names: &Names,
    standing: &Standing,
    known: &Known,
    long: LongExpr,
) -> Result<Walk, CheckError>
    ensures { Gives walk_of result (walked_over names.now (stands_in standing.now) known.now (at [] Sum 0) long) }
{
    let count = long.len();
    let mut walk = Walk::new(Vec::with_capacity(alloc, count)?);
    drop(spare(alloc, count));
    let mut pieces = Vec::new(alloc);
    let mut opened: usize = 0;
    for part in long.into_vec() {
        let next = part.into_vec();
        if opened == 0 && begins_term(&next) {
            walk = walked(alloc, names, standing, known, walk, &pieces)?;
            let begun = open_behind(0, &next);
            opened = begun;
            pieces = next;
        } else {
            let more = open_behind(opened, &next);
            opened = more;
            append(&mut pieces, next)?;
        }
    }
    walked(alloc, names, standing, known, walk, &pieces)
}

/// The same of one in which no expression is named.
fn walked_inside(
    alloc: Global,
    names: &Names,
    standing: &Standing,
    known: &Known,
    list: &[Piece],
) -> Result<Walk, CheckError>
    ensures { Gives walk_of result (walked_over names.now (stands_in standing.now) known.now (at [] Sum 1) list.now) }
{
    let start = Walk::inside(Vec::with_capacity(alloc, list.len())?);
    walked(alloc, names, standing, known, start, list)
}

/// A right side, piece by piece.
pub fn right_side(
    alloc: Global,
    names: &Names,
    standing: &Standing,
    known: &Known,
    long: LongExpr,
) -> Result<Tree, CheckError>
    requires { AreLawful long }
    ensures { Gives (λ tree. tree) result (definition.right_side names.now (stands_in standing.now) known.now long) }
{
    laws::one_tree();
    let walk = walked_whole(alloc, names, standing, known, long)?;
    Ok(Tree::from_vec(walk.into_pieces()))
}

/// The walk over a right side that stands as one list.
fn walked_list(
    alloc: Global,
    names: &Names,
    standing: &Standing,
    known: &Known,
    list: &[Piece],
) -> Result<Walk, CheckError>
    ensures { Gives walk_of result (walked_over names.now (stands_in standing.now) known.now (at [] Sum 0) list.now) }
{
    let start = Walk::new(Vec::with_capacity(alloc, list.len())?);
    walked(alloc, names, standing, known, start, list)
}

/// A right side that stands as one list, such as that of a `multiply`.
pub fn right_side_of_list(
    alloc: Global,
    names: &Names,
    standing: &Standing,
    known: &Known,
    list: &[Piece],
) -> Result<Tree, CheckError>
    requires { AreLawful list.now }
    ensures { Gives (λ tree. tree) result (definition.right_side names.now (stands_in standing.now) known.now list.now) }
{
    laws::one_tree();
    let walk = walked_list(alloc, names, standing, known, list)?;
    Ok(Tree::from_vec(walk.into_pieces()))
}

/// A right side in which no expression is named, piece by piece.
pub fn right_side_of_pattern(
    alloc: Global,
    names: &Names,
    standing: &Standing,
    known: &Known,
    pattern: &[Piece],
    list: &[Piece],
) -> Result<Tree, CheckError>
    requires { AreRight pattern.now list.now }
    ensures { Gives (λ tree. tree) result (definition.right_side names.now definition.none_stands known.now list.now) }
{
    laws::one_tree();
    let walk = walked_inside(alloc, names, standing, known, list)?;
    Ok(Tree::from_vec(walk.into_pieces()))
}

/// A piece that is a whole argument: a name alone of an index or a vector.
fn lone_in(names: &Names, list: &[Piece]) -> Option<form_tree::Piece>
    ensures { IsLone result (definition.lone names.now (walking.alone_list list.now)) }
{
    match list {
        [first] => match first {
            Piece::Name(Link::First, named) => lone(names, named),
            _ => None,
        },
        _ => None,
    }
}

/// An argument of a function in a pattern, without wildcards.
pub fn argument(
    alloc: Global,
    names: &Names,
    standing: &Standing,
    list: &[Piece],
) -> Result<Tree, CheckError>
    ensures { Gives (λ tree. tree) result (walking.argument_walked names.now (stands_in standing.now) list.now) }
{
    let mut pieces = Vec::with_capacity(alloc, list.len())?;
    if let Some(piece) = lone_in(names, list) {
        pieces.extend_from_slice(&[piece])?;
        return Ok(Tree::from_vec(pieces));
    }
    pieces.extend_from_slice(&[form_tree::Piece::Argument])?;
    let known = Known::new(Vec::new(alloc), Vec::new(alloc));
    let walk = walked(alloc, names, standing, &known, Walk::inside(pieces), list)?;
    let mut pieces = walk.into_pieces();
    pieces.extend_from_slice(&[form_tree::Piece::EndOfArgument])?;
    Ok(Tree::from_vec(pieces))
}
