//! Patterns over Ids: names, powers and numbers from the left, then equal factors joined.
ghost use Rattle.std.specs.Prelude.{◌≡◌, ◌+◌, ◌<◌, ◌≤◌, ◌^◌, ◌∷◌, [], option_copied, IfOk, OnOk, MatchOption};
ghost use Rattle.form_ast.specs.Lawful.{ArePattern};
ghost use Rattle.form_right_side.specs.Marks.{stands_in};
ghost use Rattle.form_pattern.specs.Pattern as definition;
ghost use Rattle.form_pattern.specs.Pattern.{known_of as known_of_pattern, pattern_checked};
ghost use Rattle.form_pattern.specs.PatternWalking as walking;
ghost use Rattle.form_right_side.specs.Refusal.{Gives};

use crate::joining::{Level, Pieces, Raw, begun};
use crate::putting::{
    PatternEnd, behind_entry, behind_mark, component_put, dot_put, entry_taken, front_len,
    function_put, has_wildcard, linked_put, marked, power_behind, powered_put,
};
use form_ast::{Link, Named, Piece, Spelled};
use form_base::Id;
use form_names::{Kind, Names};
use form_right_side::{
    CheckError, Head, Known, Power, Standing, argument, ends_argument, found, head, power_at,
};
use form_tree::{Pattern, PatternPiece, Sort, Tree};
use std::alloc::{AllocError, Global};
use std::marker::Model;

/// Where the reading of a pattern stands.
#[derive(Clone, Copy)]
pub enum Place {
    /// In a product.
    Product,
    /// Where an argument of a function may begin.
    Argument,
    /// Behind an argument.
    Behind,
    /// In the parentheses of a vector.
    Vector,
    /// In an argument without wildcards, so many calls in which are open.
    Fixed(usize),
}

/// A function that is begun: the product around it, and its pieces so far.
#[derive(Drop)]
pub struct Frame {
    level: Level,
    is_commuting: bool,
    pieces: Pieces,
}

/// The functions that are begun: in a clause their list, the innermost first.
#[derive(Drop)]
pub struct Frames {
    frames: Vec<Frame>,
}

impl Model for Frames {
    ghost use Rattle.std.specs.Prelude.{List, reverse};
    ghost use Rattle.form_pattern.specs.declared.reading.Frame.{Frame};

    ghost Value = { List Frame };

    ghost view = { λ f. reverse f.frames.items };
}

impl Frames {
    fn new(alloc: Global) -> Frames
        ensures { result ≡ [] }
    {
        Frames {
            frames: Vec::new(alloc),
        }
    }

    fn push(&mut self, frame: Frame) -> Result<(), AllocError>
        ensures { OnOk result (self.new ≡ frame ∷ self.old) }
    {
        self.frames.push(frame)?;
        Ok(())
    }

    fn pop(&mut self) -> Option<Frame>
        ensures { MatchOption result ((self.old ≡ []) × (self.new ≡ [])) (λ frame. self.old ≡ frame ∷ self.new) }
    {
        self.frames.pop()
    }
}

/// The arguments without wildcards so far: in a clause the list of their pieces.
#[derive(Drop)]
pub struct FixedArguments {
    trees: Vec<Tree>,
}

impl Model for FixedArguments {
    ghost use Rattle.std.specs.Prelude.{List};
    ghost use Rattle.form_tree.specs.declared.tree.Piece.{Piece};

    ghost Value = { List (List Piece) };

    ghost view = { λ f. f.trees.items };
}

/// What was read of a pattern so far.
#[derive(Drop)]
pub struct Reading {
    frames: Frames,
    /// The innermost product.
    level: Level,
    place: Place,
    fixed: FixedArguments,
}

/// The innermost function has an argument more.
fn with_argument(frames: Frames, argument: Pieces) -> Result<Frames, AllocError>
    ensures { IfOk result (λ f. f ≡ walking.with_argument frames argument) }
{
    let mut frames = frames;
    let Some(
        Frame {
            level,
            is_commuting,
            pieces,
        },
    ) = frames.pop()
    else {
        return Ok(frames);
    };
    frames.push(Frame {
        level,
        is_commuting,
        pieces: pieces.with_all(argument)?,
    })?;
    Ok(frames)
}

/// The innermost function has an argument more, which is one piece.
fn with_one(alloc: Global, reading: Reading, piece: PatternPiece) -> Result<Reading, AllocError>
    ensures { IfOk result (λ r. r ≡ walking.at (walking.with_argument reading.frames (piece ∷ [])) reading.level Place.Behind reading.fixed) }
{
    let Reading {
        frames,
        level,
        fixed,
        ..
    } = reading;
    Ok(Reading {
        frames: with_argument(frames, Pieces::single(alloc, piece)?)?,
        level,
        place: Place::Behind,
        fixed,
    })
}

fn moved(reading: Reading, place: Place) -> Reading
    ensures { result ≡ walking.moved reading place }
{
    let Reading {
        frames,
        level,
        fixed,
        ..
    } = reading;
    Reading {
        frames,
        level,
        place,
        fixed,
    }
}

/// A factor more.
fn added(alloc: Global, reading: Reading, place: Place, raw: Raw) -> Result<Reading, AllocError>
    ensures { IfOk result (λ r. r ≡ walking.added reading place raw) }
{
    let Reading {
        frames,
        level,
        fixed,
        ..
    } = reading;
    Ok(Reading {
        frames,
        level: level.with(alloc, raw)?,
        place,
        fixed,
    })
}

/// A function begins.
fn opened(
    alloc: Global,
    reading: Reading,
    is_commuting: bool,
    name: form_tree::Name,
) -> Result<Reading, AllocError>
    ensures { IfOk result (λ r. r ≡ walking.opened reading is_commuting name) }
{
    let Reading {
        mut frames,
        level,
        fixed,
        ..
    } = reading;
    let pieces = begun(alloc, is_commuting, name)?;
    frames.push(Frame {
        level,
        is_commuting,
        pieces,
    })?;
    Ok(Reading {
        frames,
        level: Level::new(alloc),
        place: Place::Argument,
        fixed,
    })
}

/// The arguments of a function end, behind which these stand.
fn call_ended(alloc: Global, reading: Reading, rest: &[Piece]) -> Result<Reading, CheckError>
    ensures { Gives (λ r. r) result (walking.call_ended reading rest.now) }
{
    let Reading {
        mut frames,
        level,
        place,
        fixed,
    } = reading;
    match frames.pop() {
        Some(frame) => closed(alloc, frames, frame, fixed, power_at(rest)),
        None => Ok(Reading {
            frames,
            level,
            place,
            fixed,
        }),
    }
}

/// This function ends.
fn closed(
    alloc: Global,
    around: Frames,
    frame: Frame,
    fixed: FixedArguments,
    power: Option<Power>,
) -> Result<Reading, CheckError>
    ensures { Gives (λ r. r) result (walking.closed_by frame around fixed power) }
{
    let Frame {
        level,
        is_commuting,
        pieces,
    } = frame;
    let raw = function_put(is_commuting, power, pieces)?;
    Ok(Reading {
        frames: around,
        level: level.with(alloc, raw)?,
        place: Place::Product,
        fixed,
    })
}

/// An argument that is a product ends.
fn product_ended(alloc: Global, reading: Reading) -> Result<Reading, AllocError>
    ensures { IfOk result (λ r. r ≡ walking.product_ended reading) }
{
    let Reading {
        frames,
        level,
        fixed,
        ..
    } = reading;
    let begun = Pieces::single(alloc, PatternPiece::Product)?;
    let product = level
        .pieces_behind(begun)?
        .with(PatternPiece::EndOfProduct)?;
    Ok(Reading {
        frames: with_argument(frames, product)?,
        level: Level::new(alloc),
        place: Place::Behind,
        fixed,
    })
}

/// A vector before parentheses.
fn component_taken(
    alloc: Global,
    names: &Names,
    reading: Reading,
    named: &Named,
    rest: &[Piece],
    id: Id,
) -> Result<Reading, CheckError>
    ensures { Gives (λ r. r) result (walking.component_taken names.now reading named.now rest.now id (walking.behind_mark rest.now)) }
{
    let behind = behind_mark(rest);
    let (list, others) = behind.split_at(front_len(behind));
    let raw = component_put(alloc, names, named, rest, id, list, others)?;
    Ok(added(alloc, reading, Place::Vector, raw)?)
}

/// A name before parentheses, behind which these stand.
fn called(
    alloc: Global,
    names: &Names,
    reading: Reading,
    named: &Named,
    rest: &[Piece],
) -> Result<Reading, CheckError>
    ensures { Gives (λ r. r) result (walking.called names.now reading named.now rest.now) }
{
    match head(alloc, names, named)? {
        Head::Function(id, is_commuting) => {
            let name = marked(alloc, names, rest, id)?;
            Ok(opened(alloc, reading, is_commuting, name)?)
        }
        Head::Vector(id) => component_taken(alloc, names, reading, named, rest, id),
    }
}

/// A dot product, whose first name this is.
fn dot_taken(
    alloc: Global,
    names: &Names,
    reading: Reading,
    first: &Named,
    rest: &[Piece],
) -> Result<Reading, CheckError>
    ensures { Gives (λ r. r) result (walking.dot_taken names.now reading first.now (walking.mark_at rest.now) (walking.behind_mark rest.now)) }
{
    let [Piece::EndOfDot(second), behind @ ..] = behind_mark(rest) else {
        return Ok(reading);
    };
    let raw = dot_put(alloc, names, first, rest, second, behind)?;
    Ok(added(alloc, reading, Place::Product, raw)?)
}

fn delta_ended(
    alloc: Global,
    reading: Reading,
    first: PatternEnd,
    rest: &[Piece],
    second: Option<PatternEnd>,
) -> Result<Reading, CheckError>
    ensures { Gives (λ r. r) result (walking.delta_ended reading first rest.now second) }
{
    let Some(second) = second else {
        return Ok(reading);
    };
    let raw = linked_put(alloc, first, second, power_behind(rest))?;
    Ok(added(alloc, reading, Place::Product, raw)?)
}

/// A `d_`, with its arguments.
fn delta_taken(
    alloc: Global,
    names: &Names,
    reading: Reading,
    list: &[Piece],
) -> Result<Reading, CheckError>
    ensures { Gives (λ r. r) result (walking.delta_taken names.now reading list.now) }
{
    let Some(first) = entry_taken(alloc, names, list)? else {
        return Ok(reading);
    };
    let rest = behind_entry(list);
    let second = entry_taken(alloc, names, rest)?;
    delta_ended(alloc, reading, first, behind_entry(rest), second)
}

/// One piece further in a product.
fn in_product(
    alloc: Global,
    names: &Names,
    reading: Reading,
    piece: &Piece,
    rest: &[Piece],
) -> Result<Reading, CheckError>
    ensures { Gives (λ r. r) result (walking.in_product names.now reading piece.now rest.now) }
{
    match piece {
        Piece::Name(_, named) => {
            let raw = powered_put(alloc, names, named, rest)?;
            Ok(added(alloc, reading, Place::Product, raw)?)
        }
        Piece::Dot(_, named) => dot_taken(alloc, names, reading, named, rest),
        Piece::Delta(_, _) => delta_taken(alloc, names, reading, rest),
        Piece::Call(_, named) => called(alloc, names, reading, named, rest),
        Piece::Comma => Ok(moved(product_ended(alloc, reading)?, Place::Argument)),
        Piece::EndOfCall => call_ended(alloc, product_ended(alloc, reading)?, rest),
        _ => Ok(reading),
    }
}

/// One piece further in an argument without wildcards, so many calls in which are open.
fn in_fixed(
    alloc: Global,
    reading: Reading,
    count: usize,
    piece: &Piece,
    rest: &[Piece],
) -> Result<Reading, CheckError>
    requires { count + 1 < 2 ^ 64 }
    ensures { Gives (λ r. r) result (walking.in_fixed reading count piece.now rest.now) }
{
    match piece {
        Piece::Call(_, _) => Ok(moved(reading, Place::Fixed(count + 1))),
        Piece::Comma => {
            if count == 0 {
                return Ok(moved(reading, Place::Argument));
            }
            Ok(moved(reading, Place::Fixed(count)))
        }
        Piece::EndOfCall => {
            if count == 0 {
                return call_ended(alloc, reading, rest);
            }
            Ok(moved(reading, Place::Fixed(count - 1)))
        }
        _ => Ok(moved(reading, Place::Fixed(count))),
    }
}

/// An argument without wildcards more.
fn with_fixed(alloc: Global, reading: Reading, tree: Tree) -> Result<Reading, AllocError>
    ensures { IfOk result (λ r. r ≡ walking.with_fixed reading tree) }
{
    let Reading {
        frames,
        level,
        fixed,
        ..
    } = reading;
    let FixedArguments { mut trees } = fixed;
    let number = trees.len();
    trees.push(tree)?;
    let argument = Pieces::single(alloc, PatternPiece::Fixed(number))?;
    Ok(Reading {
        frames: with_argument(frames, argument)?,
        level,
        place: Place::Fixed(0),
        fixed: FixedArguments { trees },
    })
}

/// A product as an argument begins with this piece.
fn product_begun(
    alloc: Global,
    names: &Names,
    reading: Reading,
    piece: &Piece,
    rest: &[Piece],
) -> Result<Reading, CheckError>
    ensures { Gives (λ r. r) result (walking.product_begun names.now reading piece.now rest.now) }
{
    in_product(alloc, names, moved(reading, Place::Product), piece, rest)
}

/// What a wildcard that is an argument stands for.
fn sort_of(kind: Kind) -> Option<Sort>
    ensures { result ≡ definition.sort_of kind }
{
    match kind {
        Kind::Symbol => Some(Sort::Expression),
        Kind::Index(_) => Some(Sort::Index),
        Kind::Vector => Some(Sort::Vector),
        _ => None,
    }
}

/// The name that is a whole argument, but for its mark.
fn any_name<'a>(piece: &'a Piece, rest: &[Piece]) -> Option<&'a Spelled>
    ensures { option_copied result ≡ walking.any_name piece.now rest.now }
{
    match piece {
        Piece::Name(Link::First, named) => match named {
            Named::Declared(spelled) => {
                if ends_argument(rest) {
                    return Some(spelled);
                }
                None
            }
            Named::Imaginary(_) => None,
        },
        _ => None,
    }
}

/// An argument with wildcards begins with this piece.
fn wild_begun(
    alloc: Global,
    names: &Names,
    reading: Reading,
    piece: &Piece,
    rest: &[Piece],
) -> Result<Reading, CheckError>
    ensures { Gives (λ r. r) result (walking.wild_begun names.now reading piece.now rest.now (walking.any_name piece.now (walking.behind_mark rest.now))) }
{
    let Some(spelled) = any_name(piece, behind_mark(rest)) else {
        return product_begun(alloc, names, reading, piece, rest);
    };
    let found = found(alloc, names, spelled)?;
    let Some(sort) = sort_of(found.kind) else {
        return product_begun(alloc, names, reading, piece, rest);
    };
    let name = marked(alloc, names, rest, found.id)?;
    Ok(with_one(alloc, reading, PatternPiece::Any(sort, name))?)
}

/// An argument begins with the first of these pieces, behind which others stand.
fn argument_begun(
    alloc: Global,
    names: &Names,
    standing: &Standing,
    reading: Reading,
    list: &[Piece],
    piece: &Piece,
    rest: &[Piece],
) -> Result<Reading, CheckError>
    requires { list.now ≡ piece.now ∷ rest.now }
    ensures { Gives (λ r. r) result (walking.argument_begun names.now (stands_in standing.now) reading piece.now rest.now) }
{
    let front = &list[..front_len(list)];
    if has_wildcard(front) {
        return wild_begun(alloc, names, reading, piece, rest);
    }
    let tree = argument(alloc, names, standing, front)?;
    in_fixed(alloc, with_fixed(alloc, reading, tree)?, 0, piece, rest)
}

/// A field is an argument.
fn with_field(
    alloc: Global,
    known: &Known,
    reading: Reading,
    field: &Spelled,
) -> Result<Reading, AllocError>
    ensures { IfOk result (λ r. r ≡ walking.with_field known.now.fields reading field.now) }
{
    let number = known.field_number(field.name.as_str());
    with_one(alloc, reading, PatternPiece::Field(number))
}

/// One piece further where an argument may begin.
fn in_arguments(
    alloc: Global,
    names: &Names,
    standing: &Standing,
    known: &Known,
    reading: Reading,
    list: &[Piece],
    piece: &Piece,
    rest: &[Piece],
) -> Result<Reading, CheckError>
    requires { list.now ≡ piece.now ∷ rest.now }
    ensures { Gives (λ r. r) result (walking.in_arguments names.now (stands_in standing.now) known.now.fields reading piece.now rest.now) }
{
    match piece {
        Piece::EndOfCall => call_ended(alloc, reading, rest),
        Piece::Marked(_) => Ok(reading),
        Piece::Field(field) => Ok(with_field(alloc, known, reading, field)?),
        _ => argument_begun(alloc, names, standing, reading, list, piece, rest),
    }
}

/// One piece further behind an argument.
fn behind_argument(
    alloc: Global,
    reading: Reading,
    piece: &Piece,
    rest: &[Piece],
) -> Result<Reading, CheckError>
    ensures { Gives (λ r. r) result (walking.behind_argument reading piece.now rest.now) }
{
    match piece {
        Piece::Comma => Ok(moved(reading, Place::Argument)),
        Piece::EndOfCall => call_ended(alloc, reading, rest),
        _ => Ok(reading),
    }
}

/// One piece further in the parentheses of a vector.
fn in_vector(reading: Reading, piece: &Piece) -> Reading
    ensures { result ≡ walking.in_vector reading piece.now }
{
    match piece {
        Piece::EndOfCall => moved(reading, Place::Product),
        _ => reading,
    }
}

/// One piece further: the first of these, behind which others stand.
fn take(
    alloc: Global,
    names: &Names,
    standing: &Standing,
    known: &Known,
    reading: Reading,
    list: &[Piece],
    piece: &Piece,
    rest: &[Piece],
) -> Result<Reading, CheckError>
    requires list { list.now ≡ piece.now ∷ rest.now }
    requires room { walking.open_at reading.place + 1 < 2 ^ 64 }
    ensures taken { Gives (λ r. r) result (walking.taken names.now (stands_in standing.now) known.now.fields reading piece.now rest.now) }
    ensures few { IfOk result (λ r. walking.open_at r.place ≤ walking.open_at reading.place + 1) }
{
    match reading.place {
        Place::Product => in_product(alloc, names, reading, piece, rest),
        Place::Argument => in_arguments(alloc, names, standing, known, reading, list, piece, rest),
        Place::Behind => behind_argument(alloc, reading, piece, rest),
        Place::Vector => Ok(in_vector(reading, piece)),
        Place::Fixed(count) => in_fixed(alloc, reading, count, piece, rest),
    }
}

/// What is read of all pieces.
#[tactic(auto, unfolding(crate::specs::PatternWalking::walked))]
fn walked(
    alloc: Global,
    names: &Names,
    standing: &Standing,
    known: &Known,
    reading: Reading,
    list: &[Piece],
) -> Result<Reading, CheckError>
    requires { walking.open_at reading.place ≡ 0 }
    ensures { Gives (λ r. r) result (walking.walked names.now (stands_in standing.now) known.now.fields reading list.now) }
{
    let mut reading = reading;
    let mut rest = list;
    while let [piece, others @ ..] = rest {
        reading = take(alloc, names, standing, known, reading, rest, piece, others)?;
        rest = others;
    }
    Ok(reading)
}

/// What was made of all.
fn made(alloc: Global, reading: Reading) -> Result<Pattern, AllocError>
    ensures { IfOk result (λ p. p ≡ walking.made reading) }
{
    let Reading { level, fixed, .. } = reading;
    let FixedArguments { trees } = fixed;
    let pieces = level.pieces_behind(Pieces::new(alloc))?;
    Ok(Pattern::from_parts(pieces.into_vec(), trees))
}

/// Before the first piece.
fn start(alloc: Global) -> Reading
    ensures { result ≡ walking.at [] [] Place.Product [] }
{
    Reading {
        frames: Frames::new(alloc),
        level: Level::new(alloc),
        place: Place::Product,
        fixed: FixedArguments {
            trees: Vec::new(alloc),
        },
    }
}

/// A pattern, of which this is known.
pub fn pattern(
    alloc: Global,
    names: &Names,
    standing: &Standing,
    known: &Known,
    list: &[Piece],
) -> Result<Pattern, CheckError>
    requires lawful { ArePattern list.now }
    requires known { known.now ≡ known_of_pattern names.now list.now }
    ensures { Gives (λ made. made) result (pattern_checked names.now list.now) }
{
    form_ast::laws::one_tree();
    let reading = walked(alloc, names, standing, known, start(alloc), list)?;
    Ok(made(alloc, reading)?)
}
