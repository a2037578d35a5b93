//! Whether pieces are those of a pattern.
ghost use Rattle.std.specs.Prelude.{◌≡◌, [], ◌∷◌, IfOk, OnOk, MatchOption};
ghost use Rattle.form_ast.specs.Patterns.{text_of as text_of_name, is_minus as is_minus_sign};
ghost use Rattle.form_grammar.specs.Shape.{empty, fits as fits_link, weights_with as weights_with_link, added as added_to, last_changed as last_changed_by, with_wildcard as with_wildcard_in, are_factors as are_factors_of, is_argument as is_argument_level, absorbed as absorbed_by, closed as closed_level, parted as parted_level, field_in, marked as marked_shape, inner_changed as inner_changed_by, factor_added as factor_added_to, level_opened as level_opened_in, name_weight as name_weight_of, step as step_by, begun, judged};

use crate::balance::are_balanced;
use crate::known::text_of;
use crate::weights::{WeightChange, Weights};
use form_ast::{Key, Link, Named, Piece, Sign, Weight};
use form_base::Name;
use form_number::WholeNumber;
use std::alloc::{AllocError, Global};
use std::marker::Model;

/// A sum, an argument or a parenthesis that is begun.
#[derive(Drop)]
pub struct Level {
    /// Whether a factor stands in it.
    pub has_begun: bool,
    pub has_wildcard: bool,
    /// What its factors weigh, while it may be a pattern.
    pub weights: Option<Weights>,
}

/// The levels around one: in a clause their list, the innermost first.
#[derive(Drop)]
pub struct Levels {
    levels: Vec<Level>,
}

impl Model for Levels {
    ghost use Rattle.std.specs.Prelude.{List, reverse};
    ghost use Rattle.form_grammar.specs.declared.shape.Level.{Level};

    ghost Value = { List Level };

    ghost view = { λ l. reverse l.levels.items };
}

impl Levels {
    fn new(alloc: Global) -> Levels
        ensures { result ≡ [] }
    {
        Levels {
            levels: Vec::new(alloc),
        }
    }

    fn push(&mut self, level: Level) -> Result<(), AllocError>
        ensures { OnOk result (self.new ≡ level ∷ self.old) }
    {
        self.levels.push(level)?;
        Ok(())
    }

    fn pop(&mut self) -> Option<Level>
        ensures { MatchOption result ((self.old ≡ []) × (self.new ≡ [])) (λ level. self.old ≡ level ∷ self.new) }
    {
        self.levels.pop()
    }
}

/// What is judged so far.
#[derive(Drop)]
pub struct Shape {
    pub around: Levels,
    pub inner: Level,
}

fn new_level(alloc: Global) -> Level
    ensures { result ≡ empty }
{
    Level {
        has_begun: false,
        has_wildcard: false,
        weights: Some(Weights::new(alloc)),
    }
}

/// Whether a factor that stands so may be one of a pattern.
fn fits(link: Link) -> bool
    ensures { result ≡ fits_link link }
{
    matches!(link, Link::First | Link::Times)
}

fn weights_with(
    link: Link,
    weight: Option<Weight>,
    weights: Option<Weights>,
) -> Result<Option<Weights>, AllocError>
    ensures { IfOk result (λ all. all ≡ weights_with_link link weight weights) }
{
    if !fits(link) {
        return Ok(None);
    }
    let Some(weight) = weight else {
        return Ok(None);
    };
    let Some(mut weights) = weights else {
        return Ok(None);
    };
    weights.push(weight)?;
    Ok(Some(weights))
}

/// A further factor, which weighs so where it may be one of a pattern.
fn added(link: Link, weight: Option<Weight>, level: Level) -> Result<Level, AllocError>
    ensures { IfOk result (λ l. l ≡ added_to link weight level) }
{
    let Level {
        has_wildcard,
        weights,
        ..
    } = level;
    Ok(Level {
        has_begun: true,
        has_wildcard,
        weights: weights_with(link, weight, weights)?,
    })
}

/// Its last weight is changed.
fn last_changed(change: WeightChange, level: Level) -> Result<Level, AllocError>
    ensures { IfOk result (λ l. l ≡ last_changed_by change level) }
{
    let Level {
        has_begun,
        has_wildcard,
        weights,
    } = level;
    let weights = match weights {
        Some(weights) => weights.change(change)?,
        None => None,
    };
    Ok(Level {
        has_begun,
        has_wildcard,
        weights,
    })
}

fn with_wildcard(level: Level) -> Level
    ensures { result ≡ with_wildcard_in level }
{
    let Level {
        has_begun,
        weights,
        ..
    } = level;
    Level {
        has_begun,
        has_wildcard: true,
        weights,
    }
}

/// Whether its factors are those of a pattern.
fn are_factors(alloc: Global, weights: &Option<Weights>) -> Result<bool, AllocError>
    ensures { IfOk result (λ b. b ≡ are_factors_of weights.now) }
{
    match weights {
        Some(weights) => are_balanced(alloc, weights.as_slice()),
        None => Ok(false),
    }
}

/// Whether an argument is a pattern, or has no wildcard.
fn is_argument(alloc: Global, level: &Level) -> Result<bool, AllocError>
    ensures { IfOk result (λ b. b ≡ is_argument_level level.now) }
{
    if level.has_wildcard {
        are_factors(alloc, &level.weights)
    } else {
        Ok(true)
    }
}

/// What is around a level, where this ends.
fn absorbed(alloc: Global, inner: Level, outer: Level) -> Result<Level, AllocError>
    ensures { IfOk result (λ l. l ≡ absorbed_by inner outer) }
{
    let is_argument = is_argument(alloc, &inner)?;
    let Level {
        has_begun,
        has_wildcard,
        weights,
    } = outer;
    Ok(Level {
        has_begun,
        has_wildcard: has_wildcard || inner.has_wildcard,
        weights: if is_argument { weights } else { None },
    })
}

fn closed(alloc: Global, shape: Shape) -> Result<Shape, AllocError>
    ensures { IfOk result (λ s. s ≡ closed_level shape.around shape.inner) }
{
    let Shape { mut around, inner } = shape;
    match around.pop() {
        Some(outer) => Ok(Shape {
            around,
            inner: absorbed(alloc, inner, outer)?,
        }),
        None => Ok(Shape { around, inner }),
    }
}

fn parted(alloc: Global, shape: Shape) -> Result<Shape, AllocError>
    ensures { IfOk result (λ s. s ≡ parted_level shape.around shape.inner) }
{
    let Shape { mut around, inner } = shape;
    let Some(outer) = around.pop() else {
        return Ok(Shape { around, inner });
    };
    around.push(absorbed(alloc, inner, outer)?)?;
    Ok(Shape {
        around,
        inner: new_level(alloc),
    })
}

/// The name before the innermost level is a wildcard, or a field stands in it.
fn with_outer_wildcard(shape: Shape) -> Result<Shape, AllocError>
    ensures { IfOk result (λ s. s ≡ field_in shape) }
{
    let Shape { mut around, inner } = shape;
    let Some(outer) = around.pop() else {
        return Ok(Shape { around, inner });
    };
    around.push(with_wildcard(outer))?;
    Ok(Shape { around, inner })
}

fn inner_changed(change: WeightChange, shape: Shape) -> Result<Shape, AllocError>
    ensures { IfOk result (λ s. s ≡ inner_changed_by change shape) }
{
    let Shape { around, inner } = shape;
    Ok(Shape {
        around,
        inner: last_changed(change, inner)?,
    })
}

fn marked(shape: Shape) -> Result<Shape, AllocError>
    ensures { IfOk result (λ s. s ≡ marked_shape shape) }
{
    if !shape.inner.has_begun {
        return with_outer_wildcard(shape);
    }
    let Shape { around, inner } = shape;
    Ok(Shape {
        around,
        inner: with_wildcard(last_changed(WeightChange::Mark, inner)?),
    })
}

fn factor_added(link: Link, weight: Option<Weight>, shape: Shape) -> Result<Shape, AllocError>
    ensures { IfOk result (λ s. s ≡ factor_added_to link weight shape) }
{
    let Shape { around, inner } = shape;
    Ok(Shape {
        around,
        inner: added(link, weight, inner)?,
    })
}

fn level_opened(
    alloc: Global,
    link: Link,
    weight: Option<Weight>,
    shape: Shape,
) -> Result<Shape, AllocError>
    ensures { IfOk result (λ s. s ≡ level_opened_in link weight shape) }
{
    let Shape { mut around, inner } = shape;
    around.push(added(link, weight, inner)?)?;
    Ok(Shape {
        around,
        inner: new_level(alloc),
    })
}

/// How a name is spelled.
fn name_of(alloc: Global, name: &Named) -> Result<Name, AllocError>
    ensures { IfOk result (λ n. n ≡ text_of_name name.now) }
{
    Name::new(alloc, text_of(name))
}

/// What a name alone weighs.
fn name_weight(alloc: Global, name: &Named) -> Result<Option<Weight>, AllocError>
    ensures { IfOk result (λ w. w ≡ name_weight_of (text_of_name name.now)) }
{
    let name = name_of(alloc, name)?;
    Ok(Some(Weight::Keyed(Key::Alone(name, false), false, WholeNumber::small(1))))
}

fn is_minus(sign: Option<Sign>) -> bool
    ensures { result ≡ is_minus_sign sign }
{
    matches!(sign, Some(Sign::Minus))
}

/// One piece further.
fn step(alloc: Global, shape: Shape, piece: &Piece) -> Result<Shape, AllocError>
    ensures { IfOk result (λ s. s ≡ step_by shape piece.now) }
{
    match piece {
        Piece::Number(link, _) => factor_added(*link, None, shape),
        Piece::Name(link, name) => factor_added(*link, name_weight(alloc, name)?, shape),
        Piece::Dot(link, name) => factor_added(*link, name_weight(alloc, name)?, shape),
        Piece::EndOfDot(name) => {
            inner_changed(WeightChange::Second(name_of(alloc, name)?), shape)
        }
        Piece::Delta(link, _) => factor_added(
            *link,
            Some(Weight::Lone(WholeNumber::small(1))),
            shape,
        ),
        Piece::EntryName(_) | Piece::EntryNumber(_) | Piece::EndOfDelta => Ok(shape),
        Piece::Call(link, _) => level_opened(
            alloc,
            *link,
            Some(Weight::Lone(WholeNumber::small(1))),
            shape,
        ),
        Piece::Comma => parted(alloc, shape),
        Piece::EndOfCall | Piece::Close => closed(alloc, shape),
        Piece::Open(link) => level_opened(alloc, *link, None, shape),
        Piece::Raised(_, sign, number) => {
            let size = number.value(alloc)?;
            inner_changed(WeightChange::Size(is_minus(*sign), size), shape)
        }
        Piece::RaisedByName(_, _) => inner_changed(WeightChange::Free, shape),
        Piece::Marked(_) => marked(shape),
        Piece::Field(_) => with_outer_wildcard(shape),
    }
}

/// Whether these are the pieces of a pattern.
#[tactic(auto, unfolding(crate::specs::Shape::judged))]
pub fn judge(alloc: Global, pieces: &[Piece]) -> Result<bool, AllocError>
    ensures { IfOk result (λ answer. answer ≡ judged begun pieces.now) }
{
    let mut shape = Shape {
        around: Levels::new(alloc),
        inner: new_level(alloc),
    };
    for piece in pieces {
        shape = step(alloc, shape, piece)?;
    }
    are_factors(alloc, &shape.inner.weights)
}
