ghost use Rattle.std.specs.Prelude.{◌≡◌};
ghost use Rattle.form_tree.specs.Patterns.{pattern_of};

use crate::Tree;
use form_base::Id;
use form_names::Elements;
use std::marker::Model;

/// The sets that a wildcard is restricted to, all of which have to have its value: in a clause their list.
#[derive(Drop)]
pub struct Sets {
    sets: Vec<Elements>,
}

impl Model for Sets {
    ghost use Rattle.std.specs.Prelude.{List};
    ghost use Rattle.form_names.specs.declared.elements.Elements.{Elements};

    ghost Value = { List Elements };

    ghost view = { λ s. s.sets.items };
}

impl Sets {
    pub fn from_vec(sets: Vec<Elements>) -> Sets
        ensures { result ≡ sets.items }
    {
        Sets { sets }
    }

    pub fn as_slice(&self) -> &[Elements]
        ensures { result.now ≡ self.now }
    {
        self.sets.as_slice()
    }
}

/// A name in a pattern: itself, or a wildcard.
#[derive(Drop)]
pub enum Name {
    Itself(Id),
    Wild(Id, Sets),
}

/// An index in a pattern.
#[derive(Drop)]
pub enum IndexName {
    Fixed(u32),
    Name(Name),
}

/// What a wildcard that is an argument stands for.
#[derive(Clone, Copy, PartialEq, Eq)]
pub enum Sort {
    Expression,
    Index,
    Vector,
}

/// A piece of a pattern.
#[derive(Drop)]
pub enum PatternPiece {
    /// A power of a symbol.
    Symbol(Name, i64),
    /// A symbol with its whole exponent, for which a wildcard stands.
    Whole(Name, Name),
    /// A power of a dot product.
    Dot(Name, Name, i64),
    Component(Name, IndexName),
    Delta(IndexName, IndexName),
    /// A commuting function; its arguments follow.
    Function(Name),
    /// So many non-commuting functions in a row follow.
    Word(u32),
    /// One of these; its arguments follow.
    Call(Name),
    EndOfArguments,
    EndOfWord,
    /// An argument without wildcards, by its number.
    Fixed(usize),
    /// An argument that is a wildcard.
    Any(Sort, Name),
    /// A field of arguments, by its number.
    Field(usize),
    /// An argument that is a product with wildcards; its factors follow.
    Product,
    EndOfProduct,
}

/// A pattern, flat, with its arguments that have no wildcards by their numbers: in a clause the list of its pieces, and
/// for each of these arguments the list of its pieces.
#[derive(Drop)]
pub struct Pattern {
    pieces: Vec<PatternPiece>,
    fixed: Vec<Tree>,
}

impl Model for Pattern {
    ghost use Rattle.form_tree.specs.Patterns.{Pieces, pattern_of};

    ghost Value = { Pieces };

    ghost view = { λ p. pattern_of p.pieces.items p.fixed.items };
}

impl Pattern {
    pub fn from_parts(pieces: Vec<PatternPiece>, fixed: Vec<Tree>) -> Pattern
        ensures { result ≡ pattern_of pieces.items fixed.items }
    {
        Pattern { pieces, fixed }
    }

    pub fn pieces(&self) -> &[PatternPiece]
        ensures { result.now ≡ self.now.pieces }
    {
        self.pieces.as_slice()
    }

    /// The arguments without wildcards, in the order of their numbers.
    pub fn fixed(&self) -> &[Tree]
        ensures { result.now ≡ self.now.fixed }
    {
        self.fixed.as_slice()
    }
}
