ghost use Rattle.std.specs.Prelude.{◌≡◌};

use form_base::Id;
use form_term::{Component, Index, Natural};
use std::marker::Model;

/// How a factor stands to what is before it.
#[derive(Clone, Copy, PartialEq, Eq)]
pub enum Link {
    /// It begins a product that is added.
    Plus,
    /// It begins a product that is subtracted.
    Minus,
    /// It is a further factor of the product before it.
    Times,
}

/// What stands below a power that a wildcard stands for, where it is one piece.
#[derive(Clone, Copy)]
pub enum Base {
    Number(Natural),
    Symbol(Id),
    /// A symbol that is a wildcard.
    Wild(Id),
    Dot(Id, Id),
    Imaginary,
    Component(Component),
    Delta(Index, Index),
}

/// A power that a wildcard stands for, behind a sign, and whether its factor stands after `/`.
#[derive(Clone, Copy)]
pub struct Exponent {
    pub is_over: bool,
    pub is_minus: bool,
    pub symbol: Id,
}

/// A piece of a right side. A factor that is divided by has a negative power. It has 32 bytes, since a right side may
/// have millions.
#[derive(Clone, Copy)]
pub enum Piece {
    /// A whole number to a power.
    Number {
        link: Link,
        value: Natural,
        power: i32,
    },
    /// A symbol to a power.
    Symbol {
        link: Link,
        symbol: Id,
        power: i32,
    },
    /// A symbol that is a wildcard of the pattern, to a power, after `/` or not.
    Wild {
        link: Link,
        symbol: Id,
        is_over: bool,
        power: i32,
    },
    /// A factor of one piece to a power that a wildcard stands for.
    Raised {
        link: Link,
        base: Base,
        by: Exponent,
    },
    /// The terms of a stored expression, to a power.
    Stored {
        link: Link,
        expression: Id,
        power: u32,
    },
    /// `i_` to a power.
    Imaginary {
        link: Link,
        power: u32,
    },
    /// The dot product of two vectors, in either order, to a power.
    Dot {
        link: Link,
        left: Id,
        right: Id,
        power: i32,
    },
    /// A component of a vector to a power.
    Component {
        link: Link,
        component: Component,
        power: u32,
    },
    /// A delta of two indices, in either order, to a power.
    Delta {
        link: Link,
        first: Index,
        second: Index,
        power: u32,
    },
    /// A function begins; its arguments follow.
    Function {
        link: Link,
        function: Id,
        is_commuting: bool,
    },
    /// A function ends, to a power.
    EndOfFunction {
        power: u32,
    },
    /// A function ends, to a power that a wildcard stands for.
    EndOfRaisedFunction(Exponent),
    /// A field of arguments, by its number among those of the pattern.
    Field(usize),
    /// An argument that is an index alone.
    Index(Index),
    /// An argument that is a vector alone.
    Vector(Id),
    /// An argument that is an expression begins; a sum follows.
    Argument,
    /// An argument that is an expression ends.
    EndOfArgument,
    /// A sum in parentheses begins.
    Open {
        link: Link,
    },
    /// A sum in parentheses ends, to a power.
    Close {
        power: u32,
    },
    /// A sum in parentheses ends, to a power that a wildcard stands for.
    CloseRaised(Exponent),
}

const _: () = prove!(size_of::<Piece>() == 32);

/// A right side, flat, so that it is walked and dropped without recursion however deep it is: in a clause the list of its
/// pieces in the order of the text.
#[derive(Drop)]
pub struct Tree {
    pieces: Vec<Piece>,
}

impl Model for Tree {
    ghost use Rattle.std.specs.Prelude.{List};
    ghost use Rattle.form_tree.specs.declared.tree.Piece.{Piece};

    ghost Value = { List Piece };

    ghost view = { λ t. t.pieces.items };
}

impl Tree {
    pub fn from_vec(pieces: Vec<Piece>) -> Tree
        ensures { result ≡ pieces.items }
    {
        Tree { pieces }
    }

    pub fn as_slice(&self) -> &[Piece]
        ensures { result.now ≡ self.now }
    {
        self.pieces.as_slice()
    }

    pub fn into_vec(self) -> Vec<Piece>
        ensures { result.items ≡ self }
    {
        let Tree { pieces } = self;
        pieces
    }
}
