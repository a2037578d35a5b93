ghost use Rattle.std.specs.Prelude.{◌≡◌};

use crate::{NameList, NumberList};
use form_base::{Name, Spot};
use form_number::Number;
use std::marker::Model;

/// A written sign.
#[derive(Clone, Copy, PartialEq, Eq)]
pub enum Sign {
    Plus,
    Minus,
}

/// How a factor stands to what is before it.
#[derive(Clone, Copy, PartialEq, Eq)]
pub enum Link {
    /// It begins a sum, without a sign.
    First,
    Plus,
    Minus,
    Times,
    Over,
}

/// A written name.
#[derive(Drop)]
pub struct Spelled {
    pub name: Name,
    pub spot: Spot,
}

/// A name as a right side or a pattern has it.
#[derive(Drop)]
pub enum Named {
    /// A name that a program declares.
    Declared(Spelled),
    /// `i_`, the imaginary unit.
    Imaginary(Spot),
}

/// A written number with its sign, where it has one.
#[derive(Drop)]
pub struct SignedNumber {
    pub sign: Option<Sign>,
    pub number: Number,
}

/// What a wildcard may stand for, as it is written behind its mark.
#[derive(Drop)]
pub enum Restriction {
    /// Nothing is written.
    Any,
    /// The elements of a set.
    Set(Spelled),
    /// These names, at least one.
    Names(NameList),
    /// These numbers, at least one.
    Numbers(NumberList),
}

/// A written power: a number with a sign or none, in parentheses or without.
#[derive(Drop)]
pub struct Power {
    pub is_parenthesized: bool,
    pub sign: Option<Sign>,
    pub number: Number,
}

/// A piece of a right side or of a pattern. It has 48 bytes, since a right side may have millions: what is large is a
/// piece of its own.
#[derive(Drop)]
pub enum Piece {
    /// A number as a factor.
    Number(Link, Number),
    /// A name as a factor.
    Name(Link, Named),
    /// A dot product begins, as a factor, with its first name.
    Dot(Link, Named),
    /// A dot product ends with its second name.
    EndOfDot(Named),
    /// A `d_`, which stands here, begins, as a factor.
    Delta(Link, Spot),
    /// An argument of `d_` that is a name.
    EntryName(Named),
    /// An argument of `d_` that is a number.
    EntryNumber(Number),
    /// A `d_` ends.
    EndOfDelta,
    /// A name with arguments in parentheses begins, as a factor. Each argument is a sum.
    Call(Link, Named),
    /// A further argument begins.
    Comma,
    /// The arguments end.
    EndOfCall,
    /// A sum in parentheses begins, as a factor.
    Open(Link),
    /// A sum in parentheses ends.
    Close,
    /// The power of the factor that ends before it, as `Power` has it: whether it is in parentheses, its sign and its
    /// number.
    Raised(bool, Option<Sign>, Number),
    /// The power of the factor that ends before it, where it is a name: its sign and this name.
    RaisedByName(Option<Sign>, Named),
    /// The name in the piece before it is a wildcard, restricted so.
    Marked(Restriction),
    /// A field of arguments, which is a whole argument.
    Field(Spelled),
}

const _: () = prove!(size_of::<Piece>() == 48);

/// A right side or a pattern as it is written, flat, so that it is read, walked and dropped without recursion however deep it is: in
/// a clause the list of its pieces in the order of the text.
#[derive(Drop)]
pub struct Expr {
    pieces: Vec<Piece>,
}

impl Model for Expr {
    ghost use Rattle.std.specs.Prelude.{List};
    ghost use Rattle.form_ast.specs.declared.expr.Piece.{Piece};

    ghost Value = { List Piece };

    ghost view = { λ e. e.pieces.items };
}

impl Expr {
    pub fn from_vec(pieces: Vec<Piece>) -> Expr
        ensures { result ≡ pieces.items }
    {
        Expr { pieces }
    }

    pub fn as_slice(&self) -> &[Piece]
        ensures { result.now ≡ self.now }
    {
        self.pieces.as_slice()
    }

    pub fn into_vec(self) -> Vec<Piece>
        ensures { result.items ≡ self }
    {
        let Expr { pieces } = self;
        pieces
    }
}
