ghost use Rattle.std.specs.Prelude.{◌≡◌};
ghost use Rattle.form_grammar.specs.Terminal.{mark_terminal as mark_terminal_of};

use form_ast::{Sign, Spelled};
use form_base::{Comparison, Spot};
use form_lexer::{BuiltIn, Mark, Token, TokenKind};
use form_number::Number;

/// A token as the grammar sees it, without the spots of marks. `i_` and `d_` stand in right sides alone.
#[derive(Drop)]
pub enum Terminal {
    Number(Number),
    Name(Spelled),
    /// `i_`
    Imaginary(Spot),
    /// `d_`
    Delta(Spot),
    Sign(Sign),
    Times,
    Over,
    /// The mark before a power.
    Raise,
    Open,
    Close,
    Comma,
    Period,
    Equals,
    /// The mark of a wildcard, or of a field.
    Question,
    OpenBrace,
    CloseBrace,
    Colon,
    /// `&&`, in conditions alone.
    And,
    /// `||`, in conditions alone.
    Or,
    /// A mark that compares other than `=`, in conditions alone.
    Comparison(Comparison),
    /// A token that stands nowhere in the grammar.
    Other,
}

/// A mark as the grammar sees it.
pub fn mark_terminal(mark: Mark) -> Terminal
    ensures { result ≡ mark_terminal_of mark }
{
    match mark {
        Mark::Plus => Terminal::Sign(Sign::Plus),
        Mark::Minus => Terminal::Sign(Sign::Minus),
        Mark::Times => Terminal::Times,
        Mark::Over => Terminal::Over,
        Mark::Power => Terminal::Raise,
        Mark::Open => Terminal::Open,
        Mark::Close => Terminal::Close,
        Mark::Comma => Terminal::Comma,
        Mark::Period => Terminal::Period,
        Mark::Equals => Terminal::Equals,
        Mark::Question => Terminal::Question,
        Mark::OpenBrace => Terminal::OpenBrace,
        Mark::CloseBrace => Terminal::CloseBrace,
        Mark::Colon => Terminal::Colon,
        Mark::And => Terminal::And,
        Mark::Or => Terminal::Or,
        Mark::EqualTo => Terminal::Comparison(Comparison::EqualTo),
        Mark::NotEqualTo => Terminal::Comparison(Comparison::NotEqualTo),
        Mark::Less => Terminal::Comparison(Comparison::Less),
        Mark::Greater => Terminal::Comparison(Comparison::Greater),
        Mark::AtMost => Terminal::Comparison(Comparison::AtMost),
        Mark::AtLeast => Terminal::Comparison(Comparison::AtLeast),
        Mark::Semicolon => Terminal::Other,
    }
}

impl From<Token> for Terminal {
    ghost use Rattle.std.specs.Prelude.{◌≡◌};
    ghost use Rattle.form_grammar.specs.Terminal.{terminal_of};

    ghost from_gives = { λ token terminal. terminal ≡ terminal_of token };

    fn from(token: Token) -> Terminal {
        let Token { kind, spot } = token;
        match kind {
            TokenKind::Number(value) => Terminal::Number(Number::new(value, spot)),
            TokenKind::Name(name) => Terminal::Name(Spelled { name, spot }),
            TokenKind::Mark(mark) => mark_terminal(mark),
            TokenKind::BuiltIn(BuiltIn::Imaginary) => Terminal::Imaginary(spot),
            TokenKind::BuiltIn(BuiltIn::Delta) => Terminal::Delta(spot),
            TokenKind::BuiltIn(BuiltIn::Gamma) | TokenKind::Stray => Terminal::Other,
        }
    }
}
