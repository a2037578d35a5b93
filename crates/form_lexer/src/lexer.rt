ghost use Rattle.std.specs.Prelude.{◌≡◌, MatchOption, IfOk, OnOk};
ghost use Rattle.std.specs.List.{AllPass};
ghost use Rattle.std.specs.Str.{IsAscii};
ghost use Rattle.form_lexer.specs.Tokens.{is_blank, AppendsTokens};
ghost use Rattle.form_lexer.specs.Reading.{kind_of, IsNext};

use crate::shape::{blanks, token_at};
use crate::{Shape, Token, TokenKind};
use form_base::{Name, Spot};
use form_number::WholeNumber;
use std::alloc::{AllocError, Global};

/// The kind of a token of this shape that is written so.
pub fn kind(alloc: Global, shape: Shape, text: &str) -> Result<TokenKind, AllocError>
    ensures { IfOk result (λ kind. kind ≡ kind_of shape text.now) }
{
    Ok(match shape {
        Shape::Number => TokenKind::Number(WholeNumber::read(alloc, text.as_bytes())?),
        Shape::Name => TokenKind::Name(Name::new(alloc, text)?),
        Shape::BuiltIn(built_in) => TokenKind::BuiltIn(built_in),
        Shape::Mark(mark) => TokenKind::Mark(mark),
        Shape::Stray => TokenKind::Stray,
    })
}

/// The next token of a line, its text and what follows it; none where blanks alone are left.
#[tactic(auto, using(crate::proofs::Fronts::front_within))]
pub fn next_token(line: &str) -> Option<(Shape, &str, &str)>
    requires { IsAscii line.now }
    ensures { MatchOption result (AllPass is_blank line.now) (λ x. IsNext line.now x.0 x.1.now x.2.now) }
{
    let (_, rest) = line.split_at(blanks(line.as_bytes()));
    if rest.is_empty() {
        return None;
    }
    let (shape, length) = token_at(rest.as_bytes());
    let (text, others) = rest.split_at(length);
    Some((shape, text, others))
}

/// Appends the tokens of a line, which all stand at this spot. Where memory runs out, some of them may stand there.
pub fn lex(alloc: Global, spot: Spot, line: &str, tokens: &mut Vec<Token>) -> Result<(), AllocError>
    requires { IsAscii line.now }
    ensures { OnOk result (AppendsTokens spot line.now tokens.old.items tokens.new.items) }
{
    let mut rest = line;
    while let Some((shape, text, others)) = next_token(rest) {
        let kind = kind(alloc, shape, text)?;
        tokens.push(Token { kind, spot })?;
        rest = others;
    }
    Ok(())
}
