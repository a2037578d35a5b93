//! Tokens of lines against lists that are written out by hand.

use form_base::Spot;
use form_lexer::{Mark, Token, TokenKind, lex};
use std::alloc::{AllocError, Global};
use std::test::Fail;

/// A line's tokens, and none of a line that isn't ASCII.
fn tokens_of(alloc: Global, line: &str) -> Result<Vec<Token>, AllocError> {
    let mut tokens = Vec::new(alloc);
    if line.is_ascii() {
        lex(alloc, Spot { text: 0, line: 1 }, line, &mut tokens)?;
    }
    Ok(tokens)
}

fn is_name(token: &Token, text: &str) -> bool {
    match &token.kind {
        TokenKind::Name(name) => name.as_str() == text,
        _ => false,
    }
}

#[test]
fn a_dot_product(rt: HostRuntime) -> Result<(), Fail> {
    let tokens = tokens_of(rt.alloc(), "p.q")?;
    assert_eq!(rt; tokens.len(), 3);
    assert!(rt; is_name(&tokens[0], "p"));
    assert!(rt; matches!(tokens[1].kind, TokenKind::Mark(Mark::Period)));
    assert!(rt; is_name(&tokens[2], "q"));
    Ok(())
}
