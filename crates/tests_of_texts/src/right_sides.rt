//! Right sides and patterns against pieces that are written out by hand.

use form_ast::{Expr, Link, Piece};
use form_base::Spot;
use form_grammar::{ReadError, read_expr, read_pattern};
use form_lexer::{Token, lex};
use std::alloc::{AllocError, Global};
use std::test::Fail;

/// A line's tokens, and none of a line that isn't ASCII.
fn tokens_of(alloc: Global, line: &str) -> Result<Vec<Token>, AllocError> {
    let mut tokens = Vec::new(alloc);
    if line.is_ascii() {
        lex(alloc, Spot { text: 0, line: 1 }, line, &mut tokens)?;
    }
    Ok(tokens)
}

fn link(link: Link) -> char {
    match link {
        Link::First => '1',
        Link::Plus => '+',
        Link::Minus => '-',
        Link::Times => '*',
        Link::Over => '/',
    }
}

/// Two characters for each piece: how it stands, and what it is.
fn letters(piece: &Piece) -> (char, char) {
    match piece {
        Piece::Number(l, _) => (link(*l), 'n'),
        Piece::Name(l, _) => (link(*l), 'a'),
        Piece::Dot(l, _) => (link(*l), 'p'),
        Piece::EndOfDot(_) => ('.', 'q'),
        Piece::Delta(l, _) => (link(*l), 'd'),
        Piece::EntryName(_) => ('.', 'i'),
        Piece::EntryNumber(_) => ('.', 'j'),
        Piece::EndOfDelta => ('.', 'e'),
        Piece::Call(l, _) => (link(*l), 'f'),
        Piece::Comma => ('.', ','),
        Piece::EndOfCall => ('.', ';'),
        Piece::Open(l) => (link(*l), '('),
        Piece::Close => ('.', ')'),
        Piece::Raised(true, _, _) => ('.', '%'),
        Piece::Raised(false, _, _) => ('.', '^'),
        Piece::RaisedByName(_, _) => ('.', '~'),
        Piece::Marked(_) => ('.', '?'),
        Piece::Field(_) => ('.', '='),
    }
}

/// The characters of the pieces that are read, and nothing where the text isn't in the grammar.
fn shown(alloc: Global, read: Result<Expr, ReadError>) -> Result<String, Fail> {
    let mut pieces = String::new(alloc);
    match read {
        Ok(expr) => {
            for piece in expr.as_slice() {
                let (l, kind) = letters(piece);
                pieces.push(l)?;
                pieces.push(kind)?;
            }
            Ok(pieces)
        }
        Err(ReadError::BadSyntax) => Ok(pieces),
        Err(ReadError::Memory) => Err(Fail::from("no memory")),
    }
}

/// A right side's pieces.
fn pieces_of(alloc: Global, line: &str) -> Result<String, Fail> {
    shown(alloc, read_expr(alloc, tokens_of(alloc, line)?.into_iter()))
}

/// A pattern's pieces.
fn pattern_of(alloc: Global, line: &str) -> Result<String, Fail> {
    shown(
        alloc,
        read_pattern(alloc, tokens_of(alloc, line)?.into_iter()),
    )
}

#[test]
fn reads_right_sides(rt: HostRuntime) -> Result<(), Fail> {
    let alloc = rt.alloc();
    assert_eq!(rt;
        pieces_of(alloc, "2*x^2 - (x/3^(-1))^+2")?.as_str(),
        "1n*a.^-(1a/n.%.).^"
    );
    assert_eq!(rt; pieces_of(alloc, "-(+[x y])*7^-0")?.as_str(), "-(+a.)*n.^");
    assert_eq!(rt; pieces_of(alloc, "(x)^(-0)")?.as_str(), "1(1a.).%");
    assert_eq!(rt;
        pieces_of(alloc, "f(x,-g()^2)*p.q^-1/p.q")?.as_str(),
        "1f1a.,-f.;.^.;*p.q.^/p.q"
    );
    assert_eq!(rt;
        pieces_of(alloc, "i_*d_(mu,2)^(3)+f(d_(i_,p))")?.as_str(),
        "1a*d.i.j.e.%+f1d.i.i.e.;"
    );
    Ok(())
}

#[test]
fn reads_patterns(rt: HostRuntime) -> Result<(), Fail> {
    let alloc = rt.alloc();
    assert_eq!(rt; pattern_of(alloc, "x?^2*y")?.as_str(), "1a.?.^*a");
    assert_eq!(rt;
        pattern_of(alloc, "f?{f,g}(?a,x?s*y^n?{-1,2},2*y)")?.as_str(),
        "1f.?.=.,1a.?*a.~.?.,1n*a.;"
    );
    assert_eq!(rt;
        pattern_of(alloc, "p?.q?*d_(mu?,2)*i_")?.as_str(),
        "1p.?.q.?*d.i.?.j.e*a"
    );
    Ok(())
}
