ghost use Rattle.std.specs.Prelude.{◌≡◌, ◌++◌, ◌-◌, ◌^◌, IfOk, OnOk, length, min};

use crate::{Expr, Piece};
use std::alloc::{AllocError, Global};
use std::marker::Model;

/// A right side, as `Expr` is one, in parts: a right side may have millions of pieces, and so each part can be dropped
/// as soon as it is walked, and its memory be used again. In a clause the list of its pieces in the order of the text.
#[derive(Drop)]
pub struct LongExpr {
    parts: Vec<Expr>,
}

impl Model for LongExpr {
    ghost use Rattle.std.specs.Prelude.{List};
    ghost use Rattle.form_ast.specs.Joined.{joined};
    ghost use Rattle.form_ast.specs.declared.expr.Piece.{Piece};

    ghost Value = { List Piece };

    ghost view = { λ e. joined e.parts.items };
}

/// Puts pieces last.
pub fn append(pieces: &mut Vec<Piece>, others: Vec<Piece>) -> Result<(), AllocError>
    ensures { OnOk result (pieces.new.items ≡ pieces.old.items ++ others.items) }
{
    if pieces.is_empty() {
        *pieces = others;
        return Ok(());
    }
    for piece in others {
        pieces.push(piece)?;
    }
    Ok(())
}

impl LongExpr {
    ghost use Rattle.form_ast.specs.Joined.{joined};

    pub fn from_vec(parts: Vec<Expr>) -> LongExpr
        ensures { result ≡ joined parts.items }
    {
        LongExpr { parts }
    }

    pub fn from_expr(alloc: Global, expr: Expr) -> Result<LongExpr, AllocError>
        ensures { IfOk result (λ long. long ≡ expr) }
    {
        let mut parts = Vec::new(alloc);
        parts.push(expr)?;
        Ok(LongExpr { parts })
    }

    pub fn into_vec(self) -> Vec<Expr>
        ensures { joined result.items ≡ self }
    {
        let LongExpr { parts } = self;
        parts
    }

    /// How many pieces it has, or the largest number where they are more.
    #[tactic(auto, using(crate::proofs::Counting::counted, crate::proofs::Counting::all_counted))]
    pub fn len(&self) -> usize
        ensures { result ≡ min (length self.now) (2 ^ 64 - 1) }
    {
        let mut count: usize = 0;
        let mut rest = self.parts.as_slice();
        while let Some((part, others)) = rest.split_first() {
            count = count.saturating_add(part.as_slice().len());
            rest = others;
        }
        count
    }

    /// Its parts joined.
    pub fn into_expr(self, alloc: Global) -> Result<Expr, AllocError>
        ensures { IfOk result (λ expr. expr ≡ self) }
    {
        let LongExpr { parts } = self;
        let mut pieces = Vec::new(alloc);
        for part in parts {
            append(&mut pieces, part.into_vec())?;
        }
        Ok(Expr::from_vec(pieces))
    }
}
