ghost use Rattle.std.specs.Prelude.{◌≡◌, [], ◌∷◌, List, length, MatchOption, OnOk, OnErr};
ghost use Rattle.std.specs.List.{list_any};
ghost use Rattle.form_blocks.specs.Blocks.{is_block};
ghost use Rattle.form_blocks.specs.declared.open.Open.{Open as Block};

use crate::{BlockKind, Open};
use std::alloc::{AllocError, Global};
use std::marker::Model;

/// The blocks that are open: in a clause their list, the innermost first.
#[derive(Drop)]
pub struct Opens {
    opens: Vec<Open>,
}

impl Model for Opens {
    ghost use Rattle.std.specs.Prelude.{List, reverse};
    ghost use Rattle.form_blocks.specs.declared.open.Open.{Open};

    ghost Value = { List Open };

    ghost view = { λ o. reverse o.opens.items };
}

fn any_block(opens: &[Open], kind: BlockKind) -> bool
    ensures { result ≡ list_any (is_block kind) opens.now }
{
    opens.iter().any(|block| block.is_block(kind))
}

impl Opens {
    pub fn new(alloc: Global) -> Opens
        ensures { result ≡ [] }
    {
        Opens {
            opens: Vec::new(alloc),
        }
    }

    pub fn len(&self) -> usize
        ensures { result ≡ length self.now }
    {
        self.opens.len()
    }

    /// The innermost one.
    pub fn last(&self) -> Option<Open>
        ensures { MatchOption result (self.now ≡ []) (λ block. (outer : List Block) × (self.now ≡ block ∷ outer)) }
    {
        match self.opens.last() {
            Some(block) => Some(*block),
            None => None,
        }
    }

    pub fn push(&mut self, block: Open) -> Result<(), AllocError>
        ensures pushed { OnOk result (self.new ≡ block ∷ self.old) }
    {
        self.opens.push(block)?;
        Ok(())
    }

    /// Takes the innermost one away.
    pub fn pop(&mut self) -> Option<Open>
        ensures { MatchOption result ((self.old ≡ []) × (self.new ≡ [])) (λ block. self.old ≡ block ∷ self.new) }
    {
        self.opens.pop()
    }

    /// Whether a block of this kind is open.
    pub fn has_block(&self, kind: BlockKind) -> bool
        ensures { result ≡ list_any (is_block kind) self.now }
    {
        any_block(self.opens.as_slice(), kind)
    }
}
