ghost use Rattle.std.specs.Prelude.{◌≡◌, [], ◌∷◌, IfOk, MatchOption, OnOk};
ghost use Rattle.form_blocks.specs.Growing.{action_of, branches_ended, branched};

use crate::tree_part::Opening;
use form_ast::{WrittenAction, WrittenBlock, WrittenBranch};
use form_base::Spot;
use sqlite_items::Items;
use std::alloc::{AllocError, Global};
use std::marker::Model;

/// A block that is open.
#[derive(Drop)]
pub struct OpenBlock {
    /// Where it begins.
    pub spot: Spot,
    /// How it begins, or its last branch.
    pub opening: Opening,
    /// The branches before the last one.
    pub branches: Items<WrittenBranch>,
    pub actions: WrittenBlock,
}

/// The blocks that are open: in a clause their list, the innermost first.
#[derive(Drop)]
pub struct OpenBlocks {
    blocks: Vec<OpenBlock>,
}

impl Model for OpenBlocks {
    ghost use Rattle.std.specs.Coded.{coded_list};
    ghost use Rattle.std.specs.Prelude.{List, reverse};
    ghost use Rattle.form_blocks.specs.contracts.open_blocks.OpenBlock as block;
    ghost use Rattle.form_blocks.specs.declared.open_blocks.OpenBlock.{OpenBlock};

    ghost Value = { List OpenBlock };

    ghost coded = { coded_list block.the_row.coded };

    ghost view = { λ o. reverse o.blocks.items };
}

/// The branches of a block with the one that ends here, where it has a condition.
fn end_branch(
    opening: Opening,
    mut branches: Items<WrittenBranch>,
    block: WrittenBlock,
) -> Result<Items<WrittenBranch>, AllocError>
    ensures { IfOk result (λ all. all ≡ branches_ended opening branches block) }
{
    match opening {
        Opening::Repeat => Ok(branches),
        Opening::Else => Ok(branches),
        Opening::Argument(_) => Ok(branches),
        Opening::If(condition) => {
            branches.push(WrittenBranch { condition, block })?;
            Ok(branches)
        }
    }
}

impl OpenBlock {
    /// A block that begins.
    pub fn new(alloc: Global, spot: Spot, opening: Opening) -> OpenBlock
        ensures { result ≡ record { spot = spot; opening = opening; branches = []; actions = [] } }
    {
        OpenBlock {
            spot,
            opening,
            branches: Items::new(alloc),
            actions: Items::new(alloc),
        }
    }

    /// A further branch begins.
    pub fn with_branch(self, alloc: Global, opening: Opening) -> Result<OpenBlock, AllocError>
        ensures { IfOk result (λ block. block ≡ branched opening self) }
    {
        let OpenBlock {
            spot,
            opening: before,
            branches,
            actions,
        } = self;
        let branches = end_branch(before, branches, actions)?;
        Ok(OpenBlock {
            spot,
            opening,
            branches,
            actions: Items::new(alloc),
        })
    }

    /// The block, which ends here.
    pub fn into_action(self) -> Result<WrittenAction, AllocError>
        ensures { IfOk result (λ action. action ≡ action_of self) }
    {
        let OpenBlock {
            spot: _,
            opening,
            mut branches,
            actions: block,
        } = self;
        match opening {
            Opening::Repeat => Ok(WrittenAction::Repeat(block)),
            Opening::Argument(functions) => Ok(WrittenAction::Within(functions, block)),
            Opening::Else => Ok(WrittenAction::Choose(branches, Some(block))),
            Opening::If(condition) => {
                branches.push(WrittenBranch { condition, block })?;
                Ok(WrittenAction::Choose(branches, None))
            }
        }
    }
}

impl OpenBlocks {
    pub fn new(alloc: Global) -> OpenBlocks
        ensures { result ≡ [] }
    {
        OpenBlocks {
            blocks: Vec::new(alloc),
        }
    }

    pub fn push(&mut self, block: OpenBlock) -> Result<(), AllocError>
        ensures pushed { OnOk result (self.new ≡ block ∷ self.old) }
    {
        self.blocks.push(block)?;
        Ok(())
    }

    /// Takes the innermost one away.
    pub fn pop(&mut self) -> Option<OpenBlock>
        ensures { MatchOption result ((self.old ≡ []) × (self.new ≡ [])) (λ block. self.old ≡ block ∷ self.new) }
    {
        self.blocks.pop()
    }
}
