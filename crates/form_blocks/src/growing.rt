//! The statements of a module as a tree: a stack of the blocks that are open grows and shrinks as they are read.

ghost use Rattle.std.specs.Prelude.{◌≡◌, IfOk, OnOk};
ghost use Rattle.form_blocks.specs.Growing.{and_action, and_also, and_outer, and_part, block_begun, block_closed, branch_begun, group_ended, group_left, grown_by, nothing_grown, parts_grown};

use crate::group::Group;
use crate::open_blocks::{OpenBlock, OpenBlocks};
use crate::tree_part::{Opening, TreePart, is_also, tree_part};
use form_ast::{
    ModulePart, Outer, Placed, PlacedPart, Rewrite, Statement, WrittenAction, WrittenLeaf,
};
use form_base::Spot;
use sqlite_items::Items;
use std::alloc::{AllocError, Global};
use std::marker::Model;

/// A module behind some of its statements.
#[derive(Drop)]
struct Growth {
    parts: Vec<PlacedPart>,
    blocks: OpenBlocks,
    /// The `id` that is the last statement.
    group: Option<Group>,
}

impl Model for Growth {
    ghost use Rattle.std.specs.Coded.{codes};
    ghost use Rattle.form_ast.specs.contracts.module.PlacedPart as the_part;
    ghost use Rattle.form_blocks.specs.contracts.group.Group as the_group;
    ghost use Rattle.form_blocks.specs.contracts.open_blocks.OpenBlock as the_block;
    ghost use Rattle.form_blocks.specs.Growing.{Grown};

    ghost Value = { Grown };

    ghost coded = { Prim.hlevel (codes, the_part.the_row.coded, the_block.the_row.coded, the_group.the_row.coded) };

    ghost view = { λ g. record { parts = g.parts.items; blocks = g.blocks; group = g.group } };
}

/// The statements of a module as a tree.
pub fn parts_of(alloc: Global, statements: Vec<Placed>) -> Result<Vec<PlacedPart>, AllocError>
    ensures { IfOk result (λ parts. parts.items ≡ parts_grown statements.items) }
{
    let mut growth = Growth::new(alloc);
    for placed in statements {
        growth.take(alloc, placed)?;
    }
    growth.end_group()?;
    Ok(growth.into_parts())
}

impl Growth {
    fn new(alloc: Global) -> Growth
        ensures { result ≡ nothing_grown }
    {
        Growth {
            parts: Vec::new(alloc),
            blocks: OpenBlocks::new(alloc),
            group: None,
        }
    }

    fn into_parts(self) -> Vec<PlacedPart>
        ensures { result.items ≡ self.parts }
    {
        let Growth { parts, .. } = self;
        parts
    }

    /// Goes one statement further.
    fn take(&mut self, alloc: Global, placed: Placed) -> Result<(), AllocError>
        ensures { OnOk result (self.new ≡ grown_by self.old placed) }
    {
        let Placed { spot, statement } = placed;
        self.leave_group(&statement)?;
        self.put_part(alloc, spot, tree_part(statement))
    }

    /// Before a statement that is no `also` what is an `id` ends.
    fn leave_group(&mut self, next: &Statement) -> Result<(), AllocError>
        ensures { OnOk result (self.new ≡ group_left next.now self.old) }
    {
        if is_also(next) {
            return Ok(());
        }
        self.end_group()
    }

    /// No `also` follows the last statement any more.
    fn end_group(&mut self) -> Result<(), AllocError>
        ensures { OnOk result (self.new ≡ group_ended self.old) }
    {
        let Some(group) = self.group.take() else {
            return Ok(());
        };
        let Group { spot, id, others } = group;
        self.put(spot, WrittenAction::Plain(WrittenLeaf::Rewrite(id, others)))
    }

    fn put_part(&mut self, alloc: Global, spot: Spot, part: TreePart) -> Result<(), AllocError>
        ensures { OnOk result (self.new ≡ and_part spot part self.old) }
    {
        match part {
            TreePart::Outer(outer) => self.put_outer(spot, outer),
            TreePart::Id(id) => {
                let others = Items::new(alloc);
                self.group = Some(Group { spot, id, others });
                Ok(())
            }
            TreePart::Also(rewrite) => self.put_also(rewrite),
            TreePart::Leaf(leaf) => self.put(spot, WrittenAction::Plain(leaf)),
            TreePart::Opens(opening) => self.open(alloc, spot, opening),
            TreePart::Branches(opening) => self.begin_branch(alloc, opening),
            TreePart::Ends => self.close(),
        }
    }

    /// Puts a statement last that stands in no block.
    fn put_outer(&mut self, spot: Spot, outer: Outer) -> Result<(), AllocError>
        ensures { OnOk result (self.new ≡ and_outer spot outer self.old) }
    {
        self.parts.push(PlacedPart {
            spot,
            part: ModulePart::Outer(outer),
        })?;
        Ok(())
    }

    /// Puts an `also` behind the `id` that is the last statement.
    fn put_also(&mut self, rewrite: Rewrite) -> Result<(), AllocError>
        ensures { OnOk result (self.new ≡ and_also rewrite self.old) }
    {
        let Some(mut group) = self.group.take() else {
            return Ok(());
        };
        group.others.push(rewrite)?;
        self.group = Some(group);
        Ok(())
    }

    /// Puts a statement last in the innermost block that is open.
    fn put(&mut self, spot: Spot, action: WrittenAction) -> Result<(), AllocError>
        ensures { OnOk result (self.new ≡ and_action spot action self.old) }
    {
        let Some(mut block) = self.blocks.pop() else {
            self.parts.push(PlacedPart {
                spot,
                part: ModulePart::Action(action),
            })?;
            return Ok(());
        };
        block.actions.push(action)?;
        self.blocks.push(block)?;
        Ok(())
    }

    fn open(&mut self, alloc: Global, spot: Spot, opening: Opening) -> Result<(), AllocError>
        ensures { OnOk result (self.new ≡ block_begun spot opening self.old) }
    {
        self.blocks.push(OpenBlock::new(alloc, spot, opening))?;
        Ok(())
    }

    /// A further branch of the innermost block begins.
    fn begin_branch(&mut self, alloc: Global, opening: Opening) -> Result<(), AllocError>
        ensures { OnOk result (self.new ≡ branch_begun opening self.old) }
    {
        let Some(block) = self.blocks.pop() else {
            return Ok(());
        };
        let block = block.with_branch(alloc, opening)?;
        self.blocks.push(block)?;
        Ok(())
    }

    /// The innermost block ends, and is put last in the one around it.
    fn close(&mut self) -> Result<(), AllocError>
        ensures { OnOk result (self.new ≡ block_closed self.old) }
    {
        let Some(block) = self.blocks.pop() else {
            return Ok(());
        };
        let spot = block.spot;
        let action = block.into_action()?;
        self.put(spot, action)
    }
}
