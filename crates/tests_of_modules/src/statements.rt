//! Statements of a module.
ghost use Rattle.std.specs.Prelude.{All, IfOk};
ghost use Rattle.form_flow.specs.Making.{HasAllTrees, HasTree, HasTrees};

use form_base::{Action, Id};
use form_check::{CheckedBlock, CheckedLeaf, Rewriting, RewritingList};
use form_tree::{Name, Pattern, PatternPiece, Piece, Tree};
use sqlite_items::Items;
use std::alloc::{AllocError, Global};

/// An `id` that puts this right side in for the symbol 0.
pub fn rewriting(alloc: Global, right: &[Piece]) -> Result<Rewriting, AllocError>
    requires { HasTree right.now }
    ensures { IfOk result HasTrees }
{
    let mut pieces = Vec::new(alloc);
    pieces.push(PatternPiece::Symbol(Name::Itself(Id::new(0)), 1))?;
    let none = Vec::new(alloc);
    Ok(Rewriting {
        option: None,
        pattern: Pattern::from_parts(pieces, none),
        right: Tree::from_vec(Vec::from_slice(alloc, right)?),
    })
}

/// An `id` alone.
pub fn block_of(alloc: Global, rewriting: Rewriting) -> Result<CheckedBlock, AllocError>
    requires { HasTrees rewriting }
    ensures { IfOk result (λ block. All HasAllTrees block) }
{
    let mut rewritings = Vec::new(alloc);
    rewritings.push(rewriting)?;
    let leaf = CheckedLeaf::Rewrite(RewritingList::from_vec(rewritings));
    let mut actions = Vec::new(alloc);
    actions.push(Action::Plain(leaf))?;
    Ok(Items::from_vec(actions))
}
