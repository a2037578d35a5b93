//! Statements that are carried out on terms, over Ids, as a tree. Blocks recurse, at most 64 deep, as they are written.
ghost use Rattle.std.specs.Prelude.{◌≡◌, ◌∷◌, All, IfSome};
ghost use Rattle.form_ast.specs.Lawful.{AreLawful, IsLawfulAction, IsLawfulBlock, IsLawfulBranch};
ghost use Rattle.form_check.specs.Acting.{IsLawfulLeaf, IsLawfulRewrite, action as action_of, block as block_of, branch as branch_of, last_block as last_block_of, leaf as leaf_of, rewriting as rewriting_of};
ghost use Rattle.form_right_side.specs.Refusal.{Gives, listed};
ghost use Rattle.form_right_side.specs.RightSide.{none_stands, nothing_known, right_side};

use crate::CheckError;
use crate::carried::{index_values, picked, summed_index, summed_indices};
use crate::checked::{
    CheckedAction, CheckedBlock, CheckedBranch, CheckedLeaf, Rewriting, RewritingList,
};
use crate::condition::condition;
use form_ast::{Piece, Rewrite, WrittenAction, WrittenBlock, WrittenBranch, WrittenLeaf};
use form_names::Names;
use form_pattern::{known_of, pattern};
use form_right_side::{Known, Standing, right_side_of_list, right_side_of_pattern};
use form_tree::Tree;
use sqlite_items::Items;
use std::alloc::Global;

/// A statement that is carried out on terms, with the statements of its blocks, in the order of the text.
#[cycle(block)]
pub fn action(
    alloc: Global,
    names: &Names,
    standing: &Standing,
    written: &WrittenAction,
) -> Result<CheckedAction, CheckError>
    requires { IsLawfulAction written.now }
    ensures { Gives (λ made. made) result (action_of names.now written.now) }
{
    match written {
        WrittenAction::Plain(alone) => {
            let made = leaf(alloc, names, standing, alone)?;
            Ok(CheckedAction::Plain(made))
        }
        WrittenAction::Repeat(inner) => {
            let made = block(alloc, names, standing, inner)?;
            Ok(CheckedAction::Repeat(made))
        }
        WrittenAction::Choose(choices, last) => {
            let made = branches(alloc, names, standing, choices)?;
            let otherwise = last_block(alloc, names, standing, last)?;
            Ok(CheckedAction::Choose(made, otherwise))
        }
        WrittenAction::Within(functions, inner) => {
            let taken = picked(alloc, names, functions.as_slice())?;
            let made = block(alloc, names, standing, inner)?;
            Ok(CheckedAction::Within(taken, made))
        }
    }
}

/// The statements of a block.
#[cycle(block)]
fn block(
    alloc: Global,
    names: &Names,
    standing: &Standing,
    written: &WrittenBlock,
) -> Result<CheckedBlock, CheckError>
    requires { IsLawfulBlock written.now }
    ensures { Gives (λ made. made) result (block_of names.now written.now) }
{
    let mut actions = Items::new(alloc);
    for one in written.as_slice() {
        let made = action(alloc, names, standing, one)?;
        actions.push(made)?;
    }
    Ok(actions)
}

/// The branches of an `if` that have conditions.
#[cycle(block)]
#[tactic(auto, using(form_base::proofs::Branches::branch_at_most))]
fn branches(
    alloc: Global,
    names: &Names,
    standing: &Standing,
    written: &Items<WrittenBranch>,
) -> Result<Items<CheckedBranch>, CheckError>
    requires { All IsLawfulBranch written.now }
    ensures { Gives (λ made. made) result (listed (branch_of names.now) written.now) }
{
    let mut branches = Items::new(alloc);
    for one in written.as_slice() {
        let condition = condition(alloc, names, standing, one.condition.as_slice())?;
        let block = block(alloc, names, standing, &one.block)?;
        branches.push(CheckedBranch { condition, block })?;
    }
    Ok(branches)
}

/// What stands behind `else`, where it is written.
#[cycle(block)]
fn last_block(
    alloc: Global,
    names: &Names,
    standing: &Standing,
    written: &Option<WrittenBlock>,
) -> Result<Option<CheckedBlock>, CheckError>
    requires { IfSome written.now IsLawfulBlock }
    ensures { Gives (λ made. made) result (last_block_of names.now written.now) }
{
    match written {
        Some(inner) => {
            let made = block(alloc, names, standing, inner)?;
            Ok(Some(made))
        }
        None => Ok(None),
    }
}

/// A statement that is no block.
fn leaf(
    alloc: Global,
    names: &Names,
    standing: &Standing,
    written: &WrittenLeaf,
) -> Result<CheckedLeaf, CheckError>
    requires { IsLawfulLeaf written.now }
    ensures { Gives (λ made. made) result (leaf_of names.now written.now) }
{
    match written {
        WrittenLeaf::Rewrite(id, others) => {
            let made = rewritings(alloc, names, standing, id, others.as_slice())?;
            Ok(CheckedLeaf::Rewrite(made))
        }
        WrittenLeaf::Multiply(side, right) => {
            let by = multiplier(alloc, names, right.as_slice())?;
            Ok(CheckedLeaf::Multiply(*side, by))
        }
        WrittenLeaf::Sum(list) => {
            let ids = summed_indices(alloc, names, list.as_slice())?;
            Ok(CheckedLeaf::Sum(ids))
        }
        WrittenLeaf::SumOver(name, numbers) => {
            let id = summed_index(alloc, names, name)?;
            let values = index_values(alloc, numbers.as_slice())?;
            Ok(CheckedLeaf::SumOver(id, values))
        }
        WrittenLeaf::Discard => Ok(CheckedLeaf::Discard),
    }
}

/// What a right side knows that has no pattern.
pub fn nothing(alloc: Global) -> Known
    ensures { result ≡ nothing_known }
{
    Known::new(Vec::new(alloc), Vec::new(alloc))
}

/// What a `multiply` multiplies by.
fn multiplier(alloc: Global, names: &Names, right: &[Piece]) -> Result<Tree, CheckError>
    requires { AreLawful right.now }
    ensures { Gives (λ tree. tree) result (right_side names.now none_stands nothing_known right.now) }
{
    let known = nothing(alloc);
    let none = Standing::new(alloc);
    right_side_of_list(alloc, names, &none, &known, right)
}

/// An `id` and its `also`s.
fn rewritings(
    alloc: Global,
    names: &Names,
    standing: &Standing,
    id: &Rewrite,
    others: &[Rewrite],
) -> Result<RewritingList, CheckError>
    requires id { IsLawfulRewrite id.now }
    requires others { All IsLawfulRewrite others.now }
    ensures { Gives (λ made. made) result (listed (rewriting_of names.now) (id.now ∷ others.now)) }
{
    let mut rewritings = Vec::new(alloc);
    let first = rewriting(alloc, names, standing, id)?;
    rewritings.push(first)?;
    for also in others {
        let made = rewriting(alloc, names, standing, also)?;
        rewritings.push(made)?;
    }
    Ok(RewritingList::from_vec(rewritings))
}

/// An `id` or an `also`.
fn rewriting(
    alloc: Global,
    names: &Names,
    standing: &Standing,
    rewrite: &Rewrite,
) -> Result<Rewriting, CheckError>
    requires { IsLawfulRewrite rewrite.now }
    ensures { Gives (λ made. made) result (rewriting_of names.now rewrite.now) }
{
    let written = rewrite.pattern.as_slice();
    let known = known_of(alloc, names, written)?;
    let pattern = pattern(alloc, names, standing, &known, written)?;
    let right = right_side_of_pattern(
        alloc,
        names,
        standing,
        &known,
        written,
        rewrite.right.as_slice(),
    )?;
    let option = rewrite.option;
    Ok(Rewriting {
        option,
        pattern,
        right,
    })
}
