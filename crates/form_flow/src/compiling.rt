//! The statements of a module made ready: a tree that borrows from the checked one. Blocks recurse, at most 64 deep.
ghost use Rattle.std.specs.Prelude.{◌≡◌, All, IfOk, IfSome, map, option_map};
ghost use Rattle.form_flow.specs.Making.{HasAllTrees, HasArgument, HasBranchTrees, HasLeafTrees, HasPattern, HasPatterns, HasTrees, branch_of, entry_of, ready_choice, ready_leaf, ready_of, ready_part, table_of, tried};
ghost use Rattle.form_flow.specs.Ready.{IsBuilt};

use crate::compiled::{
    CompiledPart, Group, Question, ReadyAction, ReadyBlock, ReadyBranch, ReadyLeaf, ReadySide,
    nothing_bound,
};
use form_check::{CheckedAction, CheckedBlock, CheckedBranch, CheckedLeaf, Rewriting};
use form_expand::argument_pieces;
use form_match::Pattern;
use form_term::Call;
use form_tree::{Condition, Tree};
use sqlite_items::Items;
use std::alloc::{AllocError, Global};

/// The statements of a block made ready.
#[cycle(block)]
pub fn block_of<'a>(
    alloc: Global,
    limit: u64,
    checked: &'a CheckedBlock,
) -> Result<ReadyBlock<'a>, AllocError>
    requires { All HasAllTrees checked.now }
    ensures { IfOk result (λ made. made ≡ map (ready_of limit) checked.now) }
{
    let mut actions = Items::new(alloc);
    for action in checked.as_slice() {
        let made = action_of(alloc, limit, action)?;
        actions.push(made)?;
    }
    Ok(actions)
}

/// A statement made ready.
#[cycle(block)]
fn action_of<'a>(
    alloc: Global,
    limit: u64,
    checked: &'a CheckedAction,
) -> Result<ReadyAction<'a>, AllocError>
    requires { HasAllTrees checked.now }
    ensures { IfOk result (λ made. made ≡ ready_of limit checked.now) }
{
    match checked {
        CheckedAction::Plain(leaf) => {
            let made = leaf_of(alloc, limit, leaf)?;
            Ok(ReadyAction::Plain(made))
        }
        CheckedAction::Repeat(inner) => {
            let made = block_of(alloc, limit, inner)?;
            Ok(ReadyAction::Repeat(made))
        }
        CheckedAction::Choose(choices, last) => {
            let made = branches_of(alloc, limit, choices)?;
            let otherwise = last_of(alloc, limit, last)?;
            Ok(ReadyAction::Choose(made, otherwise))
        }
        CheckedAction::Within(picked, inner) => {
            let functions = picked.copy(alloc)?;
            let made = block_of(alloc, limit, inner)?;
            Ok(ReadyAction::Within(functions, made))
        }
    }
}

/// What stands behind `else`, where it is written.
#[cycle(block)]
fn last_of<'a>(
    alloc: Global,
    limit: u64,
    checked: &'a Option<CheckedBlock>,
) -> Result<Option<ReadyBlock<'a>>, AllocError>
    requires { IfSome checked.now (All HasAllTrees) }
    ensures { IfOk result (λ made. made ≡ option_map (map (ready_of limit)) checked.now) }
{
    match checked {
        Some(inner) => {
            let made = block_of(alloc, limit, inner)?;
            Ok(Some(made))
        }
        None => Ok(None),
    }
}

/// The branches of an `if` that have conditions.
#[cycle(block)]
fn branches_of<'a>(
    alloc: Global,
    limit: u64,
    checked: &'a Items<CheckedBranch>,
) -> Result<Items<ReadyBranch<'a>>, AllocError>
    requires { All HasBranchTrees checked.now }
    ensures { IfOk result (λ made. made ≡ map (branch_of limit) checked.now) }
{
    let mut branches = Items::new(alloc);
    for branch in checked.as_slice() {
        let condition = question_of(alloc, limit, &branch.condition)?;
        let block = block_of(alloc, limit, &branch.block)?;
        branches.push(ReadyBranch { condition, block })?;
    }
    Ok(branches)
}

/// A statement that is no block.
fn leaf_of<'a>(
    alloc: Global,
    limit: u64,
    checked: &'a CheckedLeaf,
) -> Result<ReadyLeaf<'a>, AllocError>
    requires { HasLeafTrees checked.now }
    ensures { IfOk result (λ made. made ≡ ready_leaf limit checked.now) }
{
    match checked {
        CheckedLeaf::Rewrite(rewritings) => {
            let group = group_of(alloc, limit, rewritings.as_slice())?;
            Ok(ReadyLeaf::Rewrite(group))
        }
        CheckedLeaf::Multiply(side, right) => {
            let right = ReadySide::new(alloc, limit, right)?;
            Ok(ReadyLeaf::Multiply(*side, right))
        }
        CheckedLeaf::Sum(indices) => {
            let indices = indices.copy(alloc)?;
            Ok(ReadyLeaf::Sum(indices))
        }
        CheckedLeaf::SumOver(index, values) => {
            let values = values.copy(alloc)?;
            Ok(ReadyLeaf::SumOver(*index, values))
        }
        CheckedLeaf::Discard => Ok(ReadyLeaf::Discard),
    }
}

/// An `id` with its `also`s.
fn group_of<'a>(
    alloc: Global,
    limit: u64,
    rewritings: &'a [Rewriting],
) -> Result<Group<'a>, AllocError>
    requires { All HasTrees rewritings.now }
    ensures { IfOk result (λ made. made ≡ map (ready_part limit) rewritings.now) }
{
    let mut parts = Vec::with_capacity(alloc, rewritings.len())?;
    for rewriting in rewritings {
        let part = part_of(alloc, limit, rewriting)?;
        parts.push(part)?;
    }
    Ok(Group::from_vec(parts))
}

/// An `id` or an `also`.
fn part_of<'a>(
    alloc: Global,
    limit: u64,
    rewriting: &'a Rewriting,
) -> Result<CompiledPart<'a>, AllocError>
    requires { HasTrees rewriting.now }
    ensures { IfOk result (λ made. made ≡ ready_part limit rewriting.now) }
{
    let pattern = pattern_of(alloc, limit, &rewriting.pattern)?;
    let right = ReadySide::new(alloc, limit, &rewriting.right)?;
    Ok(CompiledPart::new(rewriting.option, pattern, right))
}

/// A condition with its patterns.
fn question_of<'a>(
    alloc: Global,
    limit: u64,
    condition: &'a Condition,
) -> Result<Question<'a>, AllocError>
    requires { HasPatterns condition.now }
    ensures { IfOk result (λ made. made ≡ ready_choice limit condition.now) }
{
    let patterns = patterns_of(alloc, limit, condition.patterns.as_slice())?;
    Ok(Question::new(condition, patterns))
}

/// Patterns in their order.
fn patterns_of<'a>(
    alloc: Global,
    limit: u64,
    patterns: &'a [form_tree::Pattern],
) -> Result<Vec<Pattern<'a>>, AllocError>
    requires { All HasPattern patterns.now }
    ensures are { IfOk result (λ made. made.items ≡ map (tried limit) patterns.now) }
    ensures built { IfOk result (λ made. All IsBuilt made.items) }
{
    let mut made = Vec::with_capacity(alloc, patterns.len())?;
    for pattern in patterns {
        let one = pattern_of(alloc, limit, pattern)?;
        made.push(one)?;
    }
    Ok(made)
}

/// A pattern made ready.
fn pattern_of<'a>(
    alloc: Global,
    limit: u64,
    pattern: &'a form_tree::Pattern,
) -> Result<Pattern<'a>, AllocError>
    requires { HasPattern pattern.now }
    ensures is { IfOk result (λ made. made ≡ tried limit pattern.now) }
    ensures built { IfOk result IsBuilt }
{
    let fixed = fixed_arguments(alloc, limit, pattern.fixed())?;
    Pattern::new(alloc, pattern.pieces(), fixed)
}

/// What the arguments without wildcards are.
fn fixed_arguments(
    alloc: Global,
    limit: u64,
    trees: &[Tree],
) -> Result<Vec<Option<Call>>, AllocError>
    requires { All HasArgument trees.now }
    ensures { IfOk result (λ calls. map (option_map (λ c. c.pieces)) calls.items ≡ table_of limit trees.now) }
{
    let mut calls = Vec::with_capacity(alloc, trees.len())?;
    for tree in trees {
        calls.push(fixed_argument(alloc, limit, tree)?)?;
    }
    Ok(calls)
}

/// What an argument without wildcards is, where it isn't refused.
fn fixed_argument(alloc: Global, limit: u64, tree: &Tree) -> Result<Option<Call>, AllocError>
    requires { HasArgument tree.now }
    ensures { IfOk result (λ call. option_map (λ c. c.pieces) call ≡ entry_of limit tree.now) }
{
    let nothing = nothing_bound(alloc);
    argument_pieces(alloc, tree.as_slice(), limit, &nothing)
}
