//! Whether statements are carried out level by level. What is answered decides how long they take and nothing else.
ghost use Rattle.std.specs.Prelude.{IfSome};
ghost use Rattle.std.specs.Bool.{OnTrue};
ghost use Rattle.std.specs.List.{AllByRecursion};
ghost use Rattle.form_levels.specs.Linear.{AreLinear, IsLinear, IsLinearBranch};

use crate::asking::asks_coefficient;
use form_flow::{
    CompiledModule, Group, ReadyAction, ReadyBlock, ReadyBranch, ReadyLeaf, ReadySide,
};
use form_tree::PatternPiece;

/// Whether all statements can be carried out level by level, and equal terms are likely to meet on the way.
pub(crate) fn gathers(compiled: &CompiledModule) -> bool
    ensures { OnTrue result (AreLinear compiled.now.statements) }
{
    go_by_levels(compiled) && meet(compiled.block().as_slice(), compiled.limit())
}

/// Whether all statements can be carried out level by level.
pub(crate) fn go_by_levels(compiled: &CompiledModule) -> bool
    ensures { OnTrue result (AreLinear compiled.now.statements) }
{
    are_known(compiled.block().as_slice())
}

/// Whether one of the statements is repeated, or may be.
pub(crate) fn repeats(compiled: &CompiledModule) -> bool {
    let block = compiled.block().as_slice();
    block.iter().any(|action| matches!(action, ReadyAction::Repeat(_) | ReadyAction::Choose(_, _)))
}

#[cycle(known)]
fn are_known(block: &[ReadyAction]) -> bool
    ensures { OnTrue result (AreLinear block.now) }
{
    for action in block {
        if !is_known(action) {
            return false;
        }
    }
    true
}

#[cycle(known)]
fn is_known(action: &ReadyAction) -> bool
    ensures { OnTrue result (IsLinear action.now) }
{
    match action {
        ReadyAction::Plain(leaf) => is_known_leaf(leaf),
        ReadyAction::Repeat(block) => are_known(block.as_slice()),
        ReadyAction::Choose(branches, last) => {
            are_branches_known(branches.as_slice()) && is_last_known(last)
        }
        ReadyAction::Within(_, _) => false,
    }
}

#[cycle(known)]
fn are_branches_known(branches: &[ReadyBranch]) -> bool
    ensures { OnTrue result (AllByRecursion IsLinearBranch branches.now) }
{
    for branch in branches {
        if asks_coefficient(&branch.condition) || !are_known(branch.block.as_slice()) {
            return false;
        }
    }
    true
}

#[cycle(known)]
fn is_last_known(last: &Option<ReadyBlock>) -> bool
    ensures { OnTrue result (IfSome last.now AreLinear) }
{
    match last {
        Some(block) => are_known(block.as_slice()),
        None => true,
    }
}

fn is_known_leaf(leaf: &ReadyLeaf) -> bool {
    match leaf {
        ReadyLeaf::Rewrite(group) => group.only().is_some() || cuts_no_word(group),
        ReadyLeaf::Multiply(_, _) => true,
        ReadyLeaf::Discard => true,
        _ => false,
    }
}

/// Whether no pattern takes a stretch of a word: where one of several parts does, nothing is known.
fn cuts_no_word(group: &Group) -> bool {
    for part in group.as_slice() {
        if has_word(part.pattern().pieces()) {
            return false;
        }
    }
    true
}

fn has_word(pieces: &[PatternPiece]) -> bool {
    pieces
        .iter()
        .any(|piece| matches!(piece, PatternPiece::Word(_)))
}

/// Whether equal terms are likely to meet: something is repeated, or several terms are made in front of other statements.
fn meet(block: &[ReadyAction], limit: u64) -> bool {
    let Some((last, others)) = block.split_last() else {
        return false;
    };
    for action in others {
        if spreads(action, limit) {
            return true;
        }
    }
    matches!(last, ReadyAction::Repeat(_))
}

/// Whether a statement is likely to make several terms of one, or some that others make too.
fn spreads(action: &ReadyAction, limit: u64) -> bool {
    match action {
        ReadyAction::Plain(leaf) => makes_several(leaf, limit),
        _ => true,
    }
}

/// Whether several terms are likely to stand in the place of a match, or beside a term.
fn makes_several(leaf: &ReadyLeaf, limit: u64) -> bool {
    match leaf {
        ReadyLeaf::Rewrite(group) => any_several(group, limit),
        ReadyLeaf::Multiply(_, right) => has_several(right, limit),
        _ => false,
    }
}

fn any_several(group: &Group, limit: u64) -> bool {
    for part in group.as_slice() {
        if has_several(part.right(), limit) {
            return true;
        }
    }
    false
}

/// Whether a right side has several terms, where wildcards stand for themselves.
fn has_several(right: &ReadySide, limit: u64) -> bool {
    match right.list_within(limit) {
        Some(list) => list.len() > 1,
        None => true,
    }
}
