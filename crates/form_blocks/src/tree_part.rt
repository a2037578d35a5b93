ghost use Rattle.std.specs.Prelude.{◌≡◌};
ghost use Rattle.form_blocks.specs.Growing.{is_also as is_also_statement, rewrite_part_of, tree_part_of};

use form_ast::{Condition, Outer, PickedList, Rewrite, Statement, WrittenLeaf};

/// How a block begins, or its last branch.
#[derive(Drop)]
pub enum Opening {
    Repeat,
    If(Condition),
    Else,
    Argument(PickedList),
}

/// What a statement is for the tree of its module.
#[derive(Drop)]
pub enum TreePart {
    /// It stands in no block.
    Outer(Outer),
    Id(Rewrite),
    /// It belongs to the `id` before it.
    Also(Rewrite),
    /// It is carried out on terms, and is no `id`, `also` or block.
    Leaf(WrittenLeaf),
    /// It begins a block.
    Opens(Opening),
    /// It begins a further branch of a block.
    Branches(Opening),
    /// It ends a block.
    Ends,
}

pub fn is_also(statement: &Statement) -> bool
    ensures { result ≡ is_also_statement statement.now }
{
    match statement {
        Statement::Rewrite(rewrite) => rewrite.is_also,
        _ => false,
    }
}

pub fn tree_part(statement: Statement) -> TreePart
    ensures { result ≡ tree_part_of statement }
{
    match statement {
        Statement::Names(declared, names) => TreePart::Outer(Outer::Names(declared, names)),
        Statement::Indices(indices) => TreePart::Outer(Outer::Indices(indices)),
        Statement::Dimension(dimension) => TreePart::Outer(Outer::Dimension(dimension)),
        Statement::Set(name, elements) => TreePart::Outer(Outer::Set(name, elements)),
        Statement::Statistics => TreePart::Outer(Outer::Statistics),
        Statement::Drop(names) => TreePart::Outer(Outer::Drop(names)),
        Statement::Skip(names) => TreePart::Outer(Outer::Skip(names)),
        Statement::Local(name, right) => TreePart::Outer(Outer::Local(name, right)),
        Statement::Print(names) => TreePart::Outer(Outer::Print(names)),
        Statement::Rewrite(rewrite) => rewrite_part(rewrite),
        Statement::Multiply(side, right) => TreePart::Leaf(WrittenLeaf::Multiply(side, right)),
        Statement::Sum(indices) => TreePart::Leaf(WrittenLeaf::Sum(indices)),
        Statement::SumOver(index, numbers) => TreePart::Leaf(WrittenLeaf::SumOver(index, numbers)),
        Statement::Discard => TreePart::Leaf(WrittenLeaf::Discard),
        Statement::Repeat => TreePart::Opens(Opening::Repeat),
        Statement::If(condition) => TreePart::Opens(Opening::If(condition)),
        Statement::Argument(functions) => TreePart::Opens(Opening::Argument(functions)),
        Statement::ElseIf(condition) => TreePart::Branches(Opening::If(condition)),
        Statement::Else => TreePart::Branches(Opening::Else),
        Statement::EndRepeat => TreePart::Ends,
        Statement::EndIf => TreePart::Ends,
        Statement::EndArgument => TreePart::Ends,
    }
}

fn rewrite_part(rewrite: Rewrite) -> TreePart
    ensures { result ≡ rewrite_part_of rewrite }
{
    if rewrite.is_also {
        TreePart::Also(rewrite)
    } else {
        TreePart::Id(rewrite)
    }
}
