ghost use Rattle.std.specs.Prelude.{◌≡◌};
ghost use Rattle.form_blocks.specs.Blocks.{role_of as role_of_statement};

use crate::BlockKind;
use form_ast::Statement;

/// What a statement is for blocks.
#[derive(Clone, Copy)]
pub enum Role {
    /// It begins a block.
    Opens(BlockKind),
    /// It ends a block.
    Ends(BlockKind),
    /// It begins a further branch of an `if`: its last one, or one with a condition.
    Branches { is_else: bool },
    /// It is carried out on terms.
    Acts { is_also: bool },
    /// It stands in no block.
    Other,
}

pub fn role_of(statement: &Statement) -> Role
    ensures { result ≡ role_of_statement statement.now }
{
    match statement {
        Statement::Repeat => Role::Opens(BlockKind::Repeat),
        Statement::If(_) => Role::Opens(BlockKind::If),
        Statement::Argument(_) => Role::Opens(BlockKind::Argument),
        Statement::EndRepeat => Role::Ends(BlockKind::Repeat),
        Statement::EndIf => Role::Ends(BlockKind::If),
        Statement::EndArgument => Role::Ends(BlockKind::Argument),
        Statement::ElseIf(_) => Role::Branches { is_else: false },
        Statement::Else => Role::Branches { is_else: true },
        Statement::Rewrite(rewrite) => Role::Acts {
            is_also: rewrite.is_also,
        },
        Statement::Multiply(_, _)
        | Statement::Sum(_)
        | Statement::SumOver(_, _)
        | Statement::Discard => Role::Acts { is_also: false },
        _ => Role::Other,
    }
}
