ghost use Rattle.std.specs.Prelude.{◌≡◌, ◌++◌, IfOk};

use form_gathered::JoinedTerm;
use std::alloc::AllocError;

/// What stands between two statements: the terms on whose way nothing acted, and those on whose way something did.
#[derive(Drop)]
pub struct Level {
    pub idle: Vec<JoinedTerm>,
    pub acted: Vec<JoinedTerm>,
}

/// One list behind another.
pub fn behind(
    first: Vec<JoinedTerm>,
    second: Vec<JoinedTerm>,
) -> Result<Vec<JoinedTerm>, AllocError>
    ensures { IfOk result (λ all. all.items ≡ first.items ++ second.items) }
{
    if first.is_empty() {
        return Ok(second);
    }
    let mut all = first;
    let mut rest = second;
    all.append(&mut rest)?;
    Ok(all)
}
