ghost use Rattle.std.specs.Prelude.{◌≡◌, length, IfOk, IfSome};
ghost use Rattle.form_gathered.specs.Joined.{Stand, AreApart, IsJoined, alone, counted};

use crate::{Joined, JoinedTerm};
use form_term::Monomial;
use std::alloc::{AllocError, Global};

/// The same joined terms, equal ones brought together; none where they don't join.
pub fn together(
    alloc: Global,
    terms: Vec<JoinedTerm>,
) -> Result<Option<Vec<JoinedTerm>>, AllocError>
    ensures stand { IfOk result (λ made. IfSome made (λ all. Stand terms.items all.items)) }
    ensures apart { IfOk result (λ made. IfSome made (λ all. AreApart all.items)) }
{
    let mut table = Joined::new(alloc);
    for term in terms {
        if !table.add(term)? {
            return Ok(None);
        }
    }
    Ok(Some(table.into_vec()?))
}

/// Inputs joined, of which each is a list by itself; none where equal ones don't join.
pub fn joined_inputs(
    alloc: Global,
    inputs: &[Monomial],
) -> Result<Option<Vec<JoinedTerm>>, AllocError>
    ensures stand { IfOk result (λ made. IfSome made (λ all. IsJoined (length inputs.now) all.items (alone inputs.now))) }
    ensures apart { IfOk result (λ made. IfSome made (λ all. AreApart all.items)) }
{
    let mut table = Joined::new(alloc);
    for input in inputs {
        input.laws();
        if !table.add_further(JoinedTerm::single(input.clone()?))? {
            return Ok(None);
        }
    }
    Ok(Some(table.into_vec()?))
}

/// How many they count; none past a u64.
pub fn counted(terms: &[JoinedTerm]) -> Option<u64>
    ensures { IfSome result (λ n. n ≡ counted terms.now) }
{
    let mut sum: u64 = 0;
    for term in terms {
        sum = sum.checked_add(term.count)?;
    }
    Some(sum)
}
