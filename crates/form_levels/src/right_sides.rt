//! The lists of right sides, as a whole.
ghost use Rattle.std.specs.Prelude.{◌≡◌, IfOk, map};
ghost use Rattle.form_expand.specs.Expanding.{list_of_sum};
ghost use Rattle.form_expand.specs.Meanings.{bound_to, no_meanings};
ghost use Rattle.form_flow.specs.Rests.{names_in};
ghost use Rattle.form_levels.specs.RightSides.{IsWhole};

use form_bindings::Bindings;
use form_expand::{Standing, Whole, fixed_list, whole_list};
use form_flow::ReadySide;
use std::alloc::{AllocError, Global};

/// A list that isn't there once and for all has at most so many terms.
const MOST: usize = 65_536;

/// The list of a right side by what names stand for, where they stand for something; none where it is refused, or long.
pub fn list_by<'l>(
    alloc: Global,
    limit: u64,
    right: &'l ReadySide<'_>,
    names: &Option<Standing>,
) -> Result<Option<Whole<'l>>, AllocError>
    ensures { IsWhole (list_of_sum limit (names_in names.now) right.now) result }
{
    match names {
        Some(names) => bound_list(alloc, limit, right, names),
        None => unbound_list(alloc, limit, right),
    }
}

/// The list of a right side in which nothing is bound.
pub fn unbound_list<'l>(
    alloc: Global,
    limit: u64,
    right: &'l ReadySide<'_>,
) -> Result<Option<Whole<'l>>, AllocError>
    ensures { IsWhole (list_of_sum limit no_meanings right.now) result }
{
    match right.list_within(limit) {
        Some(list) => Ok(Some(Whole::lent(list))),
        None => made_list(alloc, limit, right),
    }
}

/// The list of a right side by what names stand for in a match.
fn bound_list(
    alloc: Global,
    limit: u64,
    right: &ReadySide,
    names: &Standing,
) -> Result<Option<Whole<'static>>, AllocError>
    ensures { IsWhole (list_of_sum limit names.now right.now) result }
{
    let list = whole_list(alloc, right.pieces(), limit, names)?;
    if list.end.is_some() || list.len() > MOST {
        return Ok(None);
    }
    Ok(Some(list))
}

/// The list of a right side in which nothing is bound, made for this use of it.
fn made_list(
    alloc: Global,
    limit: u64,
    right: &ReadySide,
) -> Result<Option<Whole<'static>>, AllocError>
    ensures { IsWhole (list_of_sum limit no_meanings right.now) result }
{
    let pieces = right.pieces();
    let Some(terms) = fixed_list(alloc, pieces, limit, right.nothing(), MOST)? else {
        return Ok(None);
    };
    Ok(Some(Whole::made(terms)))
}

/// What names stand for by the bindings of a match, where there are some.
pub fn bound(alloc: Global, bindings: Bindings) -> Option<Standing>
    ensures { names_in result ≡ bound_to bindings }
{
    if bindings.is_empty() {
        return None;
    }
    Some(Standing::bound(alloc, bindings))
}

/// What names stand for by the bindings of each match.
pub fn all_bound(alloc: Global, matches: Vec<Bindings>) -> Result<Vec<Option<Standing>>, AllocError>
    ensures { IfOk result (λ names. map names_in names.items ≡ map bound_to matches.items) }
{
    let mut names = Vec::new(alloc);
    for bindings in matches {
        names.push(bound(alloc, bindings))?;
    }
    Ok(names)
}
