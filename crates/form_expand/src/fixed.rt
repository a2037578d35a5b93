//! Right sides in which nothing is bound, as lists that are made once and lent to each term that meets them.
ghost use Rattle.std.specs.Prelude.{◌≡◌, ◌<◌, List, None, Ok, IfOk, IfSome, length};
ghost use Rattle.form_term.specs.declared.monomial.Monomial.{Monomial as Item};
ghost use Rattle.form_tree.specs.Tree.{Sum, pieces_of_sum};
ghost use Rattle.form_expand.specs.Expanding.{list_of_sum};
ghost use Rattle.form_expand.specs.Walks.{all_of};

use crate::ExpandError;
use crate::expansion::{Expansion, expand_tree};
use crate::stored::Standing;
use form_term::Monomial;
use form_tree::Piece;
use std::alloc::{AllocError, Global};

/// The list of a right side that has fewer than so many terms; none where it is refused, or has as many.
pub fn fixed_list(
    alloc: Global,
    tree: &[Piece],
    limit: u64,
    names: &Standing,
    most: usize,
) -> Result<Option<Vec<Monomial>>, AllocError>
    ensures some { (s : Sum) → tree.now ≡ pieces_of_sum s →
        IfOk result (λ made. IfSome made (λ terms. list_of_sum limit names.now s ≡ all_of terms.items)) }
    ensures none { (s : Sum) → tree.now ≡ pieces_of_sum s → result ≡ Ok None →
        (terms : List Item) → length terms < most → list_of_sum limit names.now s ≡ all_of terms → ⊥ }
{
    let mut list = expand_tree(alloc, tree, limit, names);
    short_list(alloc, &mut list, most)
}

/// What is left of a list, where it has fewer than so many terms and isn't refused.
fn short_list(
    alloc: Global,
    list: &mut Expansion,
    most: usize,
) -> Result<Option<Vec<Monomial>>, AllocError>
    ensures some { IfOk result (λ made. IfSome made (λ terms. list.old ≡ all_of terms.items)) }
    ensures none { result ≡ Ok None → (terms : List Item) → length terms < most → list.old ≡ all_of terms → ⊥ }
{
    let mut terms = Vec::new(alloc);
    for _made in 0..most {
        match list.next(alloc) {
            Ok(Some(term)) => terms.push(term)?,
            Ok(None) => return Ok(Some(terms)),
            Err(ExpandError::Refused(_)) => return Ok(None),
            Err(ExpandError::Memory) => return Err(AllocError),
        }
    }
    Ok(None)
}
