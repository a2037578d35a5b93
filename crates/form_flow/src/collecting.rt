//! What is made anew: arguments by their pieces, the collected terms of one, and terms.
ghost use Rattle.std.specs.Prelude.{◌≡◌, ◌≤◌, ◌++◌, [], ◌∷◌, All, List, OnOk, nat_abs, option_map};
ghost use Rattle.std.specs.List.Sorted.{IsStrictlySortedBy};
ghost use Rattle.std.specs.Option.{option_to_list};
ghost use Rattle.form_collect.specs.Collector.{IsCollectionOf};
ghost use Rattle.form_expand.specs.Next.{IsMade};
ghost use Rattle.form_expand.specs.Walks.{all_of};
ghost use Rattle.form_flow.specs.Made.{Collects};
ghost use Rattle.form_match.specs.Parts.{begins_sum as begins_sum_of, index_alone as index_alone_of};
ghost use Rattle.form_match.specs.Parts.{IsFirstOf};
ghost use Rattle.form_term.specs.declared.monomial.Monomial.{Monomial as Item};
ghost use Rattle.form_normal.specs.Factors.{AreEachLawful, IsProductive};
ghost use Rattle.form_normal.specs.Product.{product};
ghost use Rattle.form_term.specs.Term.{AreArguments, largest_exponent, pair_order};
ghost use Rattle.form_term.specs.Terms.{term};

use form_base::Cause;
use form_collect::{CollectError, Collector, laws};
use form_expand::ExpandError;
use form_frac::Frac;
use form_normal::made_anew;
use form_term::{Index, Monomial, Others, Piece, Power, part_len};
use std::alloc::{AllocError, Global};

/// The pieces of the first of these arguments, and those behind it; none where there are no arguments.
pub fn first_argument(pieces: &[Piece]) -> Option<(&[Piece], &[Piece])>
    requires { AreArguments pieces.now }
    ensures { IsFirstOf pieces.now (option_map (λ parts. (parts.0.now, parts.1.now)) result) }
{
    if pieces.is_empty() {
        return None;
    }
    Some(pieces.split_at(part_len(pieces)))
}

/// Whether an argument is an expression.
pub fn begins_sum(part: &[Piece]) -> bool
    ensures { result ≡ begins_sum_of part.now }
{
    match part {
        [Piece::Sum, ..] => true,
        _ => false,
    }
}

/// The index that an argument is.
pub fn index_alone(part: &[Piece]) -> Option<Index>
    ensures { result ≡ index_alone_of part.now }
{
    match part {
        [Piece::Index(index), ..] => Some(*index),
        _ => None,
    }
}

/// Adds a term, where there is one.
pub fn add_made(collector: &mut Collector, made: Option<Monomial>) -> Result<(), AllocError>
    ensures { OnOk result ((list : List Item) → IsCollectionOf collector.old list →
        IsCollectionOf collector.new (list ++ option_to_list made)) }
{
    match made {
        Some(item) => collector.add(item),
        None => Ok(()),
    }
}

/// The terms that were collected.
pub fn terms_of(collector: Collector) -> Result<Vec<Monomial>, ExpandError>
    ensures { (list : List Item) → IsCollectionOf collector list → Collects result (all_of list) }
{
    laws::collected_lists();
    match collector.into_terms() {
        Ok(terms) => Ok(terms.into_vec()),
        Err(CollectError::Overflow) => Err(ExpandError::Refused(Cause::Overflow)),
        Err(CollectError::Memory) => Err(ExpandError::Memory),
    }
}

/// The product of one term, by its coefficient and its factors; none where it is 0.
pub fn made_from(
    alloc: Global,
    coefficient: Frac,
    powers: Vec<Power>,
    others: Others,
) -> Result<Option<Monomial>, ExpandError>
    requires powers { IsProductive powers.items }
    requires each { AreEachLawful others }
    requires dots { IsStrictlySortedBy pair_order others.dots }
    requires range { All (λ d. nat_abs d.exponent ≤ largest_exponent) others.dots }
    ensures { IsMade result (product (record { coefficient = coefficient; term = term powers.items others } ∷ [])) }
{
    Ok(made_anew(alloc, coefficient, powers, others)?)
}
