//! Expressions that surely come out of a module as they stand, where it has no statements.
ghost use Rattle.std.specs.Prelude.{◌≡◌, None};
ghost use Rattle.std.specs.Bool.{OnTrue};
ghost use Rattle.form_module.specs.Settled.{AreAtRest, AreSettled, Ascend, IsAlike};

use crate::result::pass_all;
use form_base::Id;
use form_collect::is_collected;
use form_expand::{Standing, Stored};
use form_flow::CompiledModule;
use form_term::Monomial;

/// Whether the statements surely leave each term as it is, and each expression stands once, in order.
pub fn are_at_rest(statements: &CompiledModule, limit: u64, standing: &[Stored]) -> bool
    requires { statements.now.limits.terms ≡ limit }
    ensures { OnTrue result (AreAtRest statements.now standing.now) }
{
    if pass_all(statements, limit) {
        return ascend(standing);
    }
    false
}

/// Whether each Id is above the one before it.
fn ascend(standing: &[Stored]) -> bool
    ensures { OnTrue result (Ascend standing.now) }
{
    standing.is_sorted_by(|one, next| one.expression < next.expression)
}

/// Whether what is carried out surely comes out as it stands: an expression on its own terms, where all is at rest.
pub fn comes_out_alike(
    is_at_rest: bool,
    most: u64,
    standing: &Standing,
    expression: Id,
    place: Option<usize>,
) -> bool
    ensures { OnTrue result (IsAlike is_at_rest most standing.now expression place) }
{
    if is_at_rest {
        return are_own(most, standing.terms_of(expression), place);
    }
    false
}

/// Whether these terms are what is carried out, and surely are the result.
fn are_own(most: u64, terms: &[Monomial], place: Option<usize>) -> bool
    ensures { OnTrue result ((place ≡ None) × AreSettled most terms.now) }
{
    match place {
        Some(_) => false,
        None => are_settled(most, terms),
    }
}

/// Whether terms surely are the result of themselves: they are collected, and not too many.
fn are_settled(most: u64, terms: &[Monomial]) -> bool
    ensures { OnTrue result (AreSettled most terms.now) }
{
    if terms.len() as u64 > most {
        return false;
    }
    is_collected(terms)
}
