ghost use Rattle.std.specs.Prelude.{◌≡◌, IfOk, IfSome};
ghost use Rattle.form_tree.specs.Pattern.{Factors, pieces_of_factors};
ghost use Rattle.form_match.specs.Fits.{Fits};
ghost use Rattle.form_match.specs.Matching.{first_match as first_match_of, first_of as first_of_all};
ghost use Rattle.form_term.specs.Term.{IsTerm};
ghost use Rattle.form_match.specs.Factors.{IsFirstCandidate};

use crate::choices::next_candidate;
use crate::host::Host;
use crate::search::Search;
use crate::{Pattern, Uses};
use form_bindings::Bindings;
use form_term::Term;
use form_tree::PatternPiece;
use std::alloc::{AllocError, Global};

/// A match: what each factor of the pattern takes, in their order, and what its wildcards stand for.
#[derive(Drop)]
pub struct Match {
    pub takes: Uses,
    pub bindings: Bindings,
}

/// The first match of a pattern in a term.
pub fn first_match(
    alloc: Global,
    pattern: &Pattern,
    term: &Term,
) -> Result<Option<Match>, AllocError>
    ensures first { (fs : Factors) → pattern.now.pieces ≡ pieces_of_factors fs →
        IfOk result (λ m. m ≡ first_match_of pattern.now.fixed fs term.now) }
    ensures fits { IfOk result (λ m. IfSome m (λ found. Fits found.takes term.now)) }
{
    first_of(alloc, pattern, term, &[], false)
}

/// The first match that crosses none of these places in the term's word and, where it is to be exact, takes each of its
/// symbols and dot products with the whole power that it has in the term.
pub fn first_of(
    alloc: Global,
    pattern: &Pattern,
    term: &Term,
    cuts: &[u32],
    is_exact: bool,
) -> Result<Option<Match>, AllocError>
    ensures first { (fs : Factors) → pattern.now.pieces ≡ pieces_of_factors fs →
        IfOk result (λ m. m ≡ first_of_all pattern.now.fixed fs term.now cuts.now is_exact) }
    ensures fits { IfOk result (λ m. IfSome m (λ found. Fits found.takes term.now)) }
{
    term_laws(term);
    let Some(first) = first_candidate(&Host::outer(term, cuts, is_exact), pattern.pieces()) else {
        return Ok(None);
    };
    let mut search = Search::new(alloc, term, cuts, is_exact);
    if !search.run(alloc, pattern.pieces(), pattern.fixed(), first)? {
        return Ok(None);
    }
    let found = search.into_match(alloc)?;
    Ok(Some(found))
}

/// A term is lawful.
fn term_laws(term: &Term)
    ensures { IsTerm term.now }
{
    let _ = term.powers();
}

/// The first candidate of the first piece of a pattern: where there is none, no search is begun.
fn first_candidate(host: &Host, pieces: &[PatternPiece]) -> Option<usize>
    ensures { IsFirstCandidate result host.now pieces.now }
{
    match pieces.split_first() {
        Some((piece, behind)) => next_candidate(host, piece, behind, 0),
        None => Some(0),
    }
}
