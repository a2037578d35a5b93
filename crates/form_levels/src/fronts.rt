ghost use Rattle.std.specs.Prelude.{◌≡◌, ◌≤◌, ℕ, List, [], ◌∷◌, ◌++◌, replicate, IfOk, IfSome};
ghost use Rattle.form_term.specs.Term.{Term as TermValue};
ghost use Rattle.form_expand.specs.Listing.{Listing};
ghost use Rattle.form_gathered.specs.Joined.{Stand};
ghost use Rattle.form_gathered.specs.declared.joined.JoinedTerm.{JoinedTerm as Joined};
ghost use Rattle.form_expand.specs.Walks.{all_of};
ghost use Rattle.form_levels.specs.Rows.{AreFronts, with_term};

use form_frac::laws::weights;
use form_gathered::{JoinedTerm, together};
use form_joined::{joined_singles, times_list};
use form_term::Monomial;
use std::alloc::{AllocError, Global};

/// From so many on, fronts are brought together before another list is put behind them.
const MANY: usize = 64;

/// The same where a list that stands several times made them, so that they are likely to meet.
const MANY_ALIKE: usize = 8;

/// So many products of fronts and a list are in memory at once.
const MOST_AT_ONCE: usize = 2_000_000;

/// The most times that a list of one term is put behind fronts: where it stands more often, there are quicker ways.
const MOST_TIMES: usize = 64;

/// What is left of a joined term, with the lists that were put behind it so far.
#[derive(Drop)]
pub struct Fronts {
    alloc: Global,
    /// The most terms of a list.
    limit: u64,
    /// How many products there are at most for each term that the joined one stands for.
    most: u64,
    terms: Vec<JoinedTerm>,
}

impl Fronts {
    /// What is left of a joined term, with no list behind it.
    pub fn new(alloc: Global, limit: u64, front: JoinedTerm) -> Result<Fronts, AllocError>
        requires { 1 ≤ limit }
        ensures fronts { (j : Joined) → with_term front.term j ≡ front → IfOk result (λ made. AreFronts front.term [] j made) }
        ensures limit { IfOk result (λ made. made.limit ≡ limit) }
    {
        let mut terms = Vec::with_capacity(alloc, 1)?;
        terms.push(front)?;
        Ok(Fronts {
            alloc,
            limit,
            most: 1,
            terms,
        })
    }

    /// With a list behind them; none where something may be refused.
    pub fn times(self, list: &[Monomial]) -> Result<Option<Fronts>, AllocError>
        ensures fronts { (t : TermValue) (lists : List Listing) (j : Joined) → AreFronts t lists j self →
            IfOk result (λ made. IfSome made (AreFronts t (lists ++ all_of list.now ∷ []) j)) }
        ensures limit { IfOk result (λ made. IfSome made (λ fronts. fronts.limit ≡ self.limit)) }
    {
        self.times_from(list, MANY)
    }

    /// The same, where from so many on they are brought together before.
    fn times_from(self, list: &[Monomial], many: usize) -> Result<Option<Fronts>, AllocError>
        ensures fronts { (t : TermValue) (lists : List Listing) (j : Joined) → AreFronts t lists j self →
            IfOk result (λ made. IfSome made (AreFronts t (lists ++ all_of list.now ∷ []) j)) }
        ensures limit { IfOk result (λ made. IfSome made (λ fronts. fronts.limit ≡ self.limit)) }
    {
        weights();
        joined_singles(list);
        let Some(most) = self.most.checked_mul(list.len() as u64) else {
            return Ok(None);
        };
        if most > self.limit {
            return Ok(None);
        }
        let Some(fronts) = gathered(self.alloc, self.terms, many)? else {
            return Ok(None);
        };
        if fronts.len().saturating_mul(list.len()) > MOST_AT_ONCE {
            return Ok(None);
        }
        let Some(terms) = times_list(self.alloc, fronts, list)? else {
            return Ok(None);
        };
        Ok(Some(Fronts {
            alloc: self.alloc,
            limit: self.limit,
            most,
            terms,
        }))
    }

    /// With a list so many times behind them; none where something may be refused.
    pub fn times_often(self, list: &[Monomial], times: usize) -> Result<Option<Fronts>, AllocError>
        ensures fronts { (t : TermValue) (lists : List Listing) (j : Joined) → AreFronts t lists j self →
            IfOk result (λ made. IfSome made (AreFronts t (lists ++ replicate times (all_of list.now)) j)) }
        ensures limit { IfOk result (λ made. IfSome made (λ fronts. fronts.limit ≡ self.limit)) }
    {
        if list.len() < 2 && times > MOST_TIMES {
            return Ok(None);
        }
        let many = many_of(times);
        let mut fronts = self;
        for _made in 0..times {
            let Some(more) = fronts.times_from(list, many)? else {
                return Ok(None);
            };
            fronts = more;
        }
        Ok(Some(fronts))
    }

    pub fn into_vec(self) -> Vec<JoinedTerm>
        ensures { result.items ≡ self.terms.items }
    {
        self.terms
    }
}

/// From how many on fronts are brought together before a list that stands so many times.
fn many_of(times: usize) -> usize {
    if times > 1 { MANY_ALIKE } else { MANY }
}

/// Terms brought together where they are so many.
fn gathered(
    alloc: Global,
    terms: Vec<JoinedTerm>,
    many: usize,
) -> Result<Option<Vec<JoinedTerm>>, AllocError>
    ensures { IfOk result (λ made. IfSome made (λ all. Stand terms.items all.items)) }
{
    if terms.len() < many {
        return Ok(Some(terms));
    }
    together(alloc, terms)
}
