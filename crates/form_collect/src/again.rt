//! Lists that collecting leaves as they are.
ghost use Rattle.std.specs.Prelude.{◌≡◌, not, Some};
ghost use Rattle.std.specs.Bool.{OnTrue};
ghost use Rattle.std.specs.List.{list_all};
ghost use Rattle.std.specs.List.Sorted.{IsStrictlySortedBy};
ghost use Rattle.std.specs.Ordering.{is_lt};
ghost use Rattle.form_frac.specs.Fraction.{is_zero};
ghost use Rattle.form_collect.specs.Collecting.{collected};
ghost use Rattle.form_collect.specs.Keys.{term_order};

use form_term::{Monomial, compare};

/// Whether a list surely is what it collects to: its terms rise, and no coefficient is 0.
pub fn is_collected(list: &[Monomial]) -> bool
    ensures { OnTrue result (collected list.now ≡ Some list.now) }
{
    if rise(list) {
        return are_present(list);
    }
    false
}

/// Whether each term stands before the next one.
fn rise(list: &[Monomial]) -> bool
    ensures { OnTrue result (IsStrictlySortedBy term_order list.now) }
{
    list.is_sorted_by(|one, next| is_before(one, next))
}

fn is_before(one: &Monomial, next: &Monomial) -> bool
    ensures { result ≡ is_lt (term_order one.now next.now) }
{
    compare(&one.term, &next.term).is_lt()
}

/// Whether no coefficient is 0.
fn are_present(list: &[Monomial]) -> bool
    ensures { result ≡ list_all (λ m. not (is_zero m.coefficient)) list.now }
{
    for item in list {
        if item.coefficient.is_zero() {
            return false;
        }
    }
    true
}
