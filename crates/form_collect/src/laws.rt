//! Laws of the definitions, each the contract of a function that does nothing.

ghost use Rattle.std.specs.Prelude.{◌≡◌, false, List, All, Some};
ghost use Rattle.std.specs.List.{AllByRecursion, list_any};
ghost use Rattle.std.specs.List.Sorted.{IsStrictlySortedBy};
ghost use Rattle.std.specs.Ordering.{eq_by_cmp, on};
ghost use Rattle.form_frac.specs.Fraction.{is_zero};
ghost use Rattle.form_term.specs.Monomial.{summands_of};
ghost use Rattle.form_term.specs.Named.{Places, IsSoundArgument, IsSummand};
ghost use Rattle.form_term.specs.Term.{Term, expression, order};
ghost use Rattle.form_term.specs.declared.monomial.Monomial.{Monomial};
ghost use Rattle.form_collect.specs.Collecting.{terms_of, collected};

/// The terms of a list rise, and they are those at which a summand stands.
pub fn terms_of_lists()
    ensures rising { (list : List Monomial) → IsStrictlySortedBy order (terms_of list) }
    ensures occurring { (t : Term) (list : List Monomial) →
        list_any (eq_by_cmp order t) (terms_of list) ≡ list_any (λ m. eq_by_cmp order t m.term) list }
{}

/// A collected list rises by its terms, and no coefficient is 0; and such a list is what it collects to.
pub fn collected_lists()
    ensures rising { (list terms : List Monomial) → collected list ≡ Some terms →
        IsStrictlySortedBy (on (λ m. m.term) order) terms }
    ensures present { (list terms : List Monomial) → collected list ≡ Some terms →
        All (λ m. is_zero m.coefficient ≡ false) terms }
    ensures again { (terms : List Monomial) → IsStrictlySortedBy (on (λ m. m.term) order) terms →
        All (λ m. is_zero m.coefficient ≡ false) terms → collected terms ≡ Some terms }
{}

/// What is collected of terms of expressions are such terms, and an argument.
pub fn collected_lists_are_expressions()
    ensures summands { (names : Places) (list terms : List Monomial) → AllByRecursion (IsSummand names) list →
        collected list ≡ Some terms → AllByRecursion (IsSummand names) terms }
    ensures argument { (names : Places) (list terms : List Monomial) → AllByRecursion (IsSummand names) list →
        collected list ≡ Some terms → IsSoundArgument names (expression (summands_of terms)) }
{}
