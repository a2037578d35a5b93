//! Laws of the definitions, each the contract of a function that does nothing.

ghost use Rattle.std.specs.Prelude.{◌≡◌, ℕ, suc, List, Some, None, Ok};
ghost use Rattle.std.specs.List.{AllByRecursion};
ghost use Rattle.form_term.specs.declared.monomial.Monomial.{Monomial};
ghost use Rattle.form_normal.specs.Product.{product_of};
ghost use Rattle.form_reach.specs.Reach.{IsInLimits, IsMadeWithin, IsWithin, StaysWithin, both};
ghost use Rattle.form_reach.specs.declared.reach.Reach.{Reach};
ghost use Rattle.form_reach.specs.Rows.{AreFine, AreFineOften, IsLawful, IsPlainTerm, IsRight, crossed, crossed_often};

/// Three factors may be multiplied from the left or from the right.
pub fn products_in_a_row()
    ensures associative { (a b c x y : Monomial) → IsLawful a → IsRight b → IsRight c → product_of a b ≡ Ok (Some x) → product_of b c ≡ Ok (Some y) →
        product_of x c ≡ product_of a y }
    ensures zero { (a b c y : Monomial) → IsLawful a → IsRight b → IsRight c → product_of a b ≡ Ok None → product_of b c ≡ Ok (Some y) →
        product_of a y ≡ Ok None }
{}

/// What is within some reach has products within the reach of both, and none is refused, where that is within the limits.
pub fn products_within()
    ensures { (r s : Reach) (l m : Monomial) → IsWithin r l → IsWithin s m → IsPlainTerm m.term → IsInLimits (both r s) → IsMadeWithin (both r s) (product_of l m) }
{}

/// A list so many times behind factors is its power behind them, and nothing of it is refused, where all stays within the limits.
pub fn powers_behind_factors()
    ensures { (n : ℕ) (r s : Reach) (ms l : List Monomial) → AllByRecursion (IsWithin r) ms → AllByRecursion (IsWithin s) l → AllByRecursion IsRight l →
        StaysWithin (suc n) r s → AreFineOften n l l →
        AreFineOften (suc n) ms l × AreFine ms (crossed_often n l l) × (crossed ms (crossed_often n l l) ≡ crossed_often (suc n) ms l) }
{}
