//! Laws of the definitions, each the contract of a function that does nothing.

ghost use Rattle.std.specs.Prelude.{◌≡◌, ℕ, ℤ, pos, neg_ℤ, ◌∷◌, Bool, true, List, Option, Some};
ghost use Rattle.std.specs.List.{list_all};
ghost use Rattle.form_calc.specs.Calculation.{is_digit, value_of};
ghost use Rattle.form_calc.specs.Condition.{truth_of};
ghost use Rattle.form_calc.specs.Expression.{Sum, IsCalculation, decimal, value_of_sum};
ghost use Rattle.form_calc.specs.Number.{in_range, number_of};
ghost use Rattle.form_calc.specs.Proposition.{Alternatives, IsCondition, truth_of_alternatives};

/// Calculations are the texts that write a tree, and their value is that of the tree. So a text has at most one value,
/// and none exactly where it writes no tree.
pub fn calculations()
    ensures value { (text : List ℕ) (sum : Sum) → IsCalculation text sum → value_of text ≡ Some (value_of_sum sum) }
    ensures written { (text : List ℕ) (value : Option ℤ) → value_of text ≡ Some value → (sum : Sum) × IsCalculation text sum × (value ≡ value_of_sum sum) }
{}

/// Conditions are the texts that write a tree, and they hold where the tree does. So a text is true, false or out of
/// range, and none of these exactly where it writes no tree.
pub fn conditions()
    ensures truth { (text : List ℕ) (tree : Alternatives) → IsCondition text tree → truth_of text ≡ Some (truth_of_alternatives tree) }
    ensures written { (text : List ℕ) (truth : Option Bool) → truth_of text ≡ Some truth → (tree : Alternatives) × IsCondition text tree × (truth ≡ truth_of_alternatives tree) }
{}

/// The number of an operand is the decimal number of its digits, behind a sign or alone, where that is in range.
pub fn numbers()
    ensures alone { (digits : List ℕ) → list_all is_digit digits ≡ true → number_of digits ≡ in_range (pos (decimal digits)) }
    ensures above { (digits : List ℕ) → list_all is_digit digits ≡ true → number_of (43 ∷ digits) ≡ in_range (pos (decimal digits)) }
    ensures below { (digits : List ℕ) → list_all is_digit digits ≡ true → number_of (45 ∷ digits) ≡ in_range (neg_ℤ (pos (decimal digits))) }
{}
