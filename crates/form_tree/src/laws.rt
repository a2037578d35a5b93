//! Laws of the definitions, each the contract of a function that does nothing.

ghost use Rattle.std.specs.Prelude.{◌≡◌};
ghost use Rattle.form_tree.specs.Building.{argument_of, sum_of};
ghost use Rattle.form_tree.specs.Pattern.{Factors, pieces_of_factors};
ghost use Rattle.form_tree.specs.PatternBuilding.{factors_of};
ghost use Rattle.form_tree.specs.Tree.{Argument, Sum, pieces_of_argument, pieces_of_sum};

/// Pieces are those of one tree at most.
pub fn one_tree()
    ensures { (tree other : Sum) → pieces_of_sum tree ≡ pieces_of_sum other → tree ≡ other }
{}

/// Pieces are those of one pattern at most.
pub fn one_pattern()
    ensures { (pattern other : Factors) → pieces_of_factors pattern ≡ pieces_of_factors other → pattern ≡ other }
{}

/// What is built of the pieces of a tree is that tree.
pub fn trees_are_built()
    ensures sums { (sum : Sum) → sum_of (pieces_of_sum sum) ≡ sum }
    ensures arguments { (argument : Argument) → argument_of (pieces_of_argument argument) ≡ argument }
    ensures patterns { (pattern : Factors) → factors_of (pieces_of_factors pattern) ≡ pattern }
{}
