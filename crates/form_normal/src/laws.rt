//! Laws of the definitions, each the contract of a function that does nothing.

ghost use Rattle.std.specs.Prelude.{◌≡◌, ◌≤◌, ◌<◌, ℕ, pos, List, [], ◌∷◌, ◌++◌, flat_map, Some, None, Ok, All, nat_abs};
ghost use Rattle.std.specs.List.{AllByRecursion};
ghost use Rattle.std.specs.List.Sorted.{IsPermutation};
ghost use Rattle.form_frac.specs.Fraction.{Fraction, IsLowest, negate, whole};
ghost use Rattle.form_term.specs.Monomial.{unit};
ghost use Rattle.form_term.specs.Named.{Places, IsSummand};
ghost use Rattle.form_term.specs.declared.monomial.Monomial.{Monomial};
ghost use Rattle.form_term.specs.declared.power.Power.{Power};
ghost use Rattle.form_term.specs.Term.{Term, Call, IsTerm, RisesBy, exponent_of, component_order, call_order, size_of_call, largest_exponent, largest_size, largest_depth};
ghost use Rattle.form_term.specs.Pieces.{deepest};
ghost use Rattle.form_term.specs.Factor.{function_factor, non_commuting_factor};
ghost use Rattle.form_term.specs.declared.index.Component.{Component};
ghost use Rattle.form_term.specs.declared.power.DotPower.{DotPower};
ghost use Rattle.form_normal.specs.Factors.{AreEachLawful};
ghost use Rattle.form_normal.specs.Lists.{in_order, dots_product, exponent_at};
ghost use Rattle.form_normal.specs.Recordable.{IsRecordable, IsFactor};
ghost use Rattle.form_normal.specs.Product.{exponent_sum, symbols_product, term_product, product, product_of, number_alone, power_alone, imaginary_alone, IsTooLarge};

/// The exponent of each symbol in a product is the sum of those in its factors, and only the product has these.
pub fn exponents_of_products()
    ensures added { (factors : List Term) (symbol : ℕ) →
        exponent_of (term_product factors) symbol ≡ exponent_sum factors symbol }
    ensures unique { (t : Term) (factors : List Term) → IsTerm t →
        ((symbol : ℕ) → exponent_of t symbol ≡ exponent_sum factors symbol) → t.symbols ≡ symbols_product factors }
{}

/// The exponent of each pair of vectors in a product of dot products is the sum of those in its factors.
pub fn exponents_of_dot_products()
    ensures { (ds : List DotPower) (p q : ℕ) → exponent_at (dots_product ds) p q ≡ exponent_at ds p q }
{}

/// The commuting functions of a product rise, and they are those of its factors; so are components.
pub fn lists_in_order()
    ensures functions_rise { (xs : List Call) → RisesBy call_order (in_order call_order xs) }
    ensures functions { (xs : List Call) → IsPermutation xs (in_order call_order xs) }
    ensures components_rise { (xs : List Component) → RisesBy component_order (in_order component_order xs) }
    ensures components { (xs : List Component) → IsPermutation xs (in_order component_order xs) }
{}

/// 1 times a factor is the product of that factor alone.
pub fn products_of_one()
    ensures { (m : Monomial) → IsLowest m.coefficient → IsTerm m.term → product_of unit m ≡ product (m ∷ []) }
{}

/// A factor times 1 is that product too, and a factor that is 0 alone makes a product 0, whatever the others are.
pub fn products_with_one_and_zero()
    ensures one { (m : Monomial) → IsLowest m.coefficient → IsTerm m.term → product_of m unit ≡ product (m ∷ []) }
    ensures zero { (front rest : List Monomial) (m : Monomial) → product (m ∷ []) ≡ Ok None → product (front ++ m ∷ rest) ≡ Ok None }
{}

/// `i_*i_` is -1.
pub fn products_of_imaginary_units()
    ensures { product_of imaginary_alone imaginary_alone ≡ Ok (Some (number_alone (negate (whole (pos 1))))) }
{}

/// The word of a product is those of its factors, one behind the other, the left one's first.
pub fn words_of_products()
    ensures { (factors : List Monomial) (m : Monomial) → product factors ≡ Ok (Some m) →
        m.term.others.word ≡ flat_map (λ f. f.term.others.word) factors }
{}

/// 1 times a factor that is a number or a symbol's power is that factor.
pub fn single_factors()
    ensures number { (f : Fraction) → IsLowest f → product_of unit (number_alone f) ≡ Ok (Some (number_alone f)) }
    ensures power { (p : Power) → nat_abs p.exponent ≤ largest_exponent →
        product_of unit (power_alone p) ≡ Ok (Some (power_alone p)) }
{}

/// What is made as a product is a term, and is its own product.
pub fn products_are_their_own()
    ensures each { (t : Term) → IsTerm t → AreEachLawful t.others }
    ensures lawful { (factors : List Monomial) (m : Monomial) → All (λ x. AreEachLawful x.term.others) factors →
        product factors ≡ Ok (Some m) → IsTerm m.term }
    ensures own { (factors : List Monomial) (m : Monomial) → All (λ x. AreEachLawful x.term.others) factors →
        product factors ≡ Ok (Some m) → product (m ∷ []) ≡ Ok (Some m) }
{}

/// What is made as a product of factors whose names stand at their places can be recorded, and terms of expressions are such
/// factors.
pub fn products_are_recordable()
    ensures factors { (names : Places) (m : Monomial) → IsSummand names m → IsFactor names m }
    ensures products { (names : Places) (factors : List Monomial) (m : Monomial) →
        AllByRecursion (IsFactor names) factors → product factors ≡ Ok (Some m) → IsRecordable names m }
{}

/// Two factors may change places where one of them has no word.
pub fn products_are_symmetric()
    ensures { (left right : Monomial) → IsTerm left.term → IsTerm right.term → right.term.others.word ≡ [] →
        product_of left right ≡ product_of right left }
{}

/// A function that is too large or too deep for a term is refused.
pub fn functions_past_limits()
    ensures large { (c : Call) → largest_size < size_of_call c → IsTooLarge (function_factor c) }
    ensures deep { (c : Call) → largest_depth ≤ deepest 0 c.pieces → IsTooLarge (function_factor c) }
    ensures large_word { (c : Call) → largest_size < size_of_call c → IsTooLarge (non_commuting_factor c) }
    ensures deep_word { (c : Call) → largest_depth ≤ deepest 0 c.pieces → IsTooLarge (non_commuting_factor c) }
{}
