//! Laws of the definitions, each the contract of a function that does nothing.

ghost use Rattle.std.specs.Prelude.{◌≡◌, ℕ, ◌⊎◌, ◌↔◌, List, ◌∷◌, Some, None};
ghost use Rattle.form_ast.specs.declared.expr.Piece.{Piece};
ghost use Rattle.form_ast.specs.declared.expr.Sign.{Sign};
ghost use Rattle.form_ast.specs.Syntax.{Sum, Product, first};
ghost use Rattle.form_ast.specs.Lawful.{IsLawful};
ghost use Rattle.form_grammar.specs.declared.terminal.Terminal.{Terminal};
ghost use Rattle.form_grammar.specs.declared.terminal.Terminal.TheVariants as terminal;
ghost use Rattle.form_grammar.specs.Grammar.{IsExpr, IsPatternText, IsPatternTextWithin, IsRightText, written_sum};
ghost use Rattle.form_grammar.specs.Texts.{run_pattern_within};

/// Terminals are one right side, with one tree, or none; so too one pattern, and one right side of a pattern.
pub fn one_tree()
    ensures tree { (terminals : List Terminal) (tree other : Sum) → IsLawful tree → IsLawful other →
        terminals ≡ written_sum tree → terminals ≡ written_sum other → tree ≡ other }
    ensures pieces { (terminals : List Terminal) (pieces others : List Piece) →
        IsExpr terminals pieces → IsExpr terminals others → pieces ≡ others }
    ensures some_or_none { (terminals : List Terminal) →
        ((pieces : List Piece) × IsExpr terminals pieces) ⊎ ((pieces : List Piece) → IsExpr terminals pieces → ⊥) }
    ensures one_pattern { (terminals : List Terminal) (pieces others : List Piece) →
        IsPatternText terminals pieces → IsPatternText terminals others → pieces ≡ others }
    ensures pattern_or_none { (terminals : List Terminal) →
        ((pieces : List Piece) × IsPatternText terminals pieces) ⊎ ((pieces : List Piece) → IsPatternText terminals pieces → ⊥) }
    ensures one_right { (pattern : List Piece) (terminals : List Terminal) (pieces others : List Piece) →
        IsRightText pattern terminals pieces → IsRightText pattern terminals others → pieces ≡ others }
    ensures right_or_none { (pattern : List Piece) (terminals : List Terminal) →
        ((pieces : List Piece) × IsRightText pattern terminals pieces)
        ⊎ ((pieces : List Piece) → IsRightText pattern terminals pieces → ⊥) }
{
    form_ast::laws::one_tree();
}

/// A pattern that stands where so many parentheses are open is what reading goes on to.
pub fn pattern_is_read()
    ensures { (opened : ℕ) (terminals : List Terminal) (pieces : List Piece) →
        IsPatternTextWithin opened terminals pieces ↔ (run_pattern_within opened terminals ≡ Some pieces) }
{}

/// A product with a sign is written as that sign in front of the product.
pub fn first_signs()
    ensures { (sign : Sign) (p : Product) → written_sum (first (Some sign) p) ≡ terminal.Sign sign ∷ written_sum (first None p) }
{}
