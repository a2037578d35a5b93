//! Laws of the definitions, each the contract of a function that does nothing.

ghost use Rattle.std.specs.Prelude.{◌≡◌, ℕ, List};
ghost use Rattle.form_base.specs.declared.spot.Spot.{Spot};
ghost use Rattle.form_lexer.specs.declared.token.Token.{Token};
ghost use Rattle.form_lexer.specs.Tokens.{AreTokens};

/// A line has exactly one list of tokens.
pub fn one_list_of_tokens()
    ensures some { (spot : Spot) (line : List ℕ) → (tokens : List Token) × AreTokens spot line tokens }
    ensures unique { (spot : Spot) (line : List ℕ) (tokens others : List Token) →
        AreTokens spot line tokens → AreTokens spot line others → tokens ≡ others }
{}
