//! Laws of the definitions, each the contract of a function that does nothing.

ghost use Rattle.std.specs.Prelude.{◌≡◌, ℕ, List};
ghost use Rattle.form_outside.specs.Texts.{Texts};
ghost use Rattle.form_engine.specs.Outcome.{Outcome, IsOutcome};

/// Words and texts have exactly one outcome.
pub fn one_outcome()
    ensures some { (words : List (List ℕ)) (texts : Texts) →
        (outcome : Outcome) × IsOutcome words texts outcome }
    ensures unique { (words : List (List ℕ)) (texts : Texts) (outcome other : Outcome) →
        IsOutcome words texts outcome → IsOutcome words texts other → outcome ≡ other }
{
    form_preproc::laws::one_expansion();
    form_stmts::laws::one_reading();
}
