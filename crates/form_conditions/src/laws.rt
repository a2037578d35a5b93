//! Laws of the definitions, each the contract of a function that does nothing.
ghost use Rattle.std.specs.Prelude.{◌≡◌, ◌⊎◌, ◌++◌, List};
ghost use Rattle.form_ast.specs.Conditions.{Condition};
ghost use Rattle.form_ast.specs.Lawful.{IsLawfulCondition};
ghost use Rattle.form_conditions.specs.Grammar.{BeginsWith, IsConditionText};
ghost use Rattle.form_grammar.specs.declared.terminal.Terminal.{Terminal};

/// A condition is closed by its own parenthesis: one front of the terminals is a condition at most, and one condition. So
/// too one that is all of them.
pub fn one_front()
    ensures front { (front other rest others : List Terminal) (c d : Condition) →
        IsConditionText front c → IsConditionText other d → front ++ rest ≡ other ++ others →
        (front ≡ other) × (rest ≡ others) × (c ≡ d) }
    ensures front_or_none { (terminals : List Terminal) →
        ((c : Condition) × BeginsWith terminals c) ⊎ ((c : Condition) → BeginsWith terminals c → ⊥) }
    ensures one { (terminals : List Terminal) (c d : Condition) →
        IsConditionText terminals c → IsConditionText terminals d → c ≡ d }
    ensures some_or_none { (terminals : List Terminal) →
        ((c : Condition) × IsConditionText terminals c) ⊎ ((c : Condition) → IsConditionText terminals c → ⊥) }
{
    form_grammar::laws::pattern_is_read();
}

/// What is written as a condition is a lawful one.
pub fn conditions_are_lawful()
    ensures { (terminals : List Terminal) (c : Condition) → IsConditionText terminals c → IsLawfulCondition c }
{}
