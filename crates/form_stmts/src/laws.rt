//! Laws of the definitions, each the contract of a function that does nothing.

ghost use Rattle.std.specs.Prelude.{◌≡◌, ◌⊎◌, List};
ghost use Rattle.form_base.specs.declared.spot.Spot.{Spot};
ghost use Rattle.form_stmts.specs.Line.{PlacedLine};
ghost use Rattle.form_ast.specs.declared.module.PlacedPart.{PlacedPart};
ghost use Rattle.form_ast.specs.Lawful.{AreLawfulModules};
ghost use Rattle.form_stmts.specs.Program.{IsProgram, IsRefused};

/// Lines are a program, in one way, or refused, at one spot.
pub fn one_reading()
    ensures some { (lines : List PlacedLine) →
        ((modules : List (List PlacedPart)) × IsProgram lines modules) ⊎ ((spot : Spot) × IsRefused lines spot) }
    ensures one_program { (lines : List PlacedLine) (modules others : List (List PlacedPart)) →
        IsProgram lines modules → IsProgram lines others → modules ≡ others }
    ensures one_refusal { (lines : List PlacedLine) (spot other : Spot) →
        IsRefused lines spot → IsRefused lines other → spot ≡ other }
    ensures never_both { (lines : List PlacedLine) (modules : List (List PlacedPart)) (spot : Spot) →
        IsProgram lines modules → IsRefused lines spot → ⊥ }
{
    form_lexer::laws::one_list_of_tokens();
    form_grammar::laws::one_tree();
    form_conditions::laws::one_front();
}

/// The right sides, patterns and conditions of a program are lawful.
pub fn right_sides_are_lawful()
    ensures { (lines : List PlacedLine) (modules : List (List PlacedPart)) →
        IsProgram lines modules → AreLawfulModules modules }
{}
