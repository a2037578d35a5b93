//! Laws of the definitions, each the contract of a function that does nothing.

ghost use Rattle.std.specs.Prelude.{◌≡◌, List, Ok};
ghost use Rattle.form_ast.specs.declared.module.PlacedPart.{PlacedPart};
ghost use Rattle.form_ast.specs.Lawful.{AreLawfulModules};
ghost use Rattle.form_ast.specs.Written.{WrittenAction, written};
ghost use Rattle.form_check.specs.Acting.{action};
ghost use Rattle.form_check.specs.Checking.{program};
ghost use Rattle.form_check.specs.Faults.{fault_of, first_fault};
ghost use Rattle.form_check.specs.Program.{Program};
ghost use Rattle.form_check.specs.Sound.{IsSound};
ghost use Rattle.form_names.specs.Names.{Entry};

/// A program that isn't refused is sound.
pub fn checked_programs_are_sound()
    ensures { (modules : List (List PlacedPart)) (checked : Program) →
        AreLawfulModules modules → program modules ≡ Ok checked → IsSound checked }
{
    form_ast::laws::one_tree();
}

/// A tree of statements is refused for the first fault in the order of the text, and for nothing else.
pub fn the_first_fault_is_refused()
    ensures { (names : List Entry) (statement : WrittenAction) →
        fault_of (action names statement) ≡ first_fault names (written statement) }
{}
