//! Laws of the definitions, each the contract of a function that does nothing.

ghost use Rattle.std.specs.Prelude.{◌≡◌, ◌||◌, true, false, ℕ, List, None, Ok};
ghost use Rattle.std.specs.List.{AllByRecursion};
ghost use Rattle.form_base.specs.declared.settings.Settings.{Settings};
ghost use Rattle.form_names.specs.Names.{Entry};
ghost use Rattle.form_tree.specs.Placed.{places_of};
ghost use Rattle.form_check.specs.Program.{Module};
ghost use Rattle.form_check.specs.Sound.{IsModuleSound};
ghost use Rattle.form_check.specs.Standing.{defines, drops, stands_after};
ghost use Rattle.form_expand.specs.declared.stored.Stored.{Stored};
ghost use Rattle.form_expand.specs.Sound.{IsRecordableStored};
ghost use Rattle.form_module.specs.Becoming.{IsOutcomeOfEach, becomes, found, is_standing};
ghost use Rattle.form_module.specs.Module.{module_outcome};
ghost use Rattle.form_module.specs.Settled.{Ascend};
ghost use Rattle.form_module.specs.Works.{skips};

/// A module makes of each expression what becomes of it, where each stands once, in order; and so they stand at its end, each
/// that it defines, and each that stood and isn't dropped.
pub fn each_expression()
    ensures becomes { (settings : Settings) (m : Module) (standing : List Stored) → Ascend standing →
        IsOutcomeOfEach settings m standing (module_outcome settings m standing) }
    ensures order { (settings : Settings) (m : Module) (standing after : List Stored) →
        module_outcome settings m standing ≡ Ok after → Ascend after }
    ensures standing { (settings : Settings) (m : Module) (standing after : List Stored) → Ascend standing →
        module_outcome settings m standing ≡ Ok after → (e : ℕ) →
        is_standing after e ≡ stands_after e (is_standing standing e) m }
{}

/// An expression that is skipped stands at the end as it stood at the start, and one that is dropped doesn't stand, where the module
/// doesn't define it: of such a one neither the other statements matter nor the settings.
pub fn skipped_and_dropped_stay()
    ensures skipped { (settings : Settings) (m : Module) (standing after : List Stored) (e : ℕ) → Ascend standing →
        module_outcome settings m standing ≡ Ok after → defines m.statements e ≡ false → drops m.statements e ≡ false →
        skips m.statements e ≡ true → found after e ≡ found standing e }
    ensures dropped { (settings : Settings) (m : Module) (standing after : List Stored) (e : ℕ) → Ascend standing →
        module_outcome settings m standing ≡ Ok after → defines m.statements e ≡ false → drops m.statements e ≡ true →
        found after e ≡ None }
    ensures same { (settings others : Settings) (m n : Module) (standing : List Stored) (e : ℕ) →
        defines m.statements e ≡ false → defines n.statements e ≡ false → drops m.statements e ≡ drops n.statements e →
        skips m.statements e ≡ skips n.statements e → (drops m.statements e || skips m.statements e) ≡ true →
        becomes settings m standing e ≡ becomes others n standing e }
{}

/// What stands at the end of a checked module can be recorded where what stands at its start can be.
pub fn expressions_stay_recordable()
    ensures { (names : List Entry) (earlier : List Module) (settings : Settings) (m : Module) (standing after : List Stored) →
        IsModuleSound names earlier m → AllByRecursion (IsRecordableStored (places_of names)) standing →
        module_outcome settings m standing ≡ Ok after → AllByRecursion (IsRecordableStored (places_of names)) after }
{}
