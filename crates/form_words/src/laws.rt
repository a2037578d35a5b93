//! Laws of the definitions, each the contract of a function that does nothing.

ghost use Rattle.std.specs.Prelude.{◌≡◌, Some, None};
ghost use Rattle.form_base.specs.Settings.{default_settings};
ghost use Rattle.form_words.specs.Options.{settings_of};

/// Where no option is given, the settings are the default ones.
#[tactic(auto, unfolding(crate::specs::Options::number_of, crate::specs::Options::settings_of))]
pub fn defaults()
    ensures { settings_of (λ name. None) ≡ Some default_settings }
{}
