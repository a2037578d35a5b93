//! Laws of the definitions, each the contract of a function that does nothing.

ghost use Rattle.std.specs.Prelude.{◌≡◌, ◌==◌, true, false};
ghost use Rattle.form_names.specs.Names.{is_same_kind};
ghost use Rattle.form_names.specs.declared.kind.Kind.{Kind};
ghost use Rattle.form_names.specs.declared.kind.Kind.TheVariants as kinds;
ghost use Rattle.form_names.specs.declared.kind.Dimension.{Dimension};
ghost use Rattle.form_names.specs.declared.kind.Dimension.TheVariants as dimensions;

/// Only equal kinds are the same: of indices, those with the same dimension.
pub fn kinds_alike()
    ensures only { (k l : Kind) → is_same_kind k l ≡ true → k ≡ l }
    ensures itself { (k : Kind) → is_same_kind k k ≡ true }
{}
