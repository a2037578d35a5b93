//! Laws of the definitions, each the contract of a function that does nothing.

ghost use Rattle.std.specs.Prelude.{◌≡◌, ◌<◌, ◌==◌, ◌^◌, ℕ, Some};
ghost use Rattle.form_ast.specs.declared.expr.Power.{Power};
ghost use Rattle.form_right_side.specs.RightSide.{counted, is_zero, largest_exponent, largest_power, size_within, value_within};

/// A power has the limits of its written number, however long, though it counts as 2^127 at most: each limit is below that.
pub fn powers_count_as_written()
    ensures within { (most : ℕ) (power : Power) → most < 2 ^ 127 →
        size_within most (counted (Some power)) ≡ value_within most power.number }
    ensures zero { (power : Power) → is_zero (counted (Some power)) ≡ (power.number.value == 0) }
    ensures exponent { largest_exponent < 2 ^ 127 }
    ensures power { largest_power < 2 ^ 127 }
{}
