ghost use Rattle.std.specs.Prelude.{◌≡◌};
ghost use Rattle.form_bindings.specs.Values.{is_same as is_same_value};

use form_term::Piece;
use std::cmp::Ordering;

/// Whether two values are one.
pub fn is_same(value: &[Piece], other: &[Piece]) -> bool
    ensures { result ≡ is_same_value value.now other.now }
{
    value.cmp(&other) == Ordering::Equal
}
