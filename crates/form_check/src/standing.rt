//! What a statement drops.
ghost use Rattle.std.specs.Prelude.{◌≡◌, ℕ, ◌&&◌, not, false, OnOk, OnErr};
ghost use Rattle.form_right_side.specs.Marks.{current_in, stands_in, is_defined_in, stays_in, AreMarksLawful};
ghost use Rattle.form_check.specs.Standing.{means};

use crate::Selection;
use form_right_side::Standing;
use std::alloc::AllocError;

/// The module drops these expressions, where they stand at its start. Where memory is wanting, some of them may be left.
pub fn drop_selected(standing: &mut Standing, which: &Selection) -> Result<(), AllocError>
    requires { AreMarksLawful standing.old }
    ensures current { current_in standing.new ≡ current_in standing.old }
    ensures lawful { AreMarksLawful standing.new }
    ensures stands { (e : ℕ) → stands_in standing.new e ≡ stands_in standing.old e }
    ensures defines { (e : ℕ) → is_defined_in standing.new e ≡ is_defined_in standing.old e }
    ensures others { OnErr result ((e : ℕ) → means which.now e ≡ false → stays_in standing.new e ≡ stays_in standing.old e) }
    ensures stays { OnOk result ((e : ℕ) → stays_in standing.new e ≡ (stays_in standing.old e && not (means which.now e))) }
{
    match which {
        Selection::All => standing.drop_all(),
        Selection::Named(ids) => {
            for id in ids.as_slice() {
                standing.drop_named(*id)?;
            }
        }
    }
    Ok(())
}
