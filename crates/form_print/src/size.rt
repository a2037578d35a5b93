ghost use Rattle.std.specs.Prelude.{◌≡◌, ◌++◌, OnOk, string_bytes};
ghost use Rattle.form_frac.specs.Fraction.{has_size_one as is_of_size_one};
ghost use Rattle.form_print.specs.Texts.{size_text};
ghost use Rattle.form_print.specs.Arguments.{fraction_of};

use form_frac::Frac;
use form_term::Coefficient;
use std::alloc::AllocError;

/// Whether a coefficient is 1 or -1.
pub fn has_size_one(coefficient: Frac) -> bool
    ensures { result ≡ is_of_size_one coefficient }
{
    coefficient.numerator_size() == 1 && coefficient.is_whole()
}

/// Puts the size of a coefficient: n, or n/d.
pub fn push_size(text: &mut String, coefficient: Frac) -> Result<(), AllocError>
    ensures { OnOk result (string_bytes text.new ≡ string_bytes text.old ++ size_text coefficient) }
{
    let size = coefficient.numerator_size();
    let denominator = coefficient.denominator();
    if denominator == 1 {
        write!(text, "{size}")
    } else {
        write!(text, "{size}/{denominator}")
    }
}

/// Whether a coefficient inside an argument is 1 or -1.
pub fn is_one_inside(coefficient: &Coefficient) -> bool
    ensures { result ≡ is_of_size_one (fraction_of coefficient.now) }
{
    coefficient.numerator().unsigned_abs() == 1 && coefficient.denominator() == 1
}

/// Puts the size of a coefficient inside an argument.
pub fn push_size_inside(text: &mut String, coefficient: &Coefficient) -> Result<(), AllocError>
    ensures { OnOk result (string_bytes text.new ≡ string_bytes text.old ++ size_text (fraction_of coefficient.now)) }
{
    let size = coefficient.numerator().unsigned_abs();
    let denominator = coefficient.denominator();
    if denominator == 1 {
        write!(text, "{size}")
    } else {
        write!(text, "{size}/{denominator}")
    }
}
