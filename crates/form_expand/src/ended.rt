//! Powers of functions and of sums in parentheses, which stand at their ends.
ghost use Rattle.std.specs.Prelude.{◌≡◌, Some, IfOk};
ghost use Rattle.form_expand.specs.Bound as definition;

use crate::stored::Standing;
use form_tree::Exponent;
use std::alloc::{AllocError, Global};

/// The largest power of what isn't a symbol or a dot product.
pub const LARGEST_POWER: u128 = 1000;

/// The power to which a function or a sum in parentheses ends.
#[derive(Clone, Copy)]
pub enum Ended {
    Power(u32),
    /// One that a wildcard stands for.
    Raised(Exponent),
}

impl Ended {
    /// The power, none where it is refused.
    pub fn power(self, alloc: Global, names: &Standing) -> Result<Option<u32>, AllocError>
        ensures { IfOk result (λ power. power ≡ definition.power_by names.now self) }
    {
        match self {
            Ended::Power(power) => Ok(Some(power)),
            Ended::Raised(by) => Ok(power_in(names.exponent(alloc, by.is_minus, by.symbol)?)),
        }
    }
}

fn power_in(exponent: Option<i128>) -> Option<u32>
    ensures { result ≡ definition.power_in exponent }
{
    match exponent {
        Some(exponent) => power_of(exponent),
        None => None,
    }
}

/// An exponent as a power of what has no inverse.
pub fn power_of(exponent: i128) -> Option<u32>
    ensures { result ≡ definition.power_in (Some exponent) }
{
    if exponent < 0 || exponent.unsigned_abs() > LARGEST_POWER {
        return None;
    }
    Some(exponent.unsigned_abs() as u32)
}
