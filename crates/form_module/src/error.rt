use form_base::{Cause, Place};

/// Why a module wasn't carried out.
#[derive(Drop)]
pub enum ModuleError {
    /// It is refused, at the expression of this place.
    Refused(Cause, Place),
    Memory,
}
