ghost use Rattle.std.specs.Prelude.{◌≡◌};

use form_base::Cause;

/// The refusal that ends a list. Its drop is a function of its own, so that no caller's proof goes through all causes.
pub struct Refusal {
    pub cause: Cause,
}

impl Refusal {
    pub fn into_cause(self) -> Cause
        ensures { result ≡ self.cause }
    {
        let Refusal { cause } = self;
        cause
    }
}

impl Drop for Refusal {
    fn drop(self) {
        let Refusal { cause: _ } = self;
    }
}
