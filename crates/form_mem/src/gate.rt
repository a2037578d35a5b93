use form_outside::Gate;

/// A gate that keeps no seat waiting.
#[derive(Clone, Copy)]
pub struct OpenGate;

impl Gate for OpenGate {
    fn enter(&self, bucket: u64) {
        let _ = bucket;
    }
}
