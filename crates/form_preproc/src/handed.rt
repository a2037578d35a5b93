use form_base::Spot;
use form_calc::Text;

/// A line that is handed on, and where it stands: the number of its text and its physical line there.
#[derive(Drop)]
pub struct Handed {
    pub spot: Spot,
    pub text: Text,
}
