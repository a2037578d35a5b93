/// The option of an `id`.
#[derive(Clone, Copy, PartialEq, Eq)]
pub enum Taking {
    /// One match is taken.
    Once,
    /// The first match that takes each symbol and dot product with its whole power.
    Only,
    /// A match is taken as often as it fits.
    Multi,
    /// Matches are taken one after the other.
    Many,
}
