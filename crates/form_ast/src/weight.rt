use form_base::Name;
use form_number::WholeNumber;

/// What is joined with factors of the same key: a name alone, or a dot product of two, in either order. A wildcard is
/// joined with wildcards alone.
#[derive(Drop)]
pub enum Key {
    /// How it is spelled, and whether it is a wildcard.
    Alone(Name, bool),
    /// The same of both names.
    Dotted(Name, bool, Name, bool),
}

/// A factor of a pattern as it counts where equal factors are joined.
#[derive(Drop)]
pub enum Weight {
    /// What may be joined, whether its power is below zero, and the size of this.
    Keyed(Key, bool, WholeNumber),
    /// Anything else, and the size of its power.
    Lone(WholeNumber),
    /// A name to the power that a wildcard stands for.
    Free(Name),
}
