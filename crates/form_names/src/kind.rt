use form_base::Id;

/// The dimension of an index: a whole number, or a symbol. An index of dimension 0 is never summed over.
#[derive(Clone, Copy, PartialEq, Eq)]
pub enum Dimension {
    Number(u32),
    Symbol(Id),
}

/// What a declared name stands for.
#[derive(Clone, Copy, PartialEq, Eq)]
pub enum Kind {
    Symbol,
    Vector,
    Index(Dimension),
    /// A function that doesn't commute with other such ones.
    Function,
    CommutingFunction,
    Expression,
    /// A set of names or numbers, for wildcards.
    Set,
}
