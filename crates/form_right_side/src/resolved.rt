use form_base::Id;
use form_names::Kind;
use form_tree::Base;

/// A declared name and what it stands for.
#[derive(Clone, Copy)]
pub struct Found {
    pub id: Id,
    pub kind: Kind,
}

/// What stands at an end of a dot product, a component or a delta.
#[derive(Clone, Copy)]
pub enum End {
    /// A fixed index.
    Fixed(u32),
    /// A declared index.
    Index(Id),
    Vector(Id),
}

/// Two ends below a power that is a name.
#[derive(Clone, Copy)]
pub enum Linked {
    /// A component or a delta.
    Piece(Base),
    /// A dot product, which then stands in parentheses.
    Dot(Id, Id),
}

/// What stands before parentheses.
#[derive(Clone, Copy)]
pub enum Head {
    /// A function, and whether it commutes.
    Function(Id, bool),
    Vector(Id),
}
