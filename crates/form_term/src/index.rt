use form_base::Id;

/// An index. Fixed ones come first, by their value, then declared ones, by their position, then dummies, by their
/// number.
#[derive(Clone, Copy, PartialEq, Eq, PartialOrd, Ord, Hash)]
pub enum Index {
    Fixed(u32),
    Declared(Id),
    Dummy(u32),
}

/// A component of a vector, `p(mu)`.
#[derive(Clone, Copy, PartialEq, Eq, PartialOrd, Ord, Hash)]
pub struct Component {
    pub vector: Id,
    pub index: Index,
}

/// A delta of two indices, `d_(mu,nu)`, the lesser index first.
#[derive(Clone, Copy, PartialEq, Eq, PartialOrd, Ord, Hash)]
pub struct Delta {
    pub first: Index,
    pub second: Index,
}
