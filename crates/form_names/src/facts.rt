use crate::{Elements, Kind};

/// What is known of a declared name.
#[derive(Drop)]
pub(crate) struct Facts {
    pub(crate) kind: Kind,
    /// Those of a set, none for another name.
    pub(crate) elements: Option<Elements>,
}
