/// Where a sum stands: this says what may be written in it.
#[derive(Clone, Copy, PartialEq, Eq)]
pub enum Setting {
    /// It is the right side of a definition.
    Plain,
    /// It is the right side of an `id` or an `also`, where names may be powers, and fields arguments.
    Right,
    /// It is a pattern, where names may be wildcards, also as powers, and fields arguments.
    Pattern,
}
