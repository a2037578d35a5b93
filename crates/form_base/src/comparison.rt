/// How two values are compared.
#[derive(Clone, Copy, PartialEq, Eq)]
pub enum Comparison {
    EqualTo,
    NotEqualTo,
    Less,
    Greater,
    AtMost,
    AtLeast,
}
