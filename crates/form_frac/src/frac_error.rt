/// Why there is no result.
#[derive(Clone, Copy, PartialEq, Eq)]
pub enum FracError {
    /// A part is past 2^127-1 in size.
    Overflow,
    DivideByZero,
}
