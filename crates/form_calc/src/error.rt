/// Why there is no value.
#[derive(Drop)]
pub enum CalcError {
    /// What is written is no calculation, or no condition.
    IllFormed,
    /// A number or a step is out of 128 bits, or a divisor is 0.
    OutOfRange,
}
