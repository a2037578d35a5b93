/// From which exponent to which a symbol may stand in a term.
#[derive(Clone, Copy)]
pub struct Restriction {
    pub least: i32,
    pub most: i32,
}
