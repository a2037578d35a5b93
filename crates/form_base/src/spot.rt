/// Where something stands in the texts of a program.
#[derive(Clone, Copy)]
pub struct Spot {
    /// The number of its text, from 0, in the order in which texts are taken up: FILE is 0.
    pub text: u32,
    /// Its physical line in that text, from 1.
    pub line: u32,
}
