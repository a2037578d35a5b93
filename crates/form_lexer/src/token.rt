use crate::{BuiltIn, Mark};
use form_base::{Name, Spot};
use form_number::WholeNumber;

/// What a token is.
#[derive(Drop)]
pub enum TokenKind {
    /// Digits, as their value.
    Number(WholeNumber),
    /// A letter, then letters and digits; or any text in `[` and `]`, with these.
    Name(Name),
    BuiltIn(BuiltIn),
    Mark(Mark),
    /// What stands in no program: another word that ends in underscores, another character, and a `[` without its `]`
    /// with all that follows it on the line.
    Stray,
}

/// A token and where it stands.
#[derive(Drop)]
pub struct Token {
    pub kind: TokenKind,
    pub spot: Spot,
}
