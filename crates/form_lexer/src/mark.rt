/// A sign of the language.
#[derive(Clone, Copy)]
pub enum Mark {
    /// `&&`
    And,
    /// `||`
    Or,
    /// `==`
    EqualTo,
    /// `!=`
    NotEqualTo,
    /// `<=`
    AtMost,
    /// `>=`
    AtLeast,
    /// `-`
    Minus,
    /// `+`
    Plus,
    /// `*`
    Times,
    /// `/`
    Over,
    /// `^`
    Power,
    /// `(`
    Open,
    /// `)`
    Close,
    /// `{`
    OpenBrace,
    /// `}`
    CloseBrace,
    /// `,`
    Comma,
    /// `;`
    Semicolon,
    /// `:`
    Colon,
    /// `=`
    Equals,
    /// `.`
    Period,
    /// `?`
    Question,
    /// `<`
    Less,
    /// `>`
    Greater,
}

/// A name that the language itself gives.
#[derive(Clone, Copy)]
pub enum BuiltIn {
    /// `i_`, the imaginary unit.
    Imaginary,
    /// `d_`, Kronecker's delta.
    Delta,
    /// `g_`, a string of gamma matrices.
    Gamma,
}
