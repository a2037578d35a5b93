ghost use Rattle.std.specs.Prelude.{◌≡◌};
ghost use Rattle.form_stmts.specs.Keyword.{declared_by as declared_by_name, setting_keyword, expression_keyword, term_keyword, block_keyword, keyword_of as keyword_spelled};

use form_ast::Declared;

/// What a statement does, by its first name.
#[derive(Clone, Copy)]
pub enum Keyword {
    /// Names are declared, other than indices.
    Names(Declared),
    Indices,
    Dimension,
    /// `On` or `Off`.
    Switch,
    Set,
    Drop,
    Skip,
    Local,
    /// `id`
    Id,
    Also,
    Multiply,
    Sum,
    Discard,
    Repeat,
    EndRepeat,
    If,
    ElseIf,
    Else,
    EndIf,
    Argument,
    EndArgument,
    Print,
}

/// What the keyword declares, if names other than indices.
fn declared_by(name: &str) -> Option<Declared>
    ensures { result ≡ declared_by_name name.now }
{
    let is = |word: &str| name.eq_ignore_ascii_case(word);
    if is("symbols") || is("symbol") || is("s") {
        Some(Declared::Symbols)
    } else if is("vectors") || is("vector") || is("v") {
        Some(Declared::Vectors)
    } else if is("functions") || is("function") || is("f") {
        Some(Declared::Functions)
    } else if is("cfunctions") || is("cfunction") || is("cf") {
        Some(Declared::CFunctions)
    } else {
        None
    }
}

/// The keyword of what else is declared, and of what is switched.
fn setting(name: &str) -> Option<Keyword>
    ensures { result ≡ setting_keyword name.now }
{
    let is = |word: &str| name.eq_ignore_ascii_case(word);
    if is("indices") || is("index") || is("i") {
        Some(Keyword::Indices)
    } else if is("dimension") {
        Some(Keyword::Dimension)
    } else if is("set") {
        Some(Keyword::Set)
    } else if is("on") || is("off") {
        Some(Keyword::Switch)
    } else {
        None
    }
}

/// The keyword of what concerns expressions.
fn of_expressions(name: &str) -> Option<Keyword>
    ensures { result ≡ expression_keyword name.now }
{
    let is = |word: &str| name.eq_ignore_ascii_case(word);
    if is("drop") {
        Some(Keyword::Drop)
    } else if is("skip") {
        Some(Keyword::Skip)
    } else if is("local") || is("l") {
        Some(Keyword::Local)
    } else if is("id") {
        Some(Keyword::Id)
    } else if is("also") {
        Some(Keyword::Also)
    } else if is("print") {
        Some(Keyword::Print)
    } else {
        None
    }
}

/// The keyword of what is carried out on terms, but for `id` and `also`.
fn of_terms(name: &str) -> Option<Keyword>
    ensures { result ≡ term_keyword name.now }
{
    let is = |word: &str| name.eq_ignore_ascii_case(word);
    if is("multiply") {
        Some(Keyword::Multiply)
    } else if is("sum") {
        Some(Keyword::Sum)
    } else if is("discard") {
        Some(Keyword::Discard)
    } else {
        None
    }
}

/// The keyword of what begins or ends a block, or a branch of one.
fn of_blocks(name: &str) -> Option<Keyword>
    ensures { result ≡ block_keyword name.now }
{
    let is = |word: &str| name.eq_ignore_ascii_case(word);
    if is("repeat") {
        Some(Keyword::Repeat)
    } else if is("endrepeat") {
        Some(Keyword::EndRepeat)
    } else if is("if") {
        Some(Keyword::If)
    } else if is("elseif") {
        Some(Keyword::ElseIf)
    } else if is("else") {
        Some(Keyword::Else)
    } else if is("endif") {
        Some(Keyword::EndIf)
    } else if is("argument") {
        Some(Keyword::Argument)
    } else if is("endargument") {
        Some(Keyword::EndArgument)
    } else {
        None
    }
}

/// The keyword that the name is, in any case of letters.
#[tactic(auto, unfolding(crate::specs::Keyword::keyword_of))]
pub fn keyword_of(name: &str) -> Option<Keyword>
    ensures { result ≡ keyword_spelled name.now }
{
    match declared_by(name) {
        Some(declared) => Some(Keyword::Names(declared)),
        None => setting(name)
            .or(of_expressions(name))
            .or(of_terms(name))
            .or(of_blocks(name)),
    }
}
