ghost use Rattle.std.specs.Prelude.{◌≡◌, Some};

use crate::Name;
use std::fmt;

/// Why a text or a run is refused. It prints as the variant's name, and behind it the name concerned, where it has one.
#[derive(Debug, Drop, PartialEq, Eq)]
pub enum Cause {
    // Of a text.
    /// A byte that isn't a tab or from 32 to 126.
    BadByte,
    /// A line of the preprocessor outside its forms.
    BadInstruction,
    /// An opening without its end.
    Unclosed,
    /// A variable of the preprocessor without a value.
    UnknownVar(Name),
    UnknownProcedure(Name),
    /// A text that is to be included and isn't there.
    MissingText(Name),
    /// Another number of arguments than a procedure has.
    WrongArguments,
    /// A calculation of the preprocessor past 128 bits, or by zero.
    CalcRange,
    /// Too many lines, or a line too long.
    LineLimit,
    /// Calls that are nested too deep.
    CallDepth,
    /// A statement outside the grammar.
    BadSyntax,
    /// A text that has no `.end`.
    NoEnd,
    /// A statement that stands too late in its module.
    StatementOrder,
    Undeclared(Name),
    Redeclared(Name),
    /// A name of a kind that can't stand where it does.
    WrongKind(Name),
    /// A number past its limit.
    NumberRange,
    // Of a run.
    /// A coefficient past 2^127-1 in size.
    Overflow,
    DivideByZero,
    /// A power past its limit.
    PowerRange,
    /// A term of too many factors, or nested too deep.
    TermSize,
    /// A `repeat` that doesn't come to rest.
    RepeatBudget,
    /// More terms of one list than may be made.
    ExpandLimit,
    /// More terms in a result than it may have.
    TermLimit,
    /// A trace of too many matrices.
    TraceTooLong,
}

impl fmt::Display for Cause {
    ghost use Rattle.form_base.specs.Cause.{cause_text};

    ghost output = { λ cause. Some (cause_text cause) };

    fn fmt<W: fmt::Write>(&self, f: &mut fmt::Formatter<W>) -> fmt::Result {
        match self {
            Cause::BadByte => f.write_str("BadByte"),
            Cause::BadInstruction => f.write_str("BadInstruction"),
            Cause::Unclosed => f.write_str("Unclosed"),
            Cause::UnknownVar(name) => write!(f, "UnknownVar {name}"),
            Cause::UnknownProcedure(name) => write!(f, "UnknownProcedure {name}"),
            Cause::MissingText(name) => write!(f, "MissingText {name}"),
            Cause::WrongArguments => f.write_str("WrongArguments"),
            Cause::CalcRange => f.write_str("CalcRange"),
            Cause::LineLimit => f.write_str("LineLimit"),
            Cause::CallDepth => f.write_str("CallDepth"),
            Cause::BadSyntax => f.write_str("BadSyntax"),
            Cause::NoEnd => f.write_str("NoEnd"),
            Cause::StatementOrder => f.write_str("StatementOrder"),
            Cause::Undeclared(name) => write!(f, "Undeclared {name}"),
            Cause::Redeclared(name) => write!(f, "Redeclared {name}"),
            Cause::WrongKind(name) => write!(f, "WrongKind {name}"),
            Cause::NumberRange => f.write_str("NumberRange"),
            Cause::Overflow => f.write_str("Overflow"),
            Cause::DivideByZero => f.write_str("DivideByZero"),
            Cause::PowerRange => f.write_str("PowerRange"),
            Cause::TermSize => f.write_str("TermSize"),
            Cause::RepeatBudget => f.write_str("RepeatBudget"),
            Cause::ExpandLimit => f.write_str("ExpandLimit"),
            Cause::TermLimit => f.write_str("TermLimit"),
            Cause::TraceTooLong => f.write_str("TraceTooLong"),
        }
    }
}
