ghost use Rattle.std.specs.Prelude.{Some};

use crate::Name;
use std::fmt;

/// Where a refusal stands.
#[derive(Debug, Drop, PartialEq, Eq)]
pub enum Place {
    /// The name under which the library was asked for the text, and the physical line in it, from 1.
    Line(Name, u64),
    /// The module, from 1, and the name of the expression.
    Run(u64, Name),
}

impl fmt::Display for Place {
    ghost use Rattle.form_base.specs.Status.{place_text};

    ghost output = { λ place. Some (place_text place) };

    fn fmt<W: fmt::Write>(&self, f: &mut fmt::Formatter<W>) -> fmt::Result {
        match self {
            Place::Line(text, line) => write!(f, "{text} line {line}"),
            Place::Run(module, expression) => write!(f, "module {module} expression {expression}"),
        }
    }
}
