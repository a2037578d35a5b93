ghost use Rattle.std.specs.Prelude.{◌≡◌, IfOk};
ghost use Rattle.std.specs.Str.{IsAscii};

use std::alloc::{AllocError, Global};
use std::marker::Model;

/// A physical line of a text, without its end. Its bytes are tabs and from 32 to 126.
#[derive(Drop)]
pub struct Line {
    number: u32,
    text: String,
}

impl Model for Line {
    ghost use Rattle.std.specs.Prelude.{string_bytes};
    ghost use Rattle.form_lines.specs.Text.{PhysicalLine, IsPlain};

    ghost Value = { PhysicalLine };

    ghost view = { λ line. record { number = line.number; text = string_bytes line.text } };

    ghost invariant = { λ line. IsPlain (string_bytes line.text) };
}

impl Line {
    ghost use Rattle.form_lines.specs.Text.{IsPlain};

    pub(crate) fn new(alloc: Global, number: u32, text: &str) -> Result<Line, AllocError>
        requires { IsPlain text.now }
        ensures { IfOk result (λ line. line ≡ record { number = number; text = text.now }) }
    {
        Ok(Line {
            number,
            text: String::from_str(alloc, text)?,
        })
    }

    /// Its number in its text, from 1.
    pub fn number(&self) -> u32
        ensures { result ≡ self.now.number }
    {
        self.number
    }

    pub fn text(&self) -> &str
        ensures value { result.now ≡ self.now.text }
        ensures ascii { IsAscii result.now }
    {
        self.text.as_str()
    }
}
