ghost use Rattle.std.specs.Prelude.{◌≡◌};
ghost use Rattle.std.specs.Str.{IsAscii};

use form_base::Spot;
use std::marker::Model;

/// A line of a program, without its end, and where it stands. It is ASCII.
#[derive(Drop)]
pub struct Line<'a> {
    spot: Spot,
    text: &'a str,
}

impl<'a> Model for Line<'a> {
    ghost use Rattle.std.specs.Str.{IsAscii};
    ghost use Rattle.form_stmts.specs.Line.{PlacedLine};

    ghost Value = { PlacedLine };

    ghost view = { λ line. record { spot = line.spot; text = line.text.now } };

    ghost invariant = { λ line. IsAscii line.text.now };
}

impl<'a> Line<'a> {
    pub fn new(spot: Spot, text: &'a [u8]) -> Line<'a>
        requires { IsAscii text.now }
        ensures { result ≡ record { spot = spot; text = text.now } }
    {
        let text = simdutf8::basic::from_utf8(text).unwrap();
        Line { spot, text }
    }

    pub fn spot(&self) -> Spot
        ensures { result ≡ self.now.spot }
    {
        self.spot
    }

    pub fn text(&self) -> &str
        ensures value { result.now ≡ self.now.text }
        ensures ascii { IsAscii result.now }
    {
        self.text
    }
}
