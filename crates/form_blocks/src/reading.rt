use form_ast::Placed;
use std::marker::Model;

/// A statement as it is read: one that is no line of others, or such a one behind a `repeat` or an `if`, which are lines
/// of others and end with it.
#[derive(Drop)]
pub struct Reading {
    lines: Vec<Placed>,
    last: Placed,
}

impl Model for Reading {
    ghost use Rattle.std.specs.Coded.{codes};
    ghost use Rattle.form_ast.specs.contracts.statement.Placed as placed;
    ghost use Rattle.form_blocks.specs.Blocks.{Read};

    ghost Value = { Read };

    ghost coded = { Prim.hlevel (codes, placed.the_row.coded) };

    ghost view = { λ r. record { lines = r.lines.items; last = r.last } };
}

impl Reading {
    ghost use Rattle.std.specs.Prelude.{◌≡◌};

    pub fn new(lines: Vec<Placed>, last: Placed) -> Reading
        ensures { result ≡ record { lines = lines.items; last = last } }
    {
        Reading { lines, last }
    }

    pub fn into_parts(self) -> (Vec<Placed>, Placed)
        ensures lines { result.0.items ≡ self.lines }
        ensures last { result.1 ≡ self.last }
    {
        let Reading { lines, last } = self;
        (lines, last)
    }
}
