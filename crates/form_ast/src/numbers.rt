ghost use Rattle.std.specs.Prelude.{◌≡◌};

use form_number::Number;
use std::marker::Model;

/// Whole numbers without signs, in a clause their list.
#[derive(Drop)]
pub struct Numbers {
    numbers: Vec<Number>,
}

impl Model for Numbers {
    ghost use Rattle.std.specs.Prelude.{List};
    ghost use Rattle.form_number.specs.declared.number.Number.{Number};

    ghost Value = { List Number };

    ghost view = { λ n. n.numbers.items };
}

impl Numbers {
    pub fn from_vec(numbers: Vec<Number>) -> Numbers
        ensures { result ≡ numbers.items }
    {
        Numbers { numbers }
    }

    pub fn as_slice(&self) -> &[Number]
        ensures { result.now ≡ self.now }
    {
        self.numbers.as_slice()
    }
}
