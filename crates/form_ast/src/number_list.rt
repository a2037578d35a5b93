ghost use Rattle.std.specs.Prelude.{◌≡◌};

use crate::SignedNumber;
use std::marker::Model;

/// Whole numbers with their signs, in a clause their list.
#[derive(Drop)]
pub struct NumberList {
    numbers: Vec<SignedNumber>,
}

impl Model for NumberList {
    ghost use Rattle.std.specs.Prelude.{List};
    ghost use Rattle.form_ast.specs.declared.expr.SignedNumber.{SignedNumber};

    ghost Value = { List SignedNumber };

    ghost view = { λ l. l.numbers.items };
}

impl NumberList {
    pub fn from_vec(numbers: Vec<SignedNumber>) -> NumberList
        ensures { result ≡ numbers.items }
    {
        NumberList { numbers }
    }

    pub fn as_slice(&self) -> &[SignedNumber]
        ensures { result.now ≡ self.now }
    {
        self.numbers.as_slice()
    }

    pub fn into_vec(self) -> Vec<SignedNumber>
        ensures { result.items ≡ self }
    {
        let NumberList { numbers } = self;
        numbers
    }
}
