//! Conditions that are asked of joined terms.
ghost use Rattle.std.specs.Prelude.{◌≡◌, IfOk};
ghost use Rattle.std.specs.List.{list_any};
ghost use Rattle.form_flow.specs.Statements.{is_so as is_so_of};
ghost use Rattle.form_gathered.specs.Joined.{item_of};
ghost use Rattle.form_levels.specs.Asks.{asks_coefficient as asks, asks_of_test, is_coefficient as is_coefficient_of};

use form_cond::holds;
use form_flow::Question;
use form_gathered::JoinedTerm;
use form_tree::{Test, Value};
use sqlite_items::Items;
use std::alloc::{AllocError, Global};

/// Whether a condition holds of a joined term with its sum as the coefficient.
pub fn is_so(alloc: Global, question: &Question, joined: &JoinedTerm) -> Result<bool, AllocError>
    ensures { IfOk result (λ so. so ≡ is_so_of question.now (item_of joined.now)) }
{
    holds(
        alloc,
        question.alternatives().as_slice(),
        question.patterns(),
        joined.sum,
        &joined.term,
    )
}

/// Whether the coefficient is asked for.
pub fn asks_coefficient(question: &Question) -> bool
    ensures { result ≡ asks question.now.condition }
{
    any_asks(question.alternatives().as_slice())
}

#[cycle(nesting)]
fn any_asks(condition: &[Items<Test>]) -> bool
    ensures { result ≡ list_any (list_any asks_of_test) condition.now }
{
    for tests in condition {
        if one_asks(tests.as_slice()) {
            return true;
        }
    }
    false
}

#[cycle(nesting)]
fn one_asks(tests: &[Test]) -> bool
    ensures { result ≡ list_any asks_of_test tests.now }
{
    for test in tests {
        if test_asks(test) {
            return true;
        }
    }
    false
}

#[cycle(nesting)]
fn test_asks(test: &Test) -> bool
    ensures { result ≡ asks_of_test test.now }
{
    match test {
        Test::Nonzero(value) => is_coefficient(value),
        Test::Compared(left, _, right) => is_coefficient(left) || is_coefficient(right),
        Test::Parenthesis(inner) => any_asks(inner.as_slice()),
    }
}

fn is_coefficient(value: &Value) -> bool
    ensures { result ≡ is_coefficient_of value.now }
{
    matches!(value, Value::Coefficient)
}
