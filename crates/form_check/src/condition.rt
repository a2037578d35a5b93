//! Conditions over Ids.
ghost use Rattle.std.specs.Prelude.{◌≡◌, ◌≤◌, true, [], All, length};
ghost use Rattle.form_ast.specs.Lawful.{ArePattern, IsLawfulCondition, most_counted};
ghost use Rattle.form_base.specs.Condition.{values_of_test};
ghost use Rattle.form_check.specs.Carried as definition;
ghost use Rattle.form_check.specs.Carried.{IsWrittenValue, alternatives as alternatives_of, condition as condition_of, conjunction as conjunction_of, test as test_of, weighted as weighted_name, with_patterns};
ghost use Rattle.form_pattern.specs.Pattern.{pattern_checked};
ghost use Rattle.form_right_side.specs.Refusal.{Gives, listed};
ghost use Rattle.form_tree.specs.Weights.{are_weights};
ghost use Rattle.form_tree.specs.declared.condition.Value.TheVariants as values;

use crate::CheckError;
use crate::carried::{number, occurrences, weights};
use form_names::{Ids, Names};
use form_pattern::{known_of, pattern};
use form_right_side::Standing;
use form_tree::{Alternatives, Condition, Pattern, Test, Value, Weighted, Weights};
use sqlite_items::Items;
use std::alloc::Global;
use std::marker::Model;

/// The patterns of a condition while it is taken over: in a clause their list.
#[derive(Drop)]
struct Patterns {
    patterns: Vec<Pattern>,
}

impl Model for Patterns {
    ghost use Rattle.std.specs.Prelude.{List};
    ghost use Rattle.form_tree.specs.Patterns.{Pieces};

    ghost Value = { List Pieces };

    ghost view = { λ p. p.patterns.items };
}

/// A `count`.
fn count(alloc: Global, names: &Names, written: &[form_ast::Weighted]) -> Result<Value, CheckError>
    requires { length written.now ≤ most_counted }
    ensures { Gives (λ v. v) result (definition.count names.now written.now) }
{
    let list = weights(alloc, names, written)?;
    Ok(Value::Count(within_limits(list)))
}

/// What a `count` has, of which each is in its limit.
fn within_limits(list: Vec<Weighted>) -> Weights
    requires { are_weights list.items ≡ true }
    ensures { result ≡ list.items }
{
    match Weights::from_vec(list) {
        Some(weights) => weights,
        None => unreachable!(),
    }
}

/// An `occurs`.
fn occurs(alloc: Global, names: &Names, written: &[form_ast::Spelled]) -> Result<Value, CheckError>
    ensures { Gives (λ v. v) result (definition.occurs names.now written.now) }
{
    let ids = occurrences(alloc, names, written)?;
    Ok(Value::Occurs(Ids::from_vec(ids)?))
}

impl Patterns {
    fn new(alloc: Global) -> Patterns
        ensures { result ≡ [] }
    {
        Patterns {
            patterns: Vec::new(alloc),
        }
    }

    fn into_vec(self) -> Vec<Pattern>
        ensures { result.items ≡ self }
    {
        let Patterns { patterns } = self;
        patterns
    }

    /// A `match`, whose pattern is put behind the others.
    fn take_match(
        &mut self,
        alloc: Global,
        names: &Names,
        standing: &Standing,
        written: &[form_ast::Piece],
    ) -> Result<Value, CheckError>
        requires { ArePattern written.now }
        ensures { Gives (λ v. record { value = v; patterns = self.new }) result (definition.matches names.now self.old written.now) }
    {
        let number = self.patterns.len();
        let known = known_of(alloc, names, written)?;
        let pattern = pattern(alloc, names, standing, &known, written)?;
        self.patterns.push(pattern)?;
        Ok(Value::Match(number))
    }

    fn value(
        &mut self,
        alloc: Global,
        names: &Names,
        standing: &Standing,
        written: &form_ast::Value,
    ) -> Result<Value, CheckError>
        requires { IsWrittenValue written.now }
        ensures { Gives (λ v. record { value = v; patterns = self.new }) result (definition.value names.now self.old written.now) }
    {
        match written {
            form_ast::Value::Number(sign, numerator, denominator) => {
                Ok(number(*sign, numerator, denominator)?)
            }
            form_ast::Value::Coefficient => Ok(Value::Coefficient),
            form_ast::Value::Count(list) => count(alloc, names, list.as_slice()),
            form_ast::Value::Match(written) => {
                self.take_match(alloc, names, standing, written.as_slice())
            }
            form_ast::Value::Occurs(list) => occurs(alloc, names, list.as_slice()),
        }
    }
}

#[cycle(nesting)]
fn test(
    alloc: Global,
    names: &Names,
    standing: &Standing,
    patterns: &mut Patterns,
    written: &form_ast::Test,
) -> Result<Test, CheckError>
    requires { All IsWrittenValue (values_of_test written.now) }
    ensures { Gives (λ t. with_patterns t patterns.new) result (test_of names.now written.now patterns.old) }
{
    match written {
        form_ast::Test::Nonzero(value) => {
            let alone = patterns.value(alloc, names, standing, value)?;
            Ok(Test::Nonzero(alone))
        }
        form_ast::Test::Compared(left, by, right) => {
            let first = patterns.value(alloc, names, standing, left)?;
            let second = patterns.value(alloc, names, standing, right)?;
            Ok(Test::Compared(first, *by, second))
        }
        form_ast::Test::Parenthesis(inner) => {
            let lists = alternatives(alloc, names, standing, patterns, inner.as_slice())?;
            Ok(Test::Parenthesis(lists))
        }
    }
}

/// Tests joined by `&&`.
#[cycle(nesting)]
fn conjunction(
    alloc: Global,
    names: &Names,
    standing: &Standing,
    patterns: &mut Patterns,
    written: &[form_ast::Test],
) -> Result<Items<Test>, CheckError>
    requires { All (λ t. All IsWrittenValue (values_of_test t)) written.now }
    ensures { Gives (λ ts. with_patterns ts patterns.new) result (conjunction_of names.now written.now patterns.old) }
{
    let mut tests = Items::new(alloc);
    for one in written {
        tests.push(test(alloc, names, standing, patterns, one)?)?;
    }
    Ok(tests)
}

/// Such lists joined by `||`.
#[cycle(nesting)]
fn alternatives(
    alloc: Global,
    names: &Names,
    standing: &Standing,
    patterns: &mut Patterns,
    written: &[Items<form_ast::Test>],
) -> Result<Alternatives, CheckError>
    requires { All (λ ts. All (λ t. All IsWrittenValue (values_of_test t)) ts) written.now }
    ensures { Gives (λ c. with_patterns c patterns.new) result (alternatives_of names.now written.now patterns.old) }
{
    let mut lists = Items::new(alloc);
    for tests in written {
        lists.push(conjunction(alloc, names, standing, patterns, tests.as_slice())?)?;
    }
    Ok(lists)
}

/// A condition.
pub fn condition(
    alloc: Global,
    names: &Names,
    standing: &Standing,
    written: &[Items<form_ast::Test>],
) -> Result<Condition, CheckError>
    requires { IsLawfulCondition written.now }
    ensures { Gives (λ c. c) result (condition_of names.now written.now) }
{
    let mut patterns = Patterns::new(alloc);
    let lists = alternatives(alloc, names, standing, &mut patterns, written)?;
    Ok(Condition {
        alternatives: lists,
        patterns: Items::from_vec(patterns.into_vec()),
    })
}
