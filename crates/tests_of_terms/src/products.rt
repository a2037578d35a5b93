ghost use Rattle.std.specs.Prelude.{◌≡◌, ◌<◌, ◌≤◌, false, nat_abs};
ghost use Rattle.form_frac.specs.Fraction.{is_zero};
ghost use Rattle.form_term.specs.Term.{largest_exponent};

use form_base::{Cause, Id};
use form_frac::Frac;
use form_normal::{ProductError, has_room, made_anew, product, product_of_all};
use form_term::{Arguments, Call, Component, Delta, DotPower, Index, Monomial, Others, Term};
use std::alloc::{AllocError, Global};
use std::test::Fail;

fn power(alloc: Global, symbol: u32, exponent: i32) -> Result<Monomial, AllocError>
    requires { nat_abs exponent ≤ largest_exponent }
{
    Ok(Monomial {
        coefficient: Frac::whole(2),
        term: Term::symbol(alloc, Id::new(symbol), exponent)?,
    })
}

/// The product, where there is one.
fn made(answer: Result<Option<Monomial>, ProductError>) -> Option<Monomial> {
    answer.ok().flatten()
}

/// The product of two factors, where there is one.
fn times(alloc: Global, left: Monomial, right: Monomial) -> Result<Monomial, &'static str> {
    made(product(alloc, &left, &right)).ok_or("no product")
}

/// 1 times a term.
fn once(term: Term) -> Monomial
    ensures { is_zero result.coefficient ≡ false }
{
    Monomial {
        coefficient: Frac::whole(1),
        term,
    }
}

/// A delta of two fixed indices.
fn delta(alloc: Global, first: u32, second: u32) -> Result<Monomial, AllocError> {
    Ok(once(Term::delta(alloc, Delta::of(Index::Fixed(first), Index::Fixed(second)))?))
}

/// A function, named by its number, of so many indices.
fn of_indices(alloc: Global, id: u32, many: u32) -> Result<Call, AllocError> {
    let mut arguments = Arguments::new(alloc);
    for _ in 0..many {
        arguments = arguments.with_index(Index::Fixed(1))?;
    }
    arguments.into_call(Id::new(id))
}

/// The same as a factor.
fn function(alloc: Global, id: u32, many: u32, commutes: bool) -> Result<Monomial, AllocError> {
    let call = of_indices(alloc, id, many)?;
    if call.size() > 4096 || call.depth() > 63 {
        return Err(AllocError);
    }
    let term = if commutes {
        Term::function(alloc, call)?
    } else {
        Term::non_commuting(alloc, call)?
    };
    Ok(once(term))
}

/// 0 where a product is 0, 1 where it is made, and else a number for its refusal.
fn told(answer: Result<Option<Monomial>, ProductError>) -> u32 {
    match &answer {
        Ok(None) => 0,
        Ok(Some(_)) => 1,
        Err(ProductError::Refused(Cause::Overflow)) => 2,
        Err(ProductError::Refused(Cause::PowerRange)) => 3,
        Err(ProductError::Refused(Cause::TermSize)) => 4,
        Err(_) => 5,
    }
}

/// How two factors are answered.
fn answered(alloc: Global, left: Monomial, right: Monomial) -> u32 {
    told(product(alloc, &left, &right))
}

/// A function of many indices.
fn large(alloc: Global) -> Result<Monomial, AllocError> {
    function(alloc, 7, 3000, true)
}

#[test]
fn a_delta_of_fixed_indices_has_no_room(rt: HostRuntime) -> Result<(), Fail> {
    let alloc = rt.alloc();
    let call = of_indices(alloc, 7, 1)?;
    assert!(rt; !has_room(&delta(alloc, 2, 2)?, &call));
    assert!(rt; !has_room(&delta(alloc, 1, 2)?, &call));
    Ok(())
}

/// A component of a vector, with this index.
fn component(vector: u32, index: u32) -> Component {
    Component {
        vector: Id::new(vector),
        index: Index::Fixed(index),
    }
}

/// Components in the wrong order.
fn components(alloc: Global) -> Result<Vec<Component>, AllocError> {
    Vec::from_slice(alloc, &[component(1, 3), component(0, 4)])
}

/// A term made anew from these.
fn anew(alloc: Global) -> Result<Option<Monomial>, AllocError> {
    let components = components(alloc)?;
    let others = Others {
        is_imaginary: true,
        dots: Vec::new(alloc),
        components,
        deltas: Vec::new(alloc),
        functions: Vec::new(alloc),
        word: Vec::new(alloc),
    };
    Ok(made(made_anew(alloc, Frac::whole(2), Vec::new(alloc), others)))
}

/// Whether it has these components in their order, and `i_`.
fn is_in_order(item: Option<Monomial>) -> bool {
    let Some(item) = item else {
        return false;
    };
    let expected = [component(0, 4), component(1, 3)];
    item.term.components() == expected.as_slice() && item.term.is_imaginary()
}

#[test]
fn a_term_is_made_anew_in_order(rt: HostRuntime) -> Result<(), Fail> {
    let alloc = rt.alloc();
    assert!(rt; is_in_order(anew(alloc)?));
    Ok(())
}

/// That function to the right of a high power, with this coefficient.
fn all_at_once(alloc: Global, coefficient: Frac) -> Result<Monomial, Fail> {
    let both = times(alloc, large(alloc)?, power(alloc, 0, 1_000_000_000)?)?;
    Ok(Monomial {
        coefficient,
        term: both.term,
    })
}

#[test]
fn zero_is_told_first_and_the_size_last(rt: HostRuntime) -> Result<(), Fail> {
    let alloc = rt.alloc();
    assert_eq!(rt; answered(alloc, large(alloc)?, large(alloc)?), 4);
    assert_eq!(rt;
        answered(
            alloc,
            all_at_once(alloc, Frac::whole(2))?,
            all_at_once(alloc, Frac::whole(2))?
        ),
        3
    );
    assert_eq!(rt;
        answered(
            alloc,
            all_at_once(alloc, Frac::whole(i128::MAX))?,
            all_at_once(alloc, Frac::whole(2))?
        ),
        2
    );
    assert_eq!(rt;
        answered(
            alloc,
            all_at_once(alloc, Frac::whole(i128::MAX))?,
            delta(alloc, 1, 2)?
        ),
        0
    );
    Ok(())
}

/// How factors are answered.
fn answered_all(alloc: Global, factors: &[Monomial]) -> u32 {
    told(product_of_all(alloc, factors))
}

/// The coefficient of a product, where it is whole, and the exponent of its symbol, where that is all that is in it.
fn power_of_all(alloc: Global, factors: &[Monomial]) -> (i128, i32) {
    let Some(item) = made(product_of_all(alloc, factors)) else {
        return (0, 0);
    };
    match item.term.powers() {
        [power] if item.term.has_only_symbols() => (item.coefficient.numerator(), power.exponent),
        _ => (0, 0),
    }
}

#[test]
fn no_factors_are_one(rt: HostRuntime) -> Result<(), Fail> {
    assert_eq!(rt; answered_all(rt.alloc(), &[]), 1);
    Ok(())
}

#[test]
fn one_factor_is_its_own_product(rt: HostRuntime) -> Result<(), Fail> {
    let alloc = rt.alloc();
    assert_eq!(rt; power_of_all(alloc, &[power(alloc, 0, 3)?]), (2, 3));
    Ok(())
}

/// A factor twice, and another one.
fn twice(factor: Monomial, other: Monomial) -> Result<[Monomial; 3], AllocError> {
    let again = factor.clone()?;
    Ok([factor, again, other])
}

/// Two high powers of a symbol and a third one.
fn high_powers(alloc: Global, third: i32) -> Result<[Monomial; 3], AllocError>
    requires { nat_abs third ≤ largest_exponent }
{
    twice(power(alloc, 0, 1_000_000_000)?, power(alloc, 0, third)?)
}

#[test]
fn exponents_are_summed_before_their_range_is_asked(rt: HostRuntime) -> Result<(), Fail> {
    let alloc = rt.alloc();
    assert_eq!(rt;
        power_of_all(alloc, &high_powers(alloc, -1_000_000_000)?),
        (8, 1_000_000_000)
    );
    assert_eq!(rt; answered_all(alloc, &high_powers(alloc, 1_000_000_000)?), 3);
    Ok(())
}

/// A power of a dot product.
fn dot(alloc: Global, exponent: i32) -> Result<Monomial, AllocError>
    requires present { 0 < nat_abs exponent }
    requires in_range { nat_abs exponent ≤ largest_exponent }
{
    Ok(once(Term::dot(alloc, DotPower::of(Id::new(0), Id::new(1), exponent))?))
}

/// Two high powers of a dot product and a third one.
fn high_dots(alloc: Global, third: i32) -> Result<[Monomial; 3], AllocError>
    requires present { 0 < nat_abs third }
    requires in_range { nat_abs third ≤ largest_exponent }
{
    twice(dot(alloc, 1_000_000_000)?, dot(alloc, third)?)
}

/// The exponent of the dot product in a product, where there is one.
fn dot_of_all(alloc: Global, factors: &[Monomial]) -> i32 {
    let Some(item) = made(product_of_all(alloc, factors)) else {
        return 0;
    };
    match item.term.dots() {
        [dot] => dot.exponent,
        _ => 0,
    }
}

#[test]
fn dot_products_are_summed_before_their_range_is_asked(rt: HostRuntime) -> Result<(), Fail> {
    let alloc = rt.alloc();
    assert_eq!(rt;
        dot_of_all(alloc, &high_dots(alloc, -1_000_000_000)?),
        1_000_000_000
    );
    assert_eq!(rt; answered_all(alloc, &high_dots(alloc, 1_000_000_000)?), 3);
    Ok(())
}

/// Factors whose coefficients overflow and whose exponents are past their range, and a third one.
fn past_both(alloc: Global, third: Monomial) -> Result<[Monomial; 3], AllocError> {
    let high = power(alloc, 0, 1_000_000_000)?;
    let largest = Monomial {
        coefficient: Frac::whole(i128::MAX),
        term: high.term,
    };
    twice(largest, third)
}

#[test]
fn overflow_is_told_before_the_range_of_powers(rt: HostRuntime) -> Result<(), Fail> {
    let alloc = rt.alloc();
    assert_eq!(rt;
        answered_all(alloc, &past_both(alloc, Monomial::unit(alloc))?),
        2
    );
    Ok(())
}

#[test]
fn a_zero_delta_is_told_before_both(rt: HostRuntime) -> Result<(), Fail> {
    let alloc = rt.alloc();
    assert_eq!(rt;
        answered_all(alloc, &past_both(alloc, delta(alloc, 1, 2)?)?),
        0
    );
    Ok(())
}

fn imaginary(alloc: Global) -> Result<Monomial, AllocError> {
    Ok(once(Term::imaginary(alloc)?))
}

/// The coefficient of a product, where it is whole, and whether `i_` is in it.
fn imaginary_of_all(alloc: Global, factors: &[Monomial]) -> (i128, bool) {
    match made(product_of_all(alloc, factors)) {
        Some(item) => (item.coefficient.numerator(), item.term.is_imaginary()),
        None => (0, false),
    }
}

#[test]
fn three_imaginary_units_are_minus_one_of_them(rt: HostRuntime) -> Result<(), Fail> {
    let alloc = rt.alloc();
    let units = twice(imaginary(alloc)?, imaginary(alloc)?)?;
    assert_eq!(rt; imaginary_of_all(alloc, &units), (-1, true));
    Ok(())
}

/// The numbers of two functions.
fn names(calls: &[Call]) -> (u32, u32) {
    match calls {
        [first, second] => (first.function().position(), second.function().position()),
        _ => (0, 0),
    }
}

/// Commuting functions and others, all in falling order.
fn falling_functions(alloc: Global) -> Result<Vec<Monomial>, AllocError> {
    let mut factors = Vec::new(alloc);
    for (id, commutes) in [(8, true), (6, false), (7, true), (5, false)] {
        factors.push(function(alloc, id, 1, commutes)?)?;
    }
    Ok(factors)
}

/// The numbers of the commuting functions of a product and of the others.
fn names_of_all(alloc: Global, factors: &[Monomial]) -> ((u32, u32), (u32, u32)) {
    match made(product_of_all(alloc, factors)) {
        Some(item) => (names(item.term.functions()), names(item.term.word())),
        None => ((0, 0), (0, 0)),
    }
}

#[test]
fn functions_are_put_in_order_and_words_stay_as_they_stand(rt: HostRuntime) -> Result<(), Fail> {
    let alloc = rt.alloc();
    assert_eq!(rt;
        names_of_all(alloc, &falling_functions(alloc)?),
        ((7, 8), (6, 5))
    );
    Ok(())
}
