//! Terms that meet: their sums, weights and counts, where they cancel, too, and in products.

use form_base::Id;
use form_frac::{Frac, Weight};
use form_gathered::{Joined, JoinedTerm, counted, joined_inputs, together};
use form_joined::{Powers, times_joined, times_list};
use form_term::{Monomial, Power, Term};
use std::alloc::{AllocError, Global};
use std::test::Fail;

/// A symbol, and a coefficient's numerator and denominator.
type Numbers = (u32, i128, i128);

/// x/2 + y + x/3 - y + 7*z, x, y and z being the symbols 0, 1 and 2.
const MIXED: [Numbers; 5] = [(0, 1, 2), (1, 1, 1), (0, 1, 3), (1, -1, 1), (2, 7, 1)];

/// n over d, and 0 where there is no such fraction.
fn fraction(n: i128, d: i128) -> Frac {
    Frac::make(n, d).unwrap_or(Frac::zero())
}

fn item(alloc: Global, numbers: Numbers) -> Result<Monomial, AllocError> {
    let (symbol, n, d) = numbers;
    Ok(Monomial {
        coefficient: fraction(n, d),
        term: Term::symbol(alloc, Id::new(symbol), 1)?,
    })
}

fn items(alloc: Global, list: &[Numbers]) -> Result<Vec<Monomial>, AllocError> {
    let mut made = Vec::new(alloc);
    for numbers in list {
        made.push(item(alloc, *numbers)?)?;
    }
    Ok(made)
}

/// The same, each alone.
fn singles(alloc: Global, list: &[Numbers]) -> Result<Vec<JoinedTerm>, AllocError> {
    let mut made = Vec::new(alloc);
    for numbers in list {
        made.push(JoinedTerm::single(item(alloc, *numbers)?))?;
    }
    Ok(made)
}

/// A table of these; none where they don't join.
fn table(alloc: Global, list: &[Numbers]) -> Result<Option<Joined>, AllocError> {
    let mut made = Joined::new(alloc);
    for numbers in list {
        if !made.add(JoinedTerm::single(item(alloc, *numbers)?))? {
            return Ok(None);
        }
    }
    Ok(Some(made))
}

pub fn power(symbol: u32, exponent: i32) -> Power {
    Power {
        symbol: Id::new(symbol),
        exponent,
    }
}

/// Whether a joined term has this sum, this weight and this count.
fn is(term: &JoinedTerm, sum: Frac, weight: Weight, count: u64) -> bool {
    term.sum == sum && term.weight == weight && term.count == count
}

/// Whether one of these is of these powers, with this sum, this weight and this count.
pub fn has(terms: &[JoinedTerm], powers: &[Power], sum: Frac, weight: Weight, count: u64) -> bool {
    for term in terms {
        if term.term.powers() == powers && is(term, sum, weight, count) {
            return true;
        }
    }
    false
}

/// Whether these are the terms of `MIXED`, with sums and weights, and counts of x and y.
fn are_mixed(terms: &[JoinedTerm], counts: u64) -> bool {
    let x = fraction(5, 6);
    let z = Frac::whole(7);
    terms.len() == 3
        && has(terms, &[power(0, 1)], x, Weight::of(x), counts)
        && has(
            terms,
            &[power(1, 1)],
            Frac::zero(),
            Weight::of(Frac::whole(2)),
            counts,
        )
        && has(terms, &[power(2, 1)], z, Weight::of(z), 1)
}

/// The same of a list that is there, which counts so many.
fn give_mixed(made: Option<Vec<JoinedTerm>>, counts: u64, all: u64) -> bool {
    let Some(terms) = made else {
        return false;
    };
    are_mixed(&terms, counts) && counted(&terms) == Some(all)
}

#[test]
fn equal_terms_of_a_list_are_counted(rt: HostRuntime) -> Result<(), Fail> {
    let alloc = rt.alloc();
    let terms = singles(alloc, &MIXED)?;
    assert!(rt; give_mixed(together(alloc, terms)?, 2, 5));
    Ok(())
}

#[test]
fn equal_inputs_count_one(rt: HostRuntime) -> Result<(), Fail> {
    let alloc = rt.alloc();
    let inputs = items(alloc, &MIXED)?;
    assert!(rt; give_mixed(joined_inputs(alloc, &inputs)?, 1, 3));
    Ok(())
}

/// Its joined terms, where it is there.
fn listed(table: Option<Joined>) -> Result<Option<Vec<JoinedTerm>>, AllocError> {
    let Some(table) = table else {
        return Ok(None);
    };
    Ok(Some(table.into_vec()?))
}

#[test]
fn a_table_keeps_sums_of_zero(rt: HostRuntime) -> Result<(), Fail> {
    let alloc = rt.alloc();
    let made = table(alloc, &MIXED)?;
    assert!(rt; give_mixed(listed(made)?, 2, 5));
    Ok(())
}

/// Whether a term is this symbol with this coefficient.
fn is_item(item: &Monomial, symbol: u32, coefficient: Frac) -> bool {
    let powers = [power(symbol, 1)];
    item.term.powers() == powers.as_slice() && item.coefficient == coefficient
}

/// Whether a table collects to 7*z + 5/6*x.
fn collects_to_two(table: Option<Joined>) -> Result<bool, AllocError> {
    let Some(table) = table else {
        return Ok(false);
    };
    let terms = table.into_terms()?;
    let [first, last] = terms.as_slice() else {
        return Ok(false);
    };
    Ok(is_item(first, 2, Frac::whole(7)) && is_item(last, 0, fraction(5, 6)))
}

#[test]
fn a_table_is_collected_in_order_without_sums_of_zero(rt: HostRuntime) -> Result<(), Fail> {
    let alloc = rt.alloc();
    assert!(rt; collects_to_two(table(alloc, &MIXED)?)?);
    Ok(())
}

/// Whether a joined term is of these powers, with this sum and the weight of one such number.
fn is_product(term: &JoinedTerm, powers: &[Power], sum: Frac) -> bool {
    term.term.powers() == powers && is(term, sum, Weight::of(sum), 1)
}

/// Whether these are the products of x/2 and 3*y with 5*x and -y/7.
fn are_four(made: Option<Vec<JoinedTerm>>) -> bool {
    let Some(terms) = made else {
        return false;
    };
    let [first, second, third, last] = terms.as_slice() else {
        return false;
    };
    let both = [power(0, 1), power(1, 1)];
    is_product(first, &[power(0, 2)], fraction(5, 2))
        && is_product(second, &both, fraction(-1, 14))
        && is_product(third, &both, Frac::whole(15))
        && is_product(last, &[power(1, 2)], fraction(-3, 7))
}

#[test]
fn each_front_is_multiplied_by_each_of_a_list(rt: HostRuntime) -> Result<(), Fail> {
    let alloc = rt.alloc();
    let fronts = singles(alloc, &[(0, 1, 2), (1, 3, 1)])?;
    let list = items(alloc, &[(0, 5, 1), (1, -1, 7)])?;
    assert!(rt; are_four(times_list(alloc, fronts, &list)?));
    Ok(())
}

/// Whether these are the products of x + 4*x with y/3 + y + y and z - z.
fn are_two(made: Option<Vec<JoinedTerm>>) -> bool {
    let Some(terms) = made else {
        return false;
    };
    let some = fraction(35, 3);
    let none = Weight::of(Frac::whole(10));
    terms.len() == 2
        && has(
            &terms,
            &[power(0, 1), power(1, 1)],
            some,
            Weight::of(some),
            6,
        )
        && has(&terms, &[power(0, 1), power(2, 1)], Frac::zero(), none, 4)
}

/// The joined terms of a list, none where they don't join.
fn met(alloc: Global, list: &[Numbers]) -> Result<Vec<JoinedTerm>, Fail> {
    let terms = singles(alloc, list)?;
    Ok(together(alloc, terms)?.ok_or("they don't join")?)
}

#[test]
fn weights_and_counts_of_joined_terms_are_multiplied(rt: HostRuntime) -> Result<(), Fail> {
    let alloc = rt.alloc();
    let fronts = met(alloc, &[(0, 1, 1), (0, 4, 1)])?;
    let factor = met(
        alloc,
        &[(1, 1, 3), (1, 1, 1), (1, 1, 1), (2, 1, 1), (2, -1, 1)],
    )?;
    assert!(rt; are_two(times_joined(alloc, fronts, &factor)?));
    Ok(())
}

/// Behind x, the square of x + 2*y, or none where it isn't kept.
fn square_behind(alloc: Global, room: usize) -> Result<Option<Vec<JoinedTerm>>, AllocError> {
    let list = items(alloc, &[(0, 1, 1), (1, 2, 1)])?;
    let mut powers = Powers::new(alloc, &list, room);
    powers.make(&list, 1)?;
    let front = JoinedTerm::single(item(alloc, (0, 1, 1))?);
    let Some(power) = powers.behind(&front, 1) else {
        return Ok(None);
    };
    power.times(alloc, front)
}

/// Whether these are x^3 + 4*x^2*y + 4*x*y^2.
fn are_three(terms: &[JoinedTerm]) -> bool {
    let four = fraction(4, 1);
    let weight = Weight::of(four);
    terms.len() == 3
        && has(
            terms,
            &[power(0, 3)],
            fraction(1, 1),
            Weight::of(fraction(1, 1)),
            1,
        )
        && has(terms, &[power(0, 2), power(1, 1)], four, weight, 2)
        && has(terms, &[power(0, 1), power(1, 2)], four, weight, 1)
}

#[test]
fn a_power_stands_behind_a_term_where_it_is_kept(rt: HostRuntime) -> Result<(), Fail> {
    let alloc = rt.alloc();
    let made = square_behind(alloc, 6)?.ok_or("it isn't kept")?;
    assert!(rt; are_three(&made));
    assert!(rt; square_behind(alloc, 5)?.is_none());
    Ok(())
}
