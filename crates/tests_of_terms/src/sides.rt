//! Right sides with equal terms joined: their lists, what these collect to, and which of them are likely to gain by it, as the
//! others aren't answered.

use crate::joined::{has, power};
use form_base::Id;
use form_collect::{Collector, Terms};
use form_expand::{Standing, Stored, whole_list};
use form_frac::{Frac, Weight};
use form_gathered::JoinedTerm;
use form_sides::{joined_list, joined_terms};
use form_term::{Component, Index, Monomial, Natural, Power, Term};
use form_tree::{Link, Piece};
use std::alloc::{AllocError, Global};
use std::test::Fail;

/// A limit that no list here comes to.
const LARGE: u64 = 20_000;

fn symbol(link: Link, position: u32, power: i32) -> Piece {
    Piece::Symbol {
        link,
        symbol: Id::new(position),
        power,
    }
}

/// The expression 3, which is x - 2*y, to a power.
fn stored(link: Link, power: u32) -> Piece {
    Piece::Stored {
        link,
        expression: Id::new(3),
        power,
    }
}

fn standing(alloc: Global) -> Result<Standing, AllocError> {
    let mut terms = Vec::new(alloc);
    for (position, coefficient) in [(0, 1), (1, -2)] {
        terms.push(Monomial {
            coefficient: Frac::whole(coefficient),
            term: Term::symbol(alloc, Id::new(position), 1)?,
        })?;
    }
    let mut all = Vec::new(alloc);
    all.push(Stored {
        expression: Id::new(3),
        terms: Terms::from_vec(terms),
    })?;
    Ok(Standing::from_vec(all))
}

/// x + y or x - y in parentheses to a power, x and y being the symbols 0 and 1.
fn sum(link: Link, second: Link, power: u32) -> [Piece; 4] {
    [
        Piece::Open { link },
        symbol(Link::Plus, 0, 1),
        symbol(second, 1, 1),
        Piece::Close { power },
    ]
}

/// x + y to a power times x - y to the same one.
fn conjugates(alloc: Global, power: u32) -> Result<Vec<Piece>, AllocError> {
    let mut all = Vec::from_slice(alloc, &sum(Link::Plus, Link::Plus, power))?;
    all.extend_from_slice(&sum(Link::Times, Link::Minus, power))?;
    Ok(all)
}

/// A joined term by its powers, its sum, how many ones weigh as much, and its count.
type Row<'a> = (&'a [Power], i32, i32, u64);

fn has_row(terms: &[JoinedTerm], row: &Row) -> bool {
    let (powers, sum, weight, count) = *row;
    let weight = Weight::of(Frac::whole(i128::from(weight)));
    has(terms, powers, Frac::whole(i128::from(sum)), weight, count)
}

/// Whether the list of these pieces, joined, is there within this limit, and has these terms alone.
fn is_joined(
    alloc: Global,
    pieces: &[Piece],
    limit: u64,
    rows: &[Row],
) -> Result<bool, AllocError> {
    let names = standing(alloc)?;
    let Some(terms) = joined_list(alloc, pieces, limit, &names)? else {
        return Ok(false);
    };
    for row in rows {
        if !has_row(&terms, row) {
            return Ok(false);
        }
    }
    Ok(terms.len() == rows.len())
}

#[test]
fn terms_of_a_product_meet_and_those_that_cancel_stay(rt: HostRuntime) -> Result<(), Fail> {
    let alloc = rt.alloc();
    let rows: [Row; 7] = [
        (&[power(0, 6)], 1, 1, 1),
        (&[power(0, 5), power(1, 1)], 0, 6, 6),
        (&[power(0, 4), power(1, 2)], -3, 15, 15),
        (&[power(0, 3), power(1, 3)], 0, 20, 20),
        (&[power(0, 2), power(1, 4)], 3, 15, 15),
        (&[power(0, 1), power(1, 5)], 0, 6, 6),
        (&[power(1, 6)], -1, 1, 1),
    ];
    assert!(rt; is_joined(alloc, &conjugates(alloc, 3)?, 64, &rows)?);
    Ok(())
}

#[test]
fn terms_of_a_power_meet_behind_a_minus_sign(rt: HostRuntime) -> Result<(), Fail> {
    let alloc = rt.alloc();
    let rows: [Row; 6] = [
        (&[power(0, 5)], -1, 1, 1),
        (&[power(0, 4), power(1, 1)], -5, 5, 5),
        (&[power(0, 3), power(1, 2)], -10, 10, 10),
        (&[power(0, 2), power(1, 3)], -10, 10, 10),
        (&[power(0, 1), power(1, 4)], -5, 5, 5),
        (&[power(1, 5)], -1, 1, 1),
    ];
    assert!(rt; is_joined(alloc, &sum(Link::Minus, Link::Plus, 5), 32, &rows)?);
    Ok(())
}

#[test]
fn terms_of_products_in_a_sum_meet(rt: HostRuntime) -> Result<(), Fail> {
    let alloc = rt.alloc();
    let mut pieces = Vec::from_slice(alloc, &sum(Link::Plus, Link::Minus, 6))?;
    pieces.extend_from_slice(&[stored(Link::Minus, 5), symbol(Link::Times, 1, 1)])?;
    let rows: [Row; 7] = [
        (&[power(0, 6)], 1, 1, 1),
        (&[power(0, 5), power(1, 1)], -7, 7, 7),
        (&[power(0, 4), power(1, 2)], 25, 25, 20),
        (&[power(0, 3), power(1, 3)], -60, 60, 30),
        (&[power(0, 2), power(1, 4)], 95, 95, 25),
        (&[power(0, 1), power(1, 5)], -86, 86, 11),
        (&[power(1, 6)], 33, 33, 2),
    ];
    assert!(rt; is_joined(alloc, &pieces, 96, &rows)?);
    Ok(())
}

/// The function 2 of this argument, to a power.
fn function_of(alloc: Global, argument: &[Piece], power: u32) -> Result<Vec<Piece>, AllocError> {
    let begun = Piece::Function {
        link: Link::Plus,
        function: Id::new(2),
        is_commuting: true,
    };
    let mut all = Vec::from_slice(alloc, &[begun, Piece::Argument])?;
    all.extend_from_slice(argument)?;
    all.extend_from_slice(&[Piece::EndOfArgument, Piece::EndOfFunction { power }])?;
    Ok(all)
}

/// The square of a function that doesn't commute, of an index and a vector.
fn word(link: Link) -> [Piece; 4] {
    [
        Piece::Function {
            link,
            function: Id::new(6),
            is_commuting: false,
        },
        Piece::Index(Index::Declared(Id::new(4))),
        Piece::Vector(Id::new(5)),
        Piece::EndOfFunction { power: 2 },
    ]
}

/// A dot product, a component and a delta, to powers.
fn tensors(link: Link) -> [Piece; 3] {
    [
        Piece::Dot {
            link,
            left: Id::new(5),
            right: Id::new(5),
            power: -1,
        },
        Piece::Component {
            link,
            component: Component {
                vector: Id::new(5),
                index: Index::Fixed(3),
            },
            power: 2,
        },
        Piece::Delta {
            link,
            first: Index::Declared(Id::new(4)),
            second: Index::Fixed(1),
            power: 2,
        },
    ]
}

/// One factor of each kind, without parentheses, of which the terms of an expression stand seven times.
fn kinds(alloc: Global) -> Result<Vec<Piece>, AllocError> {
    let number = Piece::Number {
        link: Link::Minus,
        value: Natural::new(3),
        power: -2,
    };
    let imaginary = Piece::Imaginary {
        link: Link::Times,
        power: 3,
    };
    let others = [symbol(Link::Times, 1, -2), stored(Link::Times, 7)];
    let mut all = Vec::from_slice(alloc, &[number, imaginary])?;
    all.extend_from_slice(&others)?;
    all.extend_from_slice(&tensors(Link::Times))?;
    all.extend_from_slice(&word(Link::Times))?;
    Ok(all)
}

/// What the terms that are made one by one collect to; none where one is refused, or their sums are.
fn collected(
    alloc: Global,
    pieces: &[Piece],
    names: &Standing,
) -> Result<Option<Terms>, AllocError> {
    let list = whole_list(alloc, pieces, LARGE, names)?;
    if list.end.is_some() {
        return Ok(None);
    }
    let mut collector = Collector::new(alloc);
    for item in list.terms() {
        collector.add(item.clone()?)?;
    }
    match collector.into_terms() {
        Ok(terms) => Ok(Some(terms)),
        Err(_) => Ok(None),
    }
}

fn are_equal(terms: &[Monomial], others: &[Monomial]) -> bool {
    for (item, other) in terms.iter().zip(others) {
        if item.term != other.term || item.coefficient != other.coefficient {
            return false;
        }
    }
    terms.len() == others.len()
}

/// Whether these pieces are joined, and collect to so many terms, which are those that are made one by one.
fn collect_to(alloc: Global, pieces: &[Piece], count: usize) -> Result<bool, AllocError> {
    let names = standing(alloc)?;
    let Some(joined) = joined_terms(alloc, pieces, LARGE, &names)? else {
        return Ok(false);
    };
    let Some(terms) = collected(alloc, pieces, &names)? else {
        return Ok(false);
    };
    Ok(joined.as_slice().len() == count && are_equal(joined.as_slice(), terms.as_slice()))
}

#[test]
fn terms_that_cancel_are_not_collected(rt: HostRuntime) -> Result<(), Fail> {
    let alloc = rt.alloc();
    assert!(rt; collect_to(alloc, &conjugates(alloc, 3)?, 4)?);
    Ok(())
}

#[test]
fn arguments_are_collected(rt: HostRuntime) -> Result<(), Fail> {
    let alloc = rt.alloc();
    let inner = function_of(alloc, &conjugates(alloc, 4)?, 2)?;
    assert!(rt; collect_to(alloc, &function_of(alloc, &inner, 1)?, 1)?);
    Ok(())
}

#[test]
fn factors_of_each_kind_are_joined(rt: HostRuntime) -> Result<(), Fail> {
    let alloc = rt.alloc();
    assert!(rt; collect_to(alloc, &kinds(alloc)?, 8)?);
    Ok(())
}

/// Whether a list of these pieces within this limit isn't answered, and so no terms either.
fn is_unknown(alloc: Global, pieces: &[Piece], limit: u64) -> Result<bool, AllocError> {
    let names = standing(alloc)?;
    let list = joined_list(alloc, pieces, limit, &names)?;
    let terms = joined_terms(alloc, pieces, limit, &names)?;
    Ok(list.is_none() && terms.is_none())
}

#[test]
fn a_list_over_its_limit_is_unknown(rt: HostRuntime) -> Result<(), Fail> {
    let alloc = rt.alloc();
    assert!(rt; is_unknown(alloc, &conjugates(alloc, 3)?, 63)?);
    assert!(rt; is_unknown(alloc, &sum(Link::Plus, Link::Plus, 5), 31)?);
    assert!(rt; is_unknown(alloc, &[stored(Link::Plus, 3)], 7)?);
    Ok(())
}

/// x, plus or times a power of y, and z behind it: all of this six times.
fn with_large_power(link: Link, power: i32) -> [Piece; 5] {
    [
        Piece::Open { link: Link::Plus },
        symbol(Link::Plus, 0, 1),
        symbol(link, 1, power),
        symbol(Link::Plus, 2, 1),
        Piece::Close { power: 6 },
    ]
}

#[test]
fn what_is_refused_is_unknown(rt: HostRuntime) -> Result<(), Fail> {
    let alloc = rt.alloc();
    assert!(rt; is_unknown(alloc, &with_large_power(Link::Plus, 166_666_667), LARGE)?);
    assert!(rt; is_unknown(alloc, &with_large_power(Link::Times, 166_666_667), LARGE)?);
    assert!(rt; collect_to(alloc, &with_large_power(Link::Plus, 166_666_666), 28)?);
    assert!(rt; collect_to(alloc, &with_large_power(Link::Times, 166_666_666), 7)?);
    Ok(())
}

/// A power of x + y within so many parentheses, its own ones counted.
fn nested(alloc: Global, depth: usize) -> Result<Vec<Piece>, AllocError> {
    let mut all = Vec::new(alloc);
    for _open in 1..depth {
        all.extend_from_slice(&[Piece::Open { link: Link::Plus }])?;
    }
    all.extend_from_slice(&sum(Link::Plus, Link::Plus, 11))?;
    for _close in 1..depth {
        all.extend_from_slice(&[Piece::Close { power: 1 }])?;
    }
    Ok(all)
}

#[test]
fn sums_within_64_parentheses_are_joined(rt: HostRuntime) -> Result<(), Fail> {
    let alloc = rt.alloc();
    assert!(rt; collect_to(alloc, &nested(alloc, 64)?, 12)?);
    assert!(rt; is_unknown(alloc, &nested(alloc, 65)?, LARGE)?);
    Ok(())
}

/// A sum of so many symbols from one on, in parentheses to a power.
fn put_wide(
    all: &mut Vec<Piece>,
    link: Link,
    first: u32,
    count: u32,
    power: u32,
) -> Result<(), AllocError> {
    all.extend_from_slice(&[Piece::Open { link }])?;
    for place in 0..count {
        all.extend_from_slice(&[symbol(Link::Plus, first.saturating_add(place), 1)])?;
    }
    all.extend_from_slice(&[Piece::Close { power }])
}

/// The product of three sums of so many symbols that have none in common.
fn apart(alloc: Global, count: u32) -> Result<Vec<Piece>, AllocError> {
    let mut all = Vec::new(alloc);
    put_wide(&mut all, Link::Plus, 0, count, 1)?;
    put_wide(&mut all, Link::Times, 32, count, 1)?;
    put_wide(&mut all, Link::Times, 64, count, 1)?;
    Ok(all)
}

#[test]
fn many_products_are_joined_where_most_meet(rt: HostRuntime) -> Result<(), Fail> {
    let alloc = rt.alloc();
    let mut pieces = Vec::new(alloc);
    put_wide(&mut pieces, Link::Plus, 0, 26, 3)?;
    assert!(rt; collect_to(alloc, &pieces, 3_276)?);
    Ok(())
}

#[test]
fn many_products_are_unknown_where_none_meet(rt: HostRuntime) -> Result<(), Fail> {
    let alloc = rt.alloc();
    assert!(rt; is_unknown(alloc, &apart(alloc, 26)?, LARGE)?);
    assert!(rt; collect_to(alloc, &apart(alloc, 25)?, 15_625)?);
    Ok(())
}

/// Whether what these pieces collect to is answered.
fn gain(alloc: Global, pieces: &[Piece]) -> Result<bool, AllocError> {
    Ok(joined_terms(alloc, pieces, LARGE, &standing(alloc)?)?.is_some())
}

#[test]
fn powers_and_products_of_many_terms_gain(rt: HostRuntime) -> Result<(), Fail> {
    let alloc = rt.alloc();
    assert!(rt; gain(alloc, &sum(Link::Plus, Link::Plus, 5))?);
    assert!(rt; !gain(alloc, &sum(Link::Plus, Link::Plus, 4))?);
    assert!(rt; !gain(alloc, &sum(Link::Plus, Link::Plus, 65))?);
    assert!(rt; gain(alloc, &[stored(Link::Plus, 2), stored(Link::Times, 2)])?);
    assert!(rt; !gain(alloc, &[stored(Link::Plus, 2), stored(Link::Minus, 2)])?);
    assert!(rt; !gain(alloc, &conjugates(alloc, 1)?)?);
    Ok(())
}

#[test]
fn what_is_not_joined_does_not_gain(rt: HostRuntime) -> Result<(), Fail> {
    let alloc = rt.alloc();
    let mut pieces = Vec::from_slice(alloc, &sum(Link::Plus, Link::Plus, 9))?;
    assert!(rt; gain(alloc, &pieces)?);
    pieces.push(Piece::Wild {
        link: Link::Times,
        symbol: Id::new(0),
        is_over: false,
        power: 1,
    })?;
    assert!(rt; !gain(alloc, &pieces)?);
    assert!(rt; is_unknown(alloc, &pieces, LARGE)?);
    Ok(())
}

#[test]
fn arguments_gain_as_right_sides_do(rt: HostRuntime) -> Result<(), Fail> {
    let alloc = rt.alloc();
    assert!(rt;
        gain(
            alloc,
            &function_of(alloc, &sum(Link::Plus, Link::Plus, 6), 1)?
        )?
    );
    assert!(rt;
        !gain(
            alloc,
            &function_of(alloc, &sum(Link::Plus, Link::Plus, 5), 9)?
        )?
    );
    assert!(rt; gain(alloc, &function_of(alloc, &factors(alloc, 9)?, 1)?)?);
    Ok(())
}

/// So many factors x + y.
fn factors(alloc: Global, count: usize) -> Result<Vec<Piece>, AllocError> {
    let mut all = Vec::from_slice(alloc, &sum(Link::Plus, Link::Plus, 1))?;
    for _factor in 1..count {
        all.extend_from_slice(&sum(Link::Times, Link::Plus, 1))?;
    }
    Ok(all)
}

/// The sum of the expression 3 and y, to a power.
fn with_stored(power: u32) -> [Piece; 4] {
    [
        Piece::Open { link: Link::Plus },
        stored(Link::Plus, 1),
        symbol(Link::Plus, 1, 1),
        Piece::Close { power },
    ]
}

#[test]
fn stored_terms_count_within_parentheses(rt: HostRuntime) -> Result<(), Fail> {
    let alloc = rt.alloc();
    assert!(rt; gain(alloc, &with_stored(4))?);
    assert!(rt; !gain(alloc, &with_stored(3))?);
    Ok(())
}
