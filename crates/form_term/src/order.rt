ghost use Rattle.std.specs.Prelude.{◌≡◌, ◌↔◌, ◌<◌, [], ◌∷◌, nat_abs, true};
ghost use Rattle.std.specs.Ordering.{ordering_then};
ghost use Rattle.form_term.specs.Term.{order, symbols_order, dots_order, others_order, end_of_term};
ghost use Rattle.form_term.specs.SymbolLaws.{ArePowers};

use crate::{Coefficient, DotPower, Piece, Power, Term};
use std::cmp::Ordering;

/// The order of terms: by the exponent of `i_`, of symbols and of dot products, the lower one first, then by the lists
/// of components, deltas, commuting functions and non-commuting ones.
pub fn compare(left: &Term, right: &Term) -> Ordering
    ensures order { result ≡ order left.now right.now }
    ensures equal { (result ≡ Ordering.Equal) ↔ (left.now ≡ right.now) }
{
    let imaginary = left.is_imaginary().cmp(&right.is_imaginary());
    let symbols = compare_symbols(left.powers(), right.powers());
    imaginary.then(or_by_others(symbols, left, right))
}

/// An order, and where it doesn't decide, that of the factors besides `i_` and powers of symbols.
fn or_by_others(symbols: Ordering, left: &Term, right: &Term) -> Ordering
    ensures { result ≡ ordering_then symbols (others_order left.now.others right.now.others) }
{
    match symbols {
        Ordering::Less => Ordering::Less,
        Ordering::Equal => compare_others(left, right),
        Ordering::Greater => Ordering::Greater,
    }
}

/// The order of these powers of symbols.
fn compare_symbols(left: &[Power], right: &[Power]) -> Ordering
    requires left { ArePowers left.now }
    requires right { ArePowers right.now }
    ensures { result ≡ symbols_order left.now right.now }
{
    let mut rest = right.iter();
    for l in left {
        let Some(r) = rest.next() else {
            return l.exponent.cmp(&0);
        };
        let ordering = compare_powers(*l, *r);
        if ordering != Ordering::Equal {
            return ordering;
        }
    }
    match rest.next() {
        Some(r) => 0.cmp(&r.exponent),
        None => Ordering::Equal,
    }
}

/// The order of two powers, each alone.
fn compare_powers(left: Power, right: Power) -> Ordering
    requires left { 0 < nat_abs left.exponent }
    requires right { 0 < nat_abs right.exponent }
    ensures { result ≡ symbols_order (left ∷ []) (right ∷ []) }
{
    match left.symbol.cmp(&right.symbol) {
        Ordering::Less => left.exponent.cmp(&0),
        Ordering::Equal => left.exponent.cmp(&right.exponent),
        Ordering::Greater => 0.cmp(&right.exponent),
    }
}

/// The order of two terms by their factors besides `i_` and powers of symbols.
fn compare_others(left: &Term, right: &Term) -> Ordering
    ensures { result ≡ others_order left.now.others right.now.others }
{
    if left.has_rest() {
        return compare_all(left, right);
    }
    if right.has_rest() {
        return compare_all(left, right);
    }
    left.functions().cmp(&right.functions())
}

/// The same, where more than commuting functions may be there.
fn compare_all(left: &Term, right: &Term) -> Ordering
    ensures { result ≡ others_order left.now.others right.now.others }
{
    let dots = compare_dots(left.dots(), right.dots());
    let components = left.components().cmp(&right.components());
    let deltas = left.deltas().cmp(&right.deltas());
    let functions = left.functions().cmp(&right.functions());
    let word = left.word().cmp(&right.word());
    dots.then(components.then(deltas.then(functions.then(word))))
}

/// The end of a term.
fn end() -> Piece
    ensures { result ≡ end_of_term }
{
    Piece::EndOfTerm(Coefficient::new(1, 1))
}

/// The order of these dot products.
fn compare_dots(left: &[DotPower], right: &[DotPower]) -> Ordering
    ensures { result ≡ dots_order left.now right.now }
{
    let mut rest = right.iter();
    for l in left {
        let Some(r) = rest.next() else {
            return Piece::of_dot(*l).cmp(&end());
        };
        let ordering = Piece::of_dot(*l).cmp(&Piece::of_dot(*r));
        if ordering != Ordering::Equal {
            return ordering;
        }
    }
    match rest.next() {
        Some(r) => end().cmp(&Piece::of_dot(*r)),
        None => Ordering::Equal,
    }
}
