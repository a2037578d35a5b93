ghost use Rattle.std.specs.Prelude.{◌≡◌, ◌&&◌, ◌||◌, false, not, filter, [], ◌∷◌, ◌++◌, Ok, Err, IfOk};
ghost use Rattle.std.specs.Bool.{OnTrue};
ghost use Rattle.std.specs.List.{list_any};
ghost use Rattle.form_base.specs.declared.cause.Cause.{Cause};
ghost use Rattle.form_term.specs.Term.{IsTerm, RisesBy, nothing, of_symbols, delta_order};
ghost use Rattle.form_term.specs.Terms.{term};
ghost use Rattle.form_normal.specs.Lists.{in_order as in_order_of};
ghost use Rattle.form_term.specs.SymbolLaws.{ArePowers};
ghost use Rattle.form_normal.specs.Factors.{AreJoined, IsPlain};
ghost use Rattle.form_normal.specs.Product.{are_in_range as are_in_range_of, are_dots_in_range as are_dots_in_range_of, is_one as is_one_of, is_zero as is_zero_of, turned as turned_of, term_product, others_product, limited as limited_of, product_of};

use crate::merging::{both, in_order, merged, merged_dots};
use form_base::Cause;
use form_frac::Frac;
use form_term::{Call, Delta, DotPower, Index, Monomial, Others, Power, Term};
use std::alloc::{AllocError, Global};

/// The largest size of an exponent.
pub(crate) const LARGEST_EXPONENT: u32 = 1_000_000_000;
/// The most factors that a term may have.
pub(crate) const LARGEST_SIZE: usize = 4096;

/// Why there is no product.
#[derive(Drop)]
pub enum ProductError {
    Refused(Cause),
    Memory,
}

impl From<AllocError> for ProductError {
    ghost use Rattle.std.specs.Prelude.{◌≡◌};
    ghost use Rattle.form_normal.specs.declared.products.ProductError.TheVariants.{Memory};

    ghost from_gives = { λ _ e. e ≡ Memory };

    fn from(_: AllocError) -> Self {
        ProductError::Memory
    }
}

/// The product of two terms with their coefficients, none where it is 0.
pub fn product(
    alloc: Global,
    left: &Monomial,
    right: &Monomial,
) -> Result<Option<Monomial>, ProductError>
    ensures ok { IfOk result (λ m. product_of left.now right.now ≡ Ok m) }
    ensures refused { (cause : Cause) → result ≡ Err (ProductError.Refused cause) →
        product_of left.now right.now ≡ Err cause }
{
    if is_zero_product(&left.term, &right.term) {
        return Ok(None);
    }
    let Ok(size) = left.coefficient.mul(right.coefficient) else {
        return Err(ProductError::Refused(Cause::Overflow));
    };
    let coefficient = turned(has_square(&left.term, &right.term), size);
    let term = product_of_terms(alloc, &left.term, &right.term)?;
    Ok(Some(Monomial { coefficient, term }))
}

/// Whether the product of two terms is 0.
fn is_zero_product(left: &Term, right: &Term) -> bool
    ensures { result ≡ (list_any is_zero_of left.now.others.deltas || list_any is_zero_of right.now.others.deltas) }
{
    has_zero(left.deltas()) || has_zero(right.deltas())
}

/// Whether `i_` stands in both terms, so that their product has the factor -1.
fn has_square(left: &Term, right: &Term) -> bool
    ensures { result ≡ (left.now.others.is_imaginary && right.now.others.is_imaginary) }
{
    left.is_imaginary() && right.is_imaginary()
}

/// A coefficient with its sign turned, or as it is.
pub(crate) fn turned(is_negative: bool, coefficient: Frac) -> Frac
    ensures { result ≡ turned_of is_negative coefficient }
{
    if is_negative {
        coefficient.neg()
    } else {
        coefficient
    }
}

/// The product of two terms within the limits.
fn product_of_terms(alloc: Global, left: &Term, right: &Term) -> Result<Term, ProductError>
    ensures ok { IfOk result (λ t. limited_of (term_product (left.now ∷ right.now ∷ [])) ≡ Ok t) }
    ensures refused { (cause : Cause) → result ≡ Err (ProductError.Refused cause) →
        limited_of (term_product (left.now ∷ right.now ∷ [])) ≡ Err cause }
{
    let powers = merged(alloc, left.powers(), right.powers())?;
    if left.has_only_symbols() && right.has_only_symbols() {
        return limited_symbols(alloc, powers);
    }
    let others = product_of_others(alloc, left, right)?;
    limited(alloc, powers, others)
}

/// A term of powers of symbols alone, within the limits.
fn limited_symbols(alloc: Global, powers: Vec<Power>) -> Result<Term, ProductError>
    requires { ArePowers powers.items }
    ensures ok { IfOk result (λ t. limited_of (of_symbols powers.items) ≡ Ok t) }
    ensures refused { (cause : Cause) → result ≡ Err (ProductError.Refused cause) →
        limited_of (of_symbols powers.items) ≡ Err cause }
{
    if !are_in_range(&powers) {
        return Err(ProductError::Refused(Cause::PowerRange));
    }
    if powers.len() > LARGEST_SIZE {
        return Err(ProductError::Refused(Cause::TermSize));
    }
    Ok(Term::from_powers(alloc, powers))
}

/// A term within the limits. A product is no deeper than its factors.
pub(crate) fn limited(
    alloc: Global,
    powers: Vec<Power>,
    others: Others,
) -> Result<Term, ProductError>
    requires powers { ArePowers powers.items }
    requires others { AreJoined others }
    ensures ok { IfOk result (λ t. limited_of (term powers.items others) ≡ Ok t) }
    ensures refused { (cause : Cause) → result ≡ Err (ProductError.Refused cause) →
        limited_of (term powers.items others) ≡ Err cause }
{
    if !are_in_range(&powers) || !are_dots_in_range(&others.dots) {
        return Err(ProductError::Refused(Cause::PowerRange));
    }
    if powers.len() + others.size() > LARGEST_SIZE {
        return Err(ProductError::Refused(Cause::TermSize));
    }
    Ok(Term::from_factors(alloc, powers, others)?)
}

/// Whether each exponent is within its limit.
fn are_in_range(powers: &[Power]) -> bool
    ensures { result ≡ are_in_range_of powers.now }
{
    powers
        .iter()
        .all(|power| power.exponent.unsigned_abs() <= LARGEST_EXPONENT)
}

/// Whether each exponent is within its limit.
fn are_dots_in_range(dots: &[DotPower]) -> bool
    ensures { result ≡ are_dots_in_range_of dots.now }
{
    dots.iter()
        .all(|dot| dot.exponent.unsigned_abs() <= LARGEST_EXPONENT)
}

/// The factors of a product besides powers of symbols. In most there are functions alone.
fn product_of_others(alloc: Global, left: &Term, right: &Term) -> Result<Others, AllocError>
    requires left { IsTerm left.now }
    requires right { IsTerm right.now }
    ensures { IfOk result (λ o. o ≡ others_product (left.now ∷ right.now ∷ [])) }
{
    if is_plain(left) && is_plain(right) {
        let functions = in_order(alloc, left.functions(), right.functions())?;
        return Ok(functions_alone(alloc, functions));
    }
    product_of_all_others(alloc, left, right)
}

/// Whether a term has powers of symbols and commuting functions alone.
pub(crate) fn is_plain(term: &Term) -> bool
    ensures is { OnTrue result (IsPlain term.now) }
    ensures none { result ≡ false → IsPlain term.now → ⊥ }
{
    !term.is_imaginary()
        && term.dots().is_empty()
        && term.components().is_empty()
        && term.deltas().is_empty()
        && term.word().is_empty()
}

fn functions_alone(alloc: Global, functions: Vec<Call>) -> Others
    ensures { result ≡ record nothing { functions = functions.items } }
{
    Others {
        is_imaginary: false,
        dots: Vec::new(alloc),
        components: Vec::new(alloc),
        deltas: Vec::new(alloc),
        functions,
        word: Vec::new(alloc),
    }
}

/// The same where there may be factors of every kind, apart from the code that most products run through.
#[inline(never)]
fn product_of_all_others(alloc: Global, left: &Term, right: &Term) -> Result<Others, AllocError>
    requires left { IsTerm left.now }
    requires right { IsTerm right.now }
    ensures { IfOk result (λ o. o ≡ others_product (left.now ∷ right.now ∷ [])) }
{
    Ok(Others {
        is_imaginary: left.is_imaginary() != right.is_imaginary(),
        dots: merged_dots(alloc, left.dots(), right.dots())?,
        components: in_order(alloc, left.components(), right.components())?,
        deltas: open_deltas(alloc, left.deltas(), right.deltas())?,
        functions: in_order(alloc, left.functions(), right.functions())?,
        word: both(alloc, left.word(), right.word())?,
    })
}

/// The deltas of a product, of which those of two equal fixed indices are 1.
fn open_deltas(alloc: Global, left: &[Delta], right: &[Delta]) -> Result<Vec<Delta>, AllocError>
    requires left { RisesBy delta_order left.now }
    requires right { RisesBy delta_order right.now }
    ensures { IfOk result (λ deltas. deltas.items
        ≡ filter (λ d. not (is_one_of d)) (in_order_of delta_order (left.now ++ right.now))) }
{
    let mut deltas = in_order(alloc, left, right)?;
    deltas.retain(|delta| !is_one(delta));
    Ok(deltas)
}

/// Whether one of these deltas is 0.
pub(crate) fn has_zero(deltas: &[Delta]) -> bool
    ensures { result ≡ list_any is_zero_of deltas.now }
{
    deltas.iter().any(|delta| is_zero(delta))
}

/// Whether a delta is 0, its indices being fixed and different.
pub(crate) fn is_zero(delta: &Delta) -> bool
    ensures { result ≡ is_zero_of delta.now }
{
    match (delta.first, delta.second) {
        (Index::Fixed(first), Index::Fixed(second)) => first != second,
        _ => false,
    }
}

/// Whether a delta is 1, its indices being fixed and equal.
pub(crate) fn is_one(delta: &Delta) -> bool
    ensures { result ≡ is_one_of delta.now }
{
    match (delta.first, delta.second) {
        (Index::Fixed(first), Index::Fixed(second)) => first == second,
        _ => false,
    }
}
