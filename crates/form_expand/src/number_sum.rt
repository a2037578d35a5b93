//! Arguments of functions that are sums of products of numbers: they are added up while they are read.
ghost use Rattle.std.specs.Prelude.{◌≡◌, Some, IfSome};
ghost use Rattle.form_expand.specs.NumberSums.{IsNumberPiece, IsNumberArgument, IsEndOfSum, begun_sum, begun_behind, times_sum, further_sum, total_of, with_minus};

use crate::bound::bound_number;
use crate::number::number_alone;
use crate::stored::Standing;
use form_frac::Frac;
use form_normal::laws;
use form_tree::{Link, Piece};

/// A sum of numbers that is being read: what its products are together but for the last, none where that is the first, and
/// the last one behind its sign.
#[derive(Clone, Copy)]
pub struct Adding {
    pub sum: Option<Frac>,
    pub is_minus: bool,
    pub product: Frac,
}

impl Adding {
    /// With its first factor.
    fn begun(link: Link, number: Frac) -> Adding
        ensures { result ≡ begun_sum link number }
    {
        Adding {
            sum: None,
            is_minus: link == Link::Minus,
            product: number,
        }
    }

    /// With a further factor; none where that overflows.
    fn further(self, link: Link, number: Frac) -> Option<Adding>
        ensures { result ≡ further_sum self link number }
    {
        match link {
            Link::Times => self.times(number),
            Link::Plus => self.then(false, number),
            Link::Minus => self.then(true, number),
        }
    }

    fn times(self, number: Frac) -> Option<Adding>
        ensures { result ≡ times_sum self number }
    {
        let product = self.product.mul(number).ok()?;
        Some(Adding {
            sum: self.sum,
            is_minus: self.is_minus,
            product,
        })
    }

    /// With the first factor of a further product.
    fn then(self, is_minus: bool, number: Frac) -> Option<Adding>
        ensures { result ≡ begun_behind self is_minus number }
    {
        let sum = self.total()?;
        Some(Adding {
            sum: Some(sum),
            is_minus,
            product: number,
        })
    }

    /// What all products are together; none where that overflows.
    fn total(self) -> Option<Frac>
        ensures { result ≡ total_of self }
    {
        let last = signed(self.is_minus, self.product);
        match self.sum {
            None => Some(last),
            Some(sum) => sum.add(last).ok(),
        }
    }
}

/// A number behind a sign.
fn signed(is_minus: bool, number: Frac) -> Frac
    ensures { result ≡ with_minus is_minus number }
{
    if is_minus { number.neg() } else { number }
}

/// The argument that these pieces begin with, behind the one that begins it, where it is a sum of products of numbers that
/// isn't 0, and the pieces behind it. None also where it overflows, and where there are more pieces than `limit`.
pub fn number_sum<'a>(
    names: &Standing,
    pieces: &'a [Piece],
    limit: u64,
) -> Option<(Frac, &'a [Piece])>
    ensures { IfSome result (λ found. IsNumberArgument limit names.now pieces.now found.0 found.1.now) }
{
    laws::single_factors();
    if pieces.len() as u64 > limit {
        return None;
    }
    let Some((first, more)) = pieces.split_first() else {
        return None;
    };
    let Some((link, number)) = number_at(names, first) else {
        return None;
    };
    let mut adding = Adding::begun(link, number);
    let mut rest = more;
    while let Some((piece, more)) = rest.split_first() {
        let Some((link, number)) = number_at(names, piece) else {
            return ended(adding, piece, more);
        };
        let Some(further) = adding.further(link, number) else {
            return None;
        };
        adding = further;
        rest = more;
    }
    None
}

/// The number that a piece is, and how it stands to what is before it.
fn number_at(names: &Standing, piece: &Piece) -> Option<(Link, Frac)>
    ensures { IfSome result (λ read. IsNumberPiece names.now piece.now read.0 read.1) }
{
    match piece {
        Piece::Number { link, value, power } => linked(*link, number_alone(value.get(), *power)),
        Piece::Wild {
            link,
            symbol,
            is_over,
            power,
        } => linked(*link, bound_number(names, *symbol, *is_over, *power)),
        _ => None,
    }
}

fn linked(link: Link, number: Option<Frac>) -> Option<(Link, Frac)>
    ensures { IfSome result (λ read. (read.0 ≡ link) × (number ≡ Some read.1)) }
{
    match number {
        Some(number) => Some((link, number)),
        None => None,
    }
}

/// The number that is ended by this piece, where it isn't 0, and the pieces behind it.
fn ended<'a>(adding: Adding, end: &Piece, rest: &'a [Piece]) -> Option<(Frac, &'a [Piece])>
    ensures { IfSome result (λ found. IsEndOfSum adding end.now found.0 × (found.1.now ≡ rest.now)) }
{
    let Piece::EndOfArgument = end else {
        return None;
    };
    let total = adding.total()?;
    if total.is_zero() {
        return None;
    }
    Some((total, rest))
}
