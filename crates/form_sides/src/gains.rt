//! Right sides whose lists are likely to be made sooner where equal terms are joined. That decides how long it takes and nothing
//! else.
ghost use Rattle.std.specs.Prelude.{◌≡◌, IfOk, IfSome};
ghost use Rattle.form_tree.specs.Tree.{Sum, pieces_of_sum};
ghost use Rattle.form_expand.specs.Expanding.{list_of_sum};
ghost use Rattle.form_joined.specs.Products.{HasList};
ghost use Rattle.form_sides.specs.Collected.{HasTerms};

use crate::sums::{sum, terms_of};
use form_collect::Terms;
use form_expand::Standing;
use form_gathered::JoinedTerm;
use form_tree::{Link, Piece};
use std::alloc::{AllocError, Global};

/// Of longer right sides nothing is seen.
const MOST_PIECES: usize = 65_536;

/// A power with more factors isn't joined.
const MOST_FACTORS: u32 = 64;

/// A product has to have so many times as many terms as the right side has pieces: reading those takes longer than it does where
/// nothing is joined.
const FEW: u64 = 8;

/// So many parentheses and functions may be open at once.
const DEEPEST: u64 = 64;

/// So many sums: the right side, and one for each parenthesis and argument that is open.
const MOST_SUMS: usize = 65;

/// The list of a right side, joined, where it and each list within it has at most `limit` terms; none where that isn't likely to
/// be made sooner, where it isn't certain that nothing in it is refused, or where too few of many terms meet.
pub fn joined_list(
    alloc: Global,
    tree: &[Piece],
    limit: u64,
    names: &Standing,
) -> Result<Option<Vec<JoinedTerm>>, AllocError>
    ensures { (s : Sum) → tree.now ≡ pieces_of_sum s →
        IfOk result (λ made. IfSome made (λ all. HasList (list_of_sum limit names.now s) all.items)) }
{
    if !gains_by_joining(tree, names) {
        return Ok(None);
    }
    sum(alloc, tree, limit, names, DEEPEST)
}

/// What the list of a right side collects to; none where its list isn't answered, or a sum may overflow.
pub fn joined_terms(
    alloc: Global,
    tree: &[Piece],
    limit: u64,
    names: &Standing,
) -> Result<Option<Terms>, AllocError>
    ensures { (s : Sum) → tree.now ≡ pieces_of_sum s →
        IfOk result (λ made. IfSome made (HasTerms (list_of_sum limit names.now s))) }
{
    if !gains_by_joining(tree, names) {
        return Ok(None);
    }
    terms_of(alloc, tree, limit, names, DEEPEST)
}

/// Whether a product of a right side, or of a sum in it, has three factors of several terms, powers counted, and many terms, and
/// all of it can be joined. Of two factors each product is made once anyway.
fn gains_by_joining(tree: &[Piece], names: &Standing) -> bool {
    if tree.len() > MOST_PIECES {
        return false;
    }
    let mut look = Look {
        sums: [Seen::nothing(); MOST_SUMS],
        depth: 0,
        most: 0,
    };
    for piece in tree {
        if !look.take(piece, names) {
            return false;
        }
    }
    look.most / FEW >= tree.len() as u64
}

/// What was seen so far.
#[derive(Clone, Copy)]
struct Look {
    /// The sums that are open, the outermost first.
    sums: [Seen; MOST_SUMS],
    /// Which of them is the innermost.
    depth: usize,
    /// How many terms a product has that has three factors of several terms.
    most: u64,
}

/// What was seen of a sum.
#[derive(Clone, Copy)]
struct Seen {
    /// How many terms its products have that stand before the one at hand.
    before: u64,
    /// How many factors of several terms the product at hand has, and how many terms.
    factors: u32,
    terms: u64,
}

impl Look {
    /// Looks at a piece. Answers false where it is one that isn't joined.
    fn take(&mut self, piece: &Piece, names: &Standing) -> bool {
        let Some(sum) = self.sums.get_mut(self.depth) else {
            return false;
        };
        match piece {
            Piece::Number { link, .. }
            | Piece::Symbol { link, .. }
            | Piece::Imaginary { link, .. }
            | Piece::Dot { link, .. }
            | Piece::Component { link, .. }
            | Piece::Delta { link, .. }
            | Piece::Function { link, .. } => sum.begin(*link),
            Piece::Stored {
                link,
                expression,
                power,
            } => {
                sum.begin(*link);
                return self.end(names.terms_of(*expression).len() as u64, *power);
            }
            Piece::Open { link } => {
                sum.begin(*link);
                self.open();
            }
            Piece::Argument => self.open(),
            Piece::Close { power } => {
                let terms = sum.before.saturating_add(sum.terms);
                self.leave();
                return self.end(terms, *power);
            }
            Piece::EndOfArgument => self.leave(),
            Piece::EndOfFunction { power } => return *power <= MOST_FACTORS,
            Piece::Index(_) | Piece::Vector(_) => {}
            _ => return false,
        }
        true
    }

    /// A sum begins within the product at hand.
    fn open(&mut self) {
        self.depth = self.depth.saturating_add(1);
        if let Some(sum) = self.sums.get_mut(self.depth) {
            *sum = Seen::nothing();
        }
    }

    fn leave(&mut self) {
        self.depth = self.depth.saturating_sub(1);
    }

    /// A factor of so many terms ends, to a power. Answers false where that isn't joined.
    fn end(&mut self, terms: u64, power: u32) -> bool {
        let Some(sum) = self.sums.get_mut(self.depth) else {
            return false;
        };
        if power > MOST_FACTORS {
            return false;
        }
        if terms > 1 {
            sum.factors = sum.factors.saturating_add(power);
            sum.terms = raised(sum.terms, terms, power);
        }
        if sum.factors > 2 {
            self.most = self.most.max(sum.terms);
        }
        true
    }
}

impl Seen {
    fn nothing() -> Seen {
        Seen {
            before: 0,
            factors: 0,
            terms: 0,
        }
    }

    /// A factor begins.
    fn begin(&mut self, link: Link) {
        if link != Link::Times {
            self.before = self.before.saturating_add(self.terms);
            self.factors = 0;
            self.terms = 1;
        }
    }
}

/// A number times a power of another one, or the largest.
fn raised(first: u64, factor: u64, power: u32) -> u64 {
    let mut all = first;
    for _made in 0..power {
        all = all.saturating_mul(factor);
    }
    all
}
