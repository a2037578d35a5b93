//! The term that factors are tried on.
use form_term::Term;
use std::marker::Model;

/// The term that factors are tried on, or an inner one: the places in its word that no stretch may cross, whether a power
/// that is taken has to be the whole exponent, and whether the term stands in an argument.
#[derive(Drop)]
pub struct Host<'a> {
    term: &'a Term,
    cuts: &'a [u32],
    is_exact: bool,
    is_inner: bool,
}

impl<'a> Model for Host<'a> {
    ghost use Rattle.form_match.specs.Matching as matching;

    ghost Value = { matching.Host };

    ghost view = { λ h. record { term = h.term.now; cuts = h.cuts.now; is_exact = h.is_exact; is_inner = h.is_inner } };
}

impl<'a> Host<'a> {
    ghost use Rattle.std.specs.Prelude.{◌≡◌};
    ghost use Rattle.form_match.specs.Matching.{inner, outer};

    /// The term itself.
    pub fn outer(term: &'a Term, cuts: &'a [u32], is_exact: bool) -> Host<'a>
        ensures { result ≡ outer term.now cuts.now is_exact }
    {
        Host {
            term,
            cuts,
            is_exact,
            is_inner: false,
        }
    }

    /// A term in an argument.
    pub fn inner(term: &'a Term) -> Host<'a>
        ensures { result ≡ inner term.now }
    {
        Host {
            term,
            cuts: &[],
            is_exact: true,
            is_inner: true,
        }
    }

    pub fn term(&self) -> &'a Term
        ensures { result.now ≡ self.now.term }
    {
        self.term
    }

    pub fn cuts(&self) -> &'a [u32]
        ensures { result.now ≡ self.now.cuts }
    {
        self.cuts
    }

    pub fn is_exact(&self) -> bool
        ensures { result ≡ self.now.is_exact }
    {
        self.is_exact
    }

    pub fn is_inner(&self) -> bool
        ensures { result ≡ self.now.is_inner }
    {
        self.is_inner
    }
}
