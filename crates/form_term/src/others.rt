ghost use Rattle.std.specs.Prelude.{◌≡◌, ◌<◌, ◌^◌, sum, map, not};
ghost use Rattle.form_term.specs.Term.{nothing, is_nothing, size_of_call, size_of_others, depth_of_calls as depth_of, depth_of_others};
ghost use Rattle.form_term.specs.Terms.{rest_of};

use crate::{Call, Component, Delta, DotPower};
use std::alloc::{AllocError, Global};
use std::marker::Model;

/// The factors of a term besides powers of symbols.
#[derive(Drop)]
pub struct Others {
    /// Whether `i_` is there.
    pub is_imaginary: bool,
    /// The dot products whose exponent isn't 0, by their pairs of vectors.
    pub dots: Vec<DotPower>,
    pub components: Vec<Component>,
    pub deltas: Vec<Delta>,
    /// The commuting functions.
    pub functions: Vec<Call>,
    /// The non-commuting functions, as they are written.
    pub word: Vec<Call>,
}

impl Model for Others {
    ghost use Rattle.form_term.specs.Term as terms;

    ghost Value = { terms.Others };

    ghost view = { λ o. record {
      is_imaginary = o.is_imaginary;
      dots = o.dots.items;
      components = o.components.items;
      deltas = o.deltas.items;
      functions = o.functions.items;
      word = o.word.items;
    } };
}

impl Others {
    /// No factors, which takes no memory.
    pub fn none(alloc: Global) -> Others
        ensures { result ≡ nothing }
    {
        Others {
            is_imaginary: false,
            dots: Vec::new(alloc),
            components: Vec::new(alloc),
            deltas: Vec::new(alloc),
            functions: Vec::new(alloc),
            word: Vec::new(alloc),
        }
    }

    pub fn is_none(&self) -> bool
        ensures { result ≡ is_nothing self.now }
    {
        !self.is_imaginary
            && self.dots.is_empty()
            && self.components.is_empty()
            && self.deltas.is_empty()
            && self.functions.is_empty()
            && self.word.is_empty()
    }

    /// Whether there are more than commuting functions.
    pub(crate) fn has_rest(&self) -> bool
        ensures { result ≡ not (is_nothing (rest_of self.now)) }
    {
        self.is_imaginary
            || !self.dots.is_empty()
            || !self.components.is_empty()
            || !self.deltas.is_empty()
            || !self.word.is_empty()
    }

    /// How many factors they are, those inside arguments counted.
    pub fn size(&self) -> usize
        requires { size_of_others self.now < 2 ^ 32 }
        ensures { result ≡ size_of_others self.now }
    {
        self.dots.len()
            + self.components.len()
            + self.deltas.len()
            + size_of_calls(&self.functions)
            + size_of_calls(&self.word)
    }

    /// The depth of the deepest term in an argument, 0 without one.
    pub fn depth(&self) -> usize
        ensures { result ≡ depth_of_others self.now }
    {
        depth_of_calls(&self.functions).max(depth_of_calls(&self.word))
    }
}

/// How many factors these functions are, those inside their arguments counted.
pub(crate) fn size_of_calls(calls: &[Call]) -> usize
    requires { sum (map size_of_call calls.now) < 2 ^ 32 }
    ensures { result ≡ sum (map size_of_call calls.now) }
{
    let mut size = 0;
    for call in calls {
        size += call.size();
    }
    size
}

/// The depth of the deepest term in an argument of these functions, 0 without one.
pub(crate) fn depth_of_calls(calls: &[Call]) -> usize
    ensures { result ≡ depth_of calls.now }
{
    let mut depth: usize = 0;
    for call in calls {
        depth = depth.max(call.depth());
    }
    depth
}

impl Clone for Others {
    ghost use Rattle.std.specs.Prelude.{◌≡◌};

    ghost is_clone = { λ o p. p ≡ o };

    fn clone(&self) -> Result<Others, AllocError> {
        Ok(Others {
            is_imaginary: self.is_imaginary,
            dots: self.dots.clone()?,
            components: self.components.clone()?,
            deltas: self.deltas.clone()?,
            functions: self.functions.clone()?,
            word: self.word.clone()?,
        })
    }
}
