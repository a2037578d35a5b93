ghost use Rattle.std.specs.Prelude.{◌≡◌, ◌<◌, ◌≤◌, nat_abs, false, IfOk};
ghost use Rattle.std.specs.Ordering.{is_gt};
ghost use Rattle.form_term.specs.Pieces.{deepest};
ghost use Rattle.form_term.specs.Term.{index_order, size_of_call, largest_exponent, largest_size, largest_depth};
ghost use Rattle.form_term.specs.Factor as factor;

use crate::{Call, Component, Delta, DotPower, Index, Others, Term};
use form_base::Id;
use std::alloc::{AllocError, Global};
use std::cmp::Ordering;

impl DotPower {
    /// A power of the dot product of two vectors.
    pub fn of(p: Id, q: Id, exponent: i32) -> DotPower
        ensures is { result ≡ factor.dot_of p q exponent }
        ensures turned { result.left ≤ result.right }
    {
        let (left, right) = if p <= q { (p, q) } else { (q, p) };
        DotPower {
            left,
            right,
            exponent,
        }
    }
}

impl Delta {
    pub fn of(i: Index, j: Index) -> Delta
        ensures is { result ≡ factor.delta_of i j }
        ensures turned { is_gt (index_order result.first result.second) ≡ false }
    {
        if i.cmp(&j) == Ordering::Greater {
            Delta {
                first: j,
                second: i,
            }
        } else {
            Delta {
                first: i,
                second: j,
            }
        }
    }
}

/// Terms of one factor.
impl Term {
    /// `i_`.
    #[tactic(auto, using(crate::specs::FactorLaws::imaginary_lawful))]
    pub fn imaginary(alloc: Global) -> Result<Term, AllocError>
        ensures { IfOk result (λ t. t ≡ factor.imaginary_factor) }
    {
        let mut others = Others::none(alloc);
        others.is_imaginary = true;
        Term::from_factors(alloc, Vec::new(alloc), others)
    }

    /// A power of a dot product.
    #[tactic(auto, using(crate::specs::FactorLaws::dot_lawful))]
    pub fn dot(alloc: Global, dot: DotPower) -> Result<Term, AllocError>
        requires turned { dot.left ≤ dot.right }
        requires present { 0 < nat_abs dot.exponent }
        requires in_range { nat_abs dot.exponent ≤ largest_exponent }
        ensures { IfOk result (λ t. t ≡ factor.dot_factor dot) }
    {
        let mut others = Others::none(alloc);
        others.dots.push(dot)?;
        Term::from_factors(alloc, Vec::new(alloc), others)
    }

    #[tactic(auto, using(crate::specs::FactorLaws::component_lawful))]
    pub fn component(alloc: Global, component: Component) -> Result<Term, AllocError>
        ensures { IfOk result (λ t. t ≡ factor.component_factor component) }
    {
        let mut others = Others::none(alloc);
        others.components.extend_from_slice(&[component])?;
        Term::from_factors(alloc, Vec::new(alloc), others)
    }

    #[tactic(auto, using(crate::specs::FactorLaws::delta_lawful))]
    pub fn delta(alloc: Global, delta: Delta) -> Result<Term, AllocError>
        requires { is_gt (index_order delta.first delta.second) ≡ false }
        ensures { IfOk result (λ t. t ≡ factor.delta_factor delta) }
    {
        let mut others = Others::none(alloc);
        others.deltas.extend_from_slice(&[delta])?;
        Term::from_factors(alloc, Vec::new(alloc), others)
    }

    /// A commuting function.
    #[tactic(auto, using(crate::specs::FactorLaws::function_lawful))]
    pub fn function(alloc: Global, call: Call) -> Result<Term, AllocError>
        requires small { size_of_call call ≤ largest_size }
        requires shallow { deepest 0 call.pieces < largest_depth }
        ensures { IfOk result (λ t. t ≡ factor.function_factor call) }
    {
        let _ = call.pieces();
        let mut others = Others::none(alloc);
        others.functions.push(call)?;
        Term::from_factors(alloc, Vec::new(alloc), others)
    }

    /// A non-commuting function.
    #[tactic(auto, using(crate::specs::FactorLaws::non_commuting_lawful))]
    pub fn non_commuting(alloc: Global, call: Call) -> Result<Term, AllocError>
        requires small { size_of_call call ≤ largest_size }
        requires shallow { deepest 0 call.pieces < largest_depth }
        ensures { IfOk result (λ t. t ≡ factor.non_commuting_factor call) }
    {
        let _ = call.pieces();
        let mut others = Others::none(alloc);
        others.word.push(call)?;
        Term::from_factors(alloc, Vec::new(alloc), others)
    }
}
