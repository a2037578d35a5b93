ghost use Rattle.std.specs.Prelude.{◌≡◌, ◌<◌, ◌≤◌, ◌^◌, ◌++◌, [], ◌∷◌, nat_abs, length, false, not, fold, IfOk, OnOk, OnErr};
ghost use Rattle.form_term.specs.Factors.{others_of, rest_in, HasRest};
ghost use Rattle.form_term.specs.Feeding.{fed_rest};
ghost use Rattle.form_term.specs.Term.{IsTerm, nothing, is_nothing, one, of_symbols, symbol_power, largest_exponent, size, size_of_others, depth, depth_of_others};
ghost use Rattle.form_term.specs.Terms.{term, rest_of, function_put, word_put};

use crate::others::{depth_of_calls, size_of_calls};
use crate::{Call, Component, Delta, DotPower, Others, Power, compare};
use form_base::Id;
use std::alloc::{AllocError, Global};
use std::cmp::Ordering;
use std::hash::{Hash, Hasher};
use std::marker::Model;

/// A term: a product of powers of symbols and of other factors. It has the symbols whose exponent isn't 0, in order of
/// declaration. A term of symbols and commuting functions alone takes no memory for the rest.
#[derive(Drop)]
pub struct Term {
    symbols: Vec<Power>,
    functions: Vec<Call>,
    rest: Option<Box<Rest>>,
}

/// The factors besides powers of symbols and commuting functions, of which there are some.
#[derive(Drop)]
struct Rest {
    is_imaginary: bool,
    dots: Vec<DotPower>,
    components: Vec<Component>,
    deltas: Vec<Delta>,
    word: Vec<Call>,
}

/// For how many powers there is room at first.
const FIRST_ROOM: usize = 6;

impl Model for Term {
    ghost use Rattle.form_term.specs.Term as terms;
    ghost use Rattle.form_term.specs.Factors.{others_in, HasRest};
    ghost use Rattle.form_term.specs.Terms.{term};

    ghost Value = { terms.Term };

    ghost view = { λ t. term t.symbols.items (others_in t.functions.items t.rest) };

    ghost invariant = { λ t. terms.IsTerm (term t.symbols.items (others_in t.functions.items t.rest)) × HasRest t.rest };
}

impl Term {
    /// The term 1, which takes no memory.
    pub fn one(alloc: Global) -> Term
        ensures { result ≡ one }
    {
        Term {
            symbols: Vec::new(alloc),
            functions: Vec::new(alloc),
            rest: None,
        }
    }

    /// A power of one symbol, 1 where the exponent is 0.
    #[tactic(auto, using(crate::specs::TermLaws::power_lawful), unfolding(crate::specs::Term::symbol_power))]
    pub fn symbol(alloc: Global, symbol: Id, exponent: i32) -> Result<Term, AllocError>
        requires { nat_abs exponent ≤ largest_exponent }
        ensures { IfOk result (λ term. term ≡ symbol_power symbol exponent) }
    {
        if exponent == 0 {
            return Ok(Term::one(alloc));
        }
        let mut powers = Vec::new(alloc);
        powers.push(Power { symbol, exponent })?;
        Ok(Term::from_powers(alloc, powers))
    }

    /// The product of these powers, in order of declaration of their symbols.
    pub fn from_powers(alloc: Global, powers: Vec<Power>) -> Term
        requires { IsTerm (of_symbols powers.items) }
        ensures { result ≡ of_symbols powers.items }
    {
        Term {
            symbols: powers,
            functions: Vec::new(alloc),
            rest: None,
        }
    }

    /// The product of these powers and other factors. Memory is taken only where there are others.
    pub fn from_factors(
        alloc: Global,
        powers: Vec<Power>,
        others: Others,
    ) -> Result<Term, AllocError>
        requires { IsTerm (term powers.items others) }
        ensures { IfOk result (λ t. t ≡ term powers.items others) }
    {
        if others.has_rest() {
            return Term::with_rest(alloc, powers, others);
        }
        let Others { functions, .. } = others;
        Ok(Term {
            symbols: powers,
            functions,
            rest: None,
        })
    }

    /// The same, where there are more than commuting functions.
    fn with_rest(alloc: Global, powers: Vec<Power>, others: Others) -> Result<Term, AllocError>
        requires lawful { IsTerm (term powers.items others) }
        requires there { is_nothing (rest_of others) ≡ false }
        ensures { IfOk result (λ t. t ≡ term powers.items others) }
    {
        let Others {
            is_imaginary,
            dots,
            components,
            deltas,
            functions,
            word,
        } = others;
        let rest = Rest {
            is_imaginary,
            dots,
            components,
            deltas,
            word,
        };
        Ok(Term {
            symbols: powers,
            functions,
            rest: Some(Box::new(alloc, rest)?),
        })
    }

    /// Multiplies it by a power of a symbol that is declared behind all of its own.
    pub fn push(&mut self, power: Power) -> Result<(), AllocError>
        requires { IsTerm (term (self.old.symbols ++ power ∷ []) self.old.others) }
        ensures pushed { OnOk result (self.new ≡ term (self.old.symbols ++ power ∷ []) self.old.others) }
        ensures same { OnErr result (self.new ≡ self.old) }
    {
        if self.symbols.is_empty() {
            self.symbols.reserve_exact(FIRST_ROOM)?;
        }
        self.symbols.push(power)?;
        Ok(())
    }

    /// It times a commuting function, which is put at this place among its own.
    pub fn with_function(self, alloc: Global, place: usize, call: Call) -> Result<Term, AllocError>
        requires within { place ≤ length self.others.functions }
        requires lawful { IsTerm (function_put place call self) }
        ensures { IfOk result (λ t. t ≡ function_put place call self) }
    {
        let _ = alloc;
        let Term {
            symbols,
            mut functions,
            rest,
        } = self;
        functions.insert(place, call)?;
        Ok(Term {
            symbols,
            functions,
            rest,
        })
    }

    /// It times a non-commuting function.
    pub fn with_word(self, alloc: Global, call: Call) -> Result<Term, AllocError>
        requires { IsTerm (word_put call self) }
        ensures { IfOk result (λ t. t ≡ word_put call self) }
    {
        let Term {
            symbols,
            functions,
            rest,
        } = self;
        let mut rest = in_memory(alloc, rest)?;
        rest.word.push(call)?;
        Ok(Term {
            symbols,
            functions,
            rest: Some(rest),
        })
    }

    /// The symbols whose exponent isn't 0, in order of declaration.
    pub fn powers(&self) -> &[Power]
        ensures powers { result.now ≡ self.now.symbols }
        ensures lawful { IsTerm self.now }
    {
        &self.symbols
    }

    /// Whether there are no other factors than powers of symbols.
    pub fn has_only_symbols(&self) -> bool
        ensures { result ≡ is_nothing self.now.others }
    {
        self.functions.is_empty() && self.rest.is_none()
    }

    /// Whether there are other factors than powers of symbols and commuting functions.
    pub(crate) fn has_rest(&self) -> bool
        ensures { result ≡ not (is_nothing (rest_of self.now.others)) }
    {
        self.rest.is_some()
    }

    /// Whether the exponent of `i_` is 1.
    pub fn is_imaginary(&self) -> bool
        ensures { result ≡ self.now.others.is_imaginary }
    {
        match &self.rest {
            None => false,
            Some(rest) => rest.is_imaginary,
        }
    }

    /// The dot products whose exponent isn't 0, by their pairs of vectors.
    pub fn dots(&self) -> &[DotPower]
        ensures { result.now ≡ self.now.others.dots }
    {
        match &self.rest {
            None => &[],
            Some(rest) => &rest.dots,
        }
    }

    pub fn components(&self) -> &[Component]
        ensures { result.now ≡ self.now.others.components }
    {
        match &self.rest {
            None => &[],
            Some(rest) => &rest.components,
        }
    }

    pub fn deltas(&self) -> &[Delta]
        ensures { result.now ≡ self.now.others.deltas }
    {
        match &self.rest {
            None => &[],
            Some(rest) => &rest.deltas,
        }
    }

    /// The commuting functions.
    pub fn functions(&self) -> &[Call]
        ensures { result.now ≡ self.now.others.functions }
    {
        &self.functions
    }

    /// The non-commuting functions, as they are written.
    pub fn word(&self) -> &[Call]
        ensures { result.now ≡ self.now.others.word }
    {
        match &self.rest {
            None => &[],
            Some(rest) => &rest.word,
        }
    }

    /// The powers of its symbols, and its other factors.
    pub fn into_factors(self, alloc: Global) -> (Vec<Power>, Others)
        ensures is { self ≡ term result.0.items result.1 }
        ensures lawful { IsTerm self }
    {
        let Term {
            symbols,
            functions,
            rest,
        } = self;
        let Rest {
            is_imaginary,
            dots,
            components,
            deltas,
            word,
        } = taken_out(alloc, rest);
        let others = Others {
            is_imaginary,
            dots,
            components,
            deltas,
            functions,
            word,
        };
        (symbols, others)
    }

    /// How many factors it has, those inside arguments counted: a power, a component and a delta are one each, and a
    /// function is one, with one for each argument, and one and its size for each term of an argument.
    pub fn size(&self) -> usize
        ensures { result ≡ size self.now }
    {
        self.symbols.len() + size_of_calls(&self.functions) + size_of_rest(&self.rest)
    }

    /// 1, or one more than the depth of the deepest term in an argument.
    pub fn depth(&self) -> usize
        ensures { result ≡ depth self.now }
    {
        1 + depth_of_calls(&self.functions).max(depth_of_rest(&self.rest))
    }
}

impl Rest {
    fn none(alloc: Global) -> Rest
        ensures { others_of result ≡ nothing }
    {
        Rest {
            is_imaginary: false,
            dots: Vec::new(alloc),
            components: Vec::new(alloc),
            deltas: Vec::new(alloc),
            word: Vec::new(alloc),
        }
    }

    fn size(&self) -> usize
        requires { size_of_others (others_of self.now) < 2 ^ 32 }
        ensures { result ≡ size_of_others (others_of self.now) }
    {
        self.dots.len() + self.components.len() + self.deltas.len() + size_of_calls(&self.word)
    }
}

/// Factors in memory of their own, even where there are none.
fn in_memory(alloc: Global, rest: Option<Box<Rest>>) -> Result<Box<Rest>, AllocError>
    ensures { IfOk result (λ kept. others_of kept.value ≡ rest_in rest) }
{
    match rest {
        Some(rest) => Ok(rest),
        None => Ok(Box::new(alloc, Rest::none(alloc))?),
    }
}

/// Factors out of their memory.
fn taken_out(alloc: Global, rest: Option<Box<Rest>>) -> Rest
    ensures { others_of result ≡ rest_in rest }
{
    match rest {
        Some(rest) => Box::into_inner(rest),
        None => Rest::none(alloc),
    }
}

/// How many factors these are, those inside arguments counted.
fn size_of_rest(rest: &Option<Box<Rest>>) -> usize
    requires { size_of_others (rest_in rest.now) < 2 ^ 32 }
    ensures { result ≡ size_of_others (rest_in rest.now) }
{
    match rest {
        Some(rest) => rest.size(),
        None => 0,
    }
}

/// The depth of the deepest term in an argument of these, 0 without one.
fn depth_of_rest(rest: &Option<Box<Rest>>) -> usize
    ensures { result ≡ depth_of_others (rest_in rest.now) }
{
    match rest {
        Some(rest) => depth_of_calls(&rest.word),
        None => 0,
    }
}

impl Clone for Term {
    ghost use Rattle.std.specs.Prelude.{◌≡◌};

    ghost is_clone = { λ t u. u ≡ t };

    fn clone(&self) -> Result<Term, AllocError> {
        Ok(Term {
            symbols: self.symbols.clone()?,
            functions: self.functions.clone()?,
            rest: copied(&self.rest)?,
        })
    }
}

impl Clone for Rest {
    ghost use Rattle.std.specs.Prelude.{◌≡◌};
    ghost use Rattle.form_term.specs.Factors.{others_of};

    ghost is_clone = { λ r s. others_of s ≡ others_of r };

    fn clone(&self) -> Result<Rest, AllocError> {
        Ok(Rest {
            is_imaginary: self.is_imaginary,
            dots: self.dots.clone()?,
            components: self.components.clone()?,
            deltas: self.deltas.clone()?,
            word: self.word.clone()?,
        })
    }
}

/// A copy in memory of its own.
fn copied(rest: &Option<Box<Rest>>) -> Result<Option<Box<Rest>>, AllocError>
    ensures is { IfOk result (λ copy. rest_in copy ≡ rest_in rest.now) }
    ensures some { HasRest rest.now → IfOk result HasRest }
{
    match rest {
        Some(rest) => Ok(Some(copy_of(rest)?)),
        None => Ok(None),
    }
}

fn copy_of(rest: &Box<Rest>) -> Result<Box<Rest>, AllocError>
    ensures { IfOk result (λ copy. others_of copy.value ≡ others_of rest.now.value) }
{
    rest.clone()
}

impl PartialEq for Term {
    ghost use Rattle.std.specs.Ordering.{eq_by_cmp};
    ghost use Rattle.form_term.specs.Term.{order};
    ghost use Rattle.form_term.specs.TermLaws.{same_terms};
    ghost use Rattle.std.specs.Cmp.{partial_equiv_from_equiv};

    ghost eq = { eq_by_cmp order };

    ghost laws = { partial_equiv_from_equiv same_terms };

    fn eq(&self, other: &Term) -> bool {
        compare(self, other) == Ordering::Equal
    }
}

impl Eq for Term {
    ghost use Rattle.form_term.specs.TermLaws.{same_terms};

    ghost laws = { same_terms };
}

impl Hash for Term {
    ghost use Rattle.std.specs.Prelude.{◌++◌, [], if◌then◌else◌};
    ghost use Rattle.form_term.specs.Term.{normal_powers, is_nothing};
    ghost use Rattle.form_term.specs.TermLaws.{terms_alike};
    ghost use Rattle.form_term.specs.Feeding.{fed_powers, fed_others};

    ghost hash_input = { λ t. fed_powers (normal_powers t.symbols) ++ (if is_nothing t.others then [] else fed_others t.others) };

    ghost respects_eq = { terms_alike (λ ps o. fed_powers ps ++ (if is_nothing o then [] else fed_others o)) };

    fn hash<H: Hasher>(&self, state: &mut H) {
        self.powers().hash(state);
        if self.has_only_symbols() {
            return;
        }
        self.functions().hash(state);
        if self.has_rest() {
            feed_rest(self, state);
        }
    }
}

/// Feeds the factors besides `i_`, powers of symbols and commuting functions to a hasher.
fn feed_rest<H: Hasher>(term: &Term, state: &mut H)
    ensures { state.new ≡ fold H.write state.old (fed_rest term.now.others) }
{
    term.dots().hash(state);
    term.components().hash(state);
    term.deltas().hash(state);
    term.word().hash(state);
}
