ghost use Rattle.std.specs.Prelude.{◌≡◌, ◌≤◌, nat_abs, IfOk, IfSome, option_map};
ghost use Rattle.form_frac.specs.Fraction.{largest};
ghost use Rattle.form_term.specs.Term.{AreArguments, pieces_of_arguments};
ghost use Rattle.form_bindings.specs.Values.{IsValueOf, value_of as value_among};
ghost use Rattle.form_expand.specs.Bound.{exponent_in};
ghost use Rattle.form_expand.specs.Meanings.{of_stored, bound_to, terms_of as terms_meant, index_of, vector_of, component_of, function_of, field_of, expression_of};
ghost use Rattle.form_expand.specs.Stored.{Rise, terms_in};

use crate::value::{expression_in, function_in, index_in, turned, vector_in, whole_number};
use form_base::Id;
use form_bindings::{Bindings, Wildcard};
use form_collect::Terms;
use form_term::{Component, Index, Monomial, Piece, laws, terms_in};
use std::alloc::{AllocError, Global};
use std::marker::Model;

/// An expression whose terms a right side may name.
#[derive(Drop)]
pub struct Stored {
    pub expression: Id,
    pub terms: Terms,
}

/// What names stand for in a right side: the expressions that stand, by their terms, and wildcards that a match bound.
/// Expressions are looked up by halves where their Ids rise.
pub struct Standing {
    items: Vec<Stored>,
    /// Whether no Id is lower than the one before it.
    rises: bool,
    bindings: Option<Bindings>,
}

impl Drop for Standing {
    fn drop(self) {
        let Standing {
            items: _,
            rises: _,
            bindings: _,
        } = self;
    }
}

impl Model for Standing {
    ghost use Rattle.std.specs.Prelude.{◌≡◌, true};
    ghost use Rattle.form_expand.specs.Meanings.{Meanings, or_unbound};
    ghost use Rattle.form_expand.specs.Stored.{Rise};

    ghost Value = { Meanings };

    ghost view = { λ s. record { stored = s.items.items; bindings = or_unbound s.bindings } };

    ghost invariant = { λ s. s.rises ≡ true → Rise s.items.items };
}

impl Standing {
    /// Expressions that stand, without wildcards.
    pub fn from_vec(items: Vec<Stored>) -> Standing
        ensures { result ≡ of_stored items.items }
    {
        let rises = items.is_sorted_by(|one, next| one.expression <= next.expression);
        Standing {
            items,
            rises,
            bindings: None,
        }
    }

    /// Wildcards that a match bound, without expressions, which takes no memory.
    pub fn bound(alloc: Global, bindings: Bindings) -> Standing
        ensures { result ≡ bound_to bindings }
    {
        Standing {
            items: Vec::new(alloc),
            rises: false,
            bindings: Some(bindings),
        }
    }

    pub fn into_vec(self) -> Vec<Stored>
        ensures { result.items ≡ self.stored }
    {
        let Standing {
            items,
            rises: _,
            bindings: _,
        } = self;
        items
    }

    /// The terms of the first expression that has this Id, none where none has it.
    pub fn terms_of(&self, expression: Id) -> &[Monomial]
        ensures { result.now ≡ terms_meant self.now expression }
    {
        if self.rises {
            found_by_halves(&self.items, expression)
        } else {
            found_in_order(&self.items, expression)
        }
    }

    /// What a wildcard stands for, none where it isn't bound.
    #[tactic(auto, unfolding(form_bindings::specs::Values::value_of))]
    fn value_of(&self, wildcard: Wildcard) -> Option<&[Piece]>
        ensures found { option_map (λ v. v.now) result ≡ value_among self.now.bindings wildcard }
        ensures lawful { IfSome (value_among self.now.bindings wildcard) (IsValueOf wildcard) }
    {
        match &self.bindings {
            Some(bindings) => bindings.value_of(wildcard),
            None => None,
        }
    }

    pub fn index(&self, index: Index) -> Index
        ensures { result ≡ index_of self.now index }
    {
        let Index::Declared(name) = index else {
            return index;
        };
        match self.value_of(Wildcard::Name(name)) {
            Some(value) => index_in(value).unwrap_or(index),
            None => index,
        }
    }

    pub fn vector(&self, vector: Id) -> Id
        ensures { result ≡ vector_of self.now vector }
    {
        match self.value_of(Wildcard::Name(vector)) {
            Some(value) => vector_in(value).unwrap_or(vector),
            None => vector,
        }
    }

    pub fn component(&self, component: Component) -> Component
        ensures { result ≡ component_of self.now component }
    {
        Component {
            vector: self.vector(component.vector),
            index: self.index(component.index),
        }
    }

    pub fn function(&self, function: Id) -> Id
        ensures { result ≡ function_of self.now function }
    {
        match self.value_of(Wildcard::Name(function)) {
            Some(value) => function_in(value).unwrap_or(function),
            None => function,
        }
    }

    /// The pieces of the arguments that a field stands for, none where it isn't bound.
    pub fn field(&self, field: usize) -> &[Piece]
        ensures pieces { result.now ≡ pieces_of_arguments (field_of self.now field) }
        ensures lawful { AreArguments result.now }
    {
        laws::lawful_pieces();
        match self.value_of(Wildcard::Field(field)) {
            Some(value) => value,
            None => &[],
        }
    }

    /// The expression that a symbol stands for, by its pieces as an argument.
    pub fn expression(&self, symbol: Id) -> Option<&[Piece]>
        ensures found { option_map (λ v. v.now) result ≡ expression_of self.now symbol }
        ensures lawful { IfSome (expression_of self.now symbol) AreArguments }
    {
        expression_in(self.value_of(Wildcard::Name(symbol))?)
    }

    /// The exponent that a symbol stands for, behind its sign; none where it stands for no whole number.
    pub fn exponent(
        &self,
        alloc: Global,
        is_minus: bool,
        symbol: Id,
    ) -> Result<Option<i128>, AllocError>
        ensures value { IfOk result (λ k. k ≡ exponent_in self.now is_minus symbol) }
        ensures range { IfOk result (λ k. IfSome k (λ k. nat_abs k ≤ largest)) }
    {
        let Some(value) = self.expression(symbol) else {
            return Ok(None);
        };
        let terms = terms_in(alloc, value)?;
        let Some(number) = whole_number(&terms) else {
            return Ok(None);
        };
        Ok(Some(turned(is_minus, number)))
    }
}

fn found_by_halves(stored: &[Stored], expression: Id) -> &[Monomial]
    requires { Rise stored.now }
    ensures { result.now ≡ terms_in stored.now expression }
{
    let place = stored.partition_point(|one| one.expression < expression);
    let Some(one) = stored.get(place) else {
        return &[];
    };
    if one.expression != expression {
        return &[];
    }
    one.terms.as_slice()
}

fn found_in_order(stored: &[Stored], expression: Id) -> &[Monomial]
    ensures { result.now ≡ terms_in stored.now expression }
{
    for one in stored {
        if one.expression == expression {
            return one.terms.as_slice();
        }
    }
    &[]
}
