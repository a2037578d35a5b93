ghost use Rattle.std.specs.Prelude.{◌≡◌, ◌++◌, OnOk, IfOk, ℕ, List, map, string_bytes};
ghost use Rattle.form_names.specs.Names.{Entry};
ghost use Rattle.form_print.specs.Joined.{is_first_behind, star, starred};
ghost use Rattle.form_print.specs.Texts.{index_text, name_of};

use form_base::Id;
use form_names::Names;
use form_term::{Component, Delta, DotPower, Index, Power};
use std::alloc::{AllocError, Global};

/// A factor of a term that is printed without regard to its neighbours.
pub trait Factor {
    /// How it prints.
    ghost shown: { List Entry → Self → List ℕ };

    /// Puts its text.
    fn push(&self, alloc: Global, text: &mut String, names: &Names) -> Result<(), AllocError>
        ensures { OnOk result (string_bytes text.new ≡ string_bytes text.old ++ shown names.now self.now) };
}

/// Puts factors, each behind `*`, but for the first one where nothing stands before it. Answers whether nothing stands
/// there yet.
pub fn push_factors<F: Factor>(
    alloc: Global,
    text: &mut String,
    names: &Names,
    factors: &[F],
    is_first: bool,
) -> Result<bool, AllocError>
    ensures put { OnOk result (string_bytes text.new
        ≡ string_bytes text.old ++ starred is_first (map (F.shown names.now) factors.now)) }
    ensures first { IfOk result (λ first. first ≡ is_first_behind is_first factors.now) }
{
    let mut first = is_first;
    for factor in factors {
        push_star(text, first)?;
        factor.push(alloc, text, names)?;
        first = false;
    }
    Ok(first)
}

/// Puts `*`, but where nothing stands before it.
pub fn push_star(text: &mut String, is_first: bool) -> Result<(), AllocError>
    ensures { OnOk result (string_bytes text.new ≡ string_bytes text.old ++ star is_first) }
{
    if is_first { Ok(()) } else { text.push('*') }
}

impl Factor for Power {
    ghost use Rattle.form_print.specs.Texts.{factor_text};

    ghost shown = { factor_text };

    /// A symbol with its power, which is left out where it is 1.
    fn push(&self, _: Global, text: &mut String, names: &Names) -> Result<(), AllocError> {
        text.push_str(text_of(names, self.symbol))?;
        let exponent = self.exponent;
        if exponent == 1 {
            return Ok(());
        }
        write!(text, "^{exponent}")
    }
}

impl Factor for DotPower {
    ghost use Rattle.form_print.specs.Texts.{dot_text};

    ghost shown = { dot_text };

    fn push(&self, _: Global, text: &mut String, names: &Names) -> Result<(), AllocError> {
        text.push_str(text_of(names, self.left))?;
        text.push('.')?;
        text.push_str(text_of(names, self.right))?;
        let exponent = self.exponent;
        if exponent == 1 {
            return Ok(());
        }
        write!(text, "^{exponent}")
    }
}

impl Factor for Component {
    ghost use Rattle.form_print.specs.Texts.{component_text};

    ghost shown = { component_text };

    fn push(&self, _: Global, text: &mut String, names: &Names) -> Result<(), AllocError> {
        text.push_str(text_of(names, self.vector))?;
        text.push('(')?;
        push_index(text, names, &self.index)?;
        text.push(')')
    }
}

impl Factor for Delta {
    ghost use Rattle.form_print.specs.Texts.{delta_text};

    ghost shown = { delta_text };

    fn push(&self, _: Global, text: &mut String, names: &Names) -> Result<(), AllocError> {
        text.push_str("d_(")?;
        push_index(text, names, &self.first)?;
        text.push(',')?;
        push_index(text, names, &self.second)?;
        text.push(')')
    }
}

/// Puts an index: a number, a name, or that of a dummy.
pub fn push_index(text: &mut String, names: &Names, index: &Index) -> Result<(), AllocError>
    ensures { OnOk result (string_bytes text.new ≡ string_bytes text.old ++ index_text names.now index.now) }
{
    match index {
        Index::Fixed(number) => write!(text, "{number}"),
        Index::Declared(id) => text.push_str(text_of(names, *id)),
        Index::Dummy(number) => write!(text, "N{number}_?"),
    }
}

/// A name by its position, nothing where none stands there.
pub fn text_of(names: &Names, id: Id) -> &str
    ensures { result.now ≡ name_of names.now id }
{
    if id.position() < names.len() {
        names.name(id)
    } else {
        ""
    }
}
