ghost use Rattle.std.specs.Prelude.{◌≡◌, ◌++◌, OnOk, IfOk, string_bytes};
ghost use Rattle.form_print.specs.Joined.{is_first_behind, starred};
ghost use Rattle.form_print.specs.Printing.{function_texts, is_followed, times_text};

use crate::arguments::push_arguments;
use crate::factor::{Factor, push_star, text_of};
use form_names::Names;
use form_term::Call;
use std::alloc::{AllocError, Global};
use std::cmp::Ordering;

impl Factor for Call {
    ghost use Rattle.form_print.specs.Printing.{call_text};

    ghost shown = { call_text };

    /// A function with its arguments in parentheses, or its name alone where it has none.
    fn push(&self, alloc: Global, text: &mut String, names: &Names) -> Result<(), AllocError> {
        text.push_str(text_of(names, self.function()))?;
        let pieces = self.pieces();
        if pieces.is_empty() {
            return Ok(());
        }
        text.push('(')?;
        push_arguments(alloc, text, names, pieces)?;
        text.push(')')
    }
}

/// Puts commuting functions as further factors: equal neighbours once, with their power. Answers whether nothing stands
/// there yet.
pub fn push_functions(
    alloc: Global,
    text: &mut String,
    names: &Names,
    functions: &[Call],
    is_first: bool,
) -> Result<bool, AllocError>
    ensures put { OnOk result (string_bytes text.new
        ≡ string_bytes text.old ++ starred is_first (function_texts names.now 1 functions.now)) }
    ensures first { IfOk result (λ first. first ≡ is_first_behind is_first functions.now) }
{
    let mut first = is_first;
    let mut times: usize = 1;
    let mut rest = functions;
    while let Some((function, later)) = rest.split_first() {
        if is_followed(function, later) {
            times += 1;
        } else {
            push_star(text, first)?;
            function.push(alloc, text, names)?;
            push_times(text, times)?;
            first = false;
            times = 1;
        }
        rest = later;
    }
    Ok(first)
}

/// Whether the next function is the same one.
fn is_followed(function: &Call, later: &[Call]) -> bool
    ensures { result ≡ is_followed function.now later.now }
{
    match later.first() {
        Some(next) => function.cmp(next) == Ordering::Equal,
        None => false,
    }
}

/// Puts how often a function stands, as its power.
pub fn push_times(text: &mut String, times: usize) -> Result<(), AllocError>
    ensures { OnOk result (string_bytes text.new ≡ string_bytes text.old ++ times_text times) }
{
    if times > 1 {
        write!(text, "^{times}")
    } else {
        Ok(())
    }
}
