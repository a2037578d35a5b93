//! Expressions as they print, against lines written out by hand.
ghost use Rattle.std.specs.Prelude.{◌≡◌, false};
ghost use Rattle.form_frac.specs.Fraction.{is_zero};

use form_base::{Id, Name};
use form_frac::Frac;
use form_mem::SureSink;
use form_names::{Kind, Names};
use form_outside::SinkErr;
use form_print::print_expression;
use form_term::{Arguments, Index, Monomial, Term};
use std::alloc::{AllocError, Global};
use std::test::Fail;

/// The symbols x and y, and the functions f and g.
fn symbols(alloc: Global) -> Result<Names, AllocError> {
    let mut names = Names::new(alloc);
    for name in ["x", "y", "f", "g"] {
        if names.len() > 9
            || names
                .declare(Name::new(alloc, name)?, Kind::Symbol)
                .is_err()
        {
            return Err(AllocError);
        }
    }
    Ok(names)
}

/// Whether an expression F of these terms prints as this text.
fn prints(alloc: Global, terms: &[Monomial], text: &str) -> Result<bool, SinkErr> {
    let names = symbols(alloc)?;
    let mut sink = SureSink::new(alloc);
    print_expression(alloc, &mut sink, &names, &Name::new(alloc, "F")?, terms)?;
    Ok(sink.bytes() == text.as_bytes())
}

/// A term times -2.
fn times_minus_two(term: Term) -> Monomial
    ensures { is_zero result.coefficient ≡ false }
{
    Monomial {
        coefficient: Frac::whole(-2),
        term,
    }
}

/// A function of an expression of one term, and of an index.
fn function(alloc: Global, id: u32, argument: Monomial) -> Result<Term, AllocError>
    requires { is_zero argument.coefficient ≡ false }
{
    let arguments = Arguments::new(alloc)
        .with_expression(&[argument])?
        .with_index(Index::Dummy(1))?;
    of_arguments(alloc, id, arguments)
}

/// A function of these arguments.
fn of_arguments(alloc: Global, id: u32, arguments: Arguments) -> Result<Term, AllocError> {
    let call = arguments.into_call(Id::new(id))?;
    if call.size() > 4096 || call.depth() > 63 {
        return Err(AllocError);
    }
    Term::function(alloc, call)
}

#[test]
fn arguments_print_inside_parentheses(rt: HostRuntime) -> Result<(), Fail> {
    let alloc = rt.alloc();
    let cube = Term::symbol(alloc, Id::new(0), 3)?;
    let inner = function(alloc, 2, times_minus_two(cube))?;
    let mut terms = Vec::new(alloc);
    terms.push(Monomial {
        coefficient: Frac::whole(1),
        term: function(alloc, 3, times_minus_two(inner))?,
    })?;
    assert!(rt;
        prints(
            alloc,
            &terms,
            "\n   F =\n      g(-2*f(-2*x^3,N1_?),N1_?);\n\n"
        )
        .ok()
            == Some(true)
    );
    Ok(())
}
