//! Which statements are carried out level by level, and that equal terms meet there.
ghost use Rattle.std.specs.Prelude.{All, IfOk, IfSome};
ghost use Rattle.form_ast.specs.Lawful.{AreLawfulModules};
ghost use Rattle.form_check.specs.Sound.{IsSound};
ghost use Rattle.form_flow.specs.Making.{HasAllTrees};

use form_ast::Module;
use form_base::{Id, Spot};
use form_check::{CheckedBlock, Program, check};
use form_flow::CompiledModule;
use form_frac::Frac;
use form_gathered::{JoinedTerm, counted};
use form_levels::{Pace, joined_outputs, outputs_of_joined};
use form_stmts::{Line, read_program};
use form_term::{Monomial, Term};
use std::alloc::{AllocError, Global};
use std::test::Fail;

/// A program of these lines.
fn read(alloc: Global, texts: &[&str]) -> Result<Vec<Module>, Fail>
    ensures { IfOk result (λ modules. AreLawfulModules modules.items) }
{
    let mut lines = Vec::new(alloc);
    for text in texts {
        if !text.is_ascii() {
            return Err(Fail::from("no ASCII"));
        }
        let spot = Spot { text: 0, line: 1 };
        lines.push(Line::new(spot, text.as_bytes()))?;
    }
    match read_program(alloc, lines) {
        Ok(modules) => Ok(modules),
        Err(_) => Err(Fail::from("no program is read")),
    }
}

/// A program of declarations and these statements.
fn program_of(alloc: Global, statements: &str) -> Result<Program, Fail>
    ensures { IfOk result IsSound }
{
    let texts = [
        "Symbols x, y, z;",
        "CFunctions f;",
        "Functions A, B;",
        statements,
        ".end",
    ];
    match check(alloc, read(alloc, &texts)?) {
        Ok(program) => Ok(program),
        Err(_) => Err(Fail::from("no program is checked")),
    }
}

/// What is carried out on terms in a program of one module.
fn actions_in(program: &Program) -> Option<&CheckedBlock>
    requires { IsSound program.now }
    ensures { IfSome result (λ block. All HasAllTrees block.now) }
{
    match program.modules() {
        [only] => Some(only.actions()),
        _ => None,
    }
}

/// Whether statements are carried out level by level.
fn go_by_levels(alloc: Global, statements: &str) -> Result<bool, Fail> {
    let program = program_of(alloc, statements)?;
    let Some(actions) = actions_in(&program) else {
        return Err(Fail::from("no module"));
    };
    let module = CompiledModule::new(alloc, 100, 100, actions)?;
    Ok(Pace::of(&module).is_some())
}

#[test]
fn statements_where_equal_terms_may_meet_go_by_levels(rt: HostRuntime) -> Result<(), Fail> {
    let alloc = rt.alloc();
    assert_eq!(rt; go_by_levels(alloc, "repeat id once x = y + z;")?, true);
    assert_eq!(rt; go_by_levels(alloc, "id x = y + z; id y = z;")?, true);
    assert_eq!(rt; go_by_levels(alloc, "multiply x + y; discard;")?, true);
    assert_eq!(rt;
        go_by_levels(alloc, "multiply left, A + B; id A = B;")?,
        true
    );
    assert_eq!(rt;
        go_by_levels(alloc, "id x^y? = x + f(y); also f(z?) = z; id x = y;")?,
        true
    );
    assert_eq!(rt;
        go_by_levels(alloc, "if (count(x,1) > 2); id x = y; endif; id y = z;")?,
        true
    );
    Ok(())
}

#[test]
fn other_statements_do_not(rt: HostRuntime) -> Result<(), Fail> {
    let alloc = rt.alloc();
    assert_eq!(rt; go_by_levels(alloc, "")?, false);
    assert_eq!(rt; go_by_levels(alloc, "id x = y + z;")?, false);
    assert_eq!(rt; go_by_levels(alloc, "id x = y; id y = z;")?, false);
    assert_eq!(rt;
        go_by_levels(alloc, "id A*B = B*A + 1; also x = y; id y = z;")?,
        false
    );
    assert_eq!(rt;
        go_by_levels(
            alloc,
            "repeat; if (coefficient > 1) discard; id once x = y + z; endrepeat;"
        )?,
        false
    );
    assert_eq!(rt;
        go_by_levels(alloc, "argument f; id x = y + z; endargument; id x = y;")?,
        false
    );
    Ok(())
}

/// Of x^4, how many terms these statements make, and how many are left of them; none where that isn't certain.
fn met(alloc: Global, statements: &str, limit: u64) -> Result<Option<(u64, usize)>, Fail> {
    let program = program_of(alloc, statements)?;
    let Some(actions) = actions_in(&program) else {
        return Err(Fail::from("no module"));
    };
    let module = CompiledModule::new(alloc, limit, 100, actions)?;
    let Some(mut pace) = Pace::of(&module) else {
        return Err(Fail::from("not by levels"));
    };
    let inputs = [fourth_power(alloc)?];
    let Some(outputs) = joined_outputs(alloc, &module, &inputs, &mut pace)? else {
        return Ok(None);
    };
    Ok(counted(&outputs).map(|count| (count, outputs.len())))
}

fn fourth_power(alloc: Global) -> Result<Monomial, AllocError> {
    Ok(Monomial {
        coefficient: Frac::one(),
        term: Term::symbol(alloc, Id::new(0), 4)?,
    })
}

#[test]
fn equal_terms_meet_in_turns(rt: HostRuntime) -> Result<(), Fail> {
    let alloc = rt.alloc();
    let statements = "repeat id once x = y + z;";
    assert_eq!(rt; met(alloc, statements, 100)?, Some((16, 5)));
    assert_eq!(rt; met(alloc, statements, 16)?, Some((16, 5)));
    assert_eq!(rt; met(alloc, statements, 15)?, None);
    Ok(())
}

/// The same of that term where it is joined, and stands for several of one list.
fn met_joined(alloc: Global, statements: &str, limit: u64) -> Result<Option<(u64, usize)>, Fail> {
    let program = program_of(alloc, statements)?;
    let Some(actions) = actions_in(&program) else {
        return Err(Fail::from("no module"));
    };
    let module = CompiledModule::new(alloc, limit, 100, actions)?;
    let Some(mut pace) = Pace::of_joined(&module) else {
        return Err(Fail::from("not by levels"));
    };
    let mut input = JoinedTerm::single(fourth_power(alloc)?);
    input.count = 7;
    let Some(outputs) = outputs_of_joined(alloc, &module, &[input], &mut pace)? else {
        return Ok(None);
    };
    Ok(counted(&outputs).map(|count| (count, outputs.len())))
}

#[test]
fn joined_inputs_count_one_each(rt: HostRuntime) -> Result<(), Fail> {
    let alloc = rt.alloc();
    let statements = "repeat id once x = y + z;";
    assert_eq!(rt; met_joined(alloc, statements, 16)?, Some((16, 5)));
    assert_eq!(rt; met_joined(alloc, statements, 15)?, None);
    assert_eq!(rt; met_joined(alloc, "id x = y;", 1)?, Some((1, 1)));
    Ok(())
}
