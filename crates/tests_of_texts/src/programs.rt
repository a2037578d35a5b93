//! Programs are checked as they are read, and refused at the line where the first thing breaks a rule.

use crate::statements::read_lines;
use form_check::{CheckError, Module, Program, check};
use std::alloc::Global;
use std::test::Fail;

/// How many statements of an only module are carried out on terms.
fn actions_in(modules: &[Module]) -> usize {
    match modules {
        [only] => only.actions().len(),
        _ => 0,
    }
}

/// How many names are declared, and how many statements of an only module are carried out on terms.
fn counts_of(program: &Program) -> (u32, usize) {
    (program.names().len(), actions_in(program.modules()))
}

/// The line at which a program is refused, or 0, and then these counts.
fn checked(alloc: Global, texts: &[&str]) -> Result<(u32, u32, usize), Fail> {
    let Ok(modules) = read_lines(alloc, texts)? else {
        return Err(Fail::from("no program is read"));
    };
    match check(alloc, modules) {
        Ok(program) => {
            let (names, actions) = counts_of(&program);
            Ok((0, names, actions))
        }
        Err(CheckError::Refused(_, spot)) => Ok((spot.line, 0, 0)),
        Err(CheckError::Memory) => Err(Fail::from("no memory")),
    }
}

#[test]
fn statements_on_terms_are_checked(rt: HostRuntime) -> Result<(), Fail> {
    let texts = [
        "Symbols x; Indices mu; CFunctions f;",
        "Local F = f(x);",
        "argument f 1; id x = 2; endargument;",
        "if (count(x,1,f,-2) > 0) sum mu;",
        "multiply x;",
        "Print;",
        ".end",
    ];
    assert_eq!(rt; checked(rt.alloc(), &texts)?, (0, 4, 3));
    Ok(())
}

#[test]
fn what_is_wrong_first_is_refused(rt: HostRuntime) -> Result<(), Fail> {
    let texts = [
        "Symbols x;",
        "Local F = x;",
        "repeat;",
        "if (occurs(x));",
        "sum x;",
        "endif;",
        "endrepeat;",
        "multiply y;",
        ".end",
    ];
    assert_eq!(rt; checked(rt.alloc(), &texts)?, (5, 0, 0));
    Ok(())
}
