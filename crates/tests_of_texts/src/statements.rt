//! Programs against statements and spots that are written out by hand.
ghost use Rattle.std.specs.Prelude.{IfOk};
ghost use Rattle.form_ast.specs.Lawful.{AreLawfulModules};

use form_ast::{
    Module, ModulePart, Outer, Rewrite, Side, WrittenAction, WrittenElements, WrittenLeaf,
};
use form_base::{Spot, Taking};
use form_stmts::{Line, ProgramError, read_program};
use std::alloc::{AllocError, Global};
use std::test::Fail;

fn count_of(elements: &WrittenElements) -> usize {
    match elements {
        WrittenElements::Names(names) => names.as_slice().len(),
        WrittenElements::Numbers(numbers) => numbers.as_slice().len(),
    }
}

/// That of an `id`, by its option.
fn rewrite_letter(rewrite: &Rewrite) -> char {
    match rewrite.option {
        Some(Taking::Once) => '1',
        Some(Taking::Only) => '=',
        Some(Taking::Multi) => '*',
        Some(Taking::Many) => '+',
        None => 'r',
    }
}

/// The letter of a statement that stands in no block, and how many names or pieces it has.
fn outer_letter(statement: &Outer) -> (char, usize) {
    match statement {
        Outer::Names(_, names) => ('s', names.as_slice().len()),
        Outer::Indices(indices) => ('i', indices.as_slice().len()),
        Outer::Dimension(_) => ('n', 1),
        Outer::Set(_, elements) => ('e', count_of(elements)),
        Outer::Statistics => ('o', 0),
        Outer::Drop(names) => ('d', names.as_slice().len()),
        Outer::Skip(names) => ('k', names.as_slice().len()),
        Outer::Local(_, expr) => ('l', expr.len()),
        Outer::Print(names) => ('p', names.as_slice().len()),
    }
}

/// The letter of a statement that is no block, and how many `also`s, pieces, names or numbers it has.
fn leaf_letter(leaf: &WrittenLeaf) -> (char, usize) {
    match leaf {
        WrittenLeaf::Rewrite(id, others) => (rewrite_letter(id), others.len()),
        WrittenLeaf::Multiply(Side::Left, right) => ('<', right.as_slice().len()),
        WrittenLeaf::Multiply(Side::Right, right) => ('>', right.as_slice().len()),
        WrittenLeaf::Sum(names) => ('u', names.as_slice().len()),
        WrittenLeaf::SumOver(_, numbers) => ('v', numbers.as_slice().len()),
        WrittenLeaf::Discard => ('x', 0),
    }
}

/// The letter of a statement that is carried out on terms. Of a block, how many statements, branches or functions it has.
fn action_letter(action: &WrittenAction) -> (char, usize) {
    match action {
        WrittenAction::Plain(leaf) => leaf_letter(leaf),
        WrittenAction::Repeat(block) => ('R', block.len()),
        WrittenAction::Choose(branches, None) => ('I', branches.len()),
        WrittenAction::Choose(branches, Some(_)) => ('E', branches.len()),
        WrittenAction::Within(functions, _) => ('A', functions.as_slice().len()),
    }
}

fn letter(part: &ModulePart) -> (char, usize) {
    match part {
        ModulePart::Outer(statement) => outer_letter(statement),
        ModulePart::Action(action) => action_letter(action),
    }
}

/// The letters and counts of the statements of modules, and a period for each module's end.
fn letters(alloc: Global, modules: &[Module]) -> Result<String, AllocError> {
    let mut letters = String::new(alloc);
    for module in modules {
        for placed in module.as_slice() {
            let (c, count) = letter(&placed.part);
            let shown = format!(in alloc; "{c}{count}")?;
            letters.push_str(shown.as_str())?;
        }
        letters.push('.')?;
    }
    Ok(letters)
}

/// What is read of lines, whose numbers are from 1 on.
pub fn read_lines(alloc: Global, texts: &[&str]) -> Result<Result<Vec<Module>, ProgramError>, Fail>
    ensures { IfOk result (λ read. IfOk read (λ modules. AreLawfulModules modules.items)) }
{
    let mut lines = Vec::new(alloc);
    for (index, text) in texts.iter().enumerate() {
        let Ok(line) = u32::try_from(index + 1) else {
            return Err(Fail::from("too many lines"));
        };
        if !text.is_ascii() {
            return Err(Fail::from("no ASCII"));
        }
        let spot = Spot { text: 0, line };
        lines.push(Line::new(spot, text.as_bytes()))?;
    }
    Ok(read_program(alloc, lines))
}

/// The letters of a program, or the line at which its text is refused.
fn read(alloc: Global, texts: &[&str]) -> Result<String, Fail> {
    match read_lines(alloc, texts)? {
        Ok(modules) => Ok(letters(alloc, &modules)?),
        Err(ProgramError::BadSyntax(spot)) => {
            let line = spot.line;
            Ok(format!(in alloc; "line {line}")?)
        }
        Err(ProgramError::Memory) => Err(Fail::from("no memory")),
    }
}

#[test]
fn reads_programs(rt: HostRuntime) -> Result<(), Fail> {
    let texts = [
        "Symbols x,y",
        " z;; L F = x",
        " +y^2;",
        ".sort: first",
        "drop; SKIP F G;",
        "Print F;",
        "\t.END ;",
    ];
    assert_eq!(rt; read(rt.alloc(), &texts)?.as_str(), "s3l3.d0k2p1.");
    let texts = [
        "V p q; Index mu nu=4,ro=n; Dimension n; CF f;",
        "ON Statistics; Functions A;",
        ".end",
    ];
    assert_eq!(rt; read(rt.alloc(), &texts)?.as_str(), "s2i3n1s1o0s1.");
    Ok(())
}

#[test]
fn reads_blocks(rt: HostRuntime) -> Result<(), Fail> {
    let texts = [
        "Id once x = 1;; also x = 2; Multiply left, x; multiply left(x);",
        "if (coefficient > 1); discard; elseif (match(x)); Else; sum mu,nu; endif;",
        "argument f 1,2 g; endargument;",
        "repeat if (1) sum mu,1,2,3;",
        ".end",
    ];
    assert_eq!(rt; read(rt.alloc(), &texts)?.as_str(), "11<1>3E2A2R1.");
    let texts = [
        "if (1);",
        "else;",
        "repeat;",
        "else;",
        "endrepeat;",
        "endif;",
    ];
    assert_eq!(rt; read(rt.alloc(), &texts)?.as_str(), "line 3");
    Ok(())
}
