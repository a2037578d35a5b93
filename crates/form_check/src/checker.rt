ghost use Rattle.std.specs.Prelude.{◌≡◌, ◌+◌, ◌<◌, ◌≤◌, ◌^◌, ◌++◌, [], ◌∷◌, length, All, OnOk, IfOk, IfErr};
ghost use Rattle.form_ast.specs.Lawful.{AreLawful, IsLawfulAction, IsLawfulPart, IsLawfulStatement, AreLawfulModules};
ghost use Rattle.form_ast.specs.Written.{outer_written};
ghost use Rattle.form_check.specs.Checker.{state_of, IsConsistent};
ghost use Rattle.form_check.specs.Checking.{acted, class_of as class_of_part, class_of_outer as class_of_statement, definition, is_defined_again, module_checked, outer as outer_checked, part as part_checked, program, start, with_statement, most_names};
ghost use Rattle.form_right_side.specs.Marks.{current_in};
ghost use Rattle.form_check.specs.Marks.{AreMarksOf};
ghost use Rattle.form_right_side.specs.Refusal.{Gives};
ghost use Rattle.form_check.specs.Sound.{IsSound};
ghost use Rattle.form_names.specs.Names.{lookup, IsDimension};

use crate::acting::{action, nothing};
use crate::naming::{
    declare, declare_indices, declare_names, declare_set, dimension, selection_of,
};
use crate::standing::drop_selected;
use crate::{CheckError, Checked, CheckedBlock, Module, Program};
use form_ast::{LongExpr, ModulePart, Outer, PlacedPart, Spelled, WrittenAction};
use form_base::Cause;
use form_names::{Dimension, Kind, Names};
use form_right_side::{Standing, copy_of, right_side};
use sqlite_items::Items;
use std::alloc::Global;
use std::mem;

/// Checks a program: its statements are taken in order, and the tokens of each from the left.
pub fn check(alloc: Global, modules: Vec<form_ast::Module>) -> Result<Program, CheckError>
    requires { AreLawfulModules modules.items }
    ensures checked { Gives (λ p. p) result (program modules.items) }
    ensures sound { IfOk result IsSound }
{
    form_ast::laws::one_tree();
    let mut checker = Checker::new(alloc);
    for module in modules {
        checker.module(alloc, module)?;
    }
    Ok(Program::new(checker.names, checker.modules))
}

/// What is known of a program so far.
#[derive(Drop)]
struct Checker {
    names: Names,
    /// That of indices that are declared without one.
    dimension: Dimension,
    standing: Standing,
    modules: Vec<Module>,
    /// Those of the module that is checked that stand in no block.
    statements: Vec<Checked>,
    /// Those of it that are carried out on terms.
    actions: CheckedBlock,
    /// The highest class of the module's statements, 0 before the first.
    class: u8,
}

impl Checker {
    fn new(alloc: Global) -> Checker
        ensures state { state_of result ≡ start }
        ensures consistent { IsConsistent result }
        ensures current { current_in result.standing ≡ 1 }
    {
        Checker {
            names: Names::new(alloc),
            dimension: Dimension::Number(4),
            standing: Standing::new(alloc),
            modules: Vec::new(alloc),
            statements: Vec::new(alloc),
            actions: Items::new(alloc),
            class: 0,
        }
    }

    fn module(&mut self, alloc: Global, written: form_ast::Module) -> Result<(), CheckError>
        requires consistent { IsConsistent self.old }
        requires lawful { All IsLawfulPart written }
        requires room { current_in self.old.standing + 1 < 2 ^ 64 }
        ensures checked { Gives (λ _. state_of self.new) result (module_checked (state_of self.old) written) }
        ensures consistent { OnOk result (IsConsistent self.new) }
        ensures current { OnOk result (current_in self.new.standing ≡ current_in self.old.standing + 1) }
    {
        for placed in written.into_vec() {
            self.part(alloc, placed)?;
        }
        let statements = mem::replace(&mut self.statements, Vec::new(alloc));
        let actions = mem::replace(&mut self.actions, Items::new(alloc));
        self.modules.push(Module::new(statements, actions))?;
        self.standing.end_module();
        self.class = 0;
        Ok(())
    }

    /// A statement of a module, with the blocks in it.
    fn part(&mut self, alloc: Global, placed: PlacedPart) -> Result<(), CheckError>
        requires consistent { IsConsistent self.old }
        requires lawful { IsLawfulPart placed }
        ensures checked { Gives (λ _. state_of self.new) result (part_checked (state_of self.old) placed) }
        ensures consistent { OnOk result (IsConsistent self.new) }
        ensures current { OnOk result (current_in self.new.standing ≡ current_in self.old.standing) }
    {
        let PlacedPart { spot, part } = placed;
        let class = class_of(&part);
        if class < self.class {
            return Err(CheckError::Refused(Cause::StatementOrder, spot));
        }
        self.class = class;
        match part {
            ModulePart::Outer(statement) => self.outer(alloc, statement),
            ModulePart::Action(statement) => self.act(alloc, &statement),
        }
    }

    /// A statement that is carried out on terms.
    fn act(&mut self, alloc: Global, statement: &WrittenAction) -> Result<(), CheckError>
        requires consistent { IsConsistent self.old }
        requires lawful { IsLawfulAction statement.now }
        ensures checked { Gives (λ _. state_of self.new) result (acted (state_of self.old) statement.now) }
        ensures consistent { OnOk result (IsConsistent self.new) }
        ensures current { OnOk result (current_in self.new.standing ≡ current_in self.old.standing) }
    {
        let made = action(alloc, &self.names, &self.standing, statement)?;
        self.actions.push(made)?;
        Ok(())
    }

    /// A statement that stands in no block.
    fn outer(&mut self, alloc: Global, statement: Outer) -> Result<(), CheckError>
        requires consistent { IsConsistent self.old }
        requires lawful { IsLawfulStatement (outer_written statement) }
        ensures checked { Gives (λ _. state_of self.new) result (outer_checked (state_of self.old) statement) }
        ensures consistent { OnOk result (IsConsistent self.new) }
        ensures current { OnOk result (current_in self.new.standing ≡ current_in self.old.standing) }
    {
        match statement {
            Outer::Names(declared, list) => {
                declare_names(alloc, &mut self.names, declared, list.as_slice())
            }
            Outer::Indices(list) => {
                declare_indices(alloc, &mut self.names, &self.dimension, list.as_slice())
            }
            Outer::Dimension(written) => {
                self.dimension = dimension(alloc, &self.names, &written)?;
                Ok(())
            }
            Outer::Set(spelled, elements) => {
                declare_set(alloc, &mut self.names, &spelled, &elements)
            }
            Outer::Statistics => Ok(()),
            Outer::Drop(list) => {
                let which = selection_of(alloc, &self.names, list.as_slice())?;
                drop_selected(&mut self.standing, &which)?;
                self.keep(Checked::Drop(which))
            }
            Outer::Skip(list) => {
                let which = selection_of(alloc, &self.names, list.as_slice())?;
                self.keep(Checked::Skip(which))
            }
            Outer::Local(spelled, right) => self.define(alloc, &spelled, right),
            Outer::Print(list) => {
                let which = selection_of(alloc, &self.names, list.as_slice())?;
                self.keep(Checked::Print(which))
            }
        }
    }

    /// A definition.
    fn define(
        &mut self,
        alloc: Global,
        spelled: &Spelled,
        right: LongExpr,
    ) -> Result<(), CheckError>
        requires consistent { IsConsistent self.old }
        requires lawful { AreLawful right }
        ensures checked { Gives (λ _. state_of self.new) result (definition (state_of self.old) spelled.now right) }
        ensures consistent { OnOk result (IsConsistent self.new) }
        ensures current { OnOk result (current_in self.new.standing ≡ current_in self.old.standing) }
    {
        if self.has_defined(spelled.name.as_str()) {
            let name = copy_of(alloc, spelled)?;
            return Err(CheckError::Refused(Cause::Redeclared(name), spelled.spot));
        }
        let id = declare(alloc, &mut self.names, spelled, Kind::Expression)?;
        let known = nothing(alloc);
        let tree = right_side(alloc, &self.names, &self.standing, &known, right)?;
        self.standing.define(id)?;
        self.keep(Checked::Local(id, tree))
    }

    /// Whether the module has defined an expression of this name.
    fn has_defined(&self, name: &str) -> bool
        requires { IsConsistent self.now }
        ensures { result ≡ is_defined_again (state_of self.now) (lookup self.now.names name.now) }
    {
        match self.names.lookup(name) {
            Some(id) => self.standing.is_defined(id),
            None => false,
        }
    }

    /// Puts a statement last, to which the marks have been brought up.
    fn keep(&mut self, statement: Checked) -> Result<(), CheckError>
        requires marks { AreMarksOf self.old.standing self.old.modules.items (self.old.statements.items ++ statement ∷ []) }
        requires names { length self.old.names ≤ most_names }
        requires dimension { IsDimension self.old.names self.old.dimension }
        ensures kept { OnOk result (state_of self.new ≡ with_statement (state_of self.old) statement) }
        ensures memory { IfErr result (λ e. e ≡ CheckError.Memory) }
        ensures consistent { OnOk result (IsConsistent self.new) }
        ensures current { OnOk result (current_in self.new.standing ≡ current_in self.old.standing) }
    {
        self.statements.push(statement)?;
        Ok(())
    }
}

/// The place of a statement in a module: declarations, what is dropped or skipped, definitions,
/// what is carried out, output.
fn class_of(part: &ModulePart) -> u8
    ensures { result ≡ class_of_part part.now }
{
    match part {
        ModulePart::Outer(statement) => class_of_outer(statement),
        ModulePart::Action(_) => 4,
    }
}

fn class_of_outer(statement: &Outer) -> u8
    ensures { result ≡ class_of_statement statement.now }
{
    match statement {
        Outer::Names(_, _)
        | Outer::Indices(_)
        | Outer::Dimension(_)
        | Outer::Set(_, _)
        | Outer::Statistics => 1,
        Outer::Drop(_) | Outer::Skip(_) => 2,
        Outer::Local(_, _) => 3,
        Outer::Print(_) => 5,
    }
}
