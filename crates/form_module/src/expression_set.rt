//! Sets of expressions, made in one pass over the statements of a module.

ghost use Rattle.std.specs.Prelude.{◌≡◌, ℕ, false, ◌==◌, ◌||◌, OnOk, IfOk};
ghost use Rattle.std.specs.List.{list_any};
ghost use Rattle.form_check.specs.Standing.{means};
ghost use Rattle.form_module.specs.Printed.{is_print, prints};
ghost use Rattle.form_module.specs.Sets.{has, is_change, is_held};

use form_base::Id;
use form_check::{Checked, Module, Selection};
use std::alloc::{AllocError, Global};
use std::collections::HashSet;

/// A set of expressions: all, or those of some Ids.
#[derive(Drop)]
pub struct ExpressionSet {
    has_all: bool,
    ids: HashSet<Id>,
}

impl ExpressionSet {
    /// The set that has none.
    fn new(alloc: Global) -> ExpressionSet
        ensures { (e : ℕ) → has result e ≡ false }
    {
        ExpressionSet {
            has_all: false,
            ids: HashSet::new(alloc),
        }
    }

    /// Whether an expression is in it.
    pub fn has(&self, expression: Id) -> bool
        ensures { result ≡ has self.now expression }
    {
        self.has_all || self.ids.contains(&expression)
    }

    fn add(&mut self, expression: Id) -> Result<(), AllocError>
        ensures { OnOk result ((e : ℕ) → has self.new e ≡ (has self.old e || (expression == e))) }
    {
        self.ids.insert(expression)?;
        Ok(())
    }

    fn add_selected(&mut self, which: &Selection) -> Result<(), AllocError>
        ensures { OnOk result ((e : ℕ) → has self.new e ≡ (has self.old e || means which.now e)) }
    {
        match which {
            Selection::All => self.has_all = true,
            Selection::Named(ids) => {
                for id in ids.as_slice() {
                    self.add(*id)?;
                }
            }
        }
        Ok(())
    }

    /// Adds what a statement prints.
    fn add_printed(&mut self, statement: &Checked) -> Result<(), AllocError>
        ensures { OnOk result ((e : ℕ) → has self.new e ≡ (has self.old e || is_print e statement.now)) }
    {
        match statement {
            Checked::Print(which) => self.add_selected(which),
            Checked::Drop(_) | Checked::Skip(_) | Checked::Local(_, _) => Ok(()),
        }
    }

    /// Adds what a statement drops or defines.
    fn add_changed(&mut self, statement: &Checked) -> Result<(), AllocError>
        ensures { OnOk result ((e : ℕ) → has self.new e ≡ (has self.old e || is_change e statement.now)) }
    {
        match statement {
            Checked::Drop(which) => self.add_selected(which),
            Checked::Local(expression, _) => self.add(*expression),
            Checked::Skip(_) | Checked::Print(_) => Ok(()),
        }
    }

    /// Adds what a statement drops, defines or skips.
    fn add_held(&mut self, statement: &Checked) -> Result<(), AllocError>
        ensures { OnOk result ((e : ℕ) → has self.new e ≡ (has self.old e || is_held e statement.now)) }
    {
        match statement {
            Checked::Drop(dropped) => self.add_selected(dropped),
            Checked::Skip(skipped) => self.add_selected(skipped),
            Checked::Local(expression, _) => self.add(*expression),
            Checked::Print(_) => Ok(()),
        }
    }
}

/// The expressions that a module prints, where they stand at its end.
pub fn printed(alloc: Global, carried: &Module) -> Result<ExpressionSet, AllocError>
    ensures { IfOk result (λ set. (e : ℕ) → has set e ≡ prints carried.now.statements e) }
{
    let mut set = ExpressionSet::new(alloc);
    for statement in carried.statements() {
        set.add_printed(statement)?;
    }
    Ok(set)
}

/// The expressions that statements drop or define.
pub fn changed(alloc: Global, statements: &[Checked]) -> Result<ExpressionSet, AllocError>
    ensures { IfOk result (λ set. (e : ℕ) → has set e ≡ list_any (is_change e) statements.now) }
{
    let mut set = ExpressionSet::new(alloc);
    for statement in statements {
        set.add_changed(statement)?;
    }
    Ok(set)
}

/// The expressions that statements drop, define or skip.
pub fn held(alloc: Global, statements: &[Checked]) -> Result<ExpressionSet, AllocError>
    ensures { IfOk result (λ set. (e : ℕ) → has set e ≡ list_any (is_held e) statements.now) }
{
    let mut set = ExpressionSet::new(alloc);
    for statement in statements {
        set.add_held(statement)?;
    }
    Ok(set)
}
