ghost use Rattle.std.specs.Prelude.{◌≡◌, IfOk};

use form_ast::Side;
use form_base::{Action, Block, Branch, Id, Taking};
use form_tree::{Condition, Pattern, Tree};
use sqlite_items::Items;
use std::alloc::{AllocError, Global};
use std::marker::Model;

/// Ids, in a clause their list.
#[derive(Drop)]
pub struct IdList {
    ids: Vec<Id>,
}

impl Model for IdList {
    ghost use Rattle.std.specs.Prelude.{List, ℕ};

    ghost Value = { List ℕ };

    ghost view = { λ l. l.ids.items };
}

impl IdList {
    pub fn from_vec(ids: Vec<Id>) -> IdList
        ensures { result ≡ ids.items }
    {
        IdList { ids }
    }

    pub fn as_slice(&self) -> &[Id]
        ensures { result.now ≡ self.now }
    {
        self.ids.as_slice()
    }

    pub fn copy(&self, alloc: Global) -> Result<IdList, AllocError>
        ensures { IfOk result (λ copy. copy ≡ self.now) }
    {
        let ids = Vec::from_slice(alloc, self.ids.as_slice())?;
        Ok(IdList { ids })
    }
}

/// Whole numbers, in a clause their list.
#[derive(Drop)]
pub struct WholeList {
    numbers: Vec<u128>,
}

impl Model for WholeList {
    ghost use Rattle.std.specs.Prelude.{List, ℕ};

    ghost Value = { List ℕ };

    ghost view = { λ l. l.numbers.items };
}

impl WholeList {
    pub fn from_vec(numbers: Vec<u128>) -> WholeList
        ensures { result ≡ numbers.items }
    {
        WholeList { numbers }
    }

    pub fn as_slice(&self) -> &[u128]
        ensures { result.now ≡ self.now }
    {
        self.numbers.as_slice()
    }

    pub fn copy(&self, alloc: Global) -> Result<WholeList, AllocError>
        ensures { IfOk result (λ copy. copy ≡ self.now) }
    {
        let numbers = Vec::from_slice(alloc, self.numbers.as_slice())?;
        Ok(WholeList { numbers })
    }
}

/// Values of an index, in a clause their list.
#[derive(Drop)]
pub struct ValueList {
    values: Vec<u32>,
}

impl Model for ValueList {
    ghost use Rattle.std.specs.Prelude.{List, ℕ};

    ghost Value = { List ℕ };

    ghost view = { λ l. l.values.items };
}

impl ValueList {
    pub fn from_vec(values: Vec<u32>) -> ValueList
        ensures { result ≡ values.items }
    {
        ValueList { values }
    }

    pub fn as_slice(&self) -> &[u32]
        ensures { result.now ≡ self.now }
    {
        self.values.as_slice()
    }

    pub fn copy(&self, alloc: Global) -> Result<ValueList, AllocError>
        ensures { IfOk result (λ copy. copy ≡ self.now) }
    {
        let values = Vec::from_slice(alloc, self.values.as_slice())?;
        Ok(ValueList { values })
    }
}

/// A function whose arguments a block takes: those of these numbers, from 1, all where there are none.
#[derive(Drop)]
pub struct Picked {
    pub function: Id,
    pub numbers: WholeList,
}

impl Picked {
    pub fn copy(&self, alloc: Global) -> Result<Picked, AllocError>
        ensures { IfOk result (λ copy. copy ≡ self.now) }
    {
        let numbers = self.numbers.copy(alloc)?;
        Ok(Picked {
            function: self.function,
            numbers,
        })
    }
}

/// The functions of an `argument`, in a clause their list.
#[derive(Drop)]
pub struct PickedList {
    functions: Vec<Picked>,
}

impl Model for PickedList {
    ghost use Rattle.std.specs.Prelude.{List};
    ghost use Rattle.form_check.specs.declared.checked.Picked.{Picked};

    ghost Value = { List Picked };

    ghost view = { λ l. l.functions.items };
}

impl PickedList {
    pub fn from_vec(functions: Vec<Picked>) -> PickedList
        ensures { result ≡ functions.items }
    {
        PickedList { functions }
    }

    pub fn as_slice(&self) -> &[Picked]
        ensures { result.now ≡ self.now }
    {
        self.functions.as_slice()
    }

    pub fn copy(&self, alloc: Global) -> Result<PickedList, AllocError>
        ensures { IfOk result (λ copy. copy ≡ self.now) }
    {
        let functions = picked_copies(alloc, self.functions.as_slice())?;
        Ok(PickedList { functions })
    }
}

fn picked_copies(alloc: Global, functions: &[Picked]) -> Result<Vec<Picked>, AllocError>
    ensures { IfOk result (λ copies. copies.items ≡ functions.now) }
{
    let mut copies = Vec::with_capacity(alloc, functions.len())?;
    for picked in functions {
        copies.push(picked.copy(alloc)?)?;
    }
    Ok(copies)
}

/// Which expressions a statement means.
#[derive(Drop)]
pub enum Selection {
    /// All that stand.
    All,
    /// Those of them that are named.
    Named(IdList),
}

/// What is put in for what: an `id` or an `also`.
#[derive(Drop)]
pub struct Rewriting {
    /// Its option, where one is written.
    pub option: Option<Taking>,
    pub pattern: Pattern,
    pub right: Tree,
}

/// An `id` with its `also`s, in a clause their list.
#[derive(Drop)]
pub struct RewritingList {
    rewritings: Vec<Rewriting>,
}

impl Model for RewritingList {
    ghost use Rattle.std.specs.Prelude.{List};
    ghost use Rattle.form_check.specs.declared.checked.Rewriting.{Rewriting};

    ghost Value = { List Rewriting };

    ghost view = { λ l. l.rewritings.items };
}

impl RewritingList {
    pub fn from_vec(rewritings: Vec<Rewriting>) -> RewritingList
        ensures { result ≡ rewritings.items }
    {
        RewritingList { rewritings }
    }

    pub fn as_slice(&self) -> &[Rewriting]
        ensures { result.now ≡ self.now }
    {
        self.rewritings.as_slice()
    }
}

/// A checked statement that is carried out on terms and is no block.
#[derive(Drop)]
pub enum CheckedLeaf {
    /// An `id` with its `also`s.
    Rewrite(RewritingList),
    /// From which side a term is multiplied, and by what.
    Multiply(Side, Tree),
    /// Indices that become dummies.
    Sum(IdList),
    /// An index that takes these values, 0 to 127.
    SumOver(Id, ValueList),
    Discard,
}

pub type CheckedBlock = Block<CheckedLeaf, Condition, PickedList>;

pub type CheckedAction = Action<CheckedLeaf, Condition, PickedList>;

pub type CheckedBranch = Branch<Condition, CheckedBlock>;

/// A checked statement that stands in no block. Declarations are in the program's names.
#[derive(Drop)]
pub enum Checked {
    Drop(Selection),
    Skip(Selection),
    /// An expression that is defined, and its right side.
    Local(Id, Tree),
    Print(Selection),
}

/// A module: its statements that stand in no block, in the order of the text, and those that are carried out on terms.
#[derive(Drop)]
pub struct Module {
    pub statements: Items<Checked>,
    pub actions: CheckedBlock,
}

impl Module {
    pub fn new(statements: Vec<Checked>, actions: CheckedBlock) -> Module
        ensures { result ≡ record { statements = statements.items; actions = actions } }
    {
        Module {
            statements: Items::from_vec(statements),
            actions,
        }
    }

    /// Those that stand in no block.
    pub fn statements(&self) -> &[Checked]
        ensures { result.now ≡ self.now.statements }
    {
        self.statements.as_slice()
    }

    /// Those that are carried out on terms.
    pub fn actions(&self) -> &CheckedBlock
        ensures { result.now ≡ self.now.actions }
    {
        &self.actions
    }
}
