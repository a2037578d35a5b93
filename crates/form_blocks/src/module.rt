ghost use Rattle.std.specs.Prelude.{◌≡◌, List, [], ◌++◌, IfOk, OnOk, IfErr, MatchOption, None, Some, fold, length};
ghost use Rattle.form_blocks.specs.Blocks.{Read, and_branch, and_end, and_ended, and_fault, and_last, and_lines, and_opening, and_read, and_statement, begun_branch, ends_with_rewrite as ends_with_rewrite_of, fault_at_end, inner_left, lines_ended, may_stand as may_stand_there, new_module, refused, unclosed};

use crate::open::{BlockKind, Fault, Open};
use crate::opens::Opens;
use crate::reading::Reading;
use crate::role::{Role, role_of};
use form_ast::{Placed, Statement};
use form_base::Spot;
use std::alloc::{AllocError, Global};
use std::marker::Model;

/// So many blocks may be open at a place.
const MOST_BLOCKS: usize = 64;

/// A module behind some of its statements.
#[derive(Drop)]
pub struct ModuleText {
    opens: Opens,
    statements: Vec<Placed>,
    fault: Option<Fault>,
}

impl Model for ModuleText {
    ghost use Rattle.std.specs.Coded.{codes};
    ghost use Rattle.form_ast.specs.contracts.statement.Placed as placed;
    ghost use Rattle.form_blocks.specs.Blocks.{Unfinished};

    ghost Value = { Unfinished };

    ghost coded = { Prim.hlevel (codes, placed.the_row.coded) };

    ghost view = { λ m. record { opens = m.opens; statements = m.statements.items; fault = m.fault } };
}

/// Whether the last of the statements is an `id` or an `also`.
fn ends_with_rewrite(statements: &[Placed]) -> bool
    ensures { result ≡ ends_with_rewrite_of statements.now }
{
    match statements.last() {
        Some(placed) => matches!(placed.statement, Statement::Rewrite(_)),
        None => false,
    }
}

impl ModuleText {
    pub fn new(alloc: Global) -> ModuleText
        ensures { result ≡ new_module }
    {
        ModuleText {
            opens: Opens::new(alloc),
            statements: Vec::new(alloc),
            fault: None,
        }
    }

    /// Goes on behind a statement that begins at this spot and is read so, or isn't in the grammar.
    pub fn read(&mut self, spot: Spot, reading: Option<Reading>) -> Result<(), AllocError>
        ensures { OnOk result (self.new ≡ and_read self.old spot reading) }
    {
        let Some(reading) = reading else {
            self.refuse(spot);
            return Ok(());
        };
        let (lines, last) = reading.into_parts();
        let role = role_of(&last.statement);
        if !self.may_stand(lines.len(), role) {
            self.refuse(spot);
            return Ok(());
        }
        self.open_lines(lines)?;
        self.take_last(role, spot, last)
    }

    /// Its statements, or where the first one in the order of the text is refused.
    pub fn end(self) -> Result<Vec<Placed>, Spot>
        ensures done { IfOk result (λ statements. (fault_at_end self ≡ None) × (statements.items ≡ self.statements)) }
        ensures refused { IfErr result (λ spot. (fault : Fault) × (fault_at_end self ≡ Some fault) × (spot ≡ fault.spot)) }
    {
        let mut module = self;
        module.leave_all();
        match module.fault {
            None => Ok(module.statements),
            Some(fault) => Err(fault.spot),
        }
    }

    /// Whether a statement of this role may stand behind so many lines.
    fn may_stand(&self, lines: usize, role: Role) -> bool
        ensures { (list : List Placed) → length list ≡ lines → result ≡ may_stand_there self.now list role }
    {
        match role {
            Role::Opens(_) => self.opens.len().saturating_add(lines) < MOST_BLOCKS,
            Role::Ends(kind) => lines == 0 && self.opens.has_block(kind),
            Role::Branches { is_else: _ } => lines == 0 && self.opens.has_block(BlockKind::If),
            Role::Acts { is_also: true } => lines == 0 && ends_with_rewrite(&self.statements),
            Role::Acts { is_also: false } => {
                self.opens.len().saturating_add(lines) <= MOST_BLOCKS
            }
            Role::Other => lines == 0 && self.opens.len() == 0,
        }
    }

    fn take_last(&mut self, role: Role, spot: Spot, last: Placed) -> Result<(), AllocError>
        ensures { OnOk result (self.new ≡ and_last role spot self.old last) }
    {
        match role {
            Role::Opens(_) => self.open(false, last),
            Role::Ends(kind) => self.end_block(kind, last),
            Role::Branches { is_else } => self.begin_branch(is_else, spot, last),
            Role::Acts { is_also: _ } => {
                self.statements.push(last)?;
                self.end_lines()
            }
            Role::Other => {
                self.statements.push(last)?;
                Ok(())
            }
        }
    }

    /// How many statements stand before the next one.
    fn place(&self) -> usize
        ensures { result ≡ length self.now.statements }
    {
        self.statements.len()
    }

    /// Keeps the first fault in the order of the text.
    fn keep_fault(&mut self, fault: Fault)
        ensures { self.new ≡ record self.old { fault = and_fault fault self.old.fault } }
    {
        let is_first = match self.fault {
            Some(other) => fault.place < other.place,
            None => true,
        };
        if is_first {
            self.fault = Some(fault);
        }
    }

    fn refuse(&mut self, spot: Spot)
        ensures { self.new ≡ refused spot self.old }
    {
        let place = self.place();
        self.keep_fault(Fault { place, spot });
    }

    /// A block that has no end.
    fn leave(&mut self, block: Open)
        ensures { self.new ≡ record self.old { fault = unclosed self.old.fault block } }
    {
        if !block.is_line {
            self.keep_fault(block.fault());
        }
    }

    /// All that is open has no end.
    fn leave_all(&mut self)
        ensures statements { self.new.statements ≡ self.old.statements }
        ensures fault { self.new.fault ≡ fault_at_end self.old }
    {
        while let Some(block) = self.opens.pop() {
            self.leave(block);
        }
    }

    /// What is open in a block of this kind has no end.
    fn leave_inner(&mut self, kind: BlockKind)
        ensures { self.new ≡ inner_left kind self.old.opens self.old }
    {
        while let Some(block) = self.opens.last() {
            if block.is_block(kind) {
                break;
            }
            self.opens.pop();
            self.leave(block);
        }
    }

    fn open(&mut self, is_line: bool, opening: Placed) -> Result<(), AllocError>
        ensures { OnOk result (self.new ≡ and_opening is_line self.old opening) }
    {
        let kind = match role_of(&opening.statement) {
            Role::Opens(kind) => kind,
            _ => BlockKind::Repeat,
        };
        let place = self.place();
        self.opens.push(Open {
            kind,
            spot: opening.spot,
            place,
            is_line,
            has_else: false,
        })?;
        self.statements.push(opening)?;
        Ok(())
    }

    fn open_lines(&mut self, lines: Vec<Placed>) -> Result<(), AllocError>
        ensures { OnOk result (self.new ≡ and_lines lines.items self.old) }
    {
        for line in lines {
            self.open(true, line)?;
        }
        Ok(())
    }

    /// Ends what ends with the statement or block that ends here.
    fn end_lines(&mut self) -> Result<(), AllocError>
        ensures { OnOk result (self.new ≡ and_ended self.old) }
    {
        while let Some(block) = self.opens.last() {
            if !block.is_line {
                break;
            }
            self.opens.pop();
            self.statements.push(block.end_placed())?;
        }
        Ok(())
    }

    fn end_block(&mut self, kind: BlockKind, end: Placed) -> Result<(), AllocError>
        ensures { OnOk result (self.new ≡ and_end kind self.old end) }
    {
        self.leave_inner(kind);
        self.opens.pop();
        self.statements.push(end)?;
        self.end_lines()
    }

    fn begin_branch(&mut self, is_else: bool, spot: Spot, branch: Placed) -> Result<(), AllocError>
        ensures { OnOk result (self.new ≡ and_branch is_else spot self.old branch) }
    {
        self.leave_inner(BlockKind::If);
        self.statements.push(branch)?;
        let Some(block) = self.opens.pop() else {
            return Ok(());
        };
        self.opens.push(Open {
            has_else: is_else || block.has_else,
            ..block
        })?;
        if block.has_else {
            self.refuse(spot);
        }
        Ok(())
    }
}
