//! Which expressions stand at the start of a module.
ghost use Rattle.std.specs.Prelude.{◌≡◌, ◌+◌, ◌<◌, ◌^◌, ℕ, false, ◌==◌, ◌||◌, ◌&&◌, not, if◌then◌else◌, OnOk, OnErr};
ghost use Rattle.form_right_side.specs.Marks.{current_in, mark_at, stands_in, is_defined_in, stays_in, AreMarksLawful};

use form_base::Id;
use std::alloc::{AllocError, Global};

/// What was done to an expression. Modules are numbered from 1; 0 is none.
#[derive(Clone, Copy)]
pub struct Mark {
    /// The last module that defines it.
    defined: u64,
    /// The last module that drops it by name, where it stood at that module's start.
    dropped: u64,
    /// Whether it stood at the start of the module `defined`.
    stood: bool,
}

impl Mark {
    const NONE: Mark = Mark {
        defined: 0,
        dropped: 0,
        stood: false,
    };
}

/// The expressions that stand at the start of the module that is checked, and what this module did to them so far. A
/// module costs as much as it has statements, however many expressions there are.
#[derive(Drop)]
pub struct Standing {
    /// The number of the module.
    current: u64,
    /// Whether it drops all.
    drops_all: bool,
    /// The last module before it that drops all.
    all_dropped: u64,
    /// Marks by `Id`; past them nothing was done.
    marks: Vec<Mark>,
}

impl Standing {
    /// At the start of the first module.
    pub fn new(alloc: Global) -> Standing
        ensures current { current_in result ≡ 1 }
        ensures lawful { AreMarksLawful result }
        ensures stands { (e : ℕ) → stands_in result e ≡ false }
        ensures defines { (e : ℕ) → is_defined_in result e ≡ false }
        ensures stays { (e : ℕ) → stays_in result e ≡ false }
    {
        Standing {
            current: 1,
            drops_all: false,
            all_dropped: 0,
            marks: Vec::new(alloc),
        }
    }

    fn mark(&self, id: Id) -> Mark
        ensures { result ≡ mark_at self.now.marks.items id }
    {
        match self.marks.get(id.position() as usize) {
            Some(mark) => *mark,
            None => Mark::NONE,
        }
    }

    /// Whether the expression stands at the start of the module.
    pub fn stands(&self, id: Id) -> bool
        ensures { result ≡ stands_in self.now id }
    {
        let mark = self.mark(id);
        if mark.defined == self.current {
            return mark.stood;
        }
        let is_dropped = mark.dropped > mark.defined && mark.dropped != self.current;
        mark.defined > 0 && self.all_dropped <= mark.defined && !is_dropped
    }

    /// Whether the module defines the expression.
    pub fn is_defined(&self, id: Id) -> bool
        ensures { result ≡ is_defined_in self.now id }
    {
        self.mark(id).defined == self.current
    }

    /// The module defines the expression. Where memory is wanting, nothing changes.
    pub fn define(&mut self, id: Id) -> Result<(), AllocError>
        requires { AreMarksLawful self.old }
        ensures current { current_in self.new ≡ current_in self.old }
        ensures lawful { AreMarksLawful self.new }
        ensures stands { (e : ℕ) → stands_in self.new e ≡ stands_in self.old e }
        ensures defines { OnOk result ((e : ℕ) → is_defined_in self.new e ≡ (is_defined_in self.old e || (id == e))) }
        ensures stays { (e : ℕ) → stays_in self.new e ≡ stays_in self.old e }
        ensures unchanged { OnErr result ((e : ℕ) → is_defined_in self.new e ≡ is_defined_in self.old e) }
    {
        let mark = Mark {
            defined: self.current,
            dropped: self.mark(id).dropped,
            stood: self.stands(id),
        };
        set_mark(&mut self.marks, id, mark)
    }

    /// The module drops all expressions that stand at its start.
    pub fn drop_all(&mut self)
        requires { AreMarksLawful self.old }
        ensures current { current_in self.new ≡ current_in self.old }
        ensures lawful { AreMarksLawful self.new }
        ensures stands { (e : ℕ) → stands_in self.new e ≡ stands_in self.old e }
        ensures defines { (e : ℕ) → is_defined_in self.new e ≡ is_defined_in self.old e }
        ensures stays { (e : ℕ) → stays_in self.new e ≡ false }
    {
        self.drops_all = true;
    }

    /// The module drops the expression, where it stands at its start. Where memory is wanting, nothing changes.
    pub fn drop_named(&mut self, id: Id) -> Result<(), AllocError>
        requires { AreMarksLawful self.old }
        ensures current { current_in self.new ≡ current_in self.old }
        ensures lawful { AreMarksLawful self.new }
        ensures stands { (e : ℕ) → stands_in self.new e ≡ stands_in self.old e }
        ensures defines { (e : ℕ) → is_defined_in self.new e ≡ is_defined_in self.old e }
        ensures stays { OnOk result ((e : ℕ) → stays_in self.new e ≡ (stays_in self.old e && not (id == e))) }
        ensures unchanged { OnErr result ((e : ℕ) → stays_in self.new e ≡ stays_in self.old e) }
    {
        if !self.stands(id) {
            return Ok(());
        }
        let mark = Mark {
            dropped: self.current,
            ..self.mark(id)
        };
        set_mark(&mut self.marks, id, mark)
    }

    /// The module ends, and the next one begins.
    pub fn end_module(&mut self)
        requires lawful { AreMarksLawful self.old }
        requires room { current_in self.old + 1 < 2 ^ 64 }
        ensures lawful { AreMarksLawful self.new }
        ensures current { current_in self.new ≡ current_in self.old + 1 }
        ensures stands { (e : ℕ) → stands_in self.new e ≡ (is_defined_in self.old e || stays_in self.old e) }
        ensures defines { (e : ℕ) → is_defined_in self.new e ≡ false }
        ensures stays { (e : ℕ) → stays_in self.new e ≡ stands_in self.new e }
    {
        if self.drops_all {
            self.all_dropped = self.current;
        }
        self.drops_all = false;
        self.current += 1;
    }
}

/// Sets a mark.
fn set_mark(marks: &mut Vec<Mark>, id: Id, mark: Mark) -> Result<(), AllocError>
    ensures set { OnOk result ((e : ℕ) → mark_at marks.new.items e ≡ (if id == e then mark else mark_at marks.old.items e)) }
    ensures unchanged { OnErr result ((e : ℕ) → mark_at marks.new.items e ≡ mark_at marks.old.items e) }
{
    let position = id.position() as usize;
    while marks.len() <= position {
        marks.push(Mark::NONE)?;
    }
    marks[position] = mark;
    Ok(())
}
