//! How lines nest into blocks.

ghost use Rattle.std.specs.Prelude.{◌≡◌, []};
ghost use Rattle.form_preproc.specs.Answers.{IsNested};
ghost use Rattle.form_preproc.specs.Sources.{IsChecked};
ghost use Rattle.form_preproc.specs.Block as block;

use crate::key::Key;
use crate::source::{SourceError, SourceLine};
use form_base::Cause;
use form_calc::Stack;
use std::alloc::{AllocError, Global};

/// The most blocks that may be open.
const MOST_BLOCKS: usize = 64;

/// What a block is.
#[derive(Clone, Copy)]
pub enum Kind {
    Loop,
    Choice,
    Procedure,
}

/// A block that is open.
#[derive(Clone, Copy)]
pub struct Open {
    pub kind: Kind,
    /// Whether its last part, that of `#else`, has begun.
    pub has_last: bool,
    /// The line at which it begins.
    pub number: u32,
}

fn kind_of(key: Key) -> Kind
    ensures { result ≡ block.kind_of key }
{
    match key {
        Key::Do | Key::Enddo => Kind::Loop,
        Key::Procedure | Key::Endprocedure => Kind::Procedure,
        _ => Kind::Choice,
    }
}

fn is_same_kind(a: Kind, b: Kind) -> bool
    ensures { result ≡ block.is_same_kind a b }
{
    match (a, b) {
        (Kind::Loop, Kind::Loop) => true,
        (Kind::Choice, Kind::Choice) => true,
        (Kind::Procedure, Kind::Procedure) => true,
        _ => false,
    }
}

impl Key {
    /// Whether a block begins.
    pub fn is_opening(self) -> bool
        ensures { result ≡ block.is_opening self }
    {
        match self {
            Key::Do | Key::If | Key::Ifdef | Key::Ifndef | Key::Procedure => true,
            _ => false,
        }
    }

    /// Whether a block ends.
    pub fn is_end(self) -> bool
        ensures { result ≡ block.is_end self }
    {
        match self {
            Key::Enddo | Key::Endif | Key::Endprocedure => true,
            _ => false,
        }
    }

    /// Whether a block ends, or a further part of it begins.
    pub fn is_closer(self) -> bool
        ensures { result ≡ block.is_closer self }
    {
        match self {
            Key::Elseif | Key::Else => true,
            _ => self.is_end(),
        }
    }
}

/// What ends a check of nesting.
#[derive(Drop)]
pub enum Nesting {
    /// A line can't stand where it does.
    Bad,
    NoMemory,
}

impl From<AllocError> for Nesting {
    ghost use Rattle.std.specs.Prelude.{◌≡◌};
    ghost use Rattle.form_preproc.specs.declared.nesting.Nesting.TheVariants.{NoMemory};

    ghost from_gives = { λ _ e. e ≡ NoMemory };

    fn from(_e: AllocError) -> Nesting {
        Nesting::NoMemory
    }
}

fn begin(kind: Kind, number: u32, blocks: &mut Stack<Open>) -> Result<(), Nesting>
    ensures { IsNested blocks.new result (block.begun kind number blocks.old) }
{
    if blocks.len() >= MOST_BLOCKS {
        return Err(Nesting::Bad);
    }
    let block = Open {
        kind,
        has_last: false,
        number,
    };
    Ok(blocks.push(block)?)
}

fn end(kind: Kind, blocks: &mut Stack<Open>) -> Result<(), Nesting>
    ensures { IsNested blocks.new result (block.ended kind blocks.old) }
{
    match blocks.pop() {
        Some(block) if is_same_kind(block.kind, kind) => Ok(()),
        _ => Err(Nesting::Bad),
    }
}

fn go_on(is_last: bool, blocks: &mut Stack<Open>) -> Result<(), Nesting>
    ensures { IsNested blocks.new result (block.continued is_last blocks.old) }
{
    let Some(block) = blocks.pop() else {
        return Err(Nesting::Bad);
    };
    if !(is_same_kind(block.kind, Kind::Choice) && !block.has_last) {
        return Err(Nesting::Bad);
    }
    let block = Open {
        kind: block.kind,
        has_last: is_last,
        number: block.number,
    };
    Ok(blocks.push(block)?)
}

/// Takes one more line.
fn take(key: Key, number: u32, blocks: &mut Stack<Open>) -> Result<(), Nesting>
    ensures { IsNested blocks.new result (block.open_behind key number blocks.old) }
{
    match key {
        Key::Elseif => go_on(false, blocks),
        Key::Else => go_on(true, blocks),
        _ => take_block(key, number, blocks),
    }
}

fn take_block(key: Key, number: u32, blocks: &mut Stack<Open>) -> Result<(), Nesting>
    ensures { IsNested blocks.new result (block.block_behind key number blocks.old) }
{
    if key.is_opening() {
        begin(kind_of(key), number, blocks)
    } else if key.is_end() {
        end(kind_of(key), blocks)
    } else {
        Ok(())
    }
}

/// Refuses the first line that doesn't nest, or the innermost opening that has no end.
#[tactic(auto, unfolding(crate::specs::Block::misnested))]
pub fn check_nesting(alloc: Global, lines: &[SourceLine]) -> Result<(), SourceError>
    ensures { IsChecked result (block.misnested (λ line. line.key) (λ line. line.line.number) [] lines.now) }
{
    let mut blocks = Stack::new(alloc);
    for line in lines {
        match take(line.key(), line.number(), &mut blocks) {
            Ok(()) => {}
            Err(Nesting::Bad) => {
                return Err(SourceError::Refused(Cause::BadInstruction, line.number()));
            }
            Err(Nesting::NoMemory) => return Err(SourceError::NoMemory),
        }
    }
    match blocks.pop() {
        Some(block) => Err(SourceError::Refused(Cause::Unclosed, block.number)),
        None => Ok(()),
    }
}
