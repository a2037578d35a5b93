ghost use Rattle.std.specs.Prelude.{◌≡◌};
ghost use Rattle.form_blocks.specs.Blocks.{end_of as end_of_kind, end_placed as end_placed_of, fault_of as fault_of_open, is_block as is_block_of, is_same_kind as is_same_kind_as};

use form_ast::{Placed, Statement};
use form_base::Spot;

/// What a block is.
#[derive(Clone, Copy)]
pub enum BlockKind {
    Repeat,
    If,
    Argument,
}

/// A block that is open, or a `repeat` or an `if` that stands before a single block that is.
#[derive(Clone, Copy)]
pub struct Open {
    pub kind: BlockKind,
    /// Where it begins.
    pub spot: Spot,
    /// How many statements of its module stand before it.
    pub place: usize,
    /// It ends with the block behind it.
    pub is_line: bool,
    /// It is an `if` whose `else` has begun.
    pub has_else: bool,
}

/// A statement that is refused: how many of its module stand before it, and where it is refused.
#[derive(Clone, Copy)]
pub struct Fault {
    pub place: usize,
    pub spot: Spot,
}

impl BlockKind {
    fn is_same(self, other: BlockKind) -> bool
        ensures { result ≡ is_same_kind_as self other }
    {
        match (self, other) {
            (BlockKind::Repeat, BlockKind::Repeat) => true,
            (BlockKind::If, BlockKind::If) => true,
            (BlockKind::Argument, BlockKind::Argument) => true,
            _ => false,
        }
    }

    /// The statement that ends such a block.
    pub fn end(self) -> Statement
        ensures { result ≡ end_of_kind self }
    {
        match self {
            BlockKind::Repeat => Statement::EndRepeat,
            BlockKind::If => Statement::EndIf,
            BlockKind::Argument => Statement::EndArgument,
        }
    }
}

impl Open {
    /// Whether it is a block of this kind, which doesn't end with what is behind it.
    pub fn is_block(&self, kind: BlockKind) -> bool
        ensures { result ≡ is_block_of kind self.now }
    {
        self.kind.is_same(kind) && !self.is_line
    }

    /// Where it is refused if it has no end.
    pub fn fault(&self) -> Fault
        ensures { result ≡ fault_of_open self.now }
    {
        Fault {
            place: self.place,
            spot: self.spot,
        }
    }

    /// The statement that ends it, where none is written.
    pub fn end_placed(&self) -> Placed
        ensures { result ≡ end_placed_of self.now }
    {
        Placed {
            spot: self.spot,
            statement: self.kind.end(),
        }
    }
}
