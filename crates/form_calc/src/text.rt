ghost use Rattle.std.specs.Prelude.{◌≡◌, [], ◌∷◌, ◌++◌, length, OnOk, OnErr, IfOk};

use std::alloc::{AllocError, Global};
use std::marker::Model;

/// A piece of text that is kept: in a clause its bytes.
#[derive(Drop)]
pub struct Text {
    bytes: Vec<u8>,
}

impl Model for Text {
    ghost use Rattle.std.specs.Prelude.{List, ℕ};

    ghost Value = { List ℕ };

    ghost view = { λ t. t.bytes.items };
}

impl Text {
    pub fn new(alloc: Global) -> Text
        ensures { result ≡ [] }
    {
        Text {
            bytes: Vec::new(alloc),
        }
    }

    /// An empty text with room for so many bytes.
    pub fn with_room(alloc: Global, room: usize) -> Result<Text, AllocError>
        ensures { IfOk result (λ text. text ≡ []) }
    {
        Ok(Text {
            bytes: Vec::with_capacity(alloc, room)?,
        })
    }

    pub fn from_slice(alloc: Global, bytes: &[u8]) -> Result<Text, AllocError>
        ensures { IfOk result (λ text. text ≡ bytes.now) }
    {
        Ok(Text {
            bytes: bytes.to_vec(alloc)?,
        })
    }

    pub fn len(&self) -> usize
        ensures { result ≡ length self.now }
    {
        self.bytes.len()
    }

    pub fn as_slice(&self) -> &[u8]
        ensures { result.now ≡ self.now }
    {
        &self.bytes
    }

    pub fn push(&mut self, byte: u8) -> Result<(), AllocError>
        ensures { OnOk result (self.new ≡ self.old ++ byte ∷ []) }
    {
        Ok(self.bytes.push(byte)?)
    }

    pub fn append(&mut self, bytes: &[u8]) -> Result<(), AllocError>
        ensures { OnOk result (self.new ≡ self.old ++ bytes.now) }
    {
        self.bytes.extend_from_slice(bytes)
    }
}
