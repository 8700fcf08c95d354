// Bytes that grow, and say so where there is no memory.
ghost use Rattle.std.specs.Prelude.{◌≡◌, [], ◌∷◌, ◌++◌, OnOk, OnErr};

use crate::NoMemory;
use std::alloc::Global;
use std::marker::Model;

/// Owned bytes. Contracts see the list of them.
#[derive(Debug, Drop)]
pub struct ByteBox {
    bytes: Vec<u8>,
}

impl Model for ByteBox {
    ghost use Rattle.std.specs.Prelude.{List, ℕ};

    ghost Value = { List ℕ };

    ghost view = { λ b. b.bytes.items };
}

impl ByteBox {
    /// No bytes. It takes no memory.
    pub fn new(alloc: Global) -> ByteBox
        ensures { result ≡ [] }
    {
        ByteBox {
            bytes: Vec::new(alloc),
        }
    }

    /// The bytes of a vector, with no copy.
    pub fn from_vec(bytes: Vec<u8>) -> ByteBox
        ensures { result ≡ bytes.items }
    {
        ByteBox { bytes }
    }

    /// Adds a byte at the end.
    pub fn push(&mut self, byte: u8) -> Result<(), NoMemory>
        ensures ok { OnOk result (self.new ≡ self.old ++ byte ∷ []) }
        ensures err { OnErr result (self.new ≡ self.old) }
    {
        self.bytes.push(byte)?;
        Ok(())
    }

    /// Adds bytes at the end, all of them or none.
    pub fn append(&mut self, bytes: &[u8]) -> Result<(), NoMemory>
        ensures ok { OnOk result (self.new ≡ self.old ++ bytes.now) }
        ensures err { OnErr result (self.new ≡ self.old) }
    {
        self.bytes.extend_from_slice(bytes)?;
        Ok(())
    }

    /// The bytes.
    pub fn bytes(&self) -> &[u8]
        ensures { result.now ≡ self.now }
    {
        self.bytes.as_slice()
    }
}
