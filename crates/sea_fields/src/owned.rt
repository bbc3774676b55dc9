// Byte rows and lists of slots that own their memory.
ghost use Rattle.std.specs.Prelude.{◌≡◌, ◌++◌, [], length, take, OnOk, OnErr};

use std::alloc::{AllocError, Global};
use std::marker::Model;

/// A byte row, seen by contracts as the list of its bytes.
#[derive(Debug, Drop)]
pub struct Bytes {
    bytes: Vec<u8>,
}

impl Model for Bytes {
    ghost use Rattle.std.specs.Prelude.{ℕ, List};

    ghost Value = { List ℕ };

    ghost view = { λ it. it.bytes.items };
}

impl Bytes {
    /// No bytes.
    pub fn new(alloc: Global) -> Bytes
        ensures { result ≡ [] }
    {
        Bytes {
            bytes: Vec::new(alloc),
        }
    }

    /// The bytes.
    pub fn as_slice(&self) -> &[u8]
        ensures { result.now ≡ self.now }
    {
        self.bytes.as_slice()
    }

    /// How many bytes there are.
    pub fn len(&self) -> usize
        ensures { result ≡ length self.now }
    {
        self.bytes.len()
    }

    /// The vector that the bytes are in.
    pub fn into_vec(self) -> Vec<u8>
        ensures { result.items ≡ self }
    {
        let Bytes { bytes } = self;
        bytes
    }

    /// Appends bytes. Without memory it leaves the row as it was.
    pub fn append(&mut self, more: &[u8]) -> Result<(), AllocError>
        ensures ok { OnOk result (self.new ≡ self.old ++ more.now) }
        ensures err { OnErr result (self.new ≡ self.old) }
    {
        self.bytes.extend_from_slice(more)?;
        Ok(())
    }

    // Keeps the first bytes alone.
    pub(crate) fn truncate(&mut self, length: usize)
        ensures { self.new ≡ take length self.old }
    {
        self.bytes.truncate(length)
    }
}

impl From<Vec<u8>> for Bytes {
    ghost from_gives = { λ vec bytes. bytes ≡ vec.items };

    fn from(bytes: Vec<u8>) -> Bytes {
        Bytes { bytes }
    }
}

/// A list of slot numbers, seen by contracts as the list of them.
#[derive(Debug, Drop)]
pub struct Slots {
    slots: Vec<u32>,
}

impl Model for Slots {
    ghost use Rattle.std.specs.Prelude.{ℕ, List};

    ghost Value = { List ℕ };

    ghost view = { λ it. it.slots.items };
}

impl Slots {
    /// No slots.
    pub fn new(alloc: Global) -> Slots
        ensures { result ≡ [] }
    {
        Slots {
            slots: Vec::new(alloc),
        }
    }

    /// The slots.
    pub fn as_slice(&self) -> &[u32]
        ensures { result.now ≡ self.now }
    {
        self.slots.as_slice()
    }

    /// The vector that the slots are in.
    pub fn into_vec(self) -> Vec<u32>
        ensures { result.items ≡ self }
    {
        let Slots { slots } = self;
        slots
    }
}

impl From<Vec<u32>> for Slots {
    ghost from_gives = { λ vec slots. slots ≡ vec.items };

    fn from(slots: Vec<u32>) -> Slots {
        Slots { slots }
    }
}
