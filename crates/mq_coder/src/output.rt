ghost use Rattle.std.specs.Prelude.{◌≡◌, ◌++◌, ◌<◌, ◌^◌, [], ◌∷◌, length, take, slice_set, OnOk, OnErr};
ghost use Rattle.mq_coder.specs.Bytes.{with_item};

use mast_base::{Bytes, NoMemory};
use std::alloc::Global;
use std::marker::Model;

/// The bytes that come out, in memory that stays for others. Contracts see their list.
#[derive(Debug, Drop)]
pub(crate) struct Output {
    bytes: Vec<u8>,
}

impl Model for Output {
    ghost use Rattle.std.specs.Prelude.{ℕ, List};

    ghost Value = { List ℕ };

    ghost view = { λ output. output.bytes.items };
}

impl Output {
    /// No bytes, which take no memory.
    pub(crate) fn new(alloc: Global) -> Self
        ensures { result ≡ [] }
    {
        Output {
            bytes: Vec::new(alloc),
        }
    }

    pub(crate) fn as_slice(&self) -> &[u8]
        ensures { result.now ≡ self.now }
    {
        &self.bytes
    }

    pub(crate) fn len(&self) -> usize
        ensures { result ≡ length self.now }
    {
        self.bytes.len()
    }

    pub(crate) fn push(&mut self, byte: u8) -> Result<(), NoMemory>
        ensures ok { OnOk result (self.new ≡ self.old ++ byte ∷ []) }
        ensures err { OnErr result (self.new ≡ self.old) }
    {
        self.bytes.push(byte)?;
        Ok(())
    }

    /// Puts a byte in the place of another.
    pub(crate) fn set(&mut self, at: usize, byte: u8)
        requires { at < length self.old }
        ensures { self.new ≡ slice_set self.old at byte }
    {
        self.bytes[at] = byte;
    }

    /// Keeps the first `len` bytes.
    pub(crate) fn truncate(&mut self, len: usize)
        ensures { self.new ≡ take len self.old }
    {
        self.bytes.truncate(len);
    }

    /// Other bytes in the place of all. After `NoMemory` they are as they were.
    pub(crate) fn refill(&mut self, front: &[u8], last: Option<u8>) -> Result<(), NoMemory>
        requires { length front.now < 2 ^ 32 }
        ensures ok { OnOk result (self.new ≡ with_item front.now last) }
        ensures err { OnErr result (self.new ≡ self.old) }
    {
        self.bytes.reserve(front.len() + 1)?;
        self.bytes.clear();
        self.bytes.extend_from_slice(front)?;
        if let Some(byte) = last {
            self.bytes.push(byte)?;
        }
        Ok(())
    }

    pub(crate) fn into_bytes(self) -> Bytes
        ensures { result ≡ self }
    {
        Bytes::from(self.bytes)
    }
}
