ghost use Rattle.std.specs.Prelude.{◌≡◌, ◌<◌, ◌+◌, ◌^◌, ◌++◌, ℕ, List, length, IfOk, Ok};
ghost use Rattle.klv_base.specs.Items.{item, key_length};
ghost use Rattle.klv_base.specs.Reading.{read_at};

use mast_base::{Bytes, NoMemory};
use std::alloc::Global;

/// A universal label, which says what an item's value is.
pub type Key = [u8; 16];

/// The form of a length that takes three more bytes.
pub(crate) const THREE_BYTES: u8 = 0x83;

/// How many bytes stand in front of an item's value.
pub(crate) const HEAD: usize = 20;

/// What stands in front of an item's value: its key, the byte 0x83, and the value's length in three
/// bytes, the highest first.
pub fn key_length(key: Key, value_length: u32) -> [u8; 20]
    requires { value_length < 2 ^ 24 }
    ensures bytes { result ≡ key_length key value_length }
    // Wherever it stands, a reader gets both back, and the place behind.
    ensures read_back { (before rest : List ℕ) →
        read_at (before ++ result ++ rest) (length before) ≡ Ok (key, value_length, length before + 20) }
{
    let [_, high, middle, low] = value_length.to_be_bytes();
    let mut head = [0; HEAD];
    head[..16].copy_from_slice(&key);
    head[16..].copy_from_slice(&[THREE_BYTES, high, middle, low]);
    head
}

/// An item in memory of its own.
pub fn write_item(alloc: Global, key: Key, value: &[u8]) -> Result<Bytes, NoMemory>
    requires { length value.now < 2 ^ 24 }
    ensures bytes { IfOk result (λ bytes. bytes ≡ item key value.now) }
    ensures read_back { IfOk result (λ bytes. (before rest : List ℕ) →
        read_at (before ++ bytes ++ rest) (length before)
        ≡ Ok (key, length value.now, length before + 20)) }
{
    let mut out = Vec::with_capacity(alloc, HEAD + value.len())?;
    out.extend_from_slice(&key_length(key, value.len() as u32))?;
    out.extend_from_slice(value)?;
    Ok(Bytes::from(out))
}
