ghost use Rattle.std.specs.Prelude.{◌≡◌, ◌<◌, ◌+◌, ◌^◌, ◌++◌, ℕ, List, All, length, IfOk, OnOk, Ok};
ghost use Rattle.klv_base.specs.Items.{local_set, set_value};
ghost use Rattle.klv_base.specs.Reading.{read_at};

use crate::item::{HEAD, Key, key_length};
use mast_base::{Bytes, NoMemory};
use std::alloc::{AllocError, Global};

/// One item of a local set.
#[derive(Debug, Drop)]
pub struct SetItem {
    /// Says within its set what the value is.
    pub tag: u16,
    pub value: Bytes,
}

/// The number of bytes of a set's value.
fn set_length(items: &[SetItem]) -> usize
    requires { length (set_value items.now) < 2 ^ 24 }
    ensures { result ≡ length (set_value items.now) }
{
    let mut value_length = 0;
    for item in items {
        value_length += 4 + item.value.len();
    }
    value_length
}

/// Puts the items of a set behind the bytes, each its tag, the length of its value in two bytes and the
/// value, numbers with their highest byte first.
fn put_items(out: &mut Vec<u8>, items: &[SetItem]) -> Result<(), AllocError>
    requires { All (λ item. length item.value < 2 ^ 16) items.now }
    ensures { OnOk result (out.new.items ≡ out.old.items ++ set_value items.now) }
{
    for item in items {
        let length = item.value.len() as u16;
        out.extend_from_slice(&item.tag.to_be_bytes())?;
        out.extend_from_slice(&length.to_be_bytes())?;
        out.extend_from_slice(item.value.as_slice())?;
    }
    Ok(())
}

/// A local set in memory of its own: an item whose value is the set's items, in their order.
pub fn write_set(alloc: Global, key: Key, items: &[SetItem]) -> Result<Bytes, NoMemory>
    requires values { All (λ item. length item.value < 2 ^ 16) items.now }
    requires whole { length (set_value items.now) < 2 ^ 24 }
    ensures bytes { IfOk result (λ bytes. bytes ≡ local_set key items.now) }
    ensures read_back { IfOk result (λ bytes. (before rest : List ℕ) →
        read_at (before ++ bytes ++ rest) (length before)
        ≡ Ok (key, length (set_value items.now), length before + 20)) }
{
    let length = set_length(items);
    let mut out = Vec::with_capacity(alloc, HEAD + length)?;
    out.extend_from_slice(&key_length(key, length as u32))?;
    put_items(&mut out, items)?;
    Ok(Bytes::from(out))
}
