ghost use Rattle.std.specs.Prelude.{◌≡◌, ◌++◌, length, IfOk, OnOk};
ghost use Rattle.track_terms.specs.Sets as spec;

use crate::value::value_bytes;
use klv_base::{SetItem, write_set};
use mast_base::NoMemory;
use std::alloc::{AllocError, Global};
use track_terms::{SET, TrackFacts, key_of, set_bytes, set_rows};

/// Puts the sets of a file behind the bytes.
pub(crate) fn put_sets(alloc: Global, out: &mut Vec<u8>, facts: &TrackFacts) -> Result<(), NoMemory>
    ensures { OnOk result (out.new.items ≡ out.old.items ++ spec.sets facts.now) }
{
    for (index, byte) in set_bytes().iter().enumerate() {
        let number = index as u8 + 1;
        if facts.kind.has_set(number) {
            put_set(alloc, out, facts, number, *byte)?;
        }
    }
    Ok(())
}

/// Puts the set of this number, in whose key this byte stands, behind the bytes.
fn put_set(
    alloc: Global,
    out: &mut Vec<u8>,
    facts: &TrackFacts,
    number: u8,
    byte: u8,
) -> Result<(), NoMemory>
    requires { length facts.now.asset ≡ 16 }
    ensures { OnOk result (out.new.items ≡ out.old.items ++ spec.set_of facts.now (number, byte)) }
{
    let mut key = key_of(SET);
    key[14] = byte;
    let items = set_items(alloc, facts, number)?;
    let set = write_set(alloc, key, &items)?;
    out.extend_from_slice(set.as_slice())?;
    Ok(())
}

/// The items of the set of this number.
fn set_items(alloc: Global, facts: &TrackFacts, number: u8) -> Result<Vec<SetItem>, AllocError>
    ensures { IfOk result (λ items. items.items ≡ spec.set_items facts.now number) }
{
    let mut items = Vec::new(alloc);
    for row in set_rows() {
        if row.set == number {
            let value = value_bytes(alloc, facts, row.value)?;
            items.push(SetItem {
                tag: row.tag,
                value,
            })?;
        }
    }
    Ok(items)
}
