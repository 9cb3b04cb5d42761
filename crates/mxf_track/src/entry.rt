ghost use Rattle.std.specs.Prelude.{◌≡◌, ◌≤◌, ◌++◌, length, map, All, OnOk};
ghost use Rattle.klv_base.specs.Items.{set_item};
ghost use Rattle.std.specs.List.{flat_map};
ghost use Rattle.track_terms.specs.Tail as spec;

use std::alloc::AllocError;
use track_terms::tag;

/// How many bytes an entry has.
const ENTRY_LENGTH: u32 = 11;

/// The place of the first item of a file.
const FIRST_PLACE: u64 = 16_508;

/// Puts the item of a segment's entries behind the bytes, for items of the file at these places.
pub(crate) fn put_entries_item(out: &mut Vec<u8>, places: &[u64]) -> Result<(), AllocError>
    requires count { length places.now ≤ 5000 }
    requires behind { All (λ place. 16508 ≤ place) places.now }
    ensures { OnOk result (out.new.items ≡ out.old.items ++ set_item (spec.entries_item places.now)) }
{
    let count = places.len() as u32;
    let length = (8 + ENTRY_LENGTH * count) as u16;
    out.extend_from_slice(&tag::INDEX_ENTRIES.to_be_bytes())?;
    out.extend_from_slice(&length.to_be_bytes())?;
    out.extend_from_slice(&count.to_be_bytes())?;
    out.extend_from_slice(&ENTRY_LENGTH.to_be_bytes())?;
    put_entries(out, places)?;
    Ok(())
}

fn put_entries(out: &mut Vec<u8>, places: &[u64]) -> Result<(), AllocError>
    requires { All (λ place. 16508 ≤ place) places.now }
    ensures { OnOk result (out.new.items ≡ out.old.items ++ flat_map spec.index_entry places.now) }
{
    for place in places {
        out.extend_from_slice(&index_entry(*place))?;
    }
    Ok(())
}

fn index_entry(place: u64) -> [u8; 11]
    requires { 16508 ≤ place }
    ensures { result ≡ spec.index_entry place }
{
    let [a, b, c, d, e, f, g, h] = (place - FIRST_PLACE).to_be_bytes();
    [0, 0, 0x80, a, b, c, d, e, f, g, h]
}
