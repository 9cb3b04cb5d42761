ghost use Rattle.std.specs.Prelude.{◌≡◌, ◌≤◌, ◌++◌, length, All, OnOk};
ghost use Rattle.klv_base.specs.Items.{local_set, set_value};
ghost use Rattle.track_terms.specs.Keys as keys;
ghost use Rattle.track_terms.specs.Tail as spec;

use crate::entry::put_entries_item;
use crate::set_item::put_set_item;
use klv_base::key_length;
use mxf_header::{id, rational};
use std::alloc::{AllocError, Global};
use track_terms::{INDEX, TrackFacts, key_of, tag};

/// How many frames a segment has at most.
pub(crate) const SEGMENT_FRAMES: usize = 5000;

/// How many bytes a segment's value has beside its entries.
const FIXED_LENGTH: u32 = 97;

/// How many bytes an entry has.
const ENTRY_LENGTH: u32 = 11;

/// Puts the index segment of this number behind the bytes. Its frames' items are at these places.
pub(crate) fn put_segment(
    alloc: Global,
    out: &mut Vec<u8>,
    facts: &TrackFacts,
    number: u32,
    places: &[u64],
) -> Result<(), AllocError>
    requires count { length places.now ≤ 5000 }
    requires behind { All (λ place. 16508 ≤ place) places.now }
    ensures { OnOk result (out.new.items
        ≡ out.old.items ++ local_set (keys.key_of INDEX) (spec.segment_items facts.now number places.now)) }
{
    let length = FIXED_LENGTH + ENTRY_LENGTH * places.len() as u32;
    out.extend_from_slice(&key_length(key_of(INDEX), length))?;
    put_description(alloc, out, facts, number, places.len() as u64)?;
    put_entries_item(out, places)?;
    Ok(())
}

/// Puts the items of a segment, but for its entries, behind the bytes.
fn put_description(
    alloc: Global,
    out: &mut Vec<u8>,
    facts: &TrackFacts,
    number: u32,
    count: u64,
) -> Result<(), AllocError>
    ensures { OnOk result
        (out.new.items ≡ out.old.items ++ set_value (spec.description_items facts.now number count)) }
{
    let name = format!(in alloc; "index-{number}")?;
    let first = SEGMENT_FRAMES as u64 * u64::from(number);
    put_set_item(out, tag::INSTANCE_ID, &id(alloc, facts, name.as_bytes())?)?;
    put_set_item(out, tag::INDEX_RATE, &rational(u32::from(facts.fps), 1))?;
    put_set_item(out, tag::INDEX_START, &first.to_be_bytes())?;
    put_set_item(out, tag::INDEX_DURATION, &count.to_be_bytes())?;
    put_set_item(out, tag::EDIT_UNIT_BYTES, &0u32.to_be_bytes())?;
    put_set_item(out, tag::INDEX_ID, &129u32.to_be_bytes())?;
    put_set_item(out, tag::BODY_ID, &1u32.to_be_bytes())?;
    put_set_item(out, tag::SLICE_COUNT, &[0])?;
    Ok(())
}
