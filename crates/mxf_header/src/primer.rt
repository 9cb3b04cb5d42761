ghost use Rattle.std.specs.Prelude.{◌≡◌, ◌<◌, ◌^◌, ◌++◌, filter, length, map, IfOk, OnOk};
ghost use Rattle.track_terms.specs.Primer as spec;
ghost use Rattle.track_terms.specs.Values.{batch};

use crate::item::put_item;
use std::alloc::{AllocError, Global};
use track_terms::{LABEL, PRIMER, PrimerEntry, TrackKind, key_of, primer_entries, set_rows};

/// How many bytes an entry has.
const ENTRY_LENGTH: u32 = 18;

/// Puts the primer behind the bytes.
pub(crate) fn put_primer(
    alloc: Global,
    out: &mut Vec<u8>,
    kind: TrackKind,
) -> Result<(), AllocError>
    ensures { OnOk result (out.new.items ≡ out.old.items ++ spec.primer kind) }
{
    let entries = entries_of(alloc, kind)?;
    let value = primer_value(alloc, &entries)?;
    put_item(out, key_of(PRIMER), &value)
}

/// What the primer of a file of this kind says.
fn entries_of(alloc: Global, kind: TrackKind) -> Result<Vec<PrimerEntry>, AllocError>
    ensures { IfOk result (λ entries.
        entries.items ≡ filter (λ entry. spec.has_tag kind entry.tag) spec.all_entries) }
{
    let mut entries = Vec::new(alloc);
    for entry in primer_entries() {
        if has_tag(kind, entry.tag) {
            entries.push(*entry)?;
        }
    }
    Ok(entries)
}

/// Whether a file of this kind has the tag in one of its sets.
fn has_tag(kind: TrackKind, tag: u16) -> bool
    ensures { result ≡ spec.has_tag kind tag }
{
    set_rows()
        .iter()
        .any(|row| kind.has_set(row.set) && row.tag == tag)
}

fn primer_value(alloc: Global, entries: &[PrimerEntry]) -> Result<Vec<u8>, AllocError>
    requires { length entries.now < 2 ^ 32 }
    ensures { IfOk result (λ value. value.items ≡ batch 18 (map spec.entry_bytes entries.now)) }
{
    let mut value = Vec::new(alloc);
    value.extend_from_slice(&(entries.len() as u32).to_be_bytes())?;
    value.extend_from_slice(&ENTRY_LENGTH.to_be_bytes())?;
    for entry in entries {
        let [a, b, c] = entry.label;
        value.extend_from_slice(&entry.tag.to_be_bytes())?;
        value.extend_from_slice(&key_of([LABEL, a, b, c]))?;
    }
    Ok(value)
}
