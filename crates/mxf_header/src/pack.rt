ghost use Rattle.std.specs.Prelude.{◌≡◌, ◌++◌, OnOk};
ghost use Rattle.track_terms.specs.Partitions as spec;

use klv_base::key_length;
use std::alloc::AllocError;
use track_terms::{PATTERN, Partition, TrackKind, key_of};

/// How many bytes a pack's value has.
const VALUE_LENGTH: u32 = 104;

/// The version, 1 and 2, and a grid of single bytes.
const VERSION_AND_GRID: [u8; 8] = [0, 1, 0, 2, 0, 0, 0, 1];

/// In front of a batch of one label: their number, and the size of each.
const ONE_LABEL: [u8; 8] = [0, 0, 0, 1, 0, 0, 0, 16];

/// Puts the pack that begins a partition behind the bytes: 124 bytes.
pub fn put_pack(out: &mut Vec<u8>, kind: TrackKind, partition: &Partition) -> Result<(), AllocError>
    ensures { OnOk result (out.new.items ≡ out.old.items ++ spec.pack kind partition.now) }
{
    out.extend_from_slice(&key_length(key_of(partition.key), VALUE_LENGTH))?;
    out.extend_from_slice(&VERSION_AND_GRID)?;
    put_places(out, partition)?;
    put_streams(out, partition)?;
    out.extend_from_slice(&key_of(PATTERN))?;
    out.extend_from_slice(&ONE_LABEL)?;
    out.extend_from_slice(&key_of(kind.terms().container))?;
    Ok(())
}

fn put_places(out: &mut Vec<u8>, partition: &Partition) -> Result<(), AllocError>
    ensures { OnOk result (out.new.items ≡ out.old.items ++ spec.places partition.now) }
{
    out.extend_from_slice(&partition.this.to_be_bytes())?;
    out.extend_from_slice(&partition.previous.to_be_bytes())?;
    out.extend_from_slice(&partition.footer.to_be_bytes())?;
    out.extend_from_slice(&partition.header_bytes.to_be_bytes())?;
    out.extend_from_slice(&partition.index_bytes.to_be_bytes())?;
    Ok(())
}

fn put_streams(out: &mut Vec<u8>, partition: &Partition) -> Result<(), AllocError>
    ensures { OnOk result (out.new.items ≡ out.old.items ++ spec.streams partition.now) }
{
    out.extend_from_slice(&partition.index_id.to_be_bytes())?;
    out.extend_from_slice(&0u64.to_be_bytes())?;
    out.extend_from_slice(&partition.body_id.to_be_bytes())?;
    Ok(())
}
