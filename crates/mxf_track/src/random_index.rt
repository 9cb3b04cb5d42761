ghost use Rattle.std.specs.Prelude.{◌≡◌, ◌++◌, OnOk};
ghost use Rattle.track_terms.specs.Tail as spec;

use klv_base::key_length;
use std::alloc::AllocError;
use track_terms::{RANDOM_INDEX, key_of};

/// How many bytes the pack's value has.
const VALUE_LENGTH: u32 = 40;

/// How many bytes the pack has.
const PACK_LENGTH: u32 = 60;

/// The place where the body begins.
const BODY_PLACE: u64 = 16_384;

/// Puts the random index pack of a file whose footer begins at this place behind the bytes.
pub(crate) fn put_random_index(out: &mut Vec<u8>, footer: u64) -> Result<(), AllocError>
    ensures { OnOk result (out.new.items ≡ out.old.items ++ spec.random_index footer) }
{
    out.extend_from_slice(&key_length(key_of(RANDOM_INDEX), VALUE_LENGTH))?;
    put_partition(out, 0, 0)?;
    put_partition(out, 1, BODY_PLACE)?;
    put_partition(out, 0, footer)?;
    out.extend_from_slice(&PACK_LENGTH.to_be_bytes())?;
    Ok(())
}

fn put_partition(out: &mut Vec<u8>, body_id: u32, place: u64) -> Result<(), AllocError>
    ensures { OnOk result (out.new.items ≡ out.old.items ++ spec.partition_entry body_id place) }
{
    out.extend_from_slice(&body_id.to_be_bytes())?;
    out.extend_from_slice(&place.to_be_bytes())?;
    Ok(())
}
