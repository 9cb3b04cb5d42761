ghost use Rattle.std.specs.Prelude.{◌≡◌, ◌≤◌, ◌++◌, length, IfOk, OnOk};
ghost use Rattle.track_terms.specs.Head as spec;

use crate::pack::put_pack;
use crate::primer::put_primer;
use crate::set::put_sets;
use klv_base::key_length;
use mast_base::{Bytes, NoMemory};
use std::alloc::{AllocError, Global};
use track_terms::{FILL, Partition, TrackFacts, key_of};

/// The number of bytes of a head.
const HEAD_LENGTH: usize = 16_508;

/// The place where the body begins.
const BODY_PLACE: usize = 16_384;

/// How many bytes stand in front of an item's value.
const KEY_LENGTH: usize = 20;

/// All that stands in front of a file's items. `footer` is the place of the footer, 0 while it isn't
/// known.
pub fn head(alloc: Global, facts: &TrackFacts, footer: u64) -> Result<Bytes, NoMemory>
    ensures bytes { IfOk result (λ bytes. bytes ≡ spec.head facts.now footer) }
    ensures size { IfOk result (λ bytes. length bytes ≡ 16508) }
{
    let mut out = Vec::with_capacity(alloc, HEAD_LENGTH)?;
    put_metadata(alloc, &mut out, facts, footer)?;
    put_fill(&mut out)?;
    put_pack(&mut out, facts.kind, &Partition::body(footer))?;
    Ok(Bytes::from(out))
}

/// Puts the header metadata, with the pack in front, behind the bytes.
fn put_metadata(
    alloc: Global,
    out: &mut Vec<u8>,
    facts: &TrackFacts,
    footer: u64,
) -> Result<(), NoMemory>
    ensures bytes { OnOk result (out.new.items ≡ out.old.items ++ spec.metadata facts.now footer) }
    ensures end { OnOk result (length (spec.metadata facts.now footer) ≡ spec.metadata_end facts.now.kind) }
{
    put_pack(out, facts.kind, &Partition::header(footer))?;
    put_primer(alloc, out, facts.kind)?;
    put_sets(alloc, out, facts)?;
    Ok(())
}

/// Puts the fill behind the bytes, up to the body.
fn put_fill(out: &mut Vec<u8>) -> Result<(), AllocError>
    requires { length out.old.items ≤ 16364 }
    ensures { OnOk result (out.new.items ≡ out.old.items ++ spec.fill (length out.old.items)) }
{
    let zeros = BODY_PLACE - KEY_LENGTH - out.len();
    out.extend_from_slice(&key_length(key_of(FILL), zeros as u32))?;
    out.resize(BODY_PLACE, 0)?;
    Ok(())
}
