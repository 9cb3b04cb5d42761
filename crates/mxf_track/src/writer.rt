ghost use Rattle.std.specs.Prelude.{◌≡◌, ◌≤◌, ◌++◌, length, All, IfOk, OnOk};
ghost use Rattle.mxf_track.specs.Sizes.{segment_count, segments_size, tail_size};
ghost use Rattle.track_terms.specs.Tail as spec;

use crate::random_index::put_random_index;
use crate::segment::{SEGMENT_FRAMES, put_segment};
use mast_base::{Bytes, NoMemory};
use mxf_header::put_pack;
use std::alloc::{AllocError, Global};
use track_terms::{Partition, TrackFacts};

/// How many bytes a partition pack has.
const PACK_LENGTH: usize = 124;

/// How many bytes the random index pack has.
const RANDOM_INDEX_LENGTH: usize = 60;

/// How many bytes an index segment has beside its entries.
const SEGMENT_LENGTH: usize = 117;

/// How many bytes an entry has.
const ENTRY_LENGTH: usize = 11;

/// All that stands behind a file's items, which are at these places. `footer` is the place behind them.
pub fn tail(
    alloc: Global,
    facts: &TrackFacts,
    places: &[u64],
    footer: u64,
) -> Result<Bytes, NoMemory>
    requires count { length places.now ≡ facts.now.frames }
    requires behind { All (λ place. 16508 ≤ place) places.now }
    ensures bytes { IfOk result (λ bytes. bytes ≡ spec.tail facts.now places.now footer) }
    ensures size { IfOk result (λ bytes. length bytes ≡ tail_size facts.now.frames) }
{
    let frames = facts.frames as usize;
    let index_length = segments_length(frames);
    let mut out = Vec::with_capacity(alloc, PACK_LENGTH + index_length + RANDOM_INDEX_LENGTH)?;
    let partition = Partition::footer(footer, index_length as u64);
    put_pack(&mut out, facts.kind, &partition)?;
    put_segments(alloc, &mut out, facts, places)?;
    put_random_index(&mut out, footer)?;
    Ok(Bytes::from(out))
}

/// How many segments so many frames have.
fn segment_count(frames: usize) -> usize
    requires { frames ≤ 432000 }
    ensures count { result ≡ segment_count frames }
    ensures few { result ≤ 87 }
{
    (frames + SEGMENT_FRAMES - 1) / SEGMENT_FRAMES
}

/// How many bytes the segments of so many frames have.
fn segments_length(frames: usize) -> usize
    requires { frames ≤ 432000 }
    ensures size { result ≡ segments_size frames }
    ensures few { result ≤ 4_762_179 }
{
    SEGMENT_LENGTH * segment_count(frames) + ENTRY_LENGTH * frames
}

/// Puts all index segments behind the bytes.
fn put_segments(
    alloc: Global,
    out: &mut Vec<u8>,
    facts: &TrackFacts,
    places: &[u64],
) -> Result<(), AllocError>
    requires count { length places.now ≤ 432000 }
    requires behind { All (λ place. 16508 ≤ place) places.now }
    ensures { OnOk result (out.new.items ≡ out.old.items ++ spec.segments facts.now places.now) }
{
    for number in 0..segment_count(places.len()) {
        let start = SEGMENT_FRAMES * number;
        let end = places.len().min(start + SEGMENT_FRAMES);
        put_segment(alloc, out, facts, number as u32, &places[start..end])?;
    }
    Ok(())
}
