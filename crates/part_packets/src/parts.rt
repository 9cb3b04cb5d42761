ghost use Rattle.std.specs.Prelude.{◌≡◌, ◌≤◌, ◌<◌, ◌+◌, ◌*◌, ◌^◌, IfOk, IfErr, Ok, length};
ghost use Rattle.codec_terms.specs.Codestream.{components};
ghost use Rattle.codec_terms.specs.Precincts.{packet_order};
ghost use Rattle.codec_terms.specs.StreamReading.{included_count, tile_part_read, parts_read};
ghost use Rattle.codec_laws.specs.Bounds.{IsPictureSize};
ghost use Rattle.part_packets.specs.Refused.{IsRefused};
ghost use Rattle.part_packets.specs.Counts.{included_blocks};
ghost use Rattle.part_packets.specs.Shapes.{AreOfPrecincts, AreParts};

use crate::memory::push;
use crate::packets::{PartPackets, read_packets};
use code_markers::{read_part_end, read_part_header};
use codec_terms::{MainHead, PacketBand, ReadRefusal};
use mast_base::List;
use std::alloc::Global;

/// The packets of all components.
#[derive(Debug, Drop)]
pub struct StreamPackets {
    /// Those of each component.
    pub parts: List<List<List<PacketBand>>>,
    /// How many code-blocks they include.
    pub blocks: u32,
    /// The place behind them.
    pub next: usize,
}

// Reads a tile-part. It begins with the marker SOT at a place, and is followed by another marker.
fn read_part(
    alloc: Global,
    bytes: &[u8],
    head: &MainHead,
    component: u8,
    at: usize,
) -> Result<PartPackets, ReadRefusal>
    requires size { IsPictureSize head.now.shape }
    requires component { component < 3 }
    requires at { at + 2 ≤ length bytes.now }
    ensures read { IfOk result (λ part. tile_part_read bytes.now head.now component at ≡ Ok (part.packets, part.next)) }
    ensures refused { IfErr result (λ refusal. IsRefused (tile_part_read bytes.now head.now component at) refusal) }
    ensures blocks { IfOk result (λ part. part.blocks ≡ included_blocks part.packets) }
    ensures shapes { IfOk result (λ part.
        AreOfPrecincts head.now component (packet_order head.now.shape) part.packets) }
    ensures there { IfOk result (λ part. part.next + 2 ≤ length bytes.now) }
    ensures few { IfOk result (λ part. part.blocks ≤ 48 * 2 ^ 20) }
{
    let packets_at = match read_part_header(bytes, head, component, at + 2) {
        Ok(packets_at) => packets_at,
        Err(refusal) => return Err(ReadRefusal::Marker(refusal)),
    };
    let packets = read_packets(alloc, bytes, head, component, packets_at)?;
    let stated = head.parts[component as usize];
    let next = read_part_end(bytes, component, stated, at, packets.next)?;
    Ok(PartPackets {
        packets: packets.packets,
        blocks: packets.blocks,
        next,
    })
}

/// Reads the tile-parts of all components, behind a main header, or gives the first refusal by place.
pub fn read_parts(
    alloc: Global,
    bytes: &[u8],
    head: &MainHead,
) -> Result<StreamPackets, ReadRefusal>
    requires size { IsPictureSize head.now.shape }
    requires next { head.now.next + 2 ≤ length bytes.now }
    ensures read { IfOk result (λ r.
        parts_read bytes.now head.now components head.now.next ≡ Ok (r.parts, r.next)) }
    // Want of memory may come of any bytes, and says nothing of them.
    ensures refused { IfErr result (λ refusal.
        IsRefused (parts_read bytes.now head.now components head.now.next) refusal) }
    ensures blocks { IfOk result (λ r. r.blocks ≡ included_count r.parts) }
    ensures shapes { IfOk result (λ r. AreParts head.now r.parts) }
    ensures there { IfOk result (λ r. r.next + 2 ≤ length bytes.now) }
{
    let mut parts = List::new(alloc);
    let mut blocks = 0;
    let mut at = head.next;
    for component in 0..3u8 {
        let part = read_part(alloc, bytes, head, component, at)?;
        blocks += part.blocks;
        at = part.next;
        push(&mut parts, part.packets)?;
    }
    Ok(StreamPackets {
        parts,
        blocks,
        next: at,
    })
}
