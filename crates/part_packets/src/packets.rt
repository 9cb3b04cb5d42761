ghost use Rattle.std.specs.Prelude.{◌≡◌, ◌≤◌, ◌*◌, ◌^◌, IfOk, IfErr, Ok, length};
ghost use Rattle.codec_terms.specs.Precincts.{packet_order};
ghost use Rattle.codec_terms.specs.StreamReading.{packets_read};
ghost use Rattle.codec_laws.specs.Bounds.{IsPictureSize};
ghost use Rattle.part_packets.specs.Refused.{IsRefused};
ghost use Rattle.part_packets.specs.Counts.{included_blocks};
ghost use Rattle.part_packets.specs.Shapes.{AreOfPrecincts};

use crate::counts::included_in_packet;
use crate::memory::push;
use crate::precinct::read_precinct;
use codec_terms::{MainHead, PacketBand, ReadRefusal};
use mast_base::List;
use packet_places::{packets_of, precinct_at};
use std::alloc::Global;

/// The packets of a component, in their order.
#[derive(Debug, Drop)]
pub struct PartPackets {
    /// What each has of its sub-bands.
    pub packets: List<List<PacketBand>>,
    /// How many code-blocks they include.
    pub blocks: u32,
    /// The place behind them.
    pub next: usize,
}

/// Reads a component's packets, from the place where they begin.
pub(crate) fn read_packets(
    alloc: Global,
    bytes: &[u8],
    head: &MainHead,
    component: u8,
    start: usize,
) -> Result<PartPackets, ReadRefusal>
    requires size { IsPictureSize head.now.shape }
    requires start { start ≤ length bytes.now }
    ensures read { IfOk result (λ part.
        packets_read bytes.now head.now component (packet_order head.now.shape) start ≡ Ok (part.packets, part.next)) }
    ensures refused { IfErr result (λ refusal.
        IsRefused (packets_read bytes.now head.now component (packet_order head.now.shape) start) refusal) }
    ensures blocks { IfOk result (λ part. part.blocks ≡ included_blocks part.packets) }
    ensures shapes { IfOk result (λ part.
        AreOfPrecincts head.now component (packet_order head.now.shape) part.packets) }
    ensures forward { IfOk result (λ part. start ≤ part.next) }
    ensures within { IfOk result (λ part. part.next ≤ length bytes.now) }
    ensures few { IfOk result (λ part. part.blocks ≤ 48 * 2 ^ 20) }
{
    let mut packets = List::new(alloc);
    let mut blocks = 0;
    let mut at = start;
    for n in 0..packets_of(head.shape) {
        let precinct = precinct_at(head.shape, component, n);
        let packet = read_precinct(alloc, bytes, head, precinct, at)?;
        blocks += included_in_packet(packet.bands.as_slice());
        at = packet.next;
        push(&mut packets, packet.bands)?;
    }
    Ok(PartPackets {
        packets,
        blocks,
        next: at,
    })
}
