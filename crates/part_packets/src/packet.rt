ghost use Rattle.std.specs.Prelude.{◌≡◌, ◌≤◌, IfOk, IfErr, Ok, length, sum_by};
ghost use Rattle.codec_terms.specs.PacketReading.{packet_read};
ghost use Rattle.codec_terms.specs.StreamReading.{included_in, head_step};
ghost use Rattle.part_packets.specs.Refused.{IsRefused};
ghost use Rattle.part_packets.specs.Counts.{area};

use codec_terms::{BandShape, HeadRefusal, PacketRead, ReadRefusal};
use packet_reading::read_packet;
use std::alloc::Global;

/// Reads a packet as a step of reading a codestream.
pub(crate) fn read_step(
    alloc: Global,
    bytes: &[u8],
    at: usize,
    shapes: &[BandShape],
) -> Result<PacketRead, ReadRefusal>
    requires { at ≤ length bytes.now }
    ensures read { IfOk result (λ packet. packet_read bytes.now at shapes.now ≡ Ok packet) }
    ensures refused { IfErr result (λ refusal. IsRefused (head_step (packet_read bytes.now at shapes.now)) refusal) }
    ensures forward { IfOk result (λ packet. at ≤ packet.next) }
    ensures within { IfOk result (λ packet. packet.next ≤ length bytes.now) }
    ensures few { IfOk result (λ packet. sum_by included_in packet.bands ≤ sum_by area shapes.now) }
{
    match read_packet(alloc, bytes, at, shapes) {
        Ok(packet) => Ok(packet),
        Err(HeadRefusal::NoMemory) => Err(ReadRefusal::NoMemory),
        Err(refusal) => Err(ReadRefusal::Head(refusal)),
    }
}
