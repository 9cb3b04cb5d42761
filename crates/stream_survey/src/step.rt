ghost use Rattle.std.specs.Prelude.{◌≡◌, ◌≤◌, ◌^◌, IfOk, IfErr, Ok, Err, All, length};
ghost use Rattle.codec_terms.specs.PacketReading.{packet_read};
ghost use Rattle.codec_terms.specs.StreamReading.{head_step};
ghost use Rattle.packet_scan.specs.Scanning.{IsSmallShape, scanned};

use codec_terms::{BandShape, ReadRefusal};
use packet_scan::{Scanned, scan_packet};

/// Scans a packet as a step of reading a codestream.
pub(crate) fn scan_step(
    bytes: &[u8],
    at: usize,
    shapes: &[BandShape],
) -> Result<Scanned, ReadRefusal>
    requires at { at ≤ length bytes.now }
    requires few { length shapes.now ≤ 3 }
    requires small { All IsSmallShape shapes.now }
    requires bounded { length bytes.now ≤ 2 ^ 60 }
    ensures read { IfOk result (λ s. scanned (packet_read bytes.now at shapes.now) ≡ Ok s) }
    ensures refused { IfErr result (λ refusal. head_step (packet_read bytes.now at shapes.now) ≡ Err refusal) }
    ensures forward { IfOk result (λ s. at ≤ s.next) }
    ensures within { IfOk result (λ s. s.next ≤ length bytes.now) }
    ensures few { IfOk result (λ s. s.blocks ≤ 48) }
{
    match scan_packet(bytes, at, shapes) {
        Ok(scanned) => Ok(scanned),
        Err(refusal) => Err(ReadRefusal::Head(refusal)),
    }
}
