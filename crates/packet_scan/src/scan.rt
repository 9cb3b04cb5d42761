ghost use Rattle.std.specs.Prelude.{◌≡◌, ◌≤◌, ◌^◌, IfOk, IfErr, Ok, Err, All, length};
ghost use Rattle.codec_terms.specs.PacketReading.{full_packet_read, packet_read};
ghost use Rattle.packet_scan.specs.Scanning.{IsSmallShape, scanned};

use crate::band::read_bands;
use crate::codewords::codewords_end;
use crate::sizes::Sizes;
use codec_terms::{BandShape, HeadRefusal};
use header_bits::BitPlace;

/// How many code-blocks a packet includes, and the place behind it.
#[derive(Clone, Copy, Debug, PartialEq, Eq)]
pub struct Scanned {
    pub blocks: u32,
    pub next: usize,
}

// Scans a packet that isn't empty, behind its first bit.
fn scan_full_packet(
    bytes: &[u8],
    place: &mut BitPlace,
    shapes: &[BandShape],
) -> Result<Scanned, HeadRefusal>
    requires few { length shapes.now ≤ 3 }
    requires small { All IsSmallShape shapes.now }
    requires bounded { length bytes.now ≤ 2 ^ 60 }
    ensures read { IfOk result (λ s. scanned (full_packet_read bytes.now shapes.now place.old) ≡ Ok s) }
    ensures refused { IfErr result (λ refusal. full_packet_read bytes.now shapes.now place.old ≡ Err refusal) }
{
    let mut sizes = Sizes::new();
    read_bands(bytes, place, shapes, &mut sizes)?;
    let start = place.header_end(bytes)?;
    let next = codewords_end(bytes, sizes.as_slice(), start)?;
    Ok(Scanned {
        blocks: sizes.as_slice().len() as u32,
        next,
    })
}

/// Scans the packet that begins at a place, or gives the first refusal by place. Any bytes and place will do; a packet
/// has at most three sub-bands, of at most four columns and rows of blocks. A sub-band has a shape even where it has no
/// block in the packet: then its columns or rows are 0.
#[tactic(auto, unfolding(codec_terms::specs::PacketReading::packet_read))]
pub fn scan_packet(bytes: &[u8], at: usize, shapes: &[BandShape]) -> Result<Scanned, HeadRefusal>
    requires few { length shapes.now ≤ 3 }
    requires small { All IsSmallShape shapes.now }
    // So that 64 bits hold the number of bits that a refusal tells.
    requires bounded { length bytes.now ≤ 2 ^ 60 }
    ensures read { IfOk result (λ s. scanned (packet_read bytes.now at shapes.now) ≡ Ok s) }
    ensures refused { IfErr result (λ refusal. packet_read bytes.now at shapes.now ≡ Err refusal) }
{
    let mut place = BitPlace::start(at);
    if place.read_bit(bytes)? {
        return scan_full_packet(bytes, &mut place, shapes);
    }
    Ok(Scanned {
        blocks: 0,
        next: place.next(),
    })
}
