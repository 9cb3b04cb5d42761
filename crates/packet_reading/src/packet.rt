ghost use Rattle.std.specs.Prelude.{◌≡◌, ◌≢◌, IfOk, IfErr, Ok, Err, [], map};
ghost use Rattle.codec_terms.specs.declared.packet.HeadRefusal.TheVariants.{NoMemory};
ghost use Rattle.codec_terms.specs.PacketReading.{empty_band, full_packet_read, packet_read};
ghost use Rattle.packet_reading.specs.Refused.{IsRefused};

use crate::bands::{block_count, read_bands};
use crate::codewords::{absent_block, read_band_codewords};
use crate::memory::push;
use codec_terms::{BandShape, HeadRefusal, PacketBand, PacketRead};
use header_bits::BitPlace;
use mast_base::List;
use std::alloc::Global;

// A sub-band of which no block is included.
fn empty_band(alloc: Global, shape: BandShape) -> Result<PacketBand, HeadRefusal>
    ensures band { IfOk result (λ band. band ≡ empty_band [] shape) }
    ensures refused { IfErr result (λ refusal. refusal ≡ NoMemory) }
{
    let mut blocks = List::new(alloc);
    for _ in 0..block_count(shape)? {
        push(&mut blocks, absent_block(alloc))?;
    }
    Ok(PacketBand {
        columns: shape.columns,
        rows: shape.rows,
        blocks,
    })
}

fn empty_bands(alloc: Global, shapes: &[BandShape]) -> Result<List<PacketBand>, HeadRefusal>
    ensures bands { IfOk result (λ bands. bands ≡ map (empty_band []) shapes.now) }
    ensures refused { IfErr result (λ refusal. refusal ≡ NoMemory) }
{
    let mut bands = List::new(alloc);
    for shape in shapes {
        push(&mut bands, empty_band(alloc, *shape)?)?;
    }
    Ok(bands)
}

// Reads a packet that isn't empty, behind its first bit.
fn read_full_packet(
    alloc: Global,
    bytes: &[u8],
    shapes: &[BandShape],
    place: &mut BitPlace,
) -> Result<PacketRead, HeadRefusal>
    ensures read { IfOk result (λ packet. full_packet_read bytes.now shapes.now place.old ≡ Ok packet) }
    ensures refused { IfErr result (λ refusal. IsRefused (full_packet_read bytes.now shapes.now place.old) refusal) }
{
    // No memory has 2^60 bytes.
    if 1 << 60 < bytes.len() {
        return Err(HeadRefusal::NoMemory);
    }
    let heads = read_bands(alloc, bytes, place, shapes)?;
    let mut next = place.header_end(bytes)?;
    let bands = read_band_codewords(alloc, bytes, shapes, heads.as_slice(), &mut next)?;
    Ok(PacketRead { bands, next })
}

/// Reads the packet that begins at a place, or gives the first refusal by place. Any bytes, place and shapes will do.
/// A sub-band has a shape even where it has no block in the packet: then its columns or rows are 0.
#[tactic(auto, unfolding(codec_terms::specs::PacketReading::packet_read))]
pub fn read_packet(
    alloc: Global,
    bytes: &[u8],
    at: usize,
    shapes: &[BandShape],
) -> Result<PacketRead, HeadRefusal>
    ensures read { IfOk result (λ packet. packet_read bytes.now at shapes.now ≡ Ok packet) }
    // Want of memory may come of any bytes, and says nothing of them.
    ensures refused { IfErr result (λ refusal.
        refusal ≢ NoMemory → packet_read bytes.now at shapes.now ≡ Err refusal) }
{
    let mut place = BitPlace::start(at);
    if place.read_bit(bytes)? {
        return read_full_packet(alloc, bytes, shapes, &mut place);
    }
    Ok(PacketRead {
        bands: empty_bands(alloc, shapes)?,
        next: place.next(),
    })
}
