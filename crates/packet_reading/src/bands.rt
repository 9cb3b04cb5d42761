ghost use Rattle.std.specs.Prelude.{◌≡◌, ◌*◌, ◌≤◌, ◌^◌, IfOk, IfErr, Ok, length};
ghost use Rattle.codec_terms.specs.declared.packet.HeadRefusal.TheVariants.{NoMemory};
ghost use Rattle.codec_terms.specs.TagTree.{blank_tree};
ghost use Rattle.codec_terms.specs.PacketReading.{band_read, bands_read};
ghost use Rattle.tag_tree.specs.Trees.{found_count};
ghost use Rattle.packet_reading.specs.Refused.{IsRefused};

use crate::block_head::{BlockHead, read_block};
use crate::memory::push;
use codec_terms::{BandShape, HeadRefusal};
use header_bits::BitPlace;
use mast_base::List;
use std::alloc::Global;
use tag_tree::TreeReader;

/// The number of a sub-band's blocks. From 2^32 on they count as more than memory holds.
pub(crate) fn block_count(shape: BandShape) -> Result<u32, HeadRefusal>
    ensures count { IfOk result (λ count. count ≡ shape.columns * shape.rows) }
    ensures refused { IfErr result (λ refusal. refusal ≡ NoMemory) }
{
    match shape.columns.checked_mul(shape.rows) {
        Some(count) => Ok(count),
        None => Err(HeadRefusal::NoMemory),
    }
}

// A tag tree over a sub-band's blocks of which no bit was read.
fn blank_tree(alloc: Global, shape: BandShape) -> Result<TreeReader, HeadRefusal>
    ensures tree { IfOk result (λ tree. tree ≡ blank_tree shape.columns shape.rows) }
    ensures leaves { IfOk result (λ tree. found_count tree ≡ shape.rows * shape.columns) }
    ensures refused { IfErr result (λ refusal. refusal ≡ NoMemory) }
{
    match TreeReader::new(alloc, shape.columns, shape.rows) {
        Ok(tree) => Ok(tree),
        Err(_) => Err(HeadRefusal::NoMemory),
    }
}

// Reads what a header says of a sub-band's blocks.
fn read_band(
    alloc: Global,
    bytes: &[u8],
    place: &mut BitPlace,
    shape: BandShape,
) -> Result<List<BlockHead>, HeadRefusal>
    requires bounded { length bytes.now ≤ 2 ^ 60 }
    ensures read { IfOk result (λ heads. band_read bytes.now shape place.old ≡ Ok (heads, place.new)) }
    ensures refused { IfErr result (λ refusal. IsRefused (band_read bytes.now shape place.old) refusal) }
{
    let count = block_count(shape)?;
    let mut layers = blank_tree(alloc, shape)?;
    let mut planes = blank_tree(alloc, shape)?;
    let mut heads = List::new(alloc);
    for at in 0..count {
        let head = read_block(bytes, place, shape.mb, at, &mut layers, &mut planes)?;
        push(&mut heads, head)?;
    }
    Ok(heads)
}

/// Reads what a header says of the blocks of all sub-bands.
pub(crate) fn read_bands(
    alloc: Global,
    bytes: &[u8],
    place: &mut BitPlace,
    shapes: &[BandShape],
) -> Result<List<List<BlockHead>>, HeadRefusal>
    requires bounded { length bytes.now ≤ 2 ^ 60 }
    ensures read { IfOk result (λ bands. bands_read bytes.now shapes.now place.old ≡ Ok (bands, place.new)) }
    ensures refused { IfErr result (λ refusal. IsRefused (bands_read bytes.now shapes.now place.old) refusal) }
{
    let mut bands = List::new(alloc);
    for shape in shapes {
        let heads = read_band(alloc, bytes, place, *shape)?;
        push(&mut bands, heads)?;
    }
    Ok(bands)
}
