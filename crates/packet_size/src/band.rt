ghost use Rattle.std.specs.Prelude.{◌≡◌, ◌+◌, ◌<◌, ◌≤◌, ◌^◌, take, map, length};
ghost use Rattle.codec_terms.specs.PacketHeader.{first_layer, missing_planes, band_bits};
ghost use Rattle.packet_size.specs.Counting.{counted};
ghost use Rattle.packet_size.specs.Sizes.{HasPassCodes, block_of, band_of};

use crate::block::put_blocks;
use crate::build::new_tree;
use crate::counter::BitCounter;
use crate::sizes::{BandSizes, BlockSize};

// A leaf of the inclusion tree.
fn first_layer(block: &BlockSize) -> u16
    ensures { result ≡ first_layer (block_of block.now) }
{
    if block.included { 0 } else { 1 }
}

// A leaf of the tree of zero planes.
fn missing_planes(block: &BlockSize) -> u16
    ensures { result ≡ missing_planes (block_of block.now) }
{
    if block.included {
        u16::from(block.zero_planes)
    } else {
        256
    }
}

// The leaves of the inclusion tree.
fn first_layers(blocks: &[BlockSize]) -> [u16; 16]
    requires { length blocks.now ≤ 16 }
    ensures { take (length blocks.now) result ≡ map (λ b. first_layer (block_of b)) blocks.now }
{
    let mut leaves = [0; 16];
    for at in 0..blocks.len() {
        leaves[at] = first_layer(&blocks[at]);
    }
    leaves
}

// The leaves of the tree of zero planes.
fn zero_planes(blocks: &[BlockSize]) -> [u16; 16]
    requires { length blocks.now ≤ 16 }
    ensures { take (length blocks.now) result ≡ map (λ b. missing_planes (block_of b)) blocks.now }
{
    let mut leaves = [0; 16];
    for at in 0..blocks.len() {
        leaves[at] = missing_planes(&blocks[at]);
    }
    leaves
}

/// Counts the bits of a sub-band's blocks.
pub(crate) fn put_band(counter: &mut BitCounter, band: &BandSizes)
    requires passes { HasPassCodes band.now }
    requires room { counter.old.bytes < 2 ^ 57 }
    ensures bits { counter.new ≡ counted counter.old (band_bits (band_of band.now)) }
    ensures few { counter.new.bytes ≤ counter.old.bytes + 2 ^ 24 }
{
    let count = band.blocks.len();
    if count == 0 {
        return;
    }
    let layers = first_layers(band.blocks);
    let planes = zero_planes(band.blocks);
    let mut layers = new_tree(band.columns, band.rows, &layers[..count]);
    let mut planes = new_tree(band.columns, band.rows, &planes[..count]);
    put_blocks(counter, &mut layers, &mut planes, band.blocks);
}
