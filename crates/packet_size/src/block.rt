ghost use Rattle.std.specs.Prelude.{◌≡◌, ◌+◌, ◌*◌, ◌<◌, ◌≤◌, ◌^◌, suc, true, map, length, All};
ghost use Rattle.codec_terms.specs.TagTree.{leaf_told};
ghost use Rattle.codec_terms.specs.PacketHeader.{included_bits, blocks_bits};
ghost use Rattle.packet_head.specs.Writing.{block_bits, planes_then};
ghost use Rattle.packet_size.specs.Counting.{counted};
ghost use Rattle.packet_size.specs.Sizes.{HasPassCode, block_of};
ghost use Rattle.packet_size.specs.Trees.{tree_of};

use crate::codes::{put_length, put_passes};
use crate::counter::BitCounter;
use crate::place::Place;
use crate::sizes::BlockSize;
use crate::tree::SmallTree;

// Counts what a block has that is included.
fn put_included(counter: &mut BitCounter, planes: &mut SmallTree, at: Place, block: &BlockSize)
    requires column { at.x < planes.old.columns }
    requires row { at.y < planes.old.rows }
    requires passes { HasPassCode block.now }
    requires included { block.now.included ≡ true }
    requires room { counter.old.bytes < 2 ^ 60 }
    ensures bits { counter.new ≡ counted counter.old
        (included_bits (tree_of planes.old) (at.y * planes.old.columns + at.x) (block_of block.now)) }
    ensures planes { tree_of planes.new
        ≡ leaf_told (suc block.now.zero_planes) (tree_of planes.old) (at.y * planes.old.columns + at.x) }
    ensures few { counter.new.bytes ≤ counter.old.bytes + 2 ^ 19 }
    ensures columns { planes.new.columns ≡ planes.old.columns }
    ensures rows { planes.new.rows ≡ planes.old.rows }
{
    planes.tell(at, u16::from(block.zero_planes) + 1, counter);
    put_passes(counter, u32::from(block.passes));
    put_length(counter, u32::from(block.passes), block.len);
}

// Counts the bits of a block, at its place in raster order.
fn put_block(
    counter: &mut BitCounter,
    layers: &mut SmallTree,
    planes: &mut SmallTree,
    at: Place,
    block: &BlockSize,
)
    requires column { at.x < layers.old.columns }
    requires row { at.y < layers.old.rows }
    requires columns { planes.old.columns ≡ layers.old.columns }
    requires rows { planes.old.rows ≡ layers.old.rows }
    requires passes { HasPassCode block.now }
    requires room { counter.old.bytes < 2 ^ 59 }
    ensures bits { counter.new ≡ counted counter.old
        (block_bits (tree_of layers.old) (tree_of planes.old) (at.y * layers.old.columns + at.x) (block_of block.now)) }
    ensures layers { tree_of layers.new ≡ leaf_told 1 (tree_of layers.old) (at.y * layers.old.columns + at.x) }
    ensures planes { tree_of planes.new
        ≡ planes_then (tree_of planes.old) (at.y * layers.old.columns + at.x) (block_of block.now) }
    ensures few { counter.new.bytes ≤ counter.old.bytes + 2 ^ 20 }
    ensures layers_columns { layers.new.columns ≡ layers.old.columns }
    ensures layers_rows { layers.new.rows ≡ layers.old.rows }
    ensures planes_columns { planes.new.columns ≡ planes.old.columns }
    ensures planes_rows { planes.new.rows ≡ planes.old.rows }
{
    layers.tell(at, 1, counter);
    if !block.included {
        return;
    }
    put_included(counter, planes, at, block);
}

/// Counts the bits of a sub-band's blocks, of whose trees nothing was told.
pub(crate) fn put_blocks(
    counter: &mut BitCounter,
    layers: &mut SmallTree,
    planes: &mut SmallTree,
    blocks: &[BlockSize],
)
    requires columns { planes.old.columns ≡ layers.old.columns }
    requires rows { planes.old.rows ≡ layers.old.rows }
    requires count { length blocks.now ≡ layers.old.rows * layers.old.columns }
    requires few { length blocks.now ≤ 16 }
    requires passes { All HasPassCode blocks.now }
    requires room { counter.old.bytes < 2 ^ 58 }
    ensures bits { counter.new ≡ counted counter.old
        (blocks_bits (tree_of layers.old) (tree_of planes.old) 0 (map block_of blocks.now)) }
    ensures few { counter.new.bytes ≤ counter.old.bytes + 2 ^ 24 }
{
    let mut at = Place::FIRST;
    for block in blocks {
        put_block(counter, layers, planes, at, block);
        at = at.next(layers.columns);
    }
}
