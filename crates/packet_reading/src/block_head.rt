ghost use Rattle.std.specs.Prelude.{◌≡◌, ◌<◌, ◌≤◌, ◌^◌, [], ◌∷◌, List, ℕ, IfOk, IfErr, OnOk, Ok, Err, length};
ghost use Rattle.codec_terms.specs.Reading.{on_ok};
ghost use Rattle.codec_terms.specs.PacketReading.{no_head, leaf_read, included_read, is_in_layer, blocks_read};
ghost use Rattle.tag_tree.specs.Trees.{found_count};
ghost use Rattle.packet_reading.specs.Refused.{IsRefused};

use codec_terms::HeadRefusal;
use header_bits::{BitPlace, read_included};
use std::marker::Model;
use tag_tree::TreeReader;

/// What a header says of a block. Contracts see the definition's record.
#[derive(Clone, Copy, Debug)]
pub(crate) struct BlockHead {
    pub(crate) included: bool,
    pub(crate) zero_planes: u8,
    pub(crate) passes: u8,
    /// The number of bytes of the codeword.
    pub(crate) size: u32,
}

impl Model for BlockHead {
    ghost use Rattle.codec_terms.specs.PacketReading as reading;

    ghost Value = { reading.BlockHead };

    ghost view = { λ h.
        record { included = h.included; zero_planes = h.zero_planes; passes = h.passes; size = h.size } };

    ghost inverse = { λ h.
        record { included = h.included; zero_planes = h.zero_planes; passes = h.passes; size = h.size } };
}

impl BlockHead {
    // Of a block that isn't included.
    fn absent() -> Self
        ensures { result ≡ no_head }
    {
        BlockHead {
            included: false,
            zero_planes: 0,
            passes: 0,
            size: 0,
        }
    }
}

/// Reads the bits of leaf number `at`, in raster order, for this threshold. It wants at most as many of each level.
pub(crate) fn read_leaf(
    bytes: &[u8],
    place: &mut BitPlace,
    tree: &mut TreeReader,
    at: u32,
    threshold: u8,
) -> Result<(), HeadRefusal>
    requires leaf { at < found_count tree.old }
    ensures read { OnOk result (leaf_read bytes.now threshold at tree.old place.old ≡ Ok (tree.new, place.new)) }
    ensures refused { IfErr result (λ refusal. leaf_read bytes.now threshold at tree.old place.old ≡ Err refusal) }
    ensures size { found_count tree.new ≡ found_count tree.old }
{
    let threshold = u32::from(threshold);
    let most = threshold * tree.level_count();
    for _ in 0..most {
        if !tree.wants(at, threshold) {
            return Ok(());
        }
        let bit = place.read_bit(bytes)?;
        tree.push(at, threshold, bit);
    }
    Ok(())
}

// Reads the rest of a block that is included, whose bits of the tree of zero planes were read: it is leaf number `at`.
fn read_rest(
    bytes: &[u8],
    place: &mut BitPlace,
    mb: u8,
    at: u32,
    planes: &TreeReader,
) -> Result<BlockHead, HeadRefusal>
    requires leaf { at < found_count planes.now }
    requires bounded { length bytes.now ≤ 2 ^ 60 }
    ensures read { IfOk result (λ head. included_read bytes.now mb at planes.now place.old ≡ Ok (head, place.new)) }
    ensures refused { IfErr result (λ refusal. included_read bytes.now mb at planes.now place.old ≡ Err refusal) }
{
    let head = read_included(bytes, place, mb, planes.value(at))?;
    Ok(BlockHead {
        included: true,
        zero_planes: head.zero_planes,
        passes: head.passes,
        size: head.size,
    })
}

// Whether a block is in the only layer, by what is known of its leaf in the inclusion tree.
fn is_in_layer(layer: Option<u32>) -> bool
    ensures { result ≡ is_in_layer [] layer }
{
    layer == Some(0)
}

/// Reads what a header says of block number `at`, in raster order, in a sub-band of `mb` bit-planes.
pub(crate) fn read_block(
    bytes: &[u8],
    place: &mut BitPlace,
    mb: u8,
    at: u32,
    layers: &mut TreeReader,
    planes: &mut TreeReader,
) -> Result<BlockHead, HeadRefusal>
    requires layer { at < found_count layers.old }
    requires plane { at < found_count planes.old }
    requires bounded { length bytes.now ≤ 2 ^ 60 }
    ensures read { IfOk result (λ head. (more : List ℕ) →
        blocks_read bytes.now mb layers.old planes.old (at ∷ more) place.old
        ≡ on_ok (blocks_read bytes.now mb layers.new planes.new more place.new) (λ r. Ok (head ∷ r.0, r.1))) }
    ensures refused { IfErr result (λ refusal. (more : List ℕ) →
        IsRefused (blocks_read bytes.now mb layers.old planes.old (at ∷ more) place.old) refusal) }
    ensures layers_size { found_count layers.new ≡ found_count layers.old }
    ensures planes_size { found_count planes.new ≡ found_count planes.old }
{
    read_leaf(bytes, place, layers, at, 1)?;
    if !is_in_layer(layers.value(at)) {
        return Ok(BlockHead::absent());
    }
    read_leaf(bytes, place, planes, at, mb)?;
    read_rest(bytes, place, mb, at, planes)
}
