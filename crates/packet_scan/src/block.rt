ghost use Rattle.std.specs.Prelude.{◌≡◌, ◌+◌, ◌*◌, ◌<◌, ◌≤◌, ◌^◌, ◌∷◌, ℕ, List, IfErr, OnOk, Err, [], length};
ghost use Rattle.codec_terms.specs.PacketReading.{is_in_layer, blocks_read};
ghost use Rattle.packet_scan.specs.Scanning.{with_sizes};
ghost use Rattle.packet_scan.specs.Trees.{tree_of};

use crate::place::Place;
use crate::sizes::Sizes;
use crate::tree::SmallTree;
use codec_terms::HeadRefusal;
use header_bits::{BitPlace, read_included};

// Whether a block is in the only layer, by what is known of its leaf in the inclusion tree.
fn is_in_layer(layer: Option<u32>) -> bool
    ensures { result ≡ is_in_layer [] layer }
{
    layer == Some(0)
}

/// Reads what a header says of a block, at its place in raster order, in a sub-band of `mb` bit-planes. Where it is
/// included, the length of its codeword comes behind the others.
pub(crate) fn read_block(
    bytes: &[u8],
    place: &mut BitPlace,
    mb: u8,
    at: Place,
    layers: &mut SmallTree,
    planes: &mut SmallTree,
    sizes: &mut Sizes,
) -> Result<(), HeadRefusal>
    requires column { at.x < layers.old.columns }
    requires row { at.y < layers.old.rows }
    requires columns { planes.old.columns ≡ layers.old.columns }
    requires rows { planes.old.rows ≡ layers.old.rows }
    requires few { length sizes.old < 48 }
    requires bounded { length bytes.now ≤ 2 ^ 60 }
    ensures read { OnOk result ((more : List ℕ) →
        with_sizes sizes.old (blocks_read bytes.now mb (tree_of layers.old) (tree_of planes.old)
        ((at.y * layers.old.columns + at.x) ∷ more) place.old)
        ≡ with_sizes sizes.new (blocks_read bytes.now mb (tree_of layers.new) (tree_of planes.new) more place.new)) }
    ensures refused { IfErr result (λ refusal. (more : List ℕ) →
        blocks_read bytes.now mb (tree_of layers.old) (tree_of planes.old)
        ((at.y * layers.old.columns + at.x) ∷ more) place.old ≡ Err refusal) }
    ensures few { length sizes.new ≤ length sizes.old + 1 }
    ensures layers_columns { layers.new.columns ≡ layers.old.columns }
    ensures layers_rows { layers.new.rows ≡ layers.old.rows }
    ensures planes_columns { planes.new.columns ≡ planes.old.columns }
    ensures planes_rows { planes.new.rows ≡ planes.old.rows }
{
    let layer = layers.read(bytes, place, at, 1)?;
    if !is_in_layer(layer) {
        return Ok(());
    }
    let zero_planes = planes.read(bytes, place, at, mb)?;
    let head = read_included(bytes, place, mb, zero_planes)?;
    sizes.push(head.size);
    Ok(())
}
