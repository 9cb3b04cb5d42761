ghost use Rattle.std.specs.Prelude.{◌≡◌, ◌<◌, ◌≤◌, ℕ, length, slice_index, bit_or, min, ◌-◌};
ghost use Rattle.std.specs.Int.{bit_at};
ghost use Rattle.codec_terms.specs.BlockDecisions.{Block, plane_start};
ghost use Rattle.block_sets.specs.Sets.{IsSet};
ghost use Rattle.block_sets.specs.Planes.{HasPlanesOf, first_samples};

use crate::planes::BlockPlanes;

/// Adds the samples of another set.
pub(crate) fn unite(set: &mut [u64; 16], other: &[u64; 16])
    ensures { (w : ℕ) → w < 16
        → slice_index set.new w ≡ bit_or (slice_index set.old w) (slice_index other.now w) }
{
    for w in 0..16usize {
        set[w] |= other[w];
    }
}

/// Makes `set` the samples with a bit above bit-plane `index`: those that are significant before it.
pub fn unite_above(planes: &BlockPlanes<'_>, index: usize, set: &mut [u64; 16])
    requires { index ≤ length planes.now.planes.now }
    ensures { (b : Block) → HasPlanesOf b planes.now
        → IsSet b.width b.height (plane_start b index).significant set.new }
{
    *set = [0; 16];
    for p in index + 1..planes.planes.len() {
        unite(set, &planes.planes[p]);
    }
}

fn difference(word: u64, other: u64) -> u64
    ensures { (i : ℕ) → i < 64 → bit_at result i ≡ min (bit_at word i) (1 - bit_at other i) }
{
    word & !other
}

// What one set has and another doesn't, in place of the latter.
fn take_from(other: &[u64; 16], set: &mut [u64; 16])
    ensures { (w i : ℕ) → w < 16 → i < 64 → bit_at (slice_index set.new w) i
        ≡ min (bit_at (slice_index other.now w) i) (1 - bit_at (slice_index set.old w) i) }
{
    for w in 0..16usize {
        set[w] = difference(other[w], set[w]);
    }
}

/// Makes `set` the samples whose highest bit is the one above bit-plane `index`: those that it refines for the first
/// time.
pub fn first_above(planes: &BlockPlanes<'_>, index: usize, set: &mut [u64; 16])
    requires { index < length planes.now.planes.now }
    ensures { (b : Block) → HasPlanesOf b planes.now
        → IsSet b.width b.height (first_samples b index) set.new }
{
    unite_above(planes, index + 1, set);
    if index + 1 < planes.planes.len() {
        take_from(&planes.planes[index + 1], set);
    }
}
