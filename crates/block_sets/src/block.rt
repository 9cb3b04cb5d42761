ghost use Rattle.std.specs.Prelude.{◌≡◌, ◌*◌, ◌<◌, ◌≤◌, ℕ, min, true, false, length, [], slice_index, slice_index_or, bit_and};
ghost use Rattle.std.specs.Int.{bit_at, from_bool};
ghost use Rattle.codec_terms.specs.BlockDecisions.{Block, plane_count};
ghost use Rattle.block_sets.specs.Squares.{IsSquareOf, has_any};
ghost use Rattle.block_sets.specs.Planes.{AreSetsOf, HasPlanesOf, HasBit};
ghost use Rattle.block_sets.specs.Rebuilt.{block_of};

use crate::planes::BlockPlanes;
use crate::split::split;
use crate::start::unite;
use codec_terms::BandKind;

// Leaves of a set what another one has too.
fn keep(set: &mut [u64; 16], other: &[u64; 16])
    ensures { (w : ℕ) → w < 16
        → slice_index set.new w ≡ bit_and (slice_index set.old w) (slice_index other.now w) }
{
    for w in 0..16usize {
        set[w] &= other[w];
    }
}

// The samples that any of the lower fifteen sets has.
fn unite_lower(sets: &[[u64; 16]; 16], some: &mut [u64; 16])
    ensures { (w i : ℕ) → w < 16 → i < 64
        → bit_at (slice_index some.new w) i ≡ from_bool (has_any sets.now 15 w i) }
{
    *some = [0; 16];
    for p in 0..15usize {
        unite(some, &sets[p]);
    }
}

// The word of a zero may have a sign.
fn drop_signs_of_zeros(sets: &mut [[u64; 16]; 16])
    ensures planes { (p : ℕ) → p < 15 → slice_index_or sets.new p [] ≡ slice_index_or sets.old p [] }
    ensures signs { (w i : ℕ) → w < 16 → i < 64 → bit_at (slice_index (slice_index_or sets.new 15 []) w) i
        ≡ min (bit_at (slice_index (slice_index_or sets.old 15 []) w) i) (from_bool (has_any sets.old 15 w i)) }
{
    let mut some = [0u64; 16];
    unite_lower(sets, &mut some);
    keep(&mut sets[15], &some);
}

/// Makes `sets` a block's bit-planes, from the lowest, and at the end the samples with negative values. Bits 0 to 14 of a
/// word of the square are a sample's magnitude, and bit 15 is its sign.
pub fn split_block(square: &[[u16; 32]; 32], sets: &mut [[u64; 16]; 16])
    ensures { (b : Block) → b.width ≤ 32 → b.height ≤ 32 → length b.values ≡ b.width * b.height
        → IsSquareOf b square.now → AreSetsOf b sets.new }
{
    split(square, sets);
    drop_signs_of_zeros(sets);
}

fn is_empty(set: &[u64; 16]) -> bool
    ensures empty { result ≡ true → (w : ℕ) → w < 16 → slice_index set.now w ≡ 0 }
    ensures some { result ≡ false → HasBit set.now }
{
    for w in 0..16usize {
        if set[w] != 0 {
            return false;
        }
    }
    true
}

/// The number of bit-planes from the highest that isn't empty down.
pub fn plane_count(sets: &[[u64; 16]; 16]) -> usize
    ensures count { (b : Block) → b.width ≤ 32 → b.height ≤ 32 → AreSetsOf b sets.now → result ≡ plane_count b }
    ensures most { result ≤ 15 }
{
    for above in 0..15usize {
        if !is_empty(&sets[14 - above]) {
            return 15 - above;
        }
    }
    0
}

/// The lowest bit-planes of a block of this size, of which `sets` are those: so many as it has, where that is known.
pub fn lowest_planes(
    kind: BandKind,
    width: usize,
    height: usize,
    sets: &[[u64; 16]; 16],
    count: usize,
) -> BlockPlanes<'_>
    requires width { width ≤ 32 }
    requires height { height ≤ 32 }
    requires count { count ≤ 15 }
    ensures planes { (b : Block) → b.kind ≡ kind → b.width ≡ width → b.height ≡ height → AreSetsOf b sets.now
        → count ≡ plane_count b → HasPlanesOf b result }
    ensures whole { (b : Block) → b.kind ≡ kind → b.width ≡ width → b.height ≡ height → AreSetsOf b sets.now
        → count ≡ plane_count b → block_of result ≡ b }
    ensures count { length result.planes.now ≡ count }
{
    BlockPlanes {
        kind,
        width,
        height,
        signs: &sets[15],
        planes: &sets[..count],
    }
}

/// The bit-planes of a block of this size, of which `sets` are those.
pub fn planes_in(
    kind: BandKind,
    width: usize,
    height: usize,
    sets: &[[u64; 16]; 16],
) -> BlockPlanes<'_>
    requires width { width ≤ 32 }
    requires height { height ≤ 32 }
    ensures planes { (b : Block) → b.kind ≡ kind → b.width ≡ width → b.height ≡ height → AreSetsOf b sets.now
        → HasPlanesOf b result }
    ensures whole { (b : Block) → b.kind ≡ kind → b.width ≡ width → b.height ≡ height → AreSetsOf b sets.now
        → block_of result ≡ b }
    ensures count { (b : Block) → b.width ≡ width → b.height ≡ height → AreSetsOf b sets.now
        → length result.planes.now ≡ plane_count b }
    ensures few { length result.planes.now ≤ 15 }
{
    lowest_planes(kind, width, height, sets, plane_count(sets))
}
