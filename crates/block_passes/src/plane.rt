ghost use Rattle.std.specs.Prelude.{◌≤◌};
ghost use Rattle.block_passes.specs.Zeros.{AreZeroCodes};

use codec_terms::BandKind;

/// One bit-plane of a code-block, each set of its samples as 16 words in the order of the scan.
#[derive(Clone, Copy, Debug)]
pub(crate) struct Plane<'a> {
    pub kind: BandKind,
    /// Twice the zero context, by the low byte of a sample's word.
    pub zeros: &'a [u8; 256],
    pub width: usize,
    pub height: usize,
    /// All samples of the block.
    pub samples: &'a [u64; 16],
    pub bits: &'a [u64; 16],
    pub signs: &'a [u64; 16],
    /// Those whose highest bit is the one above this plane.
    pub first: &'a [u64; 16],
    pub ghost narrow: { width ≤ 32 },
    pub ghost low: { height ≤ 32 },
    pub ghost table: { AreZeroCodes kind zeros.now },
}

impl Plane<'_> {
    ghost use Rattle.std.specs.Prelude.{◌≡◌, ◌<◌, ℕ, true};
    ghost use Rattle.std.specs.Int.{is_negative};
    ghost use Rattle.codec_terms.specs.BlockDecisions.{Block, plane_bit, value_at, is_first};
    ghost use Rattle.block_sets.specs.Places.{column_at, row_at};
    ghost use Rattle.block_passes.specs.Scan.{has_sample};
    ghost use Rattle.block_passes.specs.Told.{IsPlane};

    /// The sample's bit of this plane.
    pub(crate) fn bit(&self, w: usize, i: u32) -> bool
        requires w { w < 16 }
        requires i { i < 64 }
        ensures { (b : Block) (p : ℕ) → IsPlane b p self.now → has_sample b w i ≡ true
            → result ≡ plane_bit b p (column_at w i) (row_at w i) }
    {
        self.bits[w] >> i & 1 == 1
    }

    pub(crate) fn is_negative(&self, w: usize, i: u32) -> bool
        requires w { w < 16 }
        requires i { i < 64 }
        ensures { (b : Block) (p : ℕ) → IsPlane b p self.now → has_sample b w i ≡ true
            → result ≡ is_negative (value_at b (column_at w i) (row_at w i)) }
    {
        self.signs[w] >> i & 1 == 1
    }

    /// Whether the bit is the one below the sample's highest.
    pub(crate) fn is_first(&self, w: usize, i: u32) -> bool
        requires w { w < 16 }
        requires i { i < 64 }
        ensures { (b : Block) (p : ℕ) → IsPlane b p self.now → has_sample b w i ≡ true
            → result ≡ is_first b p (column_at w i) (row_at w i) }
    {
        self.first[w] >> i & 1 == 1
    }
}
