ghost use Rattle.std.specs.Prelude.{◌<◌, ◌≤◌};
ghost use Rattle.block_sets.specs.Sets.{IsSet};
ghost use Rattle.block_sets.specs.Planes.{all_samples};
ghost use Rattle.block_passes.specs.Zeros.{AreZeroCodes};

use codec_terms::BandKind;

/// Which code-block is read: its sub-band's kind, its size and its bit-planes.
#[derive(Clone, Copy, Debug)]
pub(crate) struct Size {
    pub kind: BandKind,
    pub width: usize,
    pub height: usize,
    pub planes: u32,
    pub ghost narrow: { width ≤ 32 },
    pub ghost low: { height ≤ 32 },
    pub ghost few: { planes ≤ 31 },
}

/// What stays the same while a bit-plane of a code-block is read.
#[derive(Clone, Copy, Debug)]
pub(crate) struct Field<'a> {
    pub kind: BandKind,
    pub width: usize,
    pub height: usize,
    /// Twice the zero context, by the low byte of a sample's word.
    pub zeros: &'a [u8; 256],
    /// All samples of the block.
    pub samples: &'a [u64; 16],
    /// The bit-plane, from the lowest, 0.
    pub plane: u32,
    pub ghost narrow: { width ≤ 32 },
    pub ghost low: { height ≤ 32 },
    pub ghost fits: { plane < 31 },
    pub ghost table: { AreZeroCodes kind zeros.now },
    pub ghost all: { IsSet width height (all_samples width height) samples.now },
}
