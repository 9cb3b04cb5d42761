ghost use Rattle.std.specs.Prelude.{◌≤◌};

use codec_terms::BandKind;

/// A code-block's quantised values as sets of samples.
#[derive(Clone, Copy, Debug)]
pub struct BlockPlanes<'a> {
    pub kind: BandKind,
    pub width: usize,
    pub height: usize,
    /// The samples with negative values.
    pub signs: &'a [u64; 16],
    /// From the lowest bit-plane up to the highest that isn't empty, or further.
    pub planes: &'a [[u64; 16]],
    pub ghost narrow: { width ≤ 32 },
    pub ghost low: { height ≤ 32 },
}
