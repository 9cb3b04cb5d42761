ghost use Rattle.std.specs.Prelude.{◌≡◌, ◌*◌, ◌≤◌, length};
ghost use Rattle.codec_terms.specs.BlockDecisions.{Block};
ghost use Rattle.block_sets.specs.Squares.{IsSquareOf};
ghost use Rattle.picture_sets.specs.Blocks.{IsSplit};

use block_sets::{plane_count, split_block};

/// A code-block's sets, 2 KB: its bit-planes from the lowest, and at the end the samples with negative values.
#[derive(Clone, Copy, Debug)]
pub(crate) struct BlockSets {
    pub sets: [[u64; 16]; 16],
    /// How many bit-planes there are up to the highest that isn't empty.
    pub planes: u8,
}

/// Those of a block without samples.
pub(crate) const NO_SAMPLES: BlockSets = BlockSets {
    sets: [[0; 16]; 16],
    planes: 0,
};

/// Makes the sets of the code-block that has these words, and counts its bit-planes while the sets are in the cache.
pub(crate) fn split(square: &[[u16; 32]; 32], block: &mut BlockSets)
    ensures { (b : Block) → b.width ≤ 32 → b.height ≤ 32 → length b.values ≡ b.width * b.height
        → IsSquareOf b square.now → IsSplit b block.new }
{
    split_block(square, &mut block.sets);
    block.planes = plane_count(&block.sets) as u8;
}
