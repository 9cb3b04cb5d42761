ghost use Rattle.std.specs.Prelude.{◌≡◌, ◌≤◌, ◌*◌, ◌^◌, ◌<◌, All, IfOk, length, unsigned_abs};
ghost use Rattle.codec_terms.specs.BlockDecisions.{Block};
ghost use Rattle.block_sets.specs.Planes.{AreSetsOf};
ghost use Rattle.block_sets.specs.Rebuilt.{block_of};
ghost use Rattle.block_coder.specs.Blocks.{IsBlock, block_with};
ghost use Rattle.block_coder.specs.Codes.{IsCodeOf};

use crate::coded::Coded;
use crate::partly::PartlyCoded;
use block_passes::PassState;
use block_sets::{BlockPlanes, fill_from_values, planes_in, split_block};
use codec_terms::BandKind;
use mast_base::NoMemory;
use mq_coder::Coder;
use std::alloc::Global;

/// Room for a code-block's words and sets.
#[derive(Debug, Drop)]
pub struct BlockRoom {
    square: [[u16; 32]; 32],
    sets: [[u64; 16]; 16],
}

impl BlockRoom {
    pub fn new() -> Self {
        BlockRoom {
            square: [[0; 32]; 32],
            sets: [[0; 16]; 16],
        }
    }
}

/// A block of this size by its sets: its bit-planes from the lowest, and at the end the samples with negative values, as
/// `block_sets::split_block` makes them.
pub fn block_of_sets(
    kind: BandKind,
    width: usize,
    height: usize,
    sets: &[[u64; 16]; 16],
) -> BlockPlanes<'_>
    requires width { width ≤ 32 }
    requires height { height ≤ 32 }
    ensures block { (b : Block) → b.kind ≡ kind → b.width ≡ width → b.height ≡ height → AreSetsOf b sets.now
        → IsBlock result }
    ensures same { (b : Block) → b.kind ≡ kind → b.width ≡ width → b.height ≡ height → AreSetsOf b sets.now
        → block_of result ≡ b }
{
    planes_in(kind, width, height, sets)
}

/// The block of these values, in raster order, whose sets are made in `room`.
pub fn block_of_values<'a>(
    kind: BandKind,
    width: usize,
    height: usize,
    values: &[i32],
    room: &'a mut BlockRoom,
) -> BlockPlanes<'a>
    requires width { width ≤ 32 }
    requires height { height ≤ 32 }
    requires whole { length values.now ≡ width * height }
    requires small { All (λ v. unsigned_abs v < 2 ^ 15) values.now }
    ensures block { IsBlock result }
    ensures same { block_of result ≡ block_with kind width height values.now }
{
    fill_from_values(values, width, height, &mut room.square);
    split_block(&room.square, &mut room.sets);
    block_of_sets(kind, width, height, &room.sets)
}

/// Codes a block down to its lowest bit-plane. `state` and `coder` are lent for the call.
pub fn code_block(
    alloc: Global,
    block: &BlockPlanes<'_>,
    state: &mut PassState,
    coder: &mut Coder,
) -> Result<Coded, NoMemory>
    requires { IsBlock block.now }
    ensures { IfOk result (λ code. IsCodeOf (block_of block.now) code) }
{
    let mut code = PartlyCoded::new(alloc);
    code.start(block);
    code.code_down_to(block, 0, state, coder)?;
    Ok(code.into_coded())
}
