ghost use Rattle.std.specs.Prelude.{◌≡◌, ◌-◌, ◌*◌, ◌<◌, ◌≤◌, ℤ, List, OnOk, length};
ghost use Rattle.codec_terms.specs.BlockDecisions.{plane_count};
ghost use Rattle.codec_terms.specs.Precincts.{block_columns, block_rows};
ghost use Rattle.block_sets.specs.Rebuilt.{block_of};
ghost use Rattle.block_coder.specs.Blocks.{IsBlock};
ghost use Rattle.block_coder.specs.Codes.{IsPartOfCode};
ghost use Rattle.band_starts.specs.Places.{IsPictureBand};
ghost use Rattle.band_starts.specs.Blocks.{block_start, block_place, all_block_count};
ghost use Rattle.picture_sets.specs.Sets.{picture_block, AreSetsOfPicture};
ghost use Rattle.picture_blocks.specs.Blocks.{of_picture, slot, AreBlocksOf, IsBandCoded, IsFurther};

use band_starts::{block_columns_rows, block_laws};
use block_coder::PartlyCoded;
use block_passes::PassState;
use block_sets::BlockPlanes;
use codec_terms::Band;
use mast_base::NoMemory;
use mq_coder::Coder;
use picture_sets::PictureSets;
use std::alloc::Global;

/// Room that is lent to the coding of code-blocks.
#[derive(Debug, Drop)]
pub struct CodingRoom {
    state: PassState,
    coder: Coder,
}

impl CodingRoom {
    /// Room for any picture.
    pub fn new(alloc: Global) -> Self {
        CodingRoom {
            state: PassState::new(),
            coder: Coder::new(alloc),
        }
    }
}

// Codes a code-block down to bit-plane `lowest`. One that is coded further stays as it is.
fn code_further(
    block: &mut PartlyCoded,
    planes: &BlockPlanes<'_>,
    lowest: u32,
    room: &mut CodingRoom,
) -> Result<(), NoMemory>
    requires planes { IsBlock planes.now }
    requires of { IsPartOfCode (block_of planes.now) block.old }
    ensures of { IsPartOfCode (block_of planes.now) block.new }
    ensures further { length block.old.endings ≤ length block.new.endings }
    ensures coded { OnOk result (plane_count (block_of planes.now) - lowest ≤ length block.new.endings) }
{
    block.code_down_to(planes, lowest, &mut room.state, &mut room.coder)
}

// The same of the code-block in column x and row y of a sub-band, at its place among all of the picture.
fn code_block(
    blocks: &mut [PartlyCoded],
    place: usize,
    sets: &PictureSets,
    band: Band,
    x: u32,
    y: u32,
    lowest: u32,
    room: &mut CodingRoom,
) -> Result<(), NoMemory>
    requires picture { IsPictureBand band }
    requires column { x < block_columns sets.now.shape band }
    requires row { y < block_rows sets.now.shape band }
    requires there { length blocks.old ≡ all_block_count sets.now.shape }
    requires place { place ≡ block_place sets.now.shape band x y }
    requires of { (q : List ℤ) × (AreSetsOfPicture q sets.now × AreBlocksOf q (of_picture sets.now.shape blocks.old)) }
    ensures blocks { (q : List ℤ) → AreSetsOfPicture q sets.now → AreBlocksOf q (of_picture sets.now.shape blocks.old)
        → AreBlocksOf q (of_picture sets.now.shape blocks.new) }
    ensures further { IsFurther (of_picture sets.now.shape blocks.old) (of_picture sets.now.shape blocks.new) }
    ensures coded { OnOk result ((q : List ℤ) → AreSetsOfPicture q sets.now
        → plane_count (picture_block sets.now.shape q band x y) - lowest ≤ length (slot blocks.new place).endings) }
{
    block_laws();
    let planes = sets.at(band, x, y);
    code_further(&mut blocks[place], &planes, lowest, room)
}

/// Codes the code-blocks of a sub-band, which begin at `first`, down to bit-plane `lowest`.
pub(crate) fn code_blocks(
    blocks: &mut [PartlyCoded],
    first: usize,
    sets: &PictureSets,
    band: Band,
    lowest: u32,
    room: &mut CodingRoom,
) -> Result<(), NoMemory>
    requires picture { IsPictureBand band }
    requires there { length blocks.old ≡ all_block_count sets.now.shape }
    requires first { first ≡ block_start sets.now.shape band }
    requires of { (q : List ℤ) × (AreSetsOfPicture q sets.now × AreBlocksOf q (of_picture sets.now.shape blocks.old)) }
    ensures blocks { (q : List ℤ) → AreSetsOfPicture q sets.now → AreBlocksOf q (of_picture sets.now.shape blocks.old)
        → AreBlocksOf q (of_picture sets.now.shape blocks.new) }
    ensures further { IsFurther (of_picture sets.now.shape blocks.old) (of_picture sets.now.shape blocks.new) }
    ensures coded { OnOk result ((q : List ℤ) → AreSetsOfPicture q sets.now
        → IsBandCoded q band lowest (of_picture sets.now.shape blocks.new)) }
{
    let (columns, rows) = block_columns_rows(sets.shape(), band);
    for n in 0..columns * rows {
        let place = first + n as usize;
        code_block(
            blocks,
            place,
            sets,
            band,
            n % columns,
            n / columns,
            lowest,
            room,
        )?;
    }
    Ok(())
}
