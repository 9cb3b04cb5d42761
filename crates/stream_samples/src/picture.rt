ghost use Rattle.std.specs.Prelude.{◌≡◌, ◌≤◌, IfOk, ℤ, List};
ghost use Rattle.codec_laws.specs.Bounds.{IsPictureSize};
ghost use Rattle.block_packets.specs.Coded.{AreCodedBlocks};

use codec_laws::coefficient_laws;
use codec_terms::Shape;
use mast_base::NoMemory;
use picture_bands::PictureBands;
use picture_blocks::{Blocks, CodingRoom};
use picture_sets::PictureSets;
use sample_pictures::{Scene, raw_picture};
use std::alloc::Global;

/// The code-blocks of a picture, coded down to their lowest bit-planes.
pub(crate) fn coded_picture(
    alloc: Global,
    scene: Scene,
    shape: Shape,
    power: u8,
) -> Result<Blocks, NoMemory>
    requires size { IsPictureSize shape }
    requires least_power { 11 ≤ power }
    requires greatest_power { power ≤ 13 }
    ensures { IfOk result (λ blocks. (q : List ℤ) × AreCodedBlocks q 0 blocks) }
{
    coefficient_laws();
    let raw = raw_picture(alloc, scene, shape)?;
    let mut bands = PictureBands::new(alloc, shape, power)?;
    bands.transform(&raw);
    let mut sets = PictureSets::new(alloc, shape)?;
    sets.fill(bands.words());
    let mut blocks = Blocks::new(alloc, shape)?;
    blocks.start(&sets);
    blocks.code_to_cut(&sets, 0, &mut CodingRoom::new(alloc))?;
    Ok(blocks)
}
