//! Pictures, transformed and coded.

ghost use Rattle.std.specs.Prelude.{◌≡◌, ◌≤◌, ◌*◌, IfOk, ℤ, List, length};
ghost use Rattle.codec_laws.specs.Bounds.{IsPictureSize};
ghost use Rattle.block_packets.specs.Coded.{AreCodedBlocks};

use codec_laws::coefficient_laws;
use codec_terms::Shape;
use mast_base::NoMemory;
use picture_bands::PictureBands;
use picture_blocks::{Blocks, CodingRoom};
use picture_sets::PictureSets;
use sample_pictures::{Scene, raw_picture};
use std::alloc::Global;
use std::process::Abort;

/// The size of the pictures.
pub(crate) const SHAPE: Shape = Shape {
    width: 32,
    height: 32,
};

/// A picture's sub-bands, and its code-blocks, coded down to their lowest bit-planes.
fn coded(
    alloc: Global,
    shape: Shape,
    power: u8,
    raw: &[u8],
) -> Result<(PictureBands, Blocks), NoMemory>
    requires size { IsPictureSize shape }
    requires least_power { 11 ≤ power }
    requires greatest_power { power ≤ 13 }
    requires whole { length raw.now ≡ shape.width * shape.height * 6 }
    ensures { IfOk result (λ made. (q : List ℤ) × AreCodedBlocks q 0 made.1) }
{
    coefficient_laws();
    let mut bands = PictureBands::new(alloc, shape, power)?;
    bands.transform(raw);
    let mut sets = PictureSets::new(alloc, shape)?;
    sets.fill(bands.words());
    let mut blocks = Blocks::new(alloc, shape)?;
    blocks.start(&sets);
    blocks.code_to_cut(&sets, 0, &mut CodingRoom::new(alloc))?;
    Ok((bands, blocks))
}

/// One that shows edges.
pub(crate) fn edges(alloc: Global) -> Result<(PictureBands, Blocks), NoMemory>
    ensures { IfOk result (λ made. (q : List ℤ) × AreCodedBlocks q 0 made.1) }
{
    let raw = raw_picture(alloc, Scene::Edges, SHAPE)?;
    coded(alloc, SHAPE, 13, &raw)
}

/// The raw bytes of pixels of one colour.
fn flat(alloc: Global, pixels: usize, colour: [u16; 3]) -> Result<Vec<u8>, NoMemory> {
    let [red, green, blue] = colour;
    let mut raw = Vec::new(alloc);
    for _ in 0..pixels {
        raw.extend_from_slice(&red.to_be_bytes())?;
        raw.extend_from_slice(&green.to_be_bytes())?;
        raw.extend_from_slice(&blue.to_be_bytes())?;
    }
    Ok(raw)
}

/// One of the colour whose three code values are each 2048, so that all coefficients are 0.
pub(crate) fn middle(rt: &impl Abort, alloc: Global) -> Result<(PictureBands, Blocks), NoMemory>
    ensures { IfOk result (λ made. (q : List ℤ) × AreCodedBlocks q 0 made.1) }
{
    let raw = flat(alloc, 1024, [36_410, 33_208, 32_670])?;
    assert!(rt; raw.len() == 6144);
    coded(alloc, SHAPE, 13, &raw)
}
