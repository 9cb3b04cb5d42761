ghost use Rattle.std.specs.Prelude.{◌≡◌, ◌*◌, ◌<◌, ◌≤◌, ℤ, List, IfOk, OnOk, length};
ghost use Rattle.codec_terms.specs.Precincts.{block_columns, block_rows};
ghost use Rattle.codec_laws.specs.Bounds.{IsPictureSize, FitBands};
ghost use Rattle.band_starts.specs.Places.{IsPictureBand};
ghost use Rattle.picture_sets.specs.Sets.{AreSetsOfPicture};
ghost use Rattle.picture_blocks.specs.Blocks.{block_at, AreBlocksOf, AreCodedAt, IsBandCoded, IsFurther};

use crate::coding::{CodingRoom, code_blocks};
use crate::starting::start_bands;
use crate::words::words_of;
use band_starts::{band_at, band_place, block_columns_rows, block_laws, block_total, place_laws};
use block_coder::PartlyCoded;
use codec_terms::{Band, Shape};
use cut_planes::lowest_plane;
use mast_base::NoMemory;
use picture_sets::{PictureSets, block_starts};
use std::alloc::Global;
use std::marker::Model;

/// The code-blocks of a picture, each coded down to some bit-plane, from which the coding can go on. Those of another
/// picture of the same size may be started in their memory.
#[derive(Debug, Drop)]
pub struct Blocks {
    shape: Shape,
    // Where those of each sub-band begin.
    starts: [u32; 48],
    blocks: Vec<PartlyCoded>,
}

impl Model for Blocks {
    ghost use Rattle.picture_blocks.specs.Blocks.{PictureBlocks};
    ghost use Rattle.picture_blocks.specs.Sound.{IsSound};

    ghost Value = { PictureBlocks };

    ghost view = { λ blocks. record { shape = blocks.shape; blocks = blocks.blocks.items } };

    ghost invariant = { IsSound };
}

// A code-block for each place of a picture, none of which is begun.
fn new_blocks(alloc: Global, count: usize) -> Result<Vec<PartlyCoded>, NoMemory>
    ensures { IfOk result (λ blocks. length blocks.items ≡ count) }
{
    let mut blocks = Vec::new(alloc);
    blocks.reserve(count)?;
    for _ in 0..count {
        blocks.push(PartlyCoded::new(alloc))?;
    }
    Ok(blocks)
}

impl Blocks {
    /// Room for the code-blocks of pictures of this size, none of which is begun.
    pub fn new(alloc: Global, shape: Shape) -> Result<Self, NoMemory>
        requires { IsPictureSize shape }
        ensures { IfOk result (λ blocks. blocks.shape ≡ shape) }
    {
        let blocks = new_blocks(alloc, block_total(shape))?;
        Ok(Blocks {
            shape,
            starts: block_starts(shape),
            blocks,
        })
    }

    /// Codes the code-blocks of a picture's quantised coefficients, each down to its lowest bit-plane.
    pub fn code(alloc: Global, shape: Shape, quantised: &[i32]) -> Result<Self, NoMemory>
        requires size { IsPictureSize shape }
        requires whole { length quantised.now ≡ 3 * (shape.width * shape.height) }
        requires fits { FitBands shape quantised.now }
        ensures shape { IfOk result (λ blocks. blocks.shape ≡ shape) }
        ensures blocks { IfOk result (λ blocks. AreBlocksOf quantised.now blocks) }
        ensures coded { IfOk result (λ blocks. AreCodedAt quantised.now 0 blocks) }
    {
        let words = words_of(alloc, quantised)?;
        let mut sets = PictureSets::new(alloc, shape)?;
        sets.fill(&words);
        let mut blocks = Blocks::new(alloc, shape)?;
        blocks.start(&sets);
        blocks.code_to_cut(&sets, 0, &mut CodingRoom::new(alloc))?;
        Ok(blocks)
    }

    /// Begins all code-blocks of a picture in the place of those that are here. None of them is coded.
    pub fn start(&mut self, sets: &PictureSets)
        requires shape { sets.now.shape ≡ self.old.shape }
        requires of { (q : List ℤ) × AreSetsOfPicture q sets.now }
        ensures shape { self.new.shape ≡ self.old.shape }
        ensures blocks { (q : List ℤ) → AreSetsOfPicture q sets.now → AreBlocksOf q self.new }
        ensures coded { (q : List ℤ) → AreSetsOfPicture q sets.now → AreCodedAt q 720 self.new }
    {
        block_laws();
        start_bands(&mut self.blocks, sets, &self.starts);
    }

    /// Codes the code-blocks of a sub-band down to bit-plane `lowest`. Those that are coded further stay as they are.
    /// After `NoMemory` some are coded, and the call may be made again. `room` is lent for the call.
    pub fn code_band(
        &mut self,
        sets: &PictureSets,
        band: Band,
        lowest: u32,
        room: &mut CodingRoom,
    ) -> Result<(), NoMemory>
        requires shape { sets.now.shape ≡ self.old.shape }
        requires picture { IsPictureBand band }
        requires of { (q : List ℤ) × (AreSetsOfPicture q sets.now × AreBlocksOf q self.old) }
        ensures shape { self.new.shape ≡ self.old.shape }
        ensures blocks { (q : List ℤ) → AreSetsOfPicture q sets.now → AreBlocksOf q self.old → AreBlocksOf q self.new }
        ensures further { IsFurther self.old self.new }
        ensures coded { OnOk result ((q : List ℤ) → AreSetsOfPicture q sets.now → AreBlocksOf q self.old
            → IsBandCoded q band lowest self.new) }
    {
        let first = self.starts[band_place(band)] as usize;
        code_blocks(&mut self.blocks, first, sets, band, lowest, room)
    }

    /// The same of all sub-bands in turn, each down to its lowest bit-plane that the cut keeps.
    pub fn code_to_cut(
        &mut self,
        sets: &PictureSets,
        cut: u32,
        room: &mut CodingRoom,
    ) -> Result<(), NoMemory>
        requires cut { cut ≤ 720 }
        requires shape { sets.now.shape ≡ self.old.shape }
        requires of { (q : List ℤ) × (AreSetsOfPicture q sets.now × AreBlocksOf q self.old) }
        ensures shape { self.new.shape ≡ self.old.shape }
        ensures blocks { (q : List ℤ) → AreSetsOfPicture q sets.now → AreBlocksOf q self.old → AreBlocksOf q self.new }
        ensures coded { OnOk result ((q : List ℤ) → AreSetsOfPicture q sets.now → AreBlocksOf q self.old
            → AreCodedAt q cut self.new) }
    {
        place_laws();
        for place in 0..48usize {
            let band = band_at(place);
            self.code_band(sets, band, lowest_plane(cut, band), room)?;
        }
        Ok(())
    }

    /// The size of the picture.
    pub fn shape(&self) -> Shape
        ensures shape { result ≡ self.now.shape }
        ensures size { IsPictureSize result }
    {
        self.shape
    }

    /// The code-block in column x and row y of a sub-band.
    pub fn at(&self, band: Band, x: u32, y: u32) -> &PartlyCoded
        requires picture { IsPictureBand band }
        requires column { x < block_columns self.now.shape band }
        requires row { y < block_rows self.now.shape band }
        ensures { result.now ≡ block_at self.now band x y }
    {
        block_laws();
        let (columns, _) = block_columns_rows(self.shape, band);
        let start = self.starts[band_place(band)] as usize;
        let place = start + (y as usize * columns as usize + x as usize);
        &self.blocks[place]
    }
}
