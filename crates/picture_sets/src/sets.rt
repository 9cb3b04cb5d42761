ghost use Rattle.std.specs.Prelude.{◌≡◌, ◌*◌, ◌<◌, IfOk, List, ℤ, length};
ghost use Rattle.codec_terms.specs.Precincts.{block_columns, block_rows};
ghost use Rattle.codec_laws.specs.Bounds.{IsPictureSize};
ghost use Rattle.quantiser.specs.Signed.{signed_values};
ghost use Rattle.block_sets.specs.Rebuilt.{block_of};
ghost use Rattle.block_coder.specs.Blocks.{IsBlock};
ghost use Rattle.band_starts.specs.Places.{IsPictureBand};
ghost use Rattle.picture_sets.specs.Sets.{picture_block, sets_at, AreSetsOfPicture};

use crate::block::{BlockSets, NO_SAMPLES};
use crate::split::fill_bands;
use crate::starts::block_starts;
use band_map::block_size;
use band_starts::{band_place, block_columns_rows, block_laws, block_total};
use block_sets::{BlockPlanes, lowest_planes};
use codec_terms::{Band, Shape};
use mast_base::NoMemory;
use std::alloc::Global;
use std::marker::Model;

/// The bit-planes and signs of all code-blocks of a picture as sets of samples, 2 KB for each: 13 MB at 2048 × 1080. Those
/// of another picture of the same size may be made in their memory.
#[derive(Debug, Drop)]
pub struct PictureSets {
    shape: Shape,
    // Where those of each sub-band begin.
    starts: [u32; 48],
    sets: Vec<BlockSets>,
}

impl Model for PictureSets {
    ghost use Rattle.picture_sets.specs.Sets.{PictureSets};
    ghost use Rattle.picture_sets.specs.Sound.{IsSound};

    ghost Value = { PictureSets };

    ghost view = { λ sets. record { shape = sets.shape; sets = sets.sets.items } };

    ghost invariant = { IsSound };
}

impl PictureSets {
    /// Room for the sets of pictures of this size.
    pub fn new(alloc: Global, shape: Shape) -> Result<Self, NoMemory>
        requires { IsPictureSize shape }
        ensures { IfOk result (λ sets. sets.shape ≡ shape) }
    {
        let sets = Vec::from_elem(alloc, NO_SAMPLES, block_total(shape))?;
        Ok(PictureSets {
            shape,
            starts: block_starts(shape),
            sets,
        })
    }

    /// Makes the sets of a picture's code-blocks from the words of its sub-bands: those of component 0 first, in each LL
    /// and then HL, LH and HH of levels 5 to 1, in raster order. A word has a coefficient's sign in bit 15 and its
    /// magnitude below.
    pub fn fill(&mut self, words: &[u16])
        requires { length words.now ≡ 3 * (self.old.shape.width * self.old.shape.height) }
        ensures shape { self.new.shape ≡ self.old.shape }
        ensures sets { AreSetsOfPicture (signed_values words.now) self.new }
    {
        block_laws();
        let shape = self.shape;
        fill_bands(&mut self.sets, shape, &self.starts, words);
    }

    /// The size of the picture.
    pub fn shape(&self) -> Shape
        ensures shape { result ≡ self.now.shape }
        ensures size { IsPictureSize result }
    {
        self.shape
    }

    // The sets of the code-block in column x and row y of a sub-band.
    fn sets_of(&self, band: Band, x: u32, y: u32) -> &BlockSets
        requires picture { IsPictureBand band }
        requires column { x < block_columns self.now.shape band }
        requires row { y < block_rows self.now.shape band }
        ensures { result.now ≡ sets_at self.now.shape self.now.sets band x y }
    {
        block_laws();
        let (columns, _) = block_columns_rows(self.shape, band);
        let start = self.starts[band_place(band)] as usize;
        let place = start + (y as usize * columns as usize + x as usize);
        &self.sets[place]
    }

    /// The code-block in column x and row y of a sub-band.
    pub fn at(&self, band: Band, x: u32, y: u32) -> BlockPlanes<'_>
        requires of { (q : List ℤ) × AreSetsOfPicture q self.now }
        requires picture { IsPictureBand band }
        requires column { x < block_columns self.now.shape band }
        requires row { y < block_rows self.now.shape band }
        ensures block { IsBlock result }
        ensures same { (q : List ℤ) → AreSetsOfPicture q self.now
            → block_of result ≡ picture_block self.now.shape q band x y }
    {
        let (width, height) = block_size(self.shape, band, x, y);
        let block = self.sets_of(band, x, y);
        lowest_planes(
            band.kind,
            width as usize,
            height as usize,
            &block.sets,
            usize::from(block.planes),
        )
    }
}
