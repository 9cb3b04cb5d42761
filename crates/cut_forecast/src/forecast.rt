ghost use Rattle.std.specs.Prelude.{◌≤◌, List, ℤ};
ghost use Rattle.band_starts.specs.Places.{IsPictureBand};
ghost use Rattle.picture_sets.specs.Sets.{AreSetsOfPicture};

use crate::block::add_block;
use crate::entropy::terms;
use crate::length::cut_within;
use band_starts::{band_at, block_columns_rows};
use codec_terms::Band;
use cut_laws::rank_laws;
use cut_planes::rank;
use mast_base::Limits;
use picture_sets::PictureSets;

/// What forecasts need and no picture changes.
#[derive(Debug, Drop)]
pub struct Forecast {
    // n log n for each number n of samples, in units of 1/64 bit.
    terms: [u32; 1025],
}

impl Forecast {
    /// What serves for pictures of any size.
    pub fn new() -> Self {
        Forecast { terms: terms() }
    }

    // Adds the bits of each bit-plane of a sub-band. Blocks are read from the last on, as their planes are from the
    // highest: memory that is read in one direction comes sooner.
    fn add_band(&self, sets: &PictureSets, band: Band, bits: &mut [u64; 15])
        requires of { (q : List ℤ) × AreSetsOfPicture q sets.now }
        requires picture { IsPictureBand band }
    {
        let (columns, rows) = block_columns_rows(sets.shape(), band);
        for n in (0..columns * rows).rev() {
            add_block(&self.terms, &sets.at(band, n % columns, n / columns), bits);
        }
    }

    /// The cut from which an encoder best looks for the least one at which a picture's codestream is within the limits,
    /// towards lower cuts: mostly a little above it.
    pub fn first_cut(&self, sets: &PictureSets, limits: Limits) -> u32
        requires of { (q : List ℤ) × AreSetsOfPicture q sets.now }
        ensures { result ≤ 720 }
    {
        rank_laws();
        let mut bits = [[0u64; 15]; 48];
        for place in (0..48usize).rev() {
            let band = band_at(place);
            self.add_band(sets, band, &mut bits[rank(band) as usize]);
        }
        cut_within(&bits, limits)
    }
}
