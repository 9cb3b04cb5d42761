ghost use Rattle.std.specs.Prelude.{◌≡◌, ◌+◌, ◌<◌, ℤ, List, length, slice_index};
ghost use Rattle.codec_terms.specs.declared.picture.Band.{Band};
ghost use Rattle.codec_terms.specs.Bands.{band_place};
ghost use Rattle.codec_terms.specs.Precincts.{block_columns, block_rows};
ghost use Rattle.band_starts.specs.Places.{IsPictureBand};
ghost use Rattle.band_starts.specs.Blocks.{block_count, block_start, all_block_count};
ghost use Rattle.picture_sets.specs.Sets.{picture_block, AreSetsOfPicture};
ghost use Rattle.picture_blocks.specs.Blocks.{IsCodedTo};
ghost use Rattle.picture_blocks.specs.Started.{AreStartedBefore};

use band_starts::{band_at, block_columns_rows};
use block_coder::PartlyCoded;
use codec_terms::Band;
use picture_sets::PictureSets;

// Begins the code-block in column x and row y of a sub-band. It has 15 bit-planes at most.
fn start_block(block: &mut PartlyCoded, sets: &PictureSets, band: Band, x: u32, y: u32)
    requires picture { IsPictureBand band }
    requires column { x < block_columns sets.now.shape band }
    requires row { y < block_rows sets.now.shape band }
    requires of { (q : List ℤ) × AreSetsOfPicture q sets.now }
    ensures { (q : List ℤ) → AreSetsOfPicture q sets.now
        → IsCodedTo 15 (picture_block sets.now.shape q band x y) block.new }
{
    block.start(&sets.at(band, x, y));
}

// Begins those of a sub-band, behind those of the sub-bands before it.
fn start_band(blocks: &mut [PartlyCoded], sets: &PictureSets, band: Band, first: usize)
    requires picture { IsPictureBand band }
    requires there { length blocks.old ≡ all_block_count sets.now.shape }
    requires first { first ≡ block_start sets.now.shape band }
    requires of { (q : List ℤ) × AreSetsOfPicture q sets.now }
    requires before { (q : List ℤ) → AreSetsOfPicture q sets.now
        → AreStartedBefore first sets.now.shape q blocks.old }
    ensures { (q : List ℤ) → AreSetsOfPicture q sets.now
        → AreStartedBefore (first + block_count sets.now.shape band) sets.now.shape q blocks.new }
{
    let (columns, rows) = block_columns_rows(sets.shape(), band);
    for n in 0..columns * rows {
        let block = &mut blocks[first + n as usize];
        start_block(block, sets, band, n % columns, n / columns);
    }
}

/// Begins all code-blocks of a picture.
pub(crate) fn start_bands(blocks: &mut [PartlyCoded], sets: &PictureSets, starts: &[u32; 48])
    requires there { length blocks.old ≡ all_block_count sets.now.shape }
    requires starts { (band : Band) → IsPictureBand band
        → slice_index starts.now (band_place band) ≡ block_start sets.now.shape band }
    requires of { (q : List ℤ) × AreSetsOfPicture q sets.now }
    ensures { (q : List ℤ) → AreSetsOfPicture q sets.now
        → AreStartedBefore (all_block_count sets.now.shape) sets.now.shape q blocks.new }
{
    for place in 0..48usize {
        start_band(blocks, sets, band_at(place), starts[place] as usize);
    }
}
