ghost use Rattle.std.specs.Prelude.{◌≡◌, ◌+◌, ◌*◌, ◌<◌, ◌≤◌, length, slice_index};
ghost use Rattle.codec_terms.specs.declared.picture.Band.{Band};
ghost use Rattle.codec_terms.specs.Bands.{band_columns, band_length, band_place};
ghost use Rattle.codec_terms.specs.Precincts.{block_columns, block_rows};
ghost use Rattle.quantiser.specs.Signed.{signed_values};
ghost use Rattle.band_starts.specs.Places.{IsPictureBand};
ghost use Rattle.band_starts.specs.Blocks.{block_count, block_start, all_block_count};
ghost use Rattle.picture_sets.specs.Blocks.{IsSplit};
ghost use Rattle.picture_sets.specs.Sets.{block_in, AreSetsBefore};

use crate::block::{BlockSets, split};
use band_map::{band_size, block_size};
use band_starts::{band_at, band_length, band_start, block_columns_rows};
use block_sets::{band_block_laws, fill_from_rows};
use codec_terms::{Band, Shape};

// Where the first row of a code-block begins among a sub-band's words.
fn first_word(shape: Shape, band: Band, x: u32, y: u32) -> usize
    requires picture { IsPictureBand band }
    requires column { x < block_columns shape band }
    requires row { y < block_rows shape band }
    ensures place { result ≡ 32 * y * band_columns shape band + 32 * x }
    ensures within { result ≤ band_length shape band }
{
    let (columns, _) = band_size(shape, band);
    32 * y as usize * columns as usize + 32 * x as usize
}

// Makes the sets of the code-block in column x and row y of a sub-band that has these words. `square` is lent for the
// call.
fn split_block_in(
    shape: Shape,
    band: Band,
    words: &[u16],
    x: u32,
    y: u32,
    square: &mut [[u16; 32]; 32],
    block: &mut BlockSets,
)
    requires picture { IsPictureBand band }
    requires whole { length words.now ≡ band_length shape band }
    requires column { x < block_columns shape band }
    requires row { y < block_rows shape band }
    ensures { IsSplit (block_in shape band words.now x y) block.new }
{
    band_block_laws();
    let (columns, _) = band_size(shape, band);
    let (width, height) = block_size(shape, band, x, y);
    let first = first_word(shape, band, x, y);
    fill_from_rows(
        &words[first..],
        columns as usize,
        width as usize,
        height as usize,
        square,
    );
    split(square, block);
}

// Makes the sets of a sub-band's code-blocks, behind those of the sub-bands before it.
fn fill_band(
    sets: &mut [BlockSets],
    shape: Shape,
    band: Band,
    first: usize,
    words: &[u16],
    square: &mut [[u16; 32]; 32],
)
    requires picture { IsPictureBand band }
    requires there { length sets.old ≡ all_block_count shape }
    requires first { first ≡ block_start shape band }
    requires words { length words.now ≡ 3 * (shape.width * shape.height) }
    requires before { AreSetsBefore first shape (signed_values words.now) sets.old }
    ensures { AreSetsBefore (first + block_count shape band) shape (signed_values words.now) sets.new }
{
    let start = band_start(shape, band);
    let of_band = &words[start..start + band_length(shape, band)];
    let (columns, rows) = block_columns_rows(shape, band);
    for n in 0..columns * rows {
        let place = first + n as usize;
        split_block_in(
            shape,
            band,
            of_band,
            n % columns,
            n / columns,
            square,
            &mut sets[place],
        );
    }
}

/// Makes the sets of all code-blocks of a picture that has these words.
pub(crate) fn fill_bands(sets: &mut [BlockSets], shape: Shape, starts: &[u32; 48], words: &[u16])
    requires there { length sets.old ≡ all_block_count shape }
    requires starts { (band : Band) → IsPictureBand band
        → slice_index starts.now (band_place band) ≡ block_start shape band }
    requires words { length words.now ≡ 3 * (shape.width * shape.height) }
    ensures { AreSetsBefore (all_block_count shape) shape (signed_values words.now) sets.new }
{
    let mut square = [[0u16; 32]; 32];
    for place in 0..48usize {
        let first = starts[place] as usize;
        fill_band(sets, shape, band_at(place), first, words, &mut square);
    }
}
