ghost use Rattle.std.specs.Prelude.{◌≡◌, ◌+◌, ◌*◌, ◌^◌, ◌<◌, ◌≤◌, ℕ, suc, take, sum_by};
ghost use Rattle.codec_terms.specs.declared.picture.Shape.{Shape};
ghost use Rattle.codec_terms.specs.declared.picture.Band.{Band};
ghost use Rattle.codec_terms.specs.Bands.{band_place, all_bands};
ghost use Rattle.codec_terms.specs.Precincts.{block_columns, block_rows};
ghost use Rattle.codec_laws.specs.Bounds.{IsPictureSize};
ghost use Rattle.band_starts.specs.Places.{IsPictureBand};
ghost use Rattle.band_starts.specs.Blocks.{block_count, block_start, block_place, all_block_count};

use crate::places::{band_at, band_place};
use band_map::band_size;
use codec_terms::{Band, Shape};

/// How many columns and rows of code-blocks a sub-band has.
pub fn block_columns_rows(shape: Shape, band: Band) -> (u32, u32)
    requires least { 1 ≤ band.level }
    requires greatest { band.level ≤ 5 }
    ensures columns { result.0 ≡ block_columns shape band }
    ensures rows { result.1 ≡ block_rows shape band }
    ensures few_columns { result.0 ≤ 2 ^ 11 }
    ensures few_rows { result.1 ≤ 2 ^ 11 }
{
    let (columns, rows) = band_size(shape, band);
    (columns.div_ceil(32), rows.div_ceil(32))
}

// How many code-blocks a sub-band has.
fn block_count(shape: Shape, band: Band) -> usize
    requires least { 1 ≤ band.level }
    requires greatest { band.level ≤ 5 }
    ensures count { result ≡ block_count shape band }
    ensures few { result ≤ 2 ^ 22 }
{
    let (columns, rows) = block_columns_rows(shape, band);
    columns as usize * rows as usize
}

// How many code-blocks the sub-bands before a place have.
fn blocks_before(shape: Shape, places: usize) -> usize
    requires { places ≤ 48 }
    ensures count { result ≡ sum_by (block_count shape) (take places all_bands) }
    ensures few { result ≤ 2 ^ 28 }
{
    let mut count = 0;
    for place in 0..places {
        count += block_count(shape, band_at(place));
    }
    count
}

/// Where a sub-band's code-blocks begin among all of a picture.
pub fn block_start(shape: Shape, band: Band) -> usize
    requires { IsPictureBand band }
    ensures start { result ≡ block_start shape band }
    ensures few { result ≤ 2 ^ 28 }
{
    blocks_before(shape, band_place(band))
}

/// How many code-blocks a picture has.
pub fn block_total(shape: Shape) -> usize
    ensures total { result ≡ all_block_count shape }
    ensures few { result ≤ 2 ^ 28 }
{
    blocks_before(shape, 48)
}

/// Each code-block of a picture has a place of its own, within their number.
pub fn block_laws()
    ensures within { (shape : Shape) (band : Band) (x y : ℕ) → IsPictureBand band
        → x < block_columns shape band → y < block_rows shape band
        → block_place shape band x y < all_block_count shape }
    ensures next { (shape : Shape) (band next : Band) → IsPictureBand band
        → band_place next ≡ suc (band_place band)
        → block_start shape next ≡ block_start shape band + block_count shape band }
    ensures few { (shape : Shape) → IsPictureSize shape → all_block_count shape ≤ 2 ^ 16 }
{}
