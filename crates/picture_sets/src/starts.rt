ghost use Rattle.std.specs.Prelude.{◌≡◌, slice_index};
ghost use Rattle.codec_terms.specs.declared.picture.Band.{Band};
ghost use Rattle.codec_terms.specs.Bands.{band_place};
ghost use Rattle.band_starts.specs.Places.{IsPictureBand};
ghost use Rattle.band_starts.specs.Blocks.{block_start};

use band_starts::{band_at, block_start, place_laws};
use codec_terms::Shape;

/// Where the code-blocks of each sub-band begin among all of a picture.
pub fn block_starts(shape: Shape) -> [u32; 48]
    ensures { (band : Band) → IsPictureBand band → slice_index result (band_place band) ≡ block_start shape band }
{
    place_laws();
    let mut starts = [0u32; 48];
    for place in 0..48usize {
        starts[place] = block_start(shape, band_at(place)) as u32;
    }
    starts
}
