ghost use Rattle.std.specs.Prelude.{◌≡◌, ◌+◌, ◌*◌, ◌/◌, ◌%◌, ◌<◌, ◌≤◌, ℕ, ℤ, List, Some, length};
ghost use Rattle.std.specs.List.{slice_get};
ghost use Rattle.codec_terms.specs.Bands.{lowest_plane, resolution_bands};
ghost use Rattle.codec_terms.specs.Precincts.{blocks_in, resolution};
ghost use Rattle.codec_laws.specs.Bounds.{IsPictureSize};
ghost use Rattle.band_laws.specs.Places.{precinct_count};
ghost use Rattle.band_map.specs.Blocks.{area_of};
ghost use Rattle.band_starts.specs.Places.{IsPictureBand};
ghost use Rattle.picture_sets.specs.Sets.{picture_block};
ghost use Rattle.block_packets.specs.Coded.{IsArea, IsCodedFor, AreCodedBlocks};

use band_map::{BlockGrid, blocks_of};
use band_starts::sample_laws;
use block_coder::PartlyCoded;
use block_laws::lower_plane_laws;
use codec_terms::{Band, Shape};
use packet_places::{PrecinctAt, resolution_band};
use picture_blocks::Blocks;

/// A sub-band of a precinct's resolution, in the order in which packets have them.
pub(crate) fn band_in(precinct: PrecinctAt, i: usize) -> Band
    requires resolution { precinct.resolution < 6 }
    requires component { precinct.component < 3 }
    requires inside { i < length (resolution_bands precinct.component precinct.resolution) }
    ensures band { slice_get (resolution_bands precinct.component precinct.resolution) i ≡ Some result }
    ensures picture { IsPictureBand result }
    ensures there { resolution result ≡ precinct.resolution }
{
    resolution_band(precinct, i)
}

/// The code-blocks that a precinct has in a sub-band.
pub(crate) fn area_in(shape: Shape, band: Band, number: u32) -> BlockGrid
    requires size { IsPictureSize shape }
    requires picture { IsPictureBand band }
    requires inside { number < precinct_count shape (resolution band) }
    ensures area { area_of result ≡ blocks_in shape band number }
    ensures within { IsArea shape band (area_of result) }
{
    blocks_of(shape, band, number)
}

/// How many code-blocks there are.
pub(crate) fn block_count(area: BlockGrid) -> u32
    requires columns { area.columns ≤ 4 }
    requires rows { area.rows ≤ 4 }
    ensures count { result ≡ area.rows * area.columns }
    ensures few { result ≤ 16 }
{
    area.rows * area.columns
}

/// The code-block at a place of an area in raster order.
pub(crate) fn block_in(blocks: &Blocks, band: Band, area: BlockGrid, at: u32) -> &PartlyCoded
    requires picture { IsPictureBand band }
    requires within { IsArea blocks.now.shape band (area_of area) }
    requires inside { at < area.rows * area.columns }
    ensures { (q : List ℤ) (cut : ℕ) → AreCodedBlocks q cut blocks.now → IsCodedFor
        (picture_block blocks.now.shape q band (area.x + at % area.columns) (area.y + at / area.columns))
        (lowest_plane cut band) result.now }
{
    lower_plane_laws();
    sample_laws();
    blocks.at(band, area.x + at % area.columns, area.y + at / area.columns)
}
