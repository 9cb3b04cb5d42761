ghost use Rattle.std.specs.Prelude.{◌≡◌, ◌<◌, ◌≤◌};
ghost use Rattle.codec_terms.specs.Precincts.{resolution, blocks_in, block_width, block_height};
ghost use Rattle.band_laws.specs.Places.{precinct_count};

use crate::bands::{band_size, resolution_of};
use crate::resolutions::precincts;
use codec_terms::{Band, Shape};

/// A rectangle of code-blocks in a sub-band's grid of them. Where it has none, columns or rows
/// are 0.
#[derive(Clone, Copy, Debug, PartialEq, Eq)]
pub struct BlockGrid {
    pub x: u32,
    pub y: u32,
    pub columns: u32,
    pub rows: u32,
}

ghost use Rattle.band_map.specs.Blocks.{area_of};

/// The code-blocks that a precinct has in a sub-band, four in each direction or what is left
/// (B.7). Precincts are counted in raster order.
pub fn blocks_of(shape: Shape, band: Band, precinct: u32) -> BlockGrid
    requires least { 1 ≤ band.level }
    requires greatest { band.level ≤ 5 }
    requires inside { precinct < precinct_count shape (resolution band) }
    ensures { area_of result ≡ blocks_in shape band precinct }
{
    let (across, _) = precincts(shape, resolution_of(band));
    let (columns, rows) = band_size(shape, band);
    let x = 4 * (precinct % across);
    let y = 4 * (precinct / across);
    BlockGrid {
        x,
        y,
        columns: columns.div_ceil(32).saturating_sub(x).min(4),
        rows: rows.div_ceil(32).saturating_sub(y).min(4),
    }
}

/// The columns and rows of samples of the code-block in column x and row y of a sub-band: 32, or
/// what is left.
pub fn block_size(shape: Shape, band: Band, x: u32, y: u32) -> (u32, u32)
    requires least { 1 ≤ band.level }
    requires greatest { band.level ≤ 5 }
    ensures width { result.0 ≡ block_width shape band x }
    ensures height { result.1 ≡ block_height shape band y }
{
    let (columns, rows) = band_size(shape, band);
    (
        columns.saturating_sub(x.saturating_mul(32)).min(32),
        rows.saturating_sub(y.saturating_mul(32)).min(32),
    )
}
