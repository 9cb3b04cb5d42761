ghost use Rattle.std.specs.Prelude.{◌≡◌, ◌*◌, ◌<◌, ◌≤◌, ℤ, List, All};
ghost use Rattle.codec_terms.specs.Codestream.{packet_band};
ghost use Rattle.codec_terms.specs.Precincts.{blocks_in, resolution};
ghost use Rattle.band_laws.specs.Places.{precinct_count};
ghost use Rattle.band_map.specs.Blocks.{area_of};
ghost use Rattle.band_starts.specs.Places.{IsPictureBand};
ghost use Rattle.packet_size.specs.Sizes.{HasPassCode, HasPassCodes, HasSizes};
ghost use Rattle.packet_size.specs.Lengths.{HasLengths};
ghost use Rattle.block_packets.specs.Coded.{IsArea, AreCodedBlocks, most_bytes};
ghost use Rattle.block_packets.specs.Sized.{AreSizesUpTo};

use crate::area::{area_in, block_count, block_in};
use crate::block::{ABSENT, block_size};
use band_map::BlockGrid;
use codec_terms::Band;
use packet_size::{BandSizes, BlockSize};
use picture_blocks::Blocks;

// The sizes that a precinct's code-blocks in a sub-band have in a packet, in raster order, with blocks that aren't
// included behind them.
fn block_sizes(
    blocks: &Blocks,
    band: Band,
    number: u32,
    area: BlockGrid,
    cut: u32,
) -> [BlockSize; 16]
    requires picture { IsPictureBand band }
    requires within { IsArea blocks.now.shape band (area_of area) }
    requires area { area_of area ≡ blocks_in blocks.now.shape band number }
    requires of { (q : List ℤ) × AreCodedBlocks q cut blocks.now }
    ensures sizes { (q : List ℤ) → AreCodedBlocks q cut blocks.now
        → AreSizesUpTo (area.rows * area.columns) result (packet_band blocks.now.shape q cut number band).blocks }
    ensures passes { All HasPassCode result }
    ensures few { All (λ size. size.len ≤ most_bytes) result }
{
    let mut sizes = [ABSENT; 16];
    for at in 0..block_count(area) {
        sizes[at as usize] = block_size(block_in(blocks, band, area, at), band, cut);
    }
    sizes
}

/// The sizes of a precinct's code-blocks in a sub-band, which are made in `room`.
pub(crate) fn band_sizes<'a>(
    blocks: &Blocks,
    band: Band,
    number: u32,
    cut: u32,
    room: &'a mut [BlockSize; 16],
) -> BandSizes<'a>
    requires picture { IsPictureBand band }
    requires inside { number < precinct_count blocks.now.shape (resolution band) }
    requires of { (q : List ℤ) × AreCodedBlocks q cut blocks.now }
    ensures sizes { (q : List ℤ) → AreCodedBlocks q cut blocks.now
        → HasSizes result (packet_band blocks.now.shape q cut number band) }
    ensures passes { HasPassCodes result }
    ensures few { HasLengths most_bytes result }
{
    let area = area_in(blocks.shape(), band, number);
    let count = block_count(area) as usize;
    *room = block_sizes(blocks, band, number, area, cut);
    BandSizes {
        columns: area.columns as usize,
        rows: area.rows as usize,
        blocks: &room[..count],
    }
}
