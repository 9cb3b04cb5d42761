ghost use Rattle.std.specs.Prelude.{◌≡◌, ◌*◌, ◌≤◌, ◌<◌, ℤ, List, map};
ghost use Rattle.codec_terms.specs.Bands.{lowest_plane, resolution_bands};
ghost use Rattle.codec_terms.specs.BlockDecisions.{Block};
ghost use Rattle.codec_terms.specs.Codestream.{packet_band, packet_block};
ghost use Rattle.codec_terms.specs.Precincts.{resolution};
ghost use Rattle.band_laws.specs.Places.{precinct_count};
ghost use Rattle.band_starts.specs.Places.{IsPictureBand};
ghost use Rattle.floor_laws.specs.Floors.{codeword_floor, band_floor, packet_floor};
ghost use Rattle.block_packets.specs.Coded.{IsCodedFor, AreCodedBlocks, IsPrecinct, most_bytes};

use crate::area::{area_in, band_in, block_count, block_in};
use crate::block::block_size;
use block_coder::PartlyCoded;
use codec_terms::Band;
use packet_places::{PrecinctAt, band_count};
use packet_size::BlockSize;
use picture_blocks::Blocks;

// The least that a block's codeword can be long at a cut and at all lower ones. A block that isn't included may be empty
// there.
fn codeword_floor(block: &PartlyCoded, band: Band, cut: u32) -> u32
    requires { (b : Block) × IsCodedFor b (lowest_plane cut band) block.now }
    ensures floor { (b : Block) → IsCodedFor b (lowest_plane cut band) block.now
        → result ≡ codeword_floor (packet_block band (lowest_plane cut band) b) }
    ensures few { result ≤ most_bytes }
{
    let size = block_size(block, band, cut);
    if size.included {
        size.len.saturating_sub(1)
    } else {
        0
    }
}

// The least that the codewords of a precinct's code-blocks in a sub-band can be long together.
fn band_floor(blocks: &Blocks, band: Band, number: u32, cut: u32) -> u32
    requires picture { IsPictureBand band }
    requires inside { number < precinct_count blocks.now.shape (resolution band) }
    requires of { (q : List ℤ) × AreCodedBlocks q cut blocks.now }
    ensures floor { (q : List ℤ) → AreCodedBlocks q cut blocks.now
        → result ≡ band_floor (packet_band blocks.now.shape q cut number band) }
    ensures few { result ≤ 16 * most_bytes }
{
    let area = area_in(blocks.shape(), band, number);
    let mut floor = 0;
    for at in 0..block_count(area) {
        floor += codeword_floor(block_in(blocks, band, area, at), band, cut);
    }
    floor
}

/// The least number of bytes that a precinct's packet can have at a cut and at all lower ones, from code-blocks that are
/// coded down to what the cut keeps. It makes no header and takes no memory.
pub fn packet_floor(blocks: &Blocks, precinct: PrecinctAt, cut: u32) -> u32
    requires resolution { precinct.resolution < 6 }
    requires component { precinct.component < 3 }
    requires number { precinct.number < precinct_count blocks.now.shape precinct.resolution }
    requires of { (q : List ℤ) × AreCodedBlocks q cut blocks.now }
    ensures { (q : List ℤ) → AreCodedBlocks q cut blocks.now → result ≡ packet_floor
        (map (packet_band blocks.now.shape q cut precinct.number)
        (resolution_bands precinct.component precinct.resolution)) }
{
    let mut floor = 1;
    for i in 0..band_count(precinct) {
        floor += band_floor(blocks, band_in(precinct, i), precinct.number, cut);
    }
    floor
}
