ghost use Rattle.std.specs.Prelude.{◌≡◌, ◌++◌, ◌<◌, ℤ, List, IfOk, OnOk, map};
ghost use Rattle.codec_terms.specs.Bands.{resolution_bands};
ghost use Rattle.codec_terms.specs.Codestream.{packet_band};
ghost use Rattle.codec_terms.specs.PacketHeader.{packet};
ghost use Rattle.codec_terms.specs.Precincts.{resolution};
ghost use Rattle.band_laws.specs.Places.{precinct_count};
ghost use Rattle.band_starts.specs.Places.{IsPictureBand};
ghost use Rattle.block_packets.specs.Coded.{AreCodedBlocks, IsPrecinct};

use crate::area::{area_in, band_in, block_count, block_in};
use crate::block::packet_block;
use codec_terms::{Band, PacketBand};
use mast_base::{Bytes, List, NoMemory};
use packet_head::append_packet;
use packet_places::{PrecinctAt, band_count};
use picture_blocks::Blocks;
use std::alloc::Global;

// A precinct's code-blocks in a sub-band as a packet has them.
fn packet_band(
    alloc: Global,
    blocks: &Blocks,
    band: Band,
    number: u32,
    cut: u32,
) -> Result<PacketBand, NoMemory>
    requires picture { IsPictureBand band }
    requires inside { number < precinct_count blocks.now.shape (resolution band) }
    requires of { (q : List ℤ) × AreCodedBlocks q cut blocks.now }
    ensures { (q : List ℤ) → AreCodedBlocks q cut blocks.now
        → IfOk result (λ found. found ≡ packet_band blocks.now.shape q cut number band) }
{
    let area = area_in(blocks.shape(), band, number);
    let mut found = List::new(alloc);
    for at in 0..block_count(area) {
        let block = block_in(blocks, band, area, at);
        found.push(packet_block(alloc, block, band, cut)?)?;
    }
    Ok(PacketBand {
        columns: area.columns,
        rows: area.rows,
        blocks: found,
    })
}

// What a precinct's packet has of each sub-band.
fn precinct_bands(
    alloc: Global,
    blocks: &Blocks,
    precinct: PrecinctAt,
    cut: u32,
) -> Result<Vec<PacketBand>, NoMemory>
    requires precinct { IsPrecinct blocks.now.shape precinct }
    requires of { (q : List ℤ) × AreCodedBlocks q cut blocks.now }
    ensures { (q : List ℤ) → AreCodedBlocks q cut blocks.now → IfOk result (λ bands. bands.items
        ≡ map (packet_band blocks.now.shape q cut precinct.number)
        (resolution_bands precinct.component precinct.resolution)) }
{
    let mut bands = Vec::new(alloc);
    for i in 0..band_count(precinct) {
        let band = band_in(precinct, i);
        bands.push(packet_band(alloc, blocks, band, precinct.number, cut)?)?;
    }
    Ok(bands)
}

/// Puts a precinct's packet, of code-blocks that are coded down to what the cut keeps, behind what is in `out`. After
/// `NoMemory` a part of the packet may stand there.
pub fn push_packet(
    alloc: Global,
    blocks: &Blocks,
    precinct: PrecinctAt,
    cut: u32,
    out: &mut Bytes,
) -> Result<(), NoMemory>
    requires resolution { precinct.resolution < 6 }
    requires component { precinct.component < 3 }
    requires number { precinct.number < precinct_count blocks.now.shape precinct.resolution }
    requires of { (q : List ℤ) × AreCodedBlocks q cut blocks.now }
    ensures { OnOk result ((q : List ℤ) → AreCodedBlocks q cut blocks.now → out.new ≡ out.old ++ packet
        (map (packet_band blocks.now.shape q cut precinct.number)
        (resolution_bands precinct.component precinct.resolution))) }
{
    let bands = precinct_bands(alloc, blocks, precinct, cut)?;
    append_packet(alloc, out, &bands)
}
