ghost use Rattle.std.specs.Prelude.{◌≡◌, ◌<◌, ℤ, List, length, map};
ghost use Rattle.codec_terms.specs.Bands.{resolution_bands};
ghost use Rattle.codec_terms.specs.Codestream.{packet_band};
ghost use Rattle.codec_terms.specs.PacketHeader.{packet};
ghost use Rattle.band_laws.specs.Places.{precinct_count};
ghost use Rattle.block_packets.specs.Coded.{AreCodedBlocks, IsPrecinct};

use crate::area::band_in;
use crate::block::ABSENT;
use crate::sizes::band_sizes;
use packet_places::PrecinctAt;
use packet_size::packet_size;
use picture_blocks::Blocks;

// The number of bytes of a packet of resolution 0, which has one sub-band.
fn length_of_one(blocks: &Blocks, precinct: PrecinctAt, cut: u32) -> u32
    requires precinct { IsPrecinct blocks.now.shape precinct }
    requires one { length (resolution_bands precinct.component precinct.resolution) ≡ 1 }
    requires of { (q : List ℤ) × AreCodedBlocks q cut blocks.now }
    ensures { (q : List ℤ) → AreCodedBlocks q cut blocks.now → result ≡ length (packet
        (map (packet_band blocks.now.shape q cut precinct.number)
        (resolution_bands precinct.component precinct.resolution))) }
{
    let number = precinct.number;
    let mut room = [ABSENT; 16];
    let sizes = [band_sizes(blocks, band_in(precinct, 0), number, cut, &mut room)];
    packet_size(&sizes) as u32
}

// The number of bytes of a packet of another resolution, which has three.
fn length_of_three(blocks: &Blocks, precinct: PrecinctAt, cut: u32) -> u32
    requires precinct { IsPrecinct blocks.now.shape precinct }
    requires three { length (resolution_bands precinct.component precinct.resolution) ≡ 3 }
    requires of { (q : List ℤ) × AreCodedBlocks q cut blocks.now }
    ensures { (q : List ℤ) → AreCodedBlocks q cut blocks.now → result ≡ length (packet
        (map (packet_band blocks.now.shape q cut precinct.number)
        (resolution_bands precinct.component precinct.resolution))) }
{
    let number = precinct.number;
    let (mut first, mut second, mut third) = ([ABSENT; 16], [ABSENT; 16], [ABSENT; 16]);
    let sizes = [
        band_sizes(blocks, band_in(precinct, 0), number, cut, &mut first),
        band_sizes(blocks, band_in(precinct, 1), number, cut, &mut second),
        band_sizes(blocks, band_in(precinct, 2), number, cut, &mut third),
    ];
    packet_size(&sizes) as u32
}

/// The number of bytes of a precinct's packet of code-blocks that are coded down to what the cut keeps. It takes no
/// memory.
pub fn packet_length(blocks: &Blocks, precinct: PrecinctAt, cut: u32) -> u32
    requires resolution { precinct.resolution < 6 }
    requires component { precinct.component < 3 }
    requires number { precinct.number < precinct_count blocks.now.shape precinct.resolution }
    requires of { (q : List ℤ) × AreCodedBlocks q cut blocks.now }
    ensures { (q : List ℤ) → AreCodedBlocks q cut blocks.now → result ≡ length (packet
        (map (packet_band blocks.now.shape q cut precinct.number)
        (resolution_bands precinct.component precinct.resolution))) }
{
    if precinct.resolution == 0 {
        length_of_one(blocks, precinct, cut)
    } else {
        length_of_three(blocks, precinct, cut)
    }
}
