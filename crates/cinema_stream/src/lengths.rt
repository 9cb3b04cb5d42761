ghost use Rattle.std.specs.Prelude.{◌≡◌, ◌<◌, ℤ, List};
ghost use Rattle.codec_laws.specs.Bounds.{IsPictureSize};
ghost use Rattle.block_packets.specs.Coded.{AreCodedBlocks};
ghost use Rattle.cinema_stream.specs.Lengths.{resolution_length};

use block_packets::{packet_length, precinct_count};
use codec_terms::Shape;
use packet_places::PrecinctAt;
use picture_blocks::Blocks;

/// How long the packets of one resolution of a component are together.
pub(crate) fn resolution_length(
    blocks: &Blocks,
    shape: Shape,
    component: u8,
    resolution: u8,
    cut: u32,
) -> u32
    requires shape { shape ≡ blocks.now.shape }
    requires size { IsPictureSize shape }
    requires component { component < 3 }
    requires resolution { resolution < 6 }
    requires coded { (q : List ℤ) × AreCodedBlocks q cut blocks.now }
    ensures { (q : List ℤ) → AreCodedBlocks q cut blocks.now
        → result ≡ resolution_length blocks.now.shape q cut component resolution }
{
    let mut length = 0;
    for number in 0..precinct_count(shape, resolution) {
        let precinct = PrecinctAt {
            component,
            resolution,
            number,
        };
        length += packet_length(blocks, precinct, cut);
    }
    length
}
