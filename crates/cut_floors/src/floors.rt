ghost use Rattle.std.specs.Prelude.{◌≡◌, ◌<◌, ℤ, List};
ghost use Rattle.codec_laws.specs.Bounds.{IsPictureSize};
ghost use Rattle.block_packets.specs.Coded.{AreCodedBlocks};
ghost use Rattle.floor_laws.specs.Floors.{resolution_floor};
ghost use Rattle.cut_floors.specs.Books.{HasFloors};

use block_packets::{packet_floor, precinct_count};
use codec_terms::Shape;
use floor_laws::floor_bound_laws;
use packet_places::PrecinctAt;
use picture_blocks::Blocks;

/// The floors of the packets of one resolution of a component together.
pub(crate) fn resolution_floor(
    blocks: &Blocks,
    shape: Shape,
    component: u8,
    resolution: u8,
    cut: u32,
) -> u32
    requires shape { shape ≡ blocks.now.shape }
    requires size { IsPictureSize shape }
    requires component { component < 3 }
    requires resolution { resolution < 6 }
    requires coded { (q : List ℤ) × AreCodedBlocks q cut blocks.now }
    ensures { (q : List ℤ) → AreCodedBlocks q cut blocks.now
        → result ≡ resolution_floor blocks.now.shape q cut component resolution }
{
    floor_bound_laws();
    let mut floor = 0;
    for number in 0..precinct_count(shape, resolution) {
        let precinct = PrecinctAt {
            component,
            resolution,
            number,
        };
        floor += packet_floor(blocks, precinct, cut);
    }
    floor
}

/// The floors of each resolution of each component.
pub(crate) fn all_floors(blocks: &Blocks, shape: Shape, cut: u32) -> [u32; 18]
    requires shape { shape ≡ blocks.now.shape }
    requires size { IsPictureSize shape }
    requires of { (q : List ℤ) × AreCodedBlocks q cut blocks.now }
    ensures { (q : List ℤ) → AreCodedBlocks q cut blocks.now → HasFloors blocks.now.shape q cut result }
{
    let mut packets = [0; 18];
    for place in 0..18u8 {
        packets[place as usize] = resolution_floor(blocks, shape, place / 6, place % 6, cut);
    }
    packets
}
