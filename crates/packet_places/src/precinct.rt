ghost use Rattle.std.specs.Prelude.{◌≡◌, ◌≤◌, ◌<◌, ◌^◌, length};
ghost use Rattle.codec_terms.specs.Precincts.{packet_order};
ghost use Rattle.codec_laws.specs.Bounds.{IsPictureSize};
ghost use Rattle.packet_places.specs.Places.{IsAt};

use band_map::{packet_at, packet_count};
use codec_terms::Shape;

/// A component's precinct, by its resolution and by its number there in raster order.
#[derive(Clone, Copy, Debug, PartialEq, Eq)]
pub struct PrecinctAt {
    pub component: u8,
    pub resolution: u8,
    pub number: u32,
}

/// How many packets a component has.
pub fn packets_of(shape: Shape) -> u32
    requires { IsPictureSize shape }
    ensures number { result ≡ length (packet_order shape) }
    ensures few { result ≤ 2 ^ 20 }
{
    packet_count(shape)
}

/// The precinct of a component's packet, counted from 0.
pub fn precinct_at(shape: Shape, component: u8, n: u32) -> PrecinctAt
    requires { n < length (packet_order shape) }
    ensures { IsAt shape component n result }
{
    match packet_at(shape, n) {
        Some((resolution, number)) => PrecinctAt {
            component,
            resolution,
            number,
        },
        None => unreachable!(),
    }
}
