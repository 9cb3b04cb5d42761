ghost use Rattle.std.specs.Prelude.{◌≡◌, ◌<◌, ◌≤◌, ◌/◌, ◌^◌, length};
ghost use Rattle.std.specs.List.{slice_get};
ghost use Rattle.std.specs.Option.{option_map};
ghost use Rattle.codec_terms.specs.Precincts.{precinct_number, packet_order};
ghost use Rattle.band_laws.specs.Places.{places_along, are_multiples, first_resolution, precinct_count};

use crate::resolutions::precincts_along;
use codec_terms::Shape;

// The corners of precincts stand in a grid of places, 256 × 256 samples each. At a place stands
// one of some resolution, and one of each above it.

// Whether a precinct of this side has a corner at column x and row y.
fn is_corner(side: u32, x: u32, y: u32) -> bool
    requires { 0 < side }
    ensures { result ≡ are_multiples side x y }
{
    x % side == 0 && y % side == 0
}

// The least resolution with a corner at column x and row y of the places.
fn least_resolution(x: u32, y: u32) -> u8
    ensures { result ≡ first_resolution x y }
{
    if is_corner(16, x, y) {
        0
    } else if is_corner(8, x, y) {
        2
    } else if is_corner(4, x, y) {
        3
    } else if is_corner(2, x, y) {
        4
    } else {
        5
    }
}

// How many places lie along a precinct's side.
fn side_of(resolution: u8) -> u32
    requires { resolution < 6 }
    ensures side { result ≡ places_along resolution }
    ensures positive { 0 < result }
{
    if resolution == 0 {
        16
    } else {
        32 >> resolution
    }
}

// The number, in raster order, of a resolution's precinct whose corner stands at column x and
// row y of the places.
fn number_at(shape: Shape, resolution: u8, x: u32, y: u32) -> u32
    requires resolution { resolution < 6 }
    requires column { x < 2 ^ 16 }
    requires row { y < 2 ^ 16 }
    ensures { result ≡ precinct_number shape resolution
        (x / places_along resolution) (y / places_along resolution) }
{
    let side = side_of(resolution);
    y / side * precincts_along(shape.width, resolution) + x / side
}

fn resolution_count(shape: Shape, resolution: u8) -> u32
    ensures number { result ≡ precinct_count shape resolution }
    ensures few { result ≤ 2 ^ 16 }
{
    precincts_along(shape.width, resolution) * precincts_along(shape.height, resolution)
}

/// The resolution and the precinct's number of a component's packet, counted from 0 (CPRL,
/// B.12.1.5), where there are more packets than that.
pub fn packet_at(shape: Shape, n: u32) -> Option<(u8, u32)>
    ensures { result
        ≡ option_map (λ p. (p.resolution, p.number)) (slice_get (packet_order shape) n) }
{
    let columns = precincts_along(shape.width, 5);
    let rows = precincts_along(shape.height, 5);
    let mut left = n;
    for place in 0..columns * rows {
        let x = place % columns;
        let y = place / columns;
        let first = least_resolution(x, y);
        let count = 6 - u32::from(first);
        if left < count {
            let resolution = first + left as u8;
            return Some((resolution, number_at(shape, resolution, x, y)));
        }
        left -= count;
    }
    None
}

/// How many packets a component has.
pub fn packet_count(shape: Shape) -> u32
    ensures { result ≡ length (packet_order shape) }
{
    let mut count = 0;
    for resolution in 0..6u8 {
        count += resolution_count(shape, resolution);
    }
    count
}
