ghost use Rattle.std.specs.Prelude.{◌≡◌, ◌<◌};
ghost use Rattle.band_laws.specs.Places.{precinct_count};
ghost use Rattle.block_packets.specs.Changes.{place_changed};

use band_map::precincts;
use codec_terms::Shape;

/// How many precincts, and so packets of each component, a resolution has.
pub fn precinct_count(shape: Shape, resolution: u8) -> u32
    ensures { result ≡ precinct_count shape resolution }
{
    let (columns, rows) = precincts(shape, resolution);
    columns * rows
}

/// The place, six for each component, of the resolution whose packets change from a cut to the next one: that of the one
/// sub-band of which a bit-plane more is left out.
pub fn place_changed(cut: u32) -> u8
    ensures place { result ≡ place_changed cut }
    ensures inside { result < 18 }
{
    let rank = cut % 48;
    let component = (rank + 1) % 3;
    let resolution = if rank < 45 { 5 - rank / 9 } else { 0 };
    (6 * component + resolution) as u8
}
