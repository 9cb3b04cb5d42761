ghost use Rattle.std.specs.Prelude.{◌≡◌, ◌<◌, ◌≤◌, Some, length};
ghost use Rattle.std.specs.List.{slice_get};
ghost use Rattle.codec_terms.specs.Bands.{resolution_bands};
ghost use Rattle.codec_terms.specs.Precincts.{resolution};

use crate::precinct::PrecinctAt;
use codec_terms::{Band, BandKind};

/// How many sub-bands a precinct's resolution has: one at resolution 0, else three.
pub fn band_count(precinct: PrecinctAt) -> usize
    ensures number { result ≡ length (resolution_bands precinct.component precinct.resolution) }
    ensures few { result ≤ 3 }
{
    if precinct.resolution == 0 { 1 } else { 3 }
}

/// A sub-band of a precinct's resolution, in the order in which packets have them.
pub fn resolution_band(precinct: PrecinctAt, i: usize) -> Band
    requires resolution { precinct.resolution < 6 }
    requires inside { i < length (resolution_bands precinct.component precinct.resolution) }
    ensures band { slice_get (resolution_bands precinct.component precinct.resolution) i ≡ Some result }
    ensures component { result.component ≡ precinct.component }
    ensures least { 1 ≤ result.level }
    ensures greatest { result.level ≤ 5 }
    ensures there { resolution result ≡ precinct.resolution }
{
    let component = precinct.component;
    if precinct.resolution == 0 {
        return Band {
            component,
            level: 5,
            kind: BandKind::LL,
        };
    }
    let kind = match i {
        0 => BandKind::HL,
        1 => BandKind::LH,
        _ => BandKind::HH,
    };
    Band {
        component,
        level: 6 - precinct.resolution,
        kind,
    }
}
