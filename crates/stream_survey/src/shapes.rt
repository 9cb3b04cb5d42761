ghost use Rattle.std.specs.Prelude.{◌≡◌, ◌≤◌, ◌<◌, All, length, take};
ghost use Rattle.codec_terms.specs.Bands.{kind_place, resolution_bands};
ghost use Rattle.codec_terms.specs.Precincts.{resolution};
ghost use Rattle.codec_terms.specs.StreamReading.{band_shape};
ghost use Rattle.band_laws.specs.Places.{precinct_count};
ghost use Rattle.packet_scan.specs.Scanning.{IsSmallShape};
ghost use Rattle.stream_survey.specs.Shapes.{shapes_at};

use band_map::blocks_of;
use codec_terms::{Band, BandKind, BandShape, MainHead};
use packet_places::{PrecinctAt, band_count, resolution_band};

// The place of a sub-band's number of bit-planes in the main header.
fn kind_place(band: Band) -> usize
    requires least { 1 ≤ band.level }
    requires greatest { band.level ≤ 5 }
    ensures place { result ≡ kind_place band.level band.kind }
    ensures few { result < 16 }
{
    let finer = 3 * usize::from(5 - band.level);
    match band.kind {
        BandKind::LL => 0,
        BandKind::HL => finer + 1,
        BandKind::LH => finer + 2,
        BandKind::HH => finer + 3,
    }
}

// What is known of a sub-band in a precinct before the packet is read.
fn band_shape(head: &MainHead, band: Band, precinct: u32) -> BandShape
    requires least { 1 ≤ band.level }
    requires greatest { band.level ≤ 5 }
    requires inside { precinct < precinct_count head.now.shape (resolution band) }
    ensures shape { result ≡ band_shape head.now precinct band }
    ensures small { IsSmallShape result }
{
    let area = blocks_of(head.shape, band, precinct);
    BandShape {
        columns: area.columns,
        rows: area.rows,
        mb: head.mb[kind_place(band)],
    }
}

/// What is known of a precinct's sub-bands before its packet is read. At resolution 0 only the first one counts.
pub(crate) fn precinct_shapes(head: &MainHead, precinct: PrecinctAt) -> [BandShape; 3]
    requires resolution { precinct.resolution < 6 }
    requires inside { precinct.number < precinct_count head.now.shape precinct.resolution }
    ensures shapes { take (length (resolution_bands precinct.component precinct.resolution)) result
        ≡ shapes_at head.now precinct }
    ensures small { All IsSmallShape result }
{
    let mut shapes = [BandShape {
        columns: 0,
        rows: 0,
        mb: 0,
    }; 3];
    for i in 0..band_count(precinct) {
        let band = resolution_band(precinct, i);
        shapes[i] = band_shape(head, band, precinct.number);
    }
    shapes
}
