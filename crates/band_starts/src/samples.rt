ghost use Rattle.std.specs.Prelude.{◌≡◌, ◌+◌, ◌*◌, ◌^◌, ◌<◌, ◌≤◌, suc, take, sum_by};
ghost use Rattle.codec_terms.specs.declared.picture.Shape.{Shape};
ghost use Rattle.codec_terms.specs.declared.picture.Band.{Band};
ghost use Rattle.codec_terms.specs.Bands.{band_of, band_length, band_start, band_place, component_bands, all_bands, kind_place};
ghost use Rattle.band_starts.specs.Places.{IsPictureBand};

use band_map::band_size;
use codec_terms::{Band, BandKind, Shape};

/// How many samples a picture has, in each of its components.
pub fn picture_area(shape: Shape) -> usize
    ensures area { result ≡ shape.width * shape.height }
    ensures within { result < 2 ^ 32 }
{
    usize::from(shape.width) * usize::from(shape.height)
}

// How many samples the sub-band of another kind has at the same level.
fn length_of(shape: Shape, band: Band, kind: BandKind) -> usize
    requires least { 1 ≤ band.level }
    requires greatest { band.level ≤ 5 }
    ensures length { result ≡ band_length shape (band_of band.component band.level kind) }
    ensures within { result ≤ shape.width * shape.height }
{
    let (columns, rows) = band_size(shape, Band { kind, ..band });
    columns as usize * rows as usize
}

/// How many samples a sub-band has.
pub fn band_length(shape: Shape, band: Band) -> usize
    requires least { 1 ≤ band.level }
    requires greatest { band.level ≤ 5 }
    ensures length { result ≡ band_length shape band }
    ensures within { result ≤ shape.width * shape.height }
{
    length_of(shape, band, band.kind)
}

// How many samples of a component stand before a sub-band. Those of the levels behind its own are as many as LL of its
// own level would have.
fn samples_before(shape: Shape, band: Band) -> usize
    requires least { 1 ≤ band.level }
    requires greatest { band.level ≤ 5 }
    ensures { result
        ≡ sum_by (band_length shape) (take (kind_place band.level band.kind) (component_bands band.component)) }
{
    let low = length_of(shape, band, BandKind::LL);
    match band.kind {
        BandKind::LL => 0,
        BandKind::HL => low,
        BandKind::LH => low + length_of(shape, band, BandKind::HL),
        BandKind::HH => {
            low + length_of(shape, band, BandKind::HL) + length_of(shape, band, BandKind::LH)
        }
    }
}

/// Where a sub-band's samples begin among all of a picture.
pub fn band_start(shape: Shape, band: Band) -> usize
    requires { IsPictureBand band }
    ensures start { result ≡ band_start shape band }
    ensures within { result + band_length shape band ≤ 3 * (shape.width * shape.height) }
{
    usize::from(band.component) * picture_area(shape) + samples_before(shape, band)
}

/// The samples of a picture are those of its sub-bands, one behind the other.
pub fn sample_laws()
    ensures total { (shape : Shape) → sum_by (band_length shape) all_bands ≡ 3 * (shape.width * shape.height) }
    ensures within { (shape : Shape) (band : Band) → IsPictureBand band
        → band_start shape band + band_length shape band ≤ 3 * (shape.width * shape.height) }
    ensures next { (shape : Shape) (band next : Band) → IsPictureBand band
        → band_place next ≡ suc (band_place band)
        → band_start shape next ≡ band_start shape band + band_length shape band }
{}
