ghost use Rattle.std.specs.Prelude.{◌≡◌, ◌<◌, ◌≤◌, ◌-◌, ◌/◌, ℕ, suc, Some, All, length};
ghost use Rattle.std.specs.List.{slice_get};
ghost use Rattle.codec_terms.specs.declared.picture.Band.{Band};
ghost use Rattle.codec_terms.specs.Bands.{kind_place, band_place, all_bands};
ghost use Rattle.codec_terms.specs.declared.picture.BandKind.TheVariants.{LL};
ghost use Rattle.band_starts.specs.Places.{IsPictureBand};

use codec_terms::{Band, BandKind};

/// A sub-band's place among those of its component, from the lowest on.
pub fn kind_place(band: Band) -> usize
    requires least { 1 ≤ band.level }
    requires greatest { band.level ≤ 5 }
    ensures place { result ≡ kind_place band.level band.kind }
    ensures few { result < 16 }
{
    let finer = 3 * usize::from(5 - band.level);
    match band.kind {
        BandKind::LL => 0,
        BandKind::HL => finer + 1,
        BandKind::LH => finer + 2,
        BandKind::HH => finer + 3,
    }
}

/// A sub-band's place among all of a picture.
pub fn band_place(band: Band) -> usize
    requires { IsPictureBand band }
    ensures place { result ≡ band_place band }
    ensures few { result < 48 }
{
    16 * usize::from(band.component) + kind_place(band)
}

// The kind of the sub-band at a place of its component behind LL.
fn kind_at(rest: usize) -> BandKind
    requires { rest < 15 }
    ensures place { kind_place (5 - rest / 3) result ≡ suc rest }
    ensures high { result ≡ LL → ⊥ }
{
    match rest % 3 {
        0 => BandKind::HL,
        1 => BandKind::LH,
        _ => BandKind::HH,
    }
}

/// The sub-band at a place among all of a picture.
pub fn band_at(place: usize) -> Band
    requires { place < 48 }
    ensures picture { IsPictureBand result }
    ensures place { band_place result ≡ place }
    ensures listed { slice_get all_bands place ≡ Some result }
{
    let component = (place / 16) as u8;
    match place % 16 {
        0 => Band {
            component,
            level: 5,
            kind: BandKind::LL,
        },
        k => Band {
            component,
            level: 5 - ((k - 1) / 3) as u8,
            kind: kind_at(k - 1),
        },
    }
}

/// The sub-bands that are listed are those of a picture, each at its own place.
pub fn place_laws()
    ensures count { length all_bands ≡ 48 }
    ensures picture { All IsPictureBand all_bands }
    ensures within { (band : Band) → IsPictureBand band → band_place band < 48 }
    ensures listed { (band : Band) → IsPictureBand band → slice_get all_bands (band_place band) ≡ Some band }
    ensures place { (band : Band) (place : ℕ) → slice_get all_bands place ≡ Some band → band_place band ≡ place }
{}
