ghost use Rattle.std.specs.Prelude.{◌≡◌, ◌≤◌, Bool};
ghost use Rattle.codec_terms.specs.Bands.{band_side, band_columns, band_rows};
ghost use Rattle.codec_terms.specs.Precincts.{resolution};

use codec_terms::{Band, BandKind, Shape};

// The low or the high part of a line of samples, at a level.
fn part(samples: u16, level: u8, high: bool) -> u32
    requires least { 1 ≤ level }
    requires greatest { level ≤ 5 }
    ensures { result ≡ band_side samples level high }
{
    let half = 1u32 << (level - 1);
    let samples = u32::from(samples);
    let rest = if high {
        samples.saturating_sub(half)
    } else {
        samples
    };
    rest.div_ceil(2 * half)
}

/// A sub-band's columns and rows (equation B-15).
pub fn band_size(shape: Shape, band: Band) -> (u32, u32)
    requires least { 1 ≤ band.level }
    requires greatest { band.level ≤ 5 }
    ensures columns { result.0 ≡ band_columns shape band }
    ensures rows { result.1 ≡ band_rows shape band }
{
    let (high_in_rows, high_in_columns) = match band.kind {
        BandKind::LL => (false, false),
        BandKind::HL => (true, false),
        BandKind::LH => (false, true),
        BandKind::HH => (true, true),
    };
    (
        part(shape.width, band.level, high_in_rows),
        part(shape.height, band.level, high_in_columns),
    )
}

/// The resolution that a sub-band belongs to: 0 for LL, and 5 for the finest.
pub fn resolution_of(band: Band) -> u8
    ensures { result ≡ resolution band }
{
    match band.kind {
        BandKind::LL => 0,
        _ => 6u8.saturating_sub(band.level),
    }
}
