ghost use Rattle.std.specs.Prelude.{◌≡◌, ◌≤◌, ◌<◌};
ghost use Rattle.codec_terms.specs.declared.picture.BandKind.TheVariants.{HH};
ghost use Rattle.codec_terms.specs.Bands.{component_rank, exponent_at, kind_rank, lowest_plane, plane_limit, rank};

use codec_terms::{Band, BandKind};

// Components 1 and 2 come before component 0.
fn component_rank(component: u8) -> u32
    ensures rank { result ≡ component_rank component }
    ensures few { result < 256 }
{
    match component {
        0 => 2,
        n => u32::from(n) - 1,
    }
}

// The place of a kind of sub-band among those of a level.
fn kind_rank(kind: BandKind) -> u32
    ensures rank { result ≡ kind_rank kind }
    ensures few { result ≤ 2 }
{
    match kind {
        BandKind::LL | BandKind::HH => 0,
        BandKind::HL => 1,
        BandKind::LH => 2,
    }
}

/// A sub-band's place, from 0 to 47, in the order in which cuts take a bit-plane away.
pub fn rank(band: Band) -> u32
    ensures { result ≡ rank band }
{
    let component = component_rank(band.component);
    match band.kind {
        BandKind::LL => 45 + component,
        kind => 9 * u32::from(band.level).saturating_sub(1) + 3 * kind_rank(kind) + component,
    }
}

/// The lowest bit-plane that a cut keeps of a sub-band.
pub fn lowest_plane(cut: u32, band: Band) -> u32
    ensures { result ≡ lowest_plane cut band }
{
    cut / 48 + u32::from(rank(band) < cut % 48)
}

// The bit-planes of a sub-band that isn't LL.
fn exponent_of_level(level: u8) -> u8
    ensures { result ≡ exponent_at level HH }
{
    match level {
        0 | 1 => 12,
        2 | 3 => 13,
        4 => 14,
        _ => 15,
    }
}

/// The number of bit-planes that a sub-band's values have room in.
pub fn plane_limit(band: Band) -> u8
    ensures { result ≡ plane_limit band }
{
    match band.kind {
        BandKind::LL => 14,
        _ => exponent_of_level(band.level),
    }
}
