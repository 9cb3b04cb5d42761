ghost use Rattle.std.specs.Prelude.{◌≡◌, ◌<◌};
ghost use Rattle.band_starts.specs.Places.{IsPictureBand};
ghost use Rattle.cut_laws.specs.Ranks.{band_at_rank, high_kind};

use codec_terms::{Band, BandKind};
use cut_laws::rank_laws;

// The kind of the sub-bands that are at this place among the three of a level.
fn high_kind(place: u32) -> BandKind
    ensures { result ≡ high_kind place }
{
    match place {
        0 => BandKind::HH,
        1 => BandKind::HL,
        _ => BandKind::LH,
    }
}

/// The sub-band of a rank: the one of which the cuts with that rest by 48 keep a bit-plane more than the cut above them.
pub fn band_at_rank(rank: u32) -> Band
    requires { rank < 48 }
    ensures band { result ≡ band_at_rank rank }
    ensures picture { IsPictureBand result }
{
    rank_laws();
    let component = ((rank + 1) % 3) as u8;
    if rank < 45 {
        Band {
            component,
            level: (rank / 9 + 1) as u8,
            kind: high_kind(rank % 9 / 3),
        }
    } else {
        Band {
            component,
            level: 5,
            kind: BandKind::LL,
        }
    }
}
