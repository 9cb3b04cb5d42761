ghost use Rattle.std.specs.Prelude.{◌≡◌, ◌<◌, ◌^◌, ℕ, ℤ, List};
ghost use Rattle.codec_terms.specs.declared.picture.Shape.{Shape};
ghost use Rattle.codec_laws.specs.Bounds.{IsPictureSize, FitBands};
ghost use Rattle.floor_laws.specs.Floors.{part_floor};
ghost use Rattle.cut_floors.specs.Books.{HasFloors};

use floor_laws::{floor_bound_laws, floor_sum_laws};

/// The floor of a component's tile-part, from those of its resolutions.
pub(crate) fn part_floor(packets: &[u32; 18], component: usize) -> u32
    requires component { component < 3 }
    requires of { (shape : Shape) × (q : List ℤ) × (cut : ℕ)
        × (IsPictureSize shape × FitBands shape q × HasFloors shape q cut packets.now) }
    ensures floor { (shape : Shape) (q : List ℤ) (cut : ℕ) → HasFloors shape q cut packets.now
        → result ≡ part_floor shape q cut component }
    ensures few { result < 2 ^ 30 }
{
    floor_sum_laws();
    floor_bound_laws();
    let first = 6 * component;
    14 + packets[first]
        + packets[first + 1]
        + packets[first + 2]
        + packets[first + 3]
        + packets[first + 4]
        + packets[first + 5]
}
