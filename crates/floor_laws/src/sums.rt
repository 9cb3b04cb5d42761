ghost use Rattle.std.specs.Prelude.{◌≡◌, ◌≤◌, ◌<◌, ◌+◌, ◌^◌, ℕ, suc, ℤ, false, List};
ghost use Rattle.codec_terms.specs.declared.picture.Shape.{Shape};
ghost use Rattle.codec_terms.specs.Precincts.{Precinct};
ghost use Rattle.codec_laws.specs.Bounds.{IsPictureSize, FitBands};
ghost use Rattle.cut_laws.specs.Ranks.{is_changed};
ghost use Rattle.floor_laws.specs.Floors.{precinct_floor, resolution_floor, part_floor, stream_floor};

/// A tile-part's floor by those of its six resolutions, which may be kept and summed up anew when one of them changes.
pub fn floor_sum_laws()
    ensures { (shape : Shape) (q : List ℤ) (cut component : ℕ)
        → part_floor shape q cut component
        ≡ 14 + resolution_floor shape q cut component 0 + resolution_floor shape q cut component 1
        + resolution_floor shape q cut component 2 + resolution_floor shape q cut component 3
        + resolution_floor shape q cut component 4 + resolution_floor shape q cut component 5 }
{}

/// From a cut to the next one the floors stay the same of each component and resolution but one.
pub fn next_floor_laws()
    ensures packet { (shape : Shape) (q : List ℤ) (cut component : ℕ) (precinct : Precinct) → component < 3
        → precinct.resolution < 6 → is_changed cut component precinct.resolution ≡ false
        → precinct_floor shape q (suc cut) component precinct ≡ precinct_floor shape q cut component precinct }
    ensures resolution { (shape : Shape) (q : List ℤ) (cut component r : ℕ) → component < 3 → r < 6
        → is_changed cut component r ≡ false
        → resolution_floor shape q (suc cut) component r ≡ resolution_floor shape q cut component r }
{}

/// All floors fit 32 bits.
pub fn floor_bound_laws()
    ensures packet { (shape : Shape) (q : List ℤ) (cut component : ℕ) (precinct : Precinct) → FitBands shape q
        → component < 3 → precinct.resolution < 6 → precinct_floor shape q cut component precinct < 2 ^ 24 }
    ensures resolution { (shape : Shape) (q : List ℤ) (cut component r : ℕ) → IsPictureSize shape → FitBands shape q
        → component < 3 → r < 6 → resolution_floor shape q cut component r < 2 ^ 30 }
    ensures part { (shape : Shape) (q : List ℤ) (cut component : ℕ) → IsPictureSize shape → FitBands shape q
        → component < 3 → part_floor shape q cut component < 2 ^ 30 }
    ensures stream { (shape : Shape) (q : List ℤ) (cut : ℕ) → IsPictureSize shape → FitBands shape q
        → stream_floor shape q cut < 2 ^ 32 }
{}
