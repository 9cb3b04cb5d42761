ghost use Rattle.std.specs.Prelude.{◌≡◌, ◌<◌, ◌≤◌, ◌*◌, ◌^◌, suc, ℕ, ℤ, List, [], All};
ghost use Rattle.std.specs.Prelude.{length, map, slice_index_or};
ghost use Rattle.std.specs.Int.{div_ceil};
ghost use Rattle.codec_terms.specs.declared.picture.Shape.{Shape};
ghost use Rattle.codec_terms.specs.declared.picture.Band.{Band};
ghost use Rattle.codec_terms.specs.declared.picture.BandKind.TheVariants.{LL};
ghost use Rattle.codec_terms.specs.Grid.{items_of};
ghost use Rattle.codec_terms.specs.Bands.{band_columns, band_rows, all_bands};
ghost use Rattle.codec_terms.specs.Quantiser.{quantised};
ghost use Rattle.codec_terms.specs.Encode.{wave, band_part, quantised_band};
ghost use Rattle.codec_laws.specs.Bounds.{IsGridOf, IsClamped};
ghost use Rattle.wave_laws.specs.Rows.{quadrant, low_area};
ghost use Rattle.wave_laws.specs.SubBands.{IsSubBand, area_after, band_grid};

/// Each sub-band after five levels is a part of what its level makes of the low-low area before it, and is
/// quantised row by row.
pub fn sub_band_laws()
    ensures part { (shape : Shape) (plane : List ℤ) (band : Band)
        → 17 ≤ shape.width → 17 ≤ shape.height → length plane ≡ shape.width * shape.height
        → IsSubBand band
        → band_part shape (wave shape plane) band ≡ items_of (band_grid shape plane band) }
    ensures quantised { (shape : Shape) (planes : List (List ℤ)) (band : Band)
        → 17 ≤ shape.width → 17 ≤ shape.height → band.component < length planes
        → length (slice_index_or planes band.component []) ≡ shape.width * shape.height
        → IsSubBand band
        → quantised_band shape (map (wave shape) planes) band
        ≡ map (quantised band)
        (items_of (band_grid shape (slice_index_or planes band.component []) band)) }
    ensures rows { (band : Band) (grid : List (List ℤ))
        → map (quantised band) (items_of grid) ≡ items_of (map (map (quantised band)) grid) }
    ensures all { All IsSubBand all_bands }
{}

/// The sizes of sub-bands and of low-low areas, all samples of which are clamped. Each low-low area is
/// made of the one before.
pub fn area_laws()
    ensures start { (area : List (List ℤ)) → low_area 0 area ≡ area }
    ensures next { (n : ℕ) (area : List (List ℤ))
        → low_area (suc n) area ≡ quadrant LL (low_area n area) }
    ensures bands { (shape : Shape) (plane : List ℤ) (band : Band)
        → length plane ≡ shape.width * shape.height → IsSubBand band
        → IsGridOf IsClamped (band_columns shape band) (band_rows shape band)
        (band_grid shape plane band) }
    ensures areas { (n : ℕ) (shape : Shape) (plane : List ℤ) → n ≤ 5
        → length plane ≡ shape.width * shape.height → All IsClamped plane
        → IsGridOf IsClamped (div_ceil shape.width (2 ^ n)) (div_ceil shape.height (2 ^ n))
        (area_after n shape plane) }
{}
