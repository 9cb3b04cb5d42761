ghost use Rattle.std.specs.Prelude.{◌≡◌, ◌*◌, ◌<◌, ℕ, ℤ, List, length, All};
ghost use Rattle.codec_terms.specs.declared.picture.Shape.{Shape};
ghost use Rattle.codec_terms.specs.declared.picture.Band.{Band};
ghost use Rattle.codec_terms.specs.Quantiser.{quantised};
ghost use Rattle.codec_terms.specs.Encode.{picture_planes, wave, coefficients};
ghost use Rattle.codec_laws.specs.Bounds.{IsRowOf, IsGridOf, IsClamped, FitsBand, FitBands};

/// Each quantised value has no more bits than its sub-band has planes.
pub fn quantiser_laws()
    ensures { (band : Band) (v : ℤ) → FitsBand band (quantised band v) }
{}

/// The planes of a picture have a sample for each pixel, and the transform gives an area of the picture's size;
/// the samples of both are within the clamp.
pub fn wave_laws()
    ensures planes { (shape : Shape) (power : ℕ) (raw : List ℕ) → length raw ≡ shape.width * shape.height * 6
        → All (IsRowOf IsClamped (shape.width * shape.height)) (picture_planes power raw) }
    ensures areas { (shape : Shape) (plane : List ℤ) → 0 < shape.width → 0 < shape.height
        → length plane ≡ shape.width * shape.height → All IsClamped plane
        → IsGridOf IsClamped shape.width shape.height (wave shape plane) }
{}

/// A picture has three coefficients for each pixel, and each is within its sub-band's planes.
pub fn coefficient_laws()
    ensures count { (shape : Shape) (power : ℕ) (raw : List ℕ) → 0 < shape.width → 0 < shape.height
        → length raw ≡ shape.width * shape.height * 6
        → length (coefficients shape power raw) ≡ 3 * (shape.width * shape.height) }
    ensures bounds { (shape : Shape) (power : ℕ) (raw : List ℕ) → 0 < shape.width → 0 < shape.height
        → length raw ≡ shape.width * shape.height * 6
        → FitBands shape (coefficients shape power raw) }
{}
