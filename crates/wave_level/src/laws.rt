ghost use Rattle.std.specs.Prelude.{◌≡◌, ◌+◌, ◌*◌, ◌<◌, ◌≤◌, ℕ, ℤ, List, [], ◌∷◌, ◌++◌, length};
ghost use Rattle.codec_terms.specs.declared.picture.Shape.{Shape};
ghost use Rattle.codec_terms.specs.declared.picture.BandKind.TheVariants.{LL, HL, LH, HH};
ghost use Rattle.codec_terms.specs.Colour.{x_weights, y_weights, z_weights, xyz_plane};
ghost use Rattle.codec_terms.specs.Grid.{grid_of, items_of};
ghost use Rattle.codec_terms.specs.Wavelet.{luma, chroma_blue, chroma_red, component};
ghost use Rattle.codec_terms.specs.Encode.{wave, quantised_planes, coefficients};
ghost use Rattle.codec_laws.specs.Bounds.{IsGridOf, IsClamped};
ghost use Rattle.wave_laws.specs.Rows.{quadrant, row_at};
ghost use Rattle.dwt97.specs.Lifting.{AreBounded};
ghost use Rattle.dwt97.specs.Plane.{row_in};
ghost use Rattle.dwt97.specs.Rounds.{IsBeforeRound};
ghost use Rattle.quantiser.specs.Signed.{signed_values};
ghost use Rattle.wave_level.specs.declared.level.Level.{Level};
ghost use Rattle.wave_level.specs.Parts.{low_side, high_side, band_at, part_values};
ghost use Rattle.wave_level.specs.Component.{component_values, level_values, values_behind};
ghost use Rattle.wave_level.specs.Taken.{IsPairDone, IsTakenTo};

/// A picture's coefficients are those of its three components, one behind the other.
pub fn component_laws()
    ensures planes { (shape : Shape) (a b c : List (List ℤ))
        → quantised_planes shape (a ∷ b ∷ c ∷ [])
        ≡ component_values shape 0 a ++ (component_values shape 1 b ++ component_values shape 2 c) }
    ensures pictures { (shape : Shape) (power : ℕ) (raw : List ℕ)
        → let xs = xyz_plane power x_weights raw in
        let ys = xyz_plane power y_weights raw in
        let zs = xyz_plane power z_weights raw in
        coefficients shape power raw
        ≡ component_values shape 0 (wave shape (component luma xs ys zs))
        ++ (component_values shape 1 (wave shape (component chroma_blue xs ys zs))
        ++ component_values shape 2 (wave shape (component chroma_red xs ys zs))) }
    ensures first { (shape : Shape) (number : ℕ) (plane : List ℤ)
        → 17 ≤ shape.width → 17 ≤ shape.height → length plane ≡ shape.width * shape.height
        → component_values shape number (wave shape plane)
        ≡ values_behind number 3 (quadrant LL (grid_of shape.width shape.height plane))
        ++ level_values number 1 (grid_of shape.width shape.height plane) }
{}

/// How a level is taken apart pair by pair while its plane is made: what is there at first; more rows are made between
/// two rounds; what a round leaves for `take_pair`; what is there when all rows are taken.
pub fn pair_laws()
    ensures begun { (level : Level) (area : List (List ℤ)) (low : List ℤ) (hl lh hh : List ℕ)
        → IsTakenTo level 0 area low hl lh hh }
    ensures made { (area : List (List ℤ)) (columns made more j : ℕ) (plane next : List ℤ) → 2 * j + 2 ≤ made
        → ((y : ℕ) → y < made → row_in columns next y ≡ row_in columns plane y)
        → ((y : ℕ) → made ≤ y → y < more → row_in columns next y ≡ row_at area y)
        → IsBeforeRound j area columns made plane → IsBeforeRound j area columns more next }
    ensures done { (area : List (List ℤ)) (columns rows made j : ℕ) (plane : List ℤ)
        → 2 * j < made → (2 * j + 1 < rows → 2 * j + 1 < made)
        → IsBeforeRound (j + 1) area columns made plane → IsPairDone j area columns rows plane }
    ensures even { (columns rows j : ℕ) (area : List (List ℤ)) (plane : List ℤ) → 2 ≤ rows
        → IsGridOf IsClamped columns rows area → IsPairDone j area columns rows plane
        → AreBounded 300000000 (row_in columns plane (2 * j)) }
    ensures odd { (columns rows j : ℕ) (area : List (List ℤ)) (plane : List ℤ) → 2 ≤ rows
        → IsGridOf IsClamped columns rows area → IsPairDone j area columns rows plane
        → 2 * j + 1 < rows → AreBounded 200000000 (row_in columns plane (2 * j + 1)) }
    ensures low { (level : Level) (j : ℕ) (area : List (List ℤ)) (low : List ℤ) (hl lh hh : List ℕ)
        → IsGridOf IsClamped level.columns level.rows area → low_side level.rows ≤ j
        → length low ≡ low_side level.rows * low_side level.columns → IsTakenTo level j area low hl lh hh
        → low ≡ items_of (quadrant LL area) }
    ensures hl { (level : Level) (j : ℕ) (area : List (List ℤ)) (low : List ℤ) (hl lh hh : List ℕ)
        → IsGridOf IsClamped level.columns level.rows area → low_side level.rows ≤ j
        → length hl ≡ low_side level.rows * high_side level.columns → IsTakenTo level j area low hl lh hh
        → signed_values hl ≡ part_values (band_at level HL) area }
    ensures lh { (level : Level) (j : ℕ) (area : List (List ℤ)) (low : List ℤ) (hl lh hh : List ℕ)
        → IsGridOf IsClamped level.columns level.rows area → low_side level.rows ≤ j
        → length lh ≡ high_side level.rows * low_side level.columns → IsTakenTo level j area low hl lh hh
        → signed_values lh ≡ part_values (band_at level LH) area }
    ensures hh { (level : Level) (j : ℕ) (area : List (List ℤ)) (low : List ℤ) (hl lh hh : List ℕ)
        → IsGridOf IsClamped level.columns level.rows area → low_side level.rows ≤ j
        → length hh ≡ high_side level.rows * high_side level.columns → IsTakenTo level j area low hl lh hh
        → signed_values hh ≡ part_values (band_at level HH) area }
{}
