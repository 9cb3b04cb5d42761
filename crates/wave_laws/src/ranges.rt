ghost use Rattle.std.specs.Prelude.{◌≡◌, ◌<◌, ◌≤◌, ◌*◌, ◌^◌, ◌%◌, ℕ, ℤ, List, All, length};
ghost use Rattle.codec_terms.specs.Grid.{grid_of};
ghost use Rattle.codec_terms.specs.Wavelet.{shifted, luma, chroma_blue, chroma_red};
ghost use Rattle.codec_terms.specs.Wavelet.{even_samples, odd_samples};
ghost use Rattle.codec_terms.specs.Encode.{component_planes, picture_planes};
ghost use Rattle.codec_laws.specs.Bounds.{IsGridOf};
ghost use Rattle.wave_laws.specs.Rows.{row_after, low_rows, high_rows, columns_transformed};
ghost use Rattle.wave_laws.specs.Rows.{odd_once, even_once, odd_twice, even_twice};
ghost use Rattle.wave_laws.specs.Rows.{low_samples, high_samples};
ghost use Rattle.wave_laws.specs.Ranges.{IsWithin, IsAtMost, HasRoom, after_columns};
ghost use Rattle.wave_laws.specs.Ranges.{line_limit, AreHalvesWithin, HaveRoom};

/// The samples of components: of code values of 12 bits, and of any picture.
pub fn component_bound_laws()
    ensures luma { (x y z : ℕ) → x < 4096 → y < 4096 → z < 4096
        → IsWithin (2 ^ 24) (luma (shifted x) (shifted y) (shifted z)) }
    ensures blue { (x y z : ℕ) → x < 4096 → y < 4096 → z < 4096
        → IsWithin (2 ^ 24) (chroma_blue (shifted x) (shifted y) (shifted z)) }
    ensures red { (x y z : ℕ) → x < 4096 → y < 4096 → z < 4096
        → IsWithin (2 ^ 24) (chroma_red (shifted x) (shifted y) (shifted z)) }
    ensures planes { (xs ys zs : List ℕ)
        → All (λ n. n < 4096) xs → All (λ n. n < 4096) ys → All (λ n. n < 4096) zs
        → All (All (IsWithin (2 ^ 24))) (component_planes xs ys zs) }
    ensures pictures { (power : ℕ) (raw : List ℕ)
        → All (All (IsWithin (2 ^ 24))) (picture_planes power raw) }
{}

/// What all samples are within holds of those of rows, and of even and odd ones.
pub fn within_laws()
    ensures rows { (m columns rows : ℕ) (plane : List ℤ) → length plane ≡ rows * columns
        → All (IsWithin m) plane
        → IsGridOf (IsWithin m) columns rows (grid_of columns rows plane) }
    ensures halves { (m : ℕ) (line : List ℤ) → All (IsWithin m) line
        → AreHalvesWithin m (even_samples line) (odd_samples line) }
{}

/// How great the samples of rows within m become by each step of all columns, in thousandths of m.
pub fn row_bound_laws()
    ensures first { (m columns n : ℕ) (rows : List (List ℤ)) (i : ℕ) → 4096 ≤ m → 2 ≤ n
        → IsGridOf (IsWithin m) columns n rows → i % 2 ≡ 1
        → All (IsAtMost 4173 m) (row_after 1 rows i) }
    ensures second { (m columns n : ℕ) (rows : List (List ℤ)) (i : ℕ) → 4096 ≤ m → 2 ≤ n
        → IsGridOf (IsWithin m) columns n rows → i % 2 ≡ 0
        → All (IsAtMost 1443 m) (row_after 2 rows i) }
    ensures third { (m columns n : ℕ) (rows : List (List ℤ)) (i : ℕ) → 4096 ≤ m → 2 ≤ n
        → IsGridOf (IsWithin m) columns n rows → i % 2 ≡ 1
        → All (IsAtMost 2111 m) (row_after 3 rows i) }
    ensures fourth { (m columns n : ℕ) (rows : List (List ℤ)) (i : ℕ) → 4096 ≤ m → 2 ≤ n
        → IsGridOf (IsWithin m) columns n rows → i % 2 ≡ 0
        → All (IsAtMost 3316 m) (row_after 4 rows i) }
    ensures low { (m columns n : ℕ) (rows : List (List ℤ)) → 4096 ≤ m → 2 ≤ n
        → IsGridOf (IsWithin m) columns n rows → All (All (IsAtMost 2696 m)) (low_rows rows) }
    ensures high { (m columns n : ℕ) (rows : List (List ℤ)) → 4096 ≤ m → 2 ≤ n
        → IsGridOf (IsWithin m) columns n rows → All (All (IsAtMost 2598 m)) (high_rows rows) }
    ensures both { (m columns n : ℕ) (rows : List (List ℤ)) → 4096 ≤ m → 2 ≤ n
        → IsGridOf (IsWithin m) columns n rows
        → All (All (IsWithin (after_columns m))) (columns_transformed rows) }
{}

/// The same of a line whose samples are within m.
pub fn line_bound_laws()
    ensures first { (m : ℕ) (even odd : List ℤ) → 4096 ≤ m → AreHalvesWithin m even odd
        → All (IsAtMost 4173 m) (odd_once even odd) }
    ensures second { (m : ℕ) (even odd : List ℤ) → 4096 ≤ m → AreHalvesWithin m even odd
        → All (IsAtMost 1443 m) (even_once even odd) }
    ensures third { (m : ℕ) (even odd : List ℤ) → 4096 ≤ m → AreHalvesWithin m even odd
        → All (IsAtMost 2111 m) (odd_twice even odd) }
    ensures fourth { (m : ℕ) (even odd : List ℤ) → 4096 ≤ m → AreHalvesWithin m even odd
        → All (IsAtMost 3316 m) (even_twice even odd) }
    ensures low { (m : ℕ) (even odd : List ℤ) → 4096 ≤ m → AreHalvesWithin m even odd
        → All (IsAtMost 2696 m) (low_samples even odd) }
    ensures high { (m : ℕ) (even odd : List ℤ) → 4096 ≤ m → AreHalvesWithin m even odd
        → All (IsAtMost 2598 m) (high_samples even odd) }
{}

/// 32 bits are enough at all levels: where an area's samples are within the clamp, the sum of two that a
/// step leaves fits, down the columns and across.
pub fn room_laws()
    ensures columns { (columns n : ℕ) (rows : List (List ℤ)) (s i : ℕ) → 2 ≤ n
        → IsGridOf (IsWithin (2 ^ 26)) columns n rows → s ≤ 4 → All HasRoom (row_after s rows i) }
    ensures lines { (even odd : List ℤ) → AreHalvesWithin line_limit even odd → HaveRoom even odd }
    ensures limit { after_columns (2 ^ 26) ≤ line_limit }
{}
