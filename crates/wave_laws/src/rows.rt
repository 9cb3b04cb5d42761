ghost use Rattle.std.specs.Prelude.{◌≡◌, ◌<◌, ◌≤◌, ◌+◌, ◌*◌, ◌/◌, ◌-◌, ◌%◌, suc, ℕ, ℤ};
ghost use Rattle.std.specs.Prelude.{List, ◌++◌, length, map};
ghost use Rattle.codec_terms.specs.declared.picture.BandKind.TheVariants.{LL, HL, LH, HH};
ghost use Rattle.codec_terms.specs.Wavelet.{place_before, place_behind, low_count, level};
ghost use Rattle.codec_laws.specs.Bounds.{IsGridOf, IsClamped};
ghost use Rattle.wave_laws.specs.Rows.{HasColumns, step_factor, low_factor, high_factor};
ghost use Rattle.wave_laws.specs.Rows.{lifted_row, scaled_row, row_at, row_after};
ghost use Rattle.wave_laws.specs.Rows.{columns_transformed, finished_row, low_half, high_half};
ghost use Rattle.wave_laws.specs.Rows.{quadrant};

/// The row above a row and the one below it, reflected at the first and at the last of n rows.
pub fn neighbour_laws()
    ensures above { (i : ℕ) → place_before (suc i) ≡ i }
    ensures above_first { place_before 0 ≡ 1 }
    ensures below { (n i : ℕ) → suc i < n → place_behind n i ≡ suc i }
    ensures below_last { (n i : ℕ) → suc i ≡ n → place_behind n i ≡ n - 2 }
{}

/// What each row is after each lifting step of all columns: of itself and of its neighbours, which have
/// had the steps before it. Odd rows have steps 1 and 3, and even ones steps 2 and 4.
pub fn row_laws()
    ensures first { (rows : List (List ℤ)) (i : ℕ) → i < length rows → i % 2 ≡ 1
        → row_after 1 rows i ≡ lifted_row (step_factor 1) (row_at rows i)
        (row_at rows (place_before i)) (row_at rows (place_behind (length rows) i)) }
    ensures second { (rows : List (List ℤ)) (i : ℕ) → i < length rows → i % 2 ≡ 0
        → row_after 2 rows i ≡ lifted_row (step_factor 2) (row_at rows i)
        (row_after 1 rows (place_before i)) (row_after 1 rows (place_behind (length rows) i)) }
    ensures third { (rows : List (List ℤ)) (i : ℕ) → i < length rows → i % 2 ≡ 1
        → row_after 3 rows i ≡ lifted_row (step_factor 3) (row_after 1 rows i)
        (row_after 2 rows (place_before i)) (row_after 2 rows (place_behind (length rows) i)) }
    ensures fourth { (rows : List (List ℤ)) (i : ℕ) → i < length rows → i % 2 ≡ 0
        → row_after 4 rows i ≡ lifted_row (step_factor 4) (row_after 2 rows i)
        (row_after 3 rows (place_before i)) (row_after 3 rows (place_behind (length rows) i)) }
    ensures odd { (rows : List (List ℤ)) (i : ℕ) → i % 2 ≡ 1
        → row_after 4 rows i ≡ row_after 3 rows i }
    // Rows that come later don't change a row that has s others below it.
    ensures more { (s : ℕ) (rows more : List (List ℤ)) (i : ℕ) → i + s < length rows
        → row_after s (rows ++ more) i ≡ row_after s rows i }
{}

/// The same with each neighbour's number: `inner` rows have rows on both sides, `top` is the first one, and
/// `last` the last one of an even number of rows (steps 1 and 3) or of an odd number (steps 2 and 4).
pub fn round_laws()
    ensures first_inner { (rows : List (List ℤ)) (j : ℕ) → 2 * j + 2 < length rows
        → row_after 1 rows (2 * j + 1) ≡ lifted_row (step_factor 1) (row_at rows (2 * j + 1))
        (row_at rows (2 * j)) (row_at rows (2 * j + 2)) }
    ensures first_last { (rows : List (List ℤ)) (j : ℕ) → length rows ≡ 2 * j + 2
        → row_after 1 rows (2 * j + 1) ≡ lifted_row (step_factor 1) (row_at rows (2 * j + 1))
        (row_at rows (2 * j)) (row_at rows (2 * j)) }
    ensures second_top { (rows : List (List ℤ)) → 2 ≤ length rows
        → row_after 2 rows 0 ≡ lifted_row (step_factor 2) (row_at rows 0)
        (row_after 1 rows 1) (row_after 1 rows 1) }
    ensures second_inner { (rows : List (List ℤ)) (j : ℕ) → 2 * j + 3 < length rows
        → row_after 2 rows (2 * j + 2) ≡ lifted_row (step_factor 2) (row_at rows (2 * j + 2))
        (row_after 1 rows (2 * j + 1)) (row_after 1 rows (2 * j + 3)) }
    ensures second_last { (rows : List (List ℤ)) (j : ℕ) → length rows ≡ 2 * j + 3
        → row_after 2 rows (2 * j + 2) ≡ lifted_row (step_factor 2) (row_at rows (2 * j + 2))
        (row_after 1 rows (2 * j + 1)) (row_after 1 rows (2 * j + 1)) }
    ensures third_inner { (rows : List (List ℤ)) (j : ℕ) → 2 * j + 2 < length rows
        → row_after 3 rows (2 * j + 1) ≡ lifted_row (step_factor 3) (row_after 1 rows (2 * j + 1))
        (row_after 2 rows (2 * j)) (row_after 2 rows (2 * j + 2)) }
    ensures third_last { (rows : List (List ℤ)) (j : ℕ) → length rows ≡ 2 * j + 2
        → row_after 3 rows (2 * j + 1) ≡ lifted_row (step_factor 3) (row_after 1 rows (2 * j + 1))
        (row_after 2 rows (2 * j)) (row_after 2 rows (2 * j)) }
    ensures fourth_top { (rows : List (List ℤ)) → 2 ≤ length rows
        → row_after 4 rows 0 ≡ lifted_row (step_factor 4) (row_after 2 rows 0)
        (row_after 3 rows 1) (row_after 3 rows 1) }
    ensures fourth_inner { (rows : List (List ℤ)) (j : ℕ) → 2 * j + 3 < length rows
        → row_after 4 rows (2 * j + 2) ≡ lifted_row (step_factor 4) (row_after 2 rows (2 * j + 2))
        (row_after 3 rows (2 * j + 1)) (row_after 3 rows (2 * j + 3)) }
    ensures fourth_last { (rows : List (List ℤ)) (j : ℕ) → length rows ≡ 2 * j + 3
        → row_after 4 rows (2 * j + 2) ≡ lifted_row (step_factor 4) (row_after 2 rows (2 * j + 2))
        (row_after 3 rows (2 * j + 1)) (row_after 3 rows (2 * j + 1)) }
{}

/// A level by whole rows: the low rows, each of an even row, and then the high ones, each of an odd
/// row.
pub fn level_laws()
    ensures level { (columns : ℕ) (area : List (List ℤ))
        → 0 < columns → 0 < length area → HasColumns columns area
        → level area ≡ map finished_row (columns_transformed area) }
    ensures low_row { (columns : ℕ) (area : List (List ℤ)) (y : ℕ)
        → 0 < columns → HasColumns columns area → 2 * y < length area
        → row_at (level area) y ≡ finished_row (scaled_row low_factor (row_after 4 area (2 * y))) }
    ensures high_row { (columns : ℕ) (area : List (List ℤ)) (y : ℕ)
        → 0 < columns → HasColumns columns area → 2 * y + 1 < length area
        → row_at (level area) (low_count (length area) + y)
        ≡ finished_row (scaled_row high_factor (row_after 4 area (2 * y + 1))) }
{}

/// The rows of an area's four parts after a level: an even row gives one of LL and one of HL, and an odd
/// row one of LH and one of HH.
pub fn quadrant_laws()
    ensures LL { (area : List (List ℤ)) (y : ℕ)
        → row_at (quadrant LL area) y
        ≡ low_half (scaled_row low_factor (row_after 4 area (2 * y))) }
    ensures HL { (area : List (List ℤ)) (y : ℕ)
        → row_at (quadrant HL area) y
        ≡ high_half (scaled_row low_factor (row_after 4 area (2 * y))) }
    ensures LH { (area : List (List ℤ)) (y : ℕ)
        → row_at (quadrant LH area) y
        ≡ low_half (scaled_row high_factor (row_after 4 area (2 * y + 1))) }
    ensures HH { (area : List (List ℤ)) (y : ℕ)
        → row_at (quadrant HH area) y
        ≡ high_half (scaled_row high_factor (row_after 4 area (2 * y + 1))) }
{}

/// How many columns and rows those parts have; all their samples are clamped.
pub fn quadrant_size_laws()
    ensures LL { (columns : ℕ) (area : List (List ℤ)) → HasColumns columns area
        → IsGridOf IsClamped (low_count columns) (low_count (length area)) (quadrant LL area) }
    ensures HL { (columns : ℕ) (area : List (List ℤ)) → HasColumns columns area
        → IsGridOf IsClamped (columns / 2) (low_count (length area)) (quadrant HL area) }
    ensures LH { (columns : ℕ) (area : List (List ℤ)) → HasColumns columns area
        → IsGridOf IsClamped (low_count columns) (length area / 2) (quadrant LH area) }
    ensures HH { (columns : ℕ) (area : List (List ℤ)) → HasColumns columns area
        → IsGridOf IsClamped (columns / 2) (length area / 2) (quadrant HH area) }
{}
