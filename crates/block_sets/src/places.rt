ghost use Rattle.std.specs.Prelude.{◌≡◌, ◌<◌, ℕ, List, slice_index};
ghost use Rattle.std.specs.Int.{bit_at};
ghost use Rattle.block_sets.specs.Places.{word_of, bit_of, column_at, row_at};
ghost use Rattle.block_sets.specs.Sets.{holds};

/// Each sample of 32 columns and 32 rows has a bit of its own in a set.
pub fn place_laws()
    ensures column { (x y : ℕ) → x < 32 → y < 32 → column_at (word_of x y) (bit_of x y) ≡ x }
    ensures row { (x y : ℕ) → x < 32 → y < 32 → row_at (word_of x y) (bit_of x y) ≡ y }
    ensures word { (w i : ℕ) → w < 16 → i < 64 → word_of (column_at w i) (row_at w i) ≡ w }
    ensures bit { (w i : ℕ) → w < 16 → i < 64 → bit_of (column_at w i) (row_at w i) ≡ i }
    ensures holds { (set : List ℕ) (w i : ℕ) → w < 16 → i < 64
        → holds set (column_at w i) (row_at w i) ≡ bit_at (slice_index set w) i }
{}
