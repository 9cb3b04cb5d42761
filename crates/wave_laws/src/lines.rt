ghost use Rattle.std.specs.Prelude.{◌≡◌, ◌≤◌, ◌+◌, ◌*◌, ◌-◌, ◌/◌, ℕ, ℤ, List, ◌++◌, length};
ghost use Rattle.codec_terms.specs.Wavelet.{sample, even_samples, odd_samples, transformed_line};
ghost use Rattle.wave_laws.specs.Rows.{low_samples, high_samples};
ghost use Rattle.wave_laws.specs.Rows.{finished_row, low_half, high_half};

/// Which samples the even and the odd ones of a line are, and how many.
pub fn half_laws()
    ensures even { (line : List ℤ) (i : ℕ) → sample (even_samples line) i ≡ sample line (2 * i) }
    ensures odd { (line : List ℤ) (i : ℕ) → sample (odd_samples line) i ≡ sample line (2 * i + 1) }
    ensures even_length { (line : List ℤ)
        → length (even_samples line) ≡ length line - length line / 2 }
    ensures odd_length { (line : List ℤ) → length (odd_samples line) ≡ length line / 2 }
{}

/// A line of two samples or more, by its even and its odd samples, each as many as before.
pub fn line_laws()
    ensures line { (line : List ℤ) → 2 ≤ length line
        → transformed_line line
        ≡ low_samples (even_samples line) (odd_samples line)
        ++ high_samples (even_samples line) (odd_samples line) }
    ensures low_length { (even odd : List ℤ) → length (low_samples even odd) ≡ length even }
    ensures high_length { (even odd : List ℤ) → length (high_samples even odd) ≡ length odd }
    ensures row { (row : List ℤ) → 2 ≤ length row
        → finished_row row ≡ low_half row ++ high_half row }
{}
