ghost use Rattle.std.specs.Prelude.{◌≡◌, ◌+◌, ◌*◌, ◌/◌, ◌%◌, ◌<◌, ◌≤◌, ℕ};
ghost use Rattle.std.specs.Int.{bit_at};

/// What the cleanup pass over a word has still to code: samples, and of the columns that are runs the first ones.
#[derive(Clone, Copy, Debug)]
pub(crate) struct Rest {
    pub left: u64,
    pub runs: u64,
    pub ghost columns: { (j : ℕ) → j < 64 → bit_at runs j ≡ 1 → j % 4 ≡ 0 },
}

/// A set without the samples up to bit `last`.
pub(crate) fn behind(set: u64, last: u32) -> u64
    requires { last < 64 }
    ensures none { (j : ℕ) → j ≤ last → bit_at result j ≡ 0 }
    ensures same { (j : ℕ) → last < j → j < 64 → bit_at result j ≡ bit_at set j }
{
    set & u64::MAX << last << 1
}

/// The rest with these samples, where none more is significant.
pub(crate) fn with_left(rest: Rest, left: u64) -> Rest
    ensures left { result.left ≡ left }
    ensures runs { result.runs ≡ rest.runs }
{
    Rest {
        left,
        runs: rest.runs,
    }
}

/// The rest with these samples, where the one at bit `i` has become significant: the next column is no run.
pub(crate) fn beside_one(rest: Rest, left: u64, i: u32) -> Rest
    requires { i < 64 }
    ensures left { result.left ≡ left }
    ensures next { (j : ℕ) → j < 64 → j ≡ 4 * (i / 4) + 4 → bit_at result.runs j ≡ 0 }
    ensures same { (j : ℕ) → i < j → j < 64 → (j ≡ 4 * (i / 4) + 4 → ⊥) → bit_at result.runs j ≡ bit_at rest.runs j }
{
    Rest {
        left,
        runs: rest.runs & !(1 << ((4 * (i / 4) + 4) % 64)),
    }
}
