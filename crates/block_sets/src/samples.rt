ghost use Rattle.std.specs.Prelude.{◌≡◌, ◌+◌, ◌-◌, ◌*◌, ◌/◌, ◌%◌, ◌<◌, ◌≤◌, ◌&&◌, ℕ, min, nat_lt, slice_index};
ghost use Rattle.std.specs.Int.{bit_at, from_bool};
ghost use Rattle.block_sets.specs.Places.{column_at, row_at};
ghost use Rattle.block_sets.specs.Sets.{IsSet};
ghost use Rattle.block_sets.specs.Planes.{all_samples};

// The samples of a word in its first columns.
fn first_columns(count: usize) -> u64
    requires { count ≤ 16 }
    ensures { (i : ℕ) → i < 64 → bit_at result i ≡ from_bool (nat_lt (i / 4) count) }
{
    if count == 0 {
        0
    } else {
        u64::MAX >> (64 - 4 * count)
    }
}

// The samples of a word in its first rows.
fn first_rows(count: usize) -> u64
    ensures { (i : ℕ) → i < 64 → bit_at result i ≡ from_bool (nat_lt (i % 4) count) }
{
    match count {
        0 => 0,
        1 => 0x1111_1111_1111_1111,
        2 => 0x3333_3333_3333_3333,
        3 => 0x7777_7777_7777_7777,
        _ => u64::MAX,
    }
}

// The samples of a word that lie in a block of this size.
fn word_of_all(width: usize, height: usize, w: usize) -> u64
    requires { w < 16 }
    ensures { (i : ℕ) → i < 64
        → bit_at result i ≡ from_bool (nat_lt (column_at w i) width && nat_lt (row_at w i) height) }
{
    let columns = width.saturating_sub(w % 2 * 16).min(16);
    let rows = height.saturating_sub(w / 2 * 4);
    first_columns(columns) & first_rows(rows)
}

/// Makes `set` that of all samples of a block.
pub fn all_samples(width: usize, height: usize, set: &mut [u64; 16])
    requires narrow { width ≤ 32 }
    requires low { height ≤ 32 }
    ensures { IsSet width height (all_samples width height) set.new }
{
    for w in 0..16usize {
        set[w] = word_of_all(width, height, w);
    }
}
