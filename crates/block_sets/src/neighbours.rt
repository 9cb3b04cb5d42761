ghost use Rattle.std.specs.Prelude.{◌≡◌, ◌+◌, ◌-◌, ◌<◌, ◌≤◌, ℕ, suc, slice_index};
ghost use Rattle.std.specs.Int.{bit_at, from_bool};
ghost use Rattle.block_sets.specs.Places.{column_at, row_at};
ghost use Rattle.block_sets.specs.Sets.{is_held, is_any_of_three, has_neighbour};

// The word of the stripe above, and of the one below.
fn word_above(set: &[u64; 16], w: usize) -> u64
    requires { w < 16 }
    ensures highest { w < 2 → result ≡ 0 }
    ensures further { 2 ≤ w → result ≡ slice_index set.now (w - 2) }
{
    if w < 2 { 0 } else { set[w - 2] }
}

fn word_below(set: &[u64; 16], w: usize) -> u64
    requires { w < 16 }
    ensures further { w < 14 → result ≡ slice_index set.now (w + 2) }
    ensures lowest { 14 ≤ w → result ≡ 0 }
{
    if w < 14 { set[w + 2] } else { 0 }
}

// For each sample of a word whether the one above it is in the set.
fn above(set: &[u64; 16], w: usize) -> u64
    requires { w < 16 }
    ensures { (i : ℕ) → i < 64 → bit_at result i ≡ from_bool (is_held set.now (suc (column_at w i)) (row_at w i)) }
{
    set[w] << 1 & 0xeeee_eeee_eeee_eeee | word_above(set, w) >> 3 & 0x1111_1111_1111_1111
}

// The same of the one below.
fn below(set: &[u64; 16], w: usize) -> u64
    requires { w < 16 }
    ensures { (i : ℕ) → i < 64 → bit_at result i ≡ from_bool (is_held set.now (suc (column_at w i)) (suc (suc (row_at w i)))) }
{
    set[w] >> 1 & 0x7777_7777_7777_7777 | word_below(set, w) << 3 & 0x8888_8888_8888_8888
}

// The same of any of the three of its column, itself among them.
fn three(set: &[u64; 16], w: usize) -> u64
    requires { w < 16 }
    ensures { (i : ℕ) → i < 64 → bit_at result i ≡ from_bool (is_any_of_three set.now (suc (column_at w i)) (row_at w i)) }
{
    above(set, w) | set[w] | below(set, w)
}

// The same of any of the three in the column before it.
fn left(set: &[u64; 16], w: usize) -> u64
    requires { w < 16 }
    ensures { (i : ℕ) → i < 64 → bit_at result i ≡ from_bool (is_any_of_three set.now (column_at w i) (row_at w i)) }
{
    let here = three(set, w) << 4;
    if w % 2 == 0 {
        here
    } else {
        here | three(set, w - 1) >> 60
    }
}

// The same of any of the three in the column behind it.
fn right(set: &[u64; 16], w: usize) -> u64
    requires { w < 16 }
    ensures { (i : ℕ) → i < 64 → bit_at result i ≡ from_bool (is_any_of_three set.now (suc (suc (column_at w i))) (row_at w i)) }
{
    let here = three(set, w) >> 4;
    if w % 2 == 1 {
        here
    } else {
        here | three(set, w + 1) << 60
    }
}

/// For each sample of a word whether any of its eight neighbours is in the set.
pub fn near(set: &[u64; 16], w: usize) -> u64
    requires { w < 16 }
    ensures { (i : ℕ) → i < 64 → bit_at result i ≡ from_bool (has_neighbour set.now (column_at w i) (row_at w i)) }
{
    above(set, w) | below(set, w) | left(set, w) | right(set, w)
}
