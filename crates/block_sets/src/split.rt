ghost use Rattle.std.specs.Prelude.{◌≡◌, ◌≢◌, ◌+◌, ◌*◌, ◌<◌, ◌/◌, ◌%◌, ◌^◌, ℕ, [], slice_index, slice_index_or};
ghost use Rattle.std.specs.Int.{bit_at};
ghost use Rattle.block_sets.specs.Places.{column_at, row_at};
ghost use Rattle.block_sets.specs.Squares.{word_at, IsSplit};

use crate::transposed::planes_of;

// The words of a column's four samples.
fn column_of(square: &[[u16; 32]; 32], w: usize, column: usize) -> [u16; 4]
    requires word { w < 16 }
    requires column { column < 16 }
    ensures { (r : ℕ) → r < 4 → slice_index result r
        ≡ word_at square.now (w % 2 * 16 + column) (w / 2 * 4 + r) }
{
    let x = w % 2 * 16 + column;
    let top = w / 2 * 4;
    [
        square[top][x],
        square[top + 1][x],
        square[top + 2][x],
        square[top + 3][x],
    ]
}

fn low_byte(word: u16) -> u8
    ensures { result ≡ word % 256 }
{
    (word & 0xff) as u8
}

fn low_bytes(words: [u16; 4]) -> [u8; 4]
    ensures { (r : ℕ) → r < 4 → slice_index result r ≡ slice_index words r % 256 }
{
    [
        low_byte(words[0]),
        low_byte(words[1]),
        low_byte(words[2]),
        low_byte(words[3]),
    ]
}

// Their own bounds are said again: they are lost where words are read from the square.
fn high_bytes(words: [u16; 4]) -> [u8; 4]
    ensures bytes { (r : ℕ) → r < 4 → slice_index result r ≡ slice_index words r / 256 }
    ensures fits { (r : ℕ) → r < 4 → slice_index words r < 2 ^ 16 }
{
    [
        (words[0] >> 8) as u8,
        (words[1] >> 8) as u8,
        (words[2] >> 8) as u8,
        (words[3] >> 8) as u8,
    ]
}

fn put_column(bytes: &mut [u8; 64], column: usize, rows: [u8; 4])
    requires { column < 16 }
    ensures here { (r : ℕ) → r < 4 → slice_index bytes.new (4 * column + r) ≡ slice_index rows r }
    ensures others { (i : ℕ) → i / 4 ≢ column → slice_index bytes.new i ≡ slice_index bytes.old i }
{
    bytes[4 * column] = rows[0];
    bytes[4 * column + 1] = rows[1];
    bytes[4 * column + 2] = rows[2];
    bytes[4 * column + 3] = rows[3];
}

// The low and the high byte of each sample of a word, in the order of the scan.
fn bytes_of(square: &[[u16; 32]; 32], w: usize, low: &mut [u8; 64], high: &mut [u8; 64])
    requires { w < 16 }
    ensures low { (i : ℕ) → i < 64 → slice_index low.new i ≡ word_at square.now (column_at w i) (row_at w i) % 256 }
    ensures high { (i : ℕ) → i < 64 → slice_index high.new i ≡ word_at square.now (column_at w i) (row_at w i) / 256 }
    ensures fits { (i : ℕ) → i < 64 → word_at square.now (column_at w i) (row_at w i) < 2 ^ 16 }
{
    for column in 0..16usize {
        let words = column_of(square, w, column);
        put_column(low, column, low_bytes(words));
        put_column(high, column, high_bytes(words));
    }
}

fn put_word(set: &mut [u64; 16], w: usize, word: u64)
    requires { w < 16 }
    ensures here { slice_index set.new w ≡ word }
    ensures beside { (v : ℕ) → v ≢ w → slice_index set.new v ≡ slice_index set.old v }
{
    set[w] = word;
}

fn put(sets: &mut [[u64; 16]; 16], p: usize, w: usize, word: u64)
    requires plane { p < 16 }
    requires word { w < 16 }
    ensures here { slice_index (slice_index_or sets.new p []) w ≡ word }
    ensures beside { (v : ℕ) → v ≢ w → slice_index (slice_index_or sets.new p []) v ≡ slice_index (slice_index_or sets.old p []) v }
    ensures others { (q : ℕ) → q ≢ p → slice_index_or sets.new q [] ≡ slice_index_or sets.old q [] }
{
    put_word(&mut sets[p], w, word);
}

// Word w of the lower eight sets and of the upper ones.
fn put_words(sets: &mut [[u64; 16]; 16], w: usize, lower: &[u64; 8], upper: &[u64; 8])
    requires { w < 16 }
    ensures lower { (p : ℕ) → p < 8 → slice_index (slice_index_or sets.new p []) w ≡ slice_index lower.now p }
    ensures upper { (p : ℕ) → p < 8 → slice_index (slice_index_or sets.new (8 + p) []) w ≡ slice_index upper.now p }
    ensures others { (p v : ℕ) → v ≢ w
        → slice_index (slice_index_or sets.new p []) v ≡ slice_index (slice_index_or sets.old p []) v }
{
    for p in 0..8usize {
        put(sets, p, w, lower[p]);
        put(sets, 8 + p, w, upper[p]);
    }
}

// Word w of all sets.
fn split_word(square: &[[u16; 32]; 32], w: usize, sets: &mut [[u64; 16]; 16])
    requires { w < 16 }
    ensures bits { (p i : ℕ) → p < 16 → i < 64 → bit_at (slice_index (slice_index_or sets.new p []) w) i
        ≡ bit_at (word_at square.now (column_at w i) (row_at w i)) p }
    ensures fits { (i : ℕ) → i < 64 → word_at square.now (column_at w i) (row_at w i) < 2 ^ 16 }
    ensures others { (p v : ℕ) → v ≢ w
        → slice_index (slice_index_or sets.new p []) v ≡ slice_index (slice_index_or sets.old p []) v }
{
    let mut low = [0u8; 64];
    let mut high = [0u8; 64];
    bytes_of(square, w, &mut low, &mut high);
    put_words(sets, w, &planes_of(&low), &planes_of(&high));
}

/// Makes set p that of the samples whose word has bit p.
pub(crate) fn split(square: &[[u16; 32]; 32], sets: &mut [[u64; 16]; 16])
    ensures { IsSplit square.now sets.new }
{
    for w in 0..16usize {
        split_word(square, w, sets);
    }
}
