ghost use Rattle.std.specs.Prelude.{◌≡◌, ◌≢◌, ◌+◌, ◌*◌, ◌^◌, ◌<◌, ◌≤◌, ℕ, All, length, pos, slice_index, slice_index_or, unsigned_abs};
ghost use Rattle.codec_terms.specs.BlockDecisions.{Block, value_at};
ghost use Rattle.quantiser.specs.Signed.{signed_value};
ghost use Rattle.block_sets.specs.Squares.{word_at, IsSquareOf, AreRowsOf};

// Words at the row's start, and zeros behind them.
fn fill_row(words: &[u16], row: &mut [u16; 32])
    requires { length words.now ≤ 32 }
    ensures { (x : ℕ) → slice_index row.new x ≡ slice_index words.now x }
{
    *row = [0; 32];
    for x in 0..words.len() {
        row[x] = words[x];
    }
}

// Row y of a block, and zeros below it.
fn fill_row_at(
    words: &[u16],
    stride: usize,
    width: usize,
    height: usize,
    y: usize,
    row: &mut [u16; 32],
)
    requires width { width ≤ 32 }
    requires within { (y : ℕ) → y < height → y * stride + width ≤ length words.now }
    ensures inside { y < height → (x : ℕ) → x < width → slice_index row.new x ≡ slice_index words.now (y * stride + x) }
    ensures beside { (x : ℕ) → width ≤ x → slice_index row.new x ≡ 0 }
    ensures below { height ≤ y → (x : ℕ) → slice_index row.new x ≡ 0 }
{
    if y < height {
        fill_row(&words[y * stride..y * stride + width], row);
    } else {
        *row = [0; 32];
    }
}

// In place of row y of a square.
fn fill_row_of(
    words: &[u16],
    stride: usize,
    width: usize,
    height: usize,
    y: usize,
    square: &mut [[u16; 32]; 32],
)
    requires width { width ≤ 32 }
    requires within { (y : ℕ) → y < height → y * stride + width ≤ length words.now }
    requires y { y < 32 }
    ensures inside { y < height → (x : ℕ) → x < width → word_at square.new x y ≡ slice_index words.now (y * stride + x) }
    ensures beside { (x : ℕ) → width ≤ x → word_at square.new x y ≡ 0 }
    ensures below { height ≤ y → (x : ℕ) → word_at square.new x y ≡ 0 }
    ensures others { (x z : ℕ) → z ≢ y → word_at square.new x z ≡ word_at square.old x z }
{
    fill_row_at(words, stride, width, height, y, &mut square[y]);
}

/// Makes `square` the words of a block, whose rows begin `stride` words apart in `words`.
pub fn fill_from_rows(
    words: &[u16],
    stride: usize,
    width: usize,
    height: usize,
    square: &mut [[u16; 32]; 32],
)
    requires width { width ≤ 32 }
    requires height { height ≤ 32 }
    requires within { (y : ℕ) → y < height → y * stride + width ≤ length words.now }
    ensures { (b : Block) → b.width ≡ width → b.height ≡ height → AreRowsOf b stride words.now
        → IsSquareOf b square.new }
{
    for y in 0..32usize {
        fill_row_of(words, stride, width, height, y, square);
    }
}

// The word of a value: its magnitude, and above it its sign.
fn word_of(value: i32) -> u16
    requires { unsigned_abs value < 2 ^ 15 }
    ensures { signed_value result ≡ value }
{
    let sign = if value < 0 { 0x8000 } else { 0 };
    (sign + value.unsigned_abs()) as u16
}

// The words of values at the row's start, and zeros behind them.
fn fill_row_from_values(values: &[i32], row: &mut [u16; 32])
    requires length { length values.now ≤ 32 }
    requires small { All (λ v. unsigned_abs v < 2 ^ 15) values.now }
    ensures start { (x : ℕ) → x < length values.now → signed_value (slice_index row.new x) ≡ slice_index_or values.now x (pos 0) }
    ensures behind { (x : ℕ) → length values.now ≤ x → slice_index row.new x ≡ 0 }
{
    *row = [0; 32];
    for x in 0..values.len() {
        row[x] = word_of(values[x]);
    }
}

// Row y of a block's values, and zeros below it.
fn fill_row_from_values_at(
    values: &[i32],
    width: usize,
    height: usize,
    y: usize,
    row: &mut [u16; 32],
)
    requires width { width ≤ 32 }
    requires whole { length values.now ≡ width * height }
    requires small { All (λ v. unsigned_abs v < 2 ^ 15) values.now }
    ensures inside { y < height → (x : ℕ) → x < width
        → signed_value (slice_index row.new x) ≡ slice_index_or values.now (y * width + x) (pos 0) }
    ensures beside { (x : ℕ) → width ≤ x → slice_index row.new x ≡ 0 }
    ensures below { height ≤ y → (x : ℕ) → slice_index row.new x ≡ 0 }
{
    if y < height {
        fill_row_from_values(&values[y * width..y * width + width], row);
    } else {
        *row = [0; 32];
    }
}

// In place of row y of a square.
fn fill_row_of_values(
    values: &[i32],
    width: usize,
    height: usize,
    y: usize,
    square: &mut [[u16; 32]; 32],
)
    requires width { width ≤ 32 }
    requires whole { length values.now ≡ width * height }
    requires small { All (λ v. unsigned_abs v < 2 ^ 15) values.now }
    requires y { y < 32 }
    ensures inside { y < height → (x : ℕ) → x < width
        → signed_value (word_at square.new x y) ≡ slice_index_or values.now (y * width + x) (pos 0) }
    ensures beside { (x : ℕ) → width ≤ x → word_at square.new x y ≡ 0 }
    ensures below { height ≤ y → (x : ℕ) → word_at square.new x y ≡ 0 }
    ensures others { (x z : ℕ) → z ≢ y → word_at square.new x z ≡ word_at square.old x z }
{
    fill_row_from_values_at(values, width, height, y, &mut square[y]);
}

/// The same of values in raster order, whose magnitudes have 15 bits.
pub fn fill_from_values(values: &[i32], width: usize, height: usize, square: &mut [[u16; 32]; 32])
    requires width { width ≤ 32 }
    requires height { height ≤ 32 }
    requires whole { length values.now ≡ width * height }
    requires small { All (λ v. unsigned_abs v < 2 ^ 15) values.now }
    ensures { (b : Block) → b.width ≡ width → b.height ≡ height → b.values ≡ values.now → IsSquareOf b square.new }
{
    for y in 0..32usize {
        fill_row_of_values(values, width, height, y, square);
    }
}
