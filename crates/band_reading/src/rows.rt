ghost use Rattle.std.specs.Prelude.{◌≡◌, ◌<◌, ◌≤◌, ◌+◌, ◌*◌, ℕ, length, slice_index_or, pos};

// Copies a row of samples to column x of row y of a sub-band.
fn put_row(row: &[i32], x: usize, y: usize, columns: usize, out: &mut [i32])
    requires right { x + length row.now ≤ columns }
    requires bottom { (y + 1) * columns ≤ length out.old }
    ensures inside { (i : ℕ) → i < length row.now
        → slice_index_or out.new (y * columns + (x + i)) (pos 0) ≡ slice_index_or row.now i (pos 0) }
    ensures outside { (i j : ℕ) → i < columns → (j ≡ y → x ≤ i → i < x + length row.now → ⊥)
        → slice_index_or out.new (j * columns + i) (pos 0) ≡ slice_index_or out.old (j * columns + i) (pos 0) }
{
    let at = y * columns + x;
    out[at..at + row.len()].copy_from_slice(row);
}

/// Copies the rows of a code-block to column x and row y of a sub-band.
pub(crate) fn put_rows(
    values: &[i32],
    width: usize,
    height: usize,
    x: usize,
    y: usize,
    columns: usize,
    out: &mut [i32],
)
    requires some { 0 < width }
    requires whole { length values.now ≡ width * height }
    requires right { x + width ≤ columns }
    requires bottom { (y + height) * columns ≤ length out.old }
    ensures inside { (i j : ℕ) → i < width → j < height
        → slice_index_or out.new ((y + j) * columns + (x + i)) (pos 0) ≡ slice_index_or values.now (j * width + i) (pos 0) }
    ensures outside { (i j : ℕ) → i < columns → (x ≤ i → i < x + width → y ≤ j → j < y + height → ⊥)
        → slice_index_or out.new (j * columns + i) (pos 0) ≡ slice_index_or out.old (j * columns + i) (pos 0) }
{
    for j in 0..height {
        put_row(&values[j * width..(j + 1) * width], x, y + j, columns, out);
    }
}
