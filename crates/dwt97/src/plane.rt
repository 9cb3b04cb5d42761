ghost use Rattle.std.specs.Prelude.{◌≡◌, ◌≢◌, ◌+◌, ◌-◌, ◌*◌, ◌<◌, ◌≤◌, ℕ, length};
ghost use Rattle.std.specs.Int.{w32};
ghost use Rattle.codec_terms.specs.Wavelet.{sample, place_before, place_behind};
ghost use Rattle.wave_laws.specs.Rows.{step_factor, lifted_row};
ghost use Rattle.dwt97.specs.Lifting.{FitsLifts};
ghost use Rattle.dwt97.specs.Plane.{row_in};

use crate::lifting::{first, fourth, second, third};

/// The row above row y of so many rows, reflected at the first one.
pub(crate) fn row_above(height: usize, y: usize) -> usize
    requires height { 2 ≤ height }
    requires inside { y < height }
    ensures row { result ≡ place_before y }
    ensures inside { result < height }
    ensures other { result ≢ y }
{
    if y == 0 { 1 } else { y - 1 }
}

/// The row below row y of so many rows, reflected at the last one.
pub(crate) fn row_below(height: usize, y: usize) -> usize
    requires height { 2 ≤ height }
    requires inside { y < height }
    ensures row { result ≡ place_behind height y }
    ensures inside { result < height }
    ensures other { result ≢ y }
{
    if y + 1 == height { height - 2 } else { y + 1 }
}

/// Step 1 of row y of a plane, between the rows above and below it.
#[inline(never)]
pub(crate) fn lift_first(plane: &mut [i32], columns: usize, height: usize, y: usize)
    requires height { 2 ≤ height }
    requires whole { length plane.old ≡ columns * height }
    requires inside { y < height }
    ensures row { FitsLifts w32 (step_factor 1) (row_in columns plane.old y)
        (sample (row_in columns plane.old (place_before y))) (sample (row_in columns plane.old (place_behind height y)))
        → row_in columns plane.new y ≡ lifted_row (step_factor 1) (row_in columns plane.old y)
        (row_in columns plane.old (place_before y)) (row_in columns plane.old (place_behind height y)) }
    ensures others { (i : ℕ) → i ≢ y → row_in columns plane.new i ≡ row_in columns plane.old i }
{
    let own = y * columns;
    let above = row_above(height, y) * columns;
    let below = row_below(height, y) * columns;
    for x in 0..columns {
        plane[own + x] = first(plane[own + x], plane[above + x], plane[below + x]);
    }
}

/// Step 2 of row y of a plane, between the rows above and below it.
#[inline(never)]
pub(crate) fn lift_second(plane: &mut [i32], columns: usize, height: usize, y: usize)
    requires height { 2 ≤ height }
    requires whole { length plane.old ≡ columns * height }
    requires inside { y < height }
    ensures row { FitsLifts w32 (step_factor 2) (row_in columns plane.old y)
        (sample (row_in columns plane.old (place_before y))) (sample (row_in columns plane.old (place_behind height y)))
        → row_in columns plane.new y ≡ lifted_row (step_factor 2) (row_in columns plane.old y)
        (row_in columns plane.old (place_before y)) (row_in columns plane.old (place_behind height y)) }
    ensures others { (i : ℕ) → i ≢ y → row_in columns plane.new i ≡ row_in columns plane.old i }
{
    let own = y * columns;
    let above = row_above(height, y) * columns;
    let below = row_below(height, y) * columns;
    for x in 0..columns {
        plane[own + x] = second(plane[own + x], plane[above + x], plane[below + x]);
    }
}

/// Step 3 of row y of a plane, between the rows above and below it.
#[inline(never)]
pub(crate) fn lift_third(plane: &mut [i32], columns: usize, height: usize, y: usize)
    requires height { 2 ≤ height }
    requires whole { length plane.old ≡ columns * height }
    requires inside { y < height }
    ensures row { FitsLifts w32 (step_factor 3) (row_in columns plane.old y)
        (sample (row_in columns plane.old (place_before y))) (sample (row_in columns plane.old (place_behind height y)))
        → row_in columns plane.new y ≡ lifted_row (step_factor 3) (row_in columns plane.old y)
        (row_in columns plane.old (place_before y)) (row_in columns plane.old (place_behind height y)) }
    ensures others { (i : ℕ) → i ≢ y → row_in columns plane.new i ≡ row_in columns plane.old i }
{
    let own = y * columns;
    let above = row_above(height, y) * columns;
    let below = row_below(height, y) * columns;
    for x in 0..columns {
        plane[own + x] = third(plane[own + x], plane[above + x], plane[below + x]);
    }
}

/// Step 4 of row y of a plane, between the rows above and below it.
#[inline(never)]
pub(crate) fn lift_fourth(plane: &mut [i32], columns: usize, height: usize, y: usize)
    requires height { 2 ≤ height }
    requires whole { length plane.old ≡ columns * height }
    requires inside { y < height }
    ensures row { FitsLifts w32 (step_factor 4) (row_in columns plane.old y)
        (sample (row_in columns plane.old (place_before y))) (sample (row_in columns plane.old (place_behind height y)))
        → row_in columns plane.new y ≡ lifted_row (step_factor 4) (row_in columns plane.old y)
        (row_in columns plane.old (place_before y)) (row_in columns plane.old (place_behind height y)) }
    ensures others { (i : ℕ) → i ≢ y → row_in columns plane.new i ≡ row_in columns plane.old i }
{
    let own = y * columns;
    let above = row_above(height, y) * columns;
    let below = row_below(height, y) * columns;
    for x in 0..columns {
        plane[own + x] = fourth(plane[own + x], plane[above + x], plane[below + x]);
    }
}
