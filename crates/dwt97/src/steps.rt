ghost use Rattle.std.specs.Prelude.{◌≡◌, length};
ghost use Rattle.std.specs.Int.{w32};
ghost use Rattle.codec_terms.specs.Wavelet.{sample};
ghost use Rattle.wave_laws.specs.Rows.{step_factor, lifted_row};
ghost use Rattle.dwt97.specs.Lifting.{FitsLifts};

use crate::lifting::{first, fourth, second, third};

// A function for each step: with the factor as a parameter the product isn't one of 32 bits any more.

/// Step 1 of a row, between the rows above and below it.
#[inline(never)]
pub fn first_step(row: &mut [i32], above: &[i32], below: &[i32])
    requires above { length above.now ≡ length row.old }
    requires below { length below.now ≡ length row.old }
    ensures { FitsLifts w32 (step_factor 1) row.old (sample above.now) (sample below.now)
        → row.new ≡ lifted_row (step_factor 1) row.old above.now below.now }
{
    for x in 0..row.len() {
        row[x] = first(row[x], above[x], below[x]);
    }
}

/// Step 2 of a row, between the rows above and below it.
#[inline(never)]
pub fn second_step(row: &mut [i32], above: &[i32], below: &[i32])
    requires above { length above.now ≡ length row.old }
    requires below { length below.now ≡ length row.old }
    ensures { FitsLifts w32 (step_factor 2) row.old (sample above.now) (sample below.now)
        → row.new ≡ lifted_row (step_factor 2) row.old above.now below.now }
{
    for x in 0..row.len() {
        row[x] = second(row[x], above[x], below[x]);
    }
}

/// Step 3 of a row, between the rows above and below it.
#[inline(never)]
pub fn third_step(row: &mut [i32], above: &[i32], below: &[i32])
    requires above { length above.now ≡ length row.old }
    requires below { length below.now ≡ length row.old }
    ensures { FitsLifts w32 (step_factor 3) row.old (sample above.now) (sample below.now)
        → row.new ≡ lifted_row (step_factor 3) row.old above.now below.now }
{
    for x in 0..row.len() {
        row[x] = third(row[x], above[x], below[x]);
    }
}

/// Step 4 of a row, between the rows above and below it.
#[inline(never)]
pub fn fourth_step(row: &mut [i32], above: &[i32], below: &[i32])
    requires above { length above.now ≡ length row.old }
    requires below { length below.now ≡ length row.old }
    ensures { FitsLifts w32 (step_factor 4) row.old (sample above.now) (sample below.now)
        → row.new ≡ lifted_row (step_factor 4) row.old above.now below.now }
{
    for x in 0..row.len() {
        row[x] = fourth(row[x], above[x], below[x]);
    }
}
