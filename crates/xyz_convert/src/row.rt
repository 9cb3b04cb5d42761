ghost use Rattle.std.specs.Prelude.{◌≡◌, ◌+◌, ◌*◌, ◌^◌, ◌<◌, ◌≤◌, ℕ, length, slice_index, All};
ghost use Rattle.codec_terms.specs.Colour.{x_weights, y_weights, z_weights, xyz_plane};
ghost use Rattle.xyz_convert.specs.Entries.{IsTable, code_entries, code_of, entry_code, least_above, light_of, most_sum, sum_of, IsNear};
ghost use Rattle.xyz_convert.specs.Samples.{sample_at};
ghost use Rattle.xyz_convert.specs.Weighing.{weights_of, IsLight};

use crate::entries::FINE;
use crate::tables::Tables;
use crate::weights::{Weights, X, Y, Z, sum_of};

/// The light of one colour of a row. A pixel's bytes have red at the place 0, green at 2 and blue at 4.
fn light_row(light: &[u32], rgb: &[u8], place: usize, row: &mut [u32])
    requires table { length light.now ≡ 2 ^ 16 }
    requires place { place ≤ 4 }
    requires whole { length rgb.now ≡ 6 * length row.old }
    ensures { (k : ℕ) → k < length row.new →
        slice_index row.new k ≡ slice_index light.now (sample_at rgb.now (6 * k + place)) }
{
    for i in 0..row.len() {
        let at = 6 * i + place;
        let sample = usize::from(rgb[at]) * 256 + usize::from(rgb[at + 1]);
        row[i] = light[sample];
    }
}

/// The weighed sums of a row's lights.
fn sum_row(weights: Weights, red: &[u32], green: &[u32], blue: &[u32], sums: &mut [u32])
    requires weights { IsLight weights }
    requires same_red { length red.now ≡ length sums.old }
    requires same_green { length green.now ≡ length sums.old }
    requires same_blue { length blue.now ≡ length sums.old }
    requires red { (k : ℕ) → slice_index red.now k ≤ 2 ^ 24 }
    requires green { (k : ℕ) → slice_index green.now k ≤ 2 ^ 24 }
    requires blue { (k : ℕ) → slice_index blue.now k ≤ 2 ^ 24 }
    ensures { (k : ℕ) → k < length sums.new → slice_index sums.new k ≡
        sum_of (weights_of weights) (slice_index red.now k) (slice_index green.now k) (slice_index blue.now k) }
{
    for i in 0..sums.len() {
        sums[i] = sum_of(weights, red[i], green[i], blue[i]);
    }
}

/// The code value of the least sum of a sum's entry.
fn near_code(code: &[u16], sum: u32) -> u16
    requires codes { IsTable entry_code code_entries code.now }
    requires sum { sum ≤ most_sum }
    ensures { IsNear sum result }
{
    let at = if sum < FINE { sum } else { FINE + (sum >> 8) };
    code[at as usize]
}

/// The code value of a sum.
fn code_at(code: &[u16], above: &[u32], sum: u32) -> u16
    requires codes { IsTable entry_code code_entries code.now }
    requires thresholds { IsTable least_above 4096 above.now }
    requires sum { sum ≤ most_sum }
    ensures { result ≡ code_of sum }
{
    let y = near_code(code, sum);
    y + u16::from(above[usize::from(y)] <= sum)
}

/// The code values of a row's sums.
fn code_row(code: &[u16], above: &[u32], sums: &[u32], row: &mut [u16])
    requires codes { IsTable entry_code code_entries code.now }
    requires thresholds { IsTable least_above 4096 above.now }
    requires same { length sums.now ≡ length row.old }
    requires sums { (k : ℕ) → slice_index sums.now k ≤ most_sum }
    ensures { (k : ℕ) → k < length row.new → slice_index row.new k ≡ code_of (slice_index sums.now k) }
{
    for i in 0..row.len() {
        row[i] = code_at(code, above, sums[i]);
    }
}

/// The light of one colour of a row, as the tables have it.
fn colour_row(tables: &Tables, rgb: &[u8], place: usize, row: &mut [u32])
    requires place { place ≤ 4 }
    requires whole { length rgb.now ≡ 6 * length row.old }
    ensures light { (k : ℕ) → k < length row.new →
        slice_index row.new k ≡ light_of tables.now (sample_at rgb.now (6 * k + place)) }
    ensures most { (k : ℕ) → slice_index row.new k ≤ 2 ^ 24 }
{
    light_row(&tables.light, rgb, place, row);
}

/// One component of a row.
fn component_row(
    tables: &Tables,
    weights: Weights,
    red: &[u32],
    green: &[u32],
    blue: &[u32],
    sums: &mut [u32],
    row: &mut [u16],
)
    requires weights { IsLight weights }
    requires same_red { length red.now ≡ length row.old }
    requires same_green { length green.now ≡ length row.old }
    requires same_blue { length blue.now ≡ length row.old }
    requires same_sums { length sums.old ≡ length row.old }
    requires red { (k : ℕ) → slice_index red.now k ≤ 2 ^ 24 }
    requires green { (k : ℕ) → slice_index green.now k ≤ 2 ^ 24 }
    requires blue { (k : ℕ) → slice_index blue.now k ≤ 2 ^ 24 }
    ensures { (k : ℕ) → k < length row.new → slice_index row.new k ≡ code_of
        (sum_of (weights_of weights) (slice_index red.now k) (slice_index green.now k) (slice_index blue.now k)) }
{
    sum_row(weights, red, green, blue, sums);
    code_row(&tables.code, &tables.above, sums, row);
}

/// The code values X', Y' and Z' of a row of pixels. `rgb` has six bytes for each: red, green and blue,
/// the higher byte first. `scratch` is room for the work, whose values mean nothing before and behind.
pub fn to_xyz_row(
    tables: &Tables,
    rgb: &[u8],
    scratch: &mut [u32],
    x: &mut [u16],
    y: &mut [u16],
    z: &mut [u16],
)
    requires whole { length rgb.now ≡ 6 * length x.old }
    requires same_y { length y.old ≡ length x.old }
    requires same_z { length z.old ≡ length x.old }
    requires room { 4 * length x.old ≤ length scratch.old }
    ensures x { x.new ≡ xyz_plane tables.now x_weights rgb.now }
    ensures y { y.new ≡ xyz_plane tables.now y_weights rgb.now }
    ensures z { z.new ≡ xyz_plane tables.now z_weights rgb.now }
{
    let pixels = x.len();
    let (red, rest) = scratch.split_at_mut(pixels);
    let (green, rest) = rest.split_at_mut(pixels);
    let (blue, rest) = rest.split_at_mut(pixels);
    let (sums, _) = rest.split_at_mut(pixels);
    colour_row(tables, rgb, 0, red);
    colour_row(tables, rgb, 2, green);
    colour_row(tables, rgb, 4, blue);
    component_row(tables, X, red, green, blue, sums, x);
    component_row(tables, Y, red, green, blue, sums, y);
    component_row(tables, Z, red, green, blue, sums, z);
}
