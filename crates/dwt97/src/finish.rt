ghost use Rattle.std.specs.Prelude.{◌≡◌, ◌+◌, ◌<◌, ◌≤◌, length, map};
ghost use Rattle.codec_terms.specs.Wavelet.{clamped};
ghost use Rattle.wave_laws.specs.Rows.{low_factor, high_factor, scaled_row, low_samples, high_samples, low_half, high_half};
ghost use Rattle.dwt97.specs.Lifting.{AreBounded};

use crate::across::{first_across, fourth_across, second_across, third_across};
use crate::halves::{clamp_high, clamp_low, take_high_row, take_low_row};

// The five steps and the clamp on a line's even and odd samples.
fn across(even: &mut [i32], odd: &mut [i32])
    requires some { 0 < length odd.old }
    requires least { length odd.old ≤ length even.old }
    requires most { length even.old ≤ length odd.old + 1 }
    ensures low { AreBounded 250000000 even.old → AreBounded 250000000 odd.old
        → even.new ≡ map clamped (low_samples even.old odd.old) }
    ensures high { AreBounded 250000000 even.old → AreBounded 250000000 odd.old
        → odd.new ≡ map clamped (high_samples even.old odd.old) }
{
    first_across(odd, even);
    second_across(even, odd);
    third_across(odd, even);
    fourth_across(even, odd);
    clamp_low(even);
    clamp_high(odd);
}

/// The samples of LL and HL that a row gives which was low in its columns, after the four steps of these.
pub fn finish_low_row(row: &[i32], low: &mut [i32], high: &mut [i32])
    requires whole { length row.now ≡ length low.old + length high.old }
    requires some { 0 < length high.old }
    requires least { length high.old ≤ length low.old }
    requires most { length low.old ≤ length high.old + 1 }
    ensures low { AreBounded 300000000 row.now → low.new ≡ low_half (scaled_row low_factor row.now) }
    ensures high { AreBounded 300000000 row.now → high.new ≡ high_half (scaled_row low_factor row.now) }
{
    take_low_row(row, low, high);
    across(low, high);
}

/// The samples of LH and HH that a row gives which was high in its columns.
pub fn finish_high_row(row: &[i32], low: &mut [i32], high: &mut [i32])
    requires whole { length row.now ≡ length low.old + length high.old }
    requires some { 0 < length high.old }
    requires least { length high.old ≤ length low.old }
    requires most { length low.old ≤ length high.old + 1 }
    ensures low { AreBounded 200000000 row.now → low.new ≡ low_half (scaled_row high_factor row.now) }
    ensures high { AreBounded 200000000 row.now → high.new ≡ high_half (scaled_row high_factor row.now) }
{
    take_high_row(row, low, high);
    across(low, high);
}
