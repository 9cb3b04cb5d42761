ghost use Rattle.std.specs.Prelude.{◌≡◌, ◌+◌, ◌<◌, ◌≤◌, length, map};
ghost use Rattle.std.specs.Int.{w32};
ghost use Rattle.codec_terms.specs.Wavelet.{scaled, clamped, even_samples, odd_samples};
ghost use Rattle.wave_laws.specs.Rows.{low_factor, high_factor, scaled_row};
ghost use Rattle.dwt97.specs.Lifting.{FitsScaled};

use crate::scaling::{high, limited, low};

/// Takes a low row apart into its even and its odd samples, each scaled.
#[inline(never)]
pub(crate) fn take_low_row(row: &[i32], even: &mut [i32], odd: &mut [i32])
    requires whole { length row.now ≡ length even.old + length odd.old }
    requires least { length odd.old ≤ length even.old }
    requires most { length even.old ≤ length odd.old + 1 }
    ensures even { FitsScaled w32 low_factor row.now → even.new ≡ even_samples (scaled_row low_factor row.now) }
    ensures odd { FitsScaled w32 low_factor row.now → odd.new ≡ odd_samples (scaled_row low_factor row.now) }
{
    for i in 0..odd.len() {
        even[i] = low(row[2 * i]);
        odd[i] = low(row[2 * i + 1]);
    }
    let last = odd.len();
    if last < even.len() {
        even[last] = low(row[2 * last]);
    }
}

/// Takes a high row apart into its even and its odd samples, each scaled.
#[inline(never)]
pub(crate) fn take_high_row(row: &[i32], even: &mut [i32], odd: &mut [i32])
    requires whole { length row.now ≡ length even.old + length odd.old }
    requires least { length odd.old ≤ length even.old }
    requires most { length even.old ≤ length odd.old + 1 }
    ensures even { FitsScaled w32 high_factor row.now → even.new ≡ even_samples (scaled_row high_factor row.now) }
    ensures odd { FitsScaled w32 high_factor row.now → odd.new ≡ odd_samples (scaled_row high_factor row.now) }
{
    for i in 0..odd.len() {
        even[i] = high(row[2 * i]);
        odd[i] = high(row[2 * i + 1]);
    }
    let last = odd.len();
    if last < even.len() {
        even[last] = high(row[2 * last]);
    }
}

/// Scales low samples and brings them within the clamp.
#[inline(never)]
pub(crate) fn clamp_low(samples: &mut [i32])
    ensures { FitsScaled w32 low_factor samples.old → samples.new ≡ map clamped (map (scaled low_factor) samples.old) }
{
    for i in 0..samples.len() {
        samples[i] = limited(low(samples[i]));
    }
}

/// Scales high samples and brings them within the clamp.
#[inline(never)]
pub(crate) fn clamp_high(samples: &mut [i32])
    ensures { FitsScaled w32 high_factor samples.old → samples.new ≡ map clamped (map (scaled high_factor) samples.old) }
{
    for i in 0..samples.len() {
        samples[i] = limited(high(samples[i]));
    }
}
