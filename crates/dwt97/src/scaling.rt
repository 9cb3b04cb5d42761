ghost use Rattle.std.specs.Prelude.{◌≡◌, FitsSigned};
ghost use Rattle.std.specs.Int.{w32};
ghost use Rattle.codec_terms.specs.Wavelet.{scaled, clamped};
ghost use Rattle.wave_laws.specs.Rows.{low_factor, high_factor};

use crate::lifting::part;

// The greatest sample that the clamp leaves as it is.
const LIMIT: i32 = 0x400_0000;

/// A low sample, scaled (step 5).
#[inline(always)]
pub(crate) fn low(sample: i32) -> i32
    ensures { FitsSigned w32 (scaled low_factor sample) → result ≡ scaled low_factor sample }
{
    part(53274, sample)
}

/// A high sample, scaled.
#[inline(always)]
pub(crate) fn high(sample: i32) -> i32
    ensures { FitsSigned w32 (scaled high_factor sample) → result ≡ scaled high_factor sample }
{
    part(80621, sample)
}

/// The sample within the clamp.
#[inline(always)]
pub(crate) fn limited(sample: i32) -> i32
    ensures { result ≡ clamped sample }
{
    (-LIMIT).max(sample.min(LIMIT))
}
