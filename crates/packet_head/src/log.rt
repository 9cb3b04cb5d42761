ghost use Rattle.std.specs.Prelude.{◌≡◌, ◌<◌};
ghost use Rattle.codec_terms.specs.Bits.{log2};

/// The logarithm to base 2, rounded down.
pub(crate) fn log2(n: u32) -> u32
    ensures log { result ≡ log2 n }
    ensures few { result < 32 }
{
    (64 - u64::from(n).leading_zeros()).saturating_sub(1)
}
