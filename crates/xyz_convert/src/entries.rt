ghost use Rattle.std.specs.Prelude.{◌≡◌, ◌*◌, ◌+◌, ◌^◌, ◌<◌, ◌≤◌};
ghost use Rattle.xyz_convert.specs.Entries.{light_of, least_above, code_of, entry_start, code_entries, most_sum, IsTable};

use crate::power::fifths;

/// The light of a sample at full strength.
const WHOLE: u64 = 0x100_0000;

/// The luminance of the greatest code value and that of reference white, in units of 1/1000 cd/m².
const PEAK: u64 = 52_370;

const WHITE: u64 = 48_000;

/// Sums below this have an entry each in the table of code values, the others one for each 256.
pub(crate) const FINE: u32 = 0x1_0000;

/// The light of a sample, in units of 2^-24.
pub(crate) fn light_of(power: u8, sample: u32) -> u32
    requires least_power { 11 ≤ power }
    requires greatest_power { power ≤ 13 }
    requires sample { sample < 2 ^ 16 }
    ensures { result ≡ light_of power sample }
{
    fifths(power, (u64::from(sample) * WHOLE / 65_535) as u32)
}

/// The least sum whose code value is above `y`.
pub(crate) fn least_above(y: u32) -> u32
    requires { y < 4096 }
    ensures { result ≡ least_above y }
{
    let power = fifths(13, (u64::from(y + 1) * WHOLE / 4095) as u32);
    ((u64::from(power.max(1)) * PEAK + (WHITE - 1)) / WHITE) as u32
}

/// The code value of a sum, by the least sums above each code value.
pub(crate) fn code_of(above: &[u32], sum: u32) -> u16
    requires thresholds { IsTable least_above 4096 above.now }
    requires sum { sum ≤ most_sum }
    ensures { result ≡ code_of sum }
{
    above.partition_point(|least| *least <= sum) as u16
}

/// The least sum of an entry of the table of code values.
pub(crate) fn entry_start(at: u32) -> u32
    requires { at < code_entries }
    ensures start { result ≡ entry_start at }
    ensures within { result ≤ most_sum }
{
    if at < FINE { at } else { at - FINE << 8 }
}
