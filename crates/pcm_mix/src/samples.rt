ghost use Rattle.std.specs.Prelude.{◌≡◌, ◌≤◌, ◌+◌, ◌*◌, ◌^◌, ℕ, length, flat_map, unsigned_abs};
ghost use Rattle.pcm_mix.specs.Mix.{sample_at, sample_bytes, saturated, value_of};
ghost use Rattle.pcm_mix.specs.Sums.{value_at, AreSamples};

/// The sample of three bytes, the lowest first.
fn sample_of(low: u8, middle: u8, high: u8) -> i32
    ensures value { result ≡ value_of (low + 256 * middle + 65536 * high) }
    ensures small { unsigned_abs result ≤ 2 ^ 23 }
{
    // The shift fills the upper byte with the sign.
    i32::from_le_bytes([0, low, middle, high]) >> 8
}

/// The samples of a frame's bytes.
pub(crate) fn decode(bytes: &[u8], samples: &mut [i32])
    requires { length bytes.now ≡ 3 * length samples.old }
    ensures values { (k : ℕ) → value_at samples.new k ≡ sample_at bytes.now k }
    ensures small { AreSamples samples.new }
{
    for k in 0..samples.len() {
        samples[k] = sample_of(bytes[3 * k], bytes[3 * k + 1], bytes[3 * k + 2]);
    }
}

/// The sample of a sum, which is in units of 1/65536.
fn saturated(sum: i64) -> i32
    ensures value { result ≡ saturated sum }
    ensures small { unsigned_abs result ≤ 2 ^ 23 }
{
    (sum >> 16).clamp(-0x80_0000, 0x7f_ffff) as i32
}

/// The three bytes of a sample, the lowest first.
fn sample_bytes(sample: i32) -> [u8; 3]
    requires { unsigned_abs sample ≤ 2 ^ 23 }
    ensures { result ≡ sample_bytes sample }
{
    let [low, middle, high, _] = sample.to_le_bytes();
    [low, middle, high]
}

/// The bytes of the samples of these sums.
pub(crate) fn encode(sums: &[i64], bytes: &mut [u8])
    requires { length bytes.old ≡ 3 * length sums.now }
    ensures { bytes.new ≡ flat_map (λ sum. sample_bytes (saturated sum)) sums.now }
{
    for k in 0..sums.len() {
        let [low, middle, high] = sample_bytes(saturated(sums[k]));
        bytes[3 * k] = low;
        bytes[3 * k + 1] = middle;
        bytes[3 * k + 2] = high;
    }
}
