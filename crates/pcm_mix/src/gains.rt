ghost use Rattle.std.specs.Prelude.{◌≡◌, ◌≤◌, ◌<◌, ◌*◌, ◌^◌, ◌∷◌, [], length, All};
ghost use Rattle.film_project.specs.Rules.{FitsGain};
ghost use Rattle.pcm_mix.specs.Mix.{gained};
ghost use Rattle.pcm_mix.specs.Sums.{value_at, AreRaised, AreSamples, AreWithin};

use film_project::Gain;

// Samples and sums have the channels of a frame in turn: `inputs` and `outputs` of them, `count` times. A product is
// below 2^42, and a frame has 1000 clips of 256 gains at most, so that 64 bits hold each sum.

/// Adds one channel of the samples, times its gain, to one channel of the sums.
fn add_gain(
    gain: Gain,
    count: usize,
    samples: &[i32],
    inputs: usize,
    sums: &mut [i64],
    outputs: usize,
)
    requires from { gain.from < inputs }
    requires to { gain.to < outputs }
    requires samples { length samples.now ≡ count * inputs }
    requires sums { length sums.old ≡ count * outputs }
    requires small { AreSamples samples.now }
    requires room { AreWithin (2 ^ 62) count outputs sums.old }
    ensures { AreRaised (gained (value_at samples.now) inputs (gain ∷ [])) count outputs sums.old sums.new }
{
    let (from, to) = (usize::from(gain.from), usize::from(gain.to));
    let factor = i64::from(gain.gain);
    for i in 0..count {
        sums[i * outputs + to] += i64::from(samples[i * inputs + from]) * factor;
    }
}

/// Adds the samples to the sums by all gains.
pub(crate) fn add_gains(
    gains: &[Gain],
    count: usize,
    samples: &[i32],
    inputs: usize,
    sums: &mut [i64],
    outputs: usize,
)
    requires few { length gains.now ≤ 256 }
    requires fits { All (FitsGain inputs outputs) gains.now }
    requires samples { length samples.now ≡ count * inputs }
    requires sums { length sums.old ≡ count * outputs }
    requires small { AreSamples samples.now }
    requires room { AreWithin (2 ^ 61) count outputs sums.old }
    ensures { AreRaised (gained (value_at samples.now) inputs gains.now) count outputs sums.old sums.new }
{
    for gain in gains {
        add_gain(*gain, count, samples, inputs, sums, outputs);
    }
}
