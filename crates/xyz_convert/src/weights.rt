ghost use Rattle.std.specs.Prelude.{◌≡◌, ◌≤◌, ◌^◌};
ghost use Rattle.xyz_convert.specs.Entries.{sum_of, most_sum};
ghost use Rattle.xyz_convert.specs.Weighing.{weights_of, IsLight};

/// What red, green and blue add to a component, in units of 2^-16.
#[derive(Clone, Copy, Debug)]
pub(crate) struct Weights {
    pub(crate) red: u32,
    pub(crate) green: u32,
    pub(crate) blue: u32,
}

pub(crate) const X: Weights = Weights {
    red: 27031,
    green: 23434,
    blue: 11825,
};

pub(crate) const Y: Weights = Weights {
    red: 13938,
    green: 46868,
    blue: 4730,
};

pub(crate) const Z: Weights = Weights {
    red: 1267,
    green: 7811,
    blue: 62279,
};

/// The weighed sum of a pixel's lights. High and low halves are weighed apart, so that 32 bits hold all products.
pub(crate) fn sum_of(weights: Weights, red: u32, green: u32, blue: u32) -> u32
    requires weights { IsLight weights }
    requires red { red ≤ 2 ^ 24 }
    requires green { green ≤ 2 ^ 24 }
    requires blue { blue ≤ 2 ^ 24 }
    ensures sum { result ≡ sum_of (weights_of weights) red green blue }
    ensures within { result ≤ most_sum }
{
    let high = weights.red * (red >> 12)
        + weights.green * (green >> 12)
        + weights.blue * (blue >> 12);
    let low = weights.red * (red & 0xfff)
        + weights.green * (green & 0xfff)
        + weights.blue * (blue & 0xfff);
    high + (low >> 12) >> 4
}
