ghost use Rattle.std.specs.Prelude.{◌≡◌, ◌<◌, ◌≤◌, ◌/◌, ◌*◌, ◌^◌, unsigned_abs};
ghost use Rattle.codec_terms.specs.Quantiser.{with_sign_of};
ghost use Rattle.quantiser.specs.Quotients.{divided, lowest_quantised};
ghost use Rattle.quantiser.specs.Signed.{signed_value};

// The word of a magnitude and a sample's sign.
fn with_sign(magnitude: u32, sample: i32) -> u16
    requires { magnitude < 2 ^ 15 }
    ensures { signed_value result ≡ with_sign_of sample magnitude }
{
    let sign = if sample < 0 { 0x8000 } else { 0 };
    (sign + magnitude) as u16
}

// A fifth, rounded down. The product is above it by less than a part of 2^18.
fn fifth(n: u32) -> u32
    requires { n ≤ 2 ^ 16 }
    ensures { result ≡ n / 5 }
{
    n * 52429 >> 18
}

fn ninth(n: u32) -> u32
    requires { n ≤ 2 ^ 16 }
    ensures { result ≡ n / 9 }
{
    n * 58255 >> 19
}

// A ninth of a greater number, which takes a product of 64 bits.
fn wide_ninth(n: u32) -> u32
    requires { n ≤ 2 ^ 18 }
    ensures { result ≡ n / 9 }
{
    (u64::from(n) * 954437177 >> 33) as u32
}

/// The word of a sample in steps of five times a power of two.
pub(crate) fn in_fifths(shift: u32, sample: i32) -> u16
    requires least { 10 ≤ shift }
    requires greatest { shift ≤ 13 }
    requires bounds { unsigned_abs sample ≤ 2 ^ 26 }
    ensures { signed_value result ≡ divided (2 ^ shift * 5) sample }
{
    with_sign(fifth(sample.unsigned_abs() >> shift), sample)
}

/// The word of a sample in steps of nine times a power of two.
pub(crate) fn in_ninths(shift: u32, sample: i32) -> u16
    requires least { 10 ≤ shift }
    requires greatest { shift ≤ 11 }
    requires bounds { unsigned_abs sample ≤ 2 ^ 26 }
    ensures { signed_value result ≡ divided (2 ^ shift * 9) sample }
{
    with_sign(ninth(sample.unsigned_abs() >> shift), sample)
}

/// The same where the power is small, so that more is left of a sample.
pub(crate) fn in_wide_ninths(shift: u32, sample: i32) -> u16
    requires least { 8 ≤ shift }
    requires greatest { shift ≤ 9 }
    requires bounds { unsigned_abs sample ≤ 2 ^ 26 }
    ensures { signed_value result ≡ divided (2 ^ shift * 9) sample }
{
    with_sign(wide_ninth(sample.unsigned_abs() >> shift), sample)
}

/// The word of a sample of the lowest sub-band, which alone has some past its last bit-plane.
pub(crate) fn in_lowest(sample: i32) -> u16
    ensures { signed_value result ≡ lowest_quantised sample }
{
    with_sign((sample.unsigned_abs() >> 11).min(0x3fff), sample)
}
