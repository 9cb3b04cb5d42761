ghost use Rattle.std.specs.Prelude.{◌<◌, ◌≤◌};

// The bits after the binary point of a logarithm.
const FRACTION: u32 = 18;

// The square of a number from 1 to 2, halved where it is 2 or more, and whether it was. Bit 31 is worth 1.
fn squared(mantissa: u32) -> (u32, u32) {
    let square = u64::from(mantissa) * u64::from(mantissa);
    let halved = u32::from(square >= 1 << 63);
    let mantissa = square >> (31 + halved) & 0xffff_ffff;
    (mantissa as u32, halved)
}

// The logarithm of n to base 2: each square of the mantissa gives a bit more.
fn log2(n: u32) -> u32
    requires { 0 < n }
{
    let leading = n.leading_zeros();
    let mut mantissa = n << leading;
    let mut log = 31 - leading;
    for _ in 0..FRACTION {
        let (square, bit) = squared(mantissa);
        mantissa = square;
        log = log << 1 | bit;
    }
    log
}

// n log n in units of 1/64 bit. Up to 1024 the product with all its fraction has 32 bits.
fn term(n: u32) -> u32 {
    match n {
        0 => 0,
        n => n.wrapping_mul(log2(n)).wrapping_add(1 << (FRACTION - 7)) >> (FRACTION - 6),
    }
}

/// The terms for all numbers of samples of a code-block.
pub(crate) fn terms() -> [u32; 1025] {
    let mut terms = [0u32; 1025];
    for n in 0..1025usize {
        terms[n] = term(n as u32);
    }
    terms
}

/// How many bits it takes to tell which `new` of `room` samples are meant, in units of 1/64 bit.
pub(crate) fn choice_bits(terms: &[u32; 1025], room: usize, new: usize) -> u32
    requires room { room ≤ 1024 }
    requires new { new ≤ 1024 }
{
    let rest = room.saturating_sub(new);
    terms[room]
        .saturating_sub(terms[new])
        .saturating_sub(terms[rest])
}
