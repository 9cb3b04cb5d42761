ghost use Rattle.std.specs.Prelude.{◌≡◌, ◌*◌, ◌^◌, ◌<◌, ◌≤◌};
ghost use Rattle.codec_terms.specs.Colour.{fifth_root, fifths};

fn fifth_power(root: u32) -> u128
    requires { root < 2 ^ 25 }
    ensures { result ≡ root ^ 5 }
{
    let root = u128::from(root);
    let square = root * root;
    square * square * root
}

/// The greatest number of 25 bits whose fifth power is at most `n`.
fn fifth_root(n: u128) -> u32
    ensures root { result ≡ fifth_root n }
    ensures narrow { result < 2 ^ 25 }
{
    let mut root: u32 = 0;
    for bit in (0..25u32).rev() {
        let next = root + (1 << bit);
        if fifth_power(next) <= n {
            root = next;
        }
    }
    root
}

/// A number to the power of so many fifths. Both count in units of 2^-24.
pub(crate) fn fifths(power: u8, base: u32) -> u32
    requires least_power { 11 ≤ power }
    requires greatest_power { power ≤ 13 }
    requires narrow { base < 2 ^ 25 }
    ensures { result ≡ fifths power base }
{
    let wide = u128::from(base);
    let radicand = match power {
        11 => wide << 96,
        12 => wide * wide << 72,
        _ => wide * wide * wide << 48,
    };
    let square = u64::from(base) * u64::from(base) >> 24;
    (square * u64::from(fifth_root(radicand)) >> 24) as u32
}
