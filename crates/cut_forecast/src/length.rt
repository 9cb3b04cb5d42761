ghost use Rattle.std.specs.Prelude.{◌<◌, ◌≤◌};

use mast_base::Limits;

// What a codestream has at the last cut, where no code-block is included: each part, and the whole.
const PART_BYTES: u32 = 73;

const WHOLE_BYTES: u32 = 364;

// How far the forecast may be above the least cut.
const MARGIN: u32 = 12;

// How long a codestream and its parts are by the forecast, in units of 1/64 bit.
#[derive(Debug, Drop)]
struct Length {
    whole: u64,
    parts: [u64; 3],
}

// Bytes in units of 1/64 bit.
fn of_bytes(bytes: u32) -> u64 {
    512 * u64::from(bytes)
}

// Adds a bit-plane of a component's sub-band, and tells whether a limit is passed.
fn add(length: &mut Length, component: usize, bits: u64, limits: Limits) -> bool
    requires { component < 3 }
{
    let part = length.parts[component].saturating_add(bits);
    length.parts[component] = part;
    length.whole = length.whole.saturating_add(bits);
    length.whole > of_bytes(limits.frame) || part > of_bytes(limits.component)
}

/// A little above the least cut at which a codestream is within the limits, if its bit-planes take these bits, in units
/// of 1/64 bit: those of each sub-band by its rank.
pub(crate) fn cut_within(bits: &[[u64; 15]; 48], limits: Limits) -> u32
    ensures { result ≤ 720 }
{
    let mut length = Length {
        whole: of_bytes(WHOLE_BYTES),
        parts: [of_bytes(PART_BYTES); 3],
    };
    for cut in (0..720u32).rev() {
        // From the cut above to this one a bit-plane more is kept, of the sub-band of this rank.
        let rank = cut as usize % 48;
        let plane = bits[rank][cut as usize / 48];
        if add(&mut length, (rank + 1) % 3, plane, limits) {
            return (cut + MARGIN).min(720);
        }
    }
    0
}
