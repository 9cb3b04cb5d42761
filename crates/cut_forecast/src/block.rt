ghost use Rattle.std.specs.Prelude.{◌≤◌, length};

use crate::entropy::choice_bits;
use block_sets::BlockPlanes;

// What a packet's header says of a code-block that it includes, in units of 1/64 bit.
const HEADER: u64 = 26 * 64;

// Adds the samples of a bit-plane to a set, and counts them all.
fn unite(set: &mut [u64; 16], plane: &[u64; 16]) -> u32
    ensures { result ≤ 1024 }
{
    let mut count = 0;
    for w in 0..16usize {
        set[w] |= plane[w];
        count += set[w].count_ones();
    }
    count
}

// The bits of a bit-plane, in units of 1/64 bit, where `older` of a code-block's samples are significant before it
// and `all` behind it: where the new ones are, their signs, and a bit of each older one. The coder's contexts save 7 %
// of the first and 3 % of the last, as was measured on pictures.
fn plane_bits(terms: &[u32; 1025], samples: usize, older: u32, all: u32) -> u64
    requires samples { samples ≤ 1024 }
    requires all { all ≤ 1024 }
{
    let room = samples.saturating_sub(older as usize);
    let new = all.saturating_sub(older);
    let places = u64::from(choice_bits(terms, room, new as usize)) * 93 / 100;
    places + 64 * u64::from(new) + 62 * u64::from(older)
}

/// Adds the bits of each of a code-block's bit-planes, in units of 1/64 bit.
pub(crate) fn add_block(terms: &[u32; 1025], block: &BlockPlanes<'_>, bits: &mut [u64; 15])
    requires { length block.now.planes.now ≤ 15 }
{
    let samples = block.width * block.height;
    let mut significant = [0u64; 16];
    let mut older = 0;
    let mut header = HEADER;
    for p in (0..block.planes.len()).rev() {
        let all = unite(&mut significant, &block.planes[p]);
        let plane = plane_bits(terms, samples, older, all).saturating_add(header);
        bits[p] = bits[p].saturating_add(plane);
        older = all;
        header = 0;
    }
}
