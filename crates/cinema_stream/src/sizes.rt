ghost use Rattle.std.specs.Prelude.{◌≡◌, ◌<◌, ◌≤◌, ◌+◌, ◌^◌, ℕ, ℤ, List, [], ◌∷◌};
ghost use Rattle.block_packets.specs.Coded.{AreCodedBlocks};
ghost use Rattle.cinema_stream.specs.Lengths.{part_of};
ghost use Rattle.cinema_stream.specs.Sizes.{AreSizesOf};

use crate::book::SizeBook;
use picture_blocks::Blocks;

/// How many bytes a codestream has, and how many each of its three tile-parts.
#[derive(Clone, Copy, Debug, PartialEq, Eq)]
pub struct Sizes {
    pub whole: u32,
    pub parts: [u32; 3],
}

// The length of a component's tile-part, from the lengths of its resolutions' packets.
fn part_of(packets: &[u32; 18], component: usize) -> u32
    requires component { component < 3 }
    requires few { part_of packets.now component < 2 ^ 30 }
    ensures { result ≡ part_of packets.now component }
{
    let first = 6 * component;
    14 + packets[first]
        + packets[first + 1]
        + packets[first + 2]
        + packets[first + 3]
        + packets[first + 4]
        + packets[first + 5]
}

/// All sizes, from the lengths of the packets of each resolution of each component.
pub(crate) fn sizes_of(packets: &[u32; 18]) -> Sizes
    requires { (component : ℕ) → component < 3 → part_of packets.now component < 2 ^ 30 }
    ensures parts { result.parts ≡ part_of packets.now 0 ∷ part_of packets.now 1 ∷ part_of packets.now 2 ∷ [] }
    ensures whole { result.whole
        ≡ 145 + (part_of packets.now 0 + (part_of packets.now 1 + part_of packets.now 2)) }
{
    let first = part_of(packets, 0);
    let second = part_of(packets, 1);
    let third = part_of(packets, 2);
    Sizes {
        whole: 145 + first + second + third,
        parts: [first, second, third],
    }
}

/// The sizes of a picture's codestream at a cut, which take no memory. Each code-block is coded as far down as the cut
/// keeps it.
pub fn sizes_at(blocks: &Blocks, cut: u32) -> Sizes
    requires cut { cut ≤ 720 }
    requires of { (q : List ℤ) × AreCodedBlocks q cut blocks.now }
    ensures { (q : List ℤ) → AreCodedBlocks q cut blocks.now → AreSizesOf blocks.now.shape q cut result }
{
    SizeBook::at(blocks, cut).sizes()
}
