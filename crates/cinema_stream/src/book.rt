ghost use Rattle.std.specs.Prelude.{◌≡◌, ◌<◌, ◌≤◌, ◌+◌, ◌-◌, ℤ, List, suc};
ghost use Rattle.codec_terms.specs.declared.picture.Shape.{Shape};
ghost use Rattle.codec_laws.specs.Bounds.{IsPictureSize};
ghost use Rattle.block_packets.specs.Coded.{AreCodedBlocks};
ghost use Rattle.cinema_stream.specs.Lengths.{HasLengths, AreNext};
ghost use Rattle.cinema_stream.specs.Sizes.{AreSizesOf};
ghost use Rattle.cinema_stream.specs.Books.{IsBookOf};

use crate::lengths::resolution_length;
use crate::sizes::{Sizes, sizes_of};
use block_packets::place_changed;
use codec_terms::Shape;
use picture_blocks::Blocks;

/// The sizes of a picture's codestream at a cut, and what those at the cuts next to it come from: only the packets of one
/// resolution of one component change. It takes no memory.
#[derive(Clone, Copy, Debug, PartialEq, Eq)]
pub struct SizeBook {
    cut: u32,
    // how long the packets of each resolution of each component are together, six for each component
    packets: [u32; 18],
    sizes: Sizes,
}

// How long the packets of each resolution of each component are together.
fn all_lengths(blocks: &Blocks, shape: Shape, cut: u32) -> [u32; 18]
    requires shape { shape ≡ blocks.now.shape }
    requires size { IsPictureSize shape }
    requires of { (q : List ℤ) × AreCodedBlocks q cut blocks.now }
    ensures { (q : List ℤ) → AreCodedBlocks q cut blocks.now → HasLengths blocks.now.shape q cut result }
{
    let mut packets = [0; 18];
    for place in 0..18u8 {
        packets[place as usize] = resolution_length(blocks, shape, place / 6, place % 6, cut);
    }
    packets
}

impl SizeBook {
    /// The sizes at cut 0, of code-blocks that are coded down to their lowest bit-planes.
    pub fn start(blocks: &Blocks) -> SizeBook
        requires { (q : List ℤ) × AreCodedBlocks q 0 blocks.now }
        ensures cut { result.cut ≡ 0 }
        ensures of { (q : List ℤ) → AreCodedBlocks q 0 blocks.now → IsBookOf blocks.now.shape q result }
    {
        SizeBook::at(blocks, 0)
    }

    /// The sizes at any cut, of code-blocks that are coded as far down as it keeps them.
    pub fn at(blocks: &Blocks, cut: u32) -> SizeBook
        requires cut { cut ≤ 720 }
        requires of { (q : List ℤ) × AreCodedBlocks q cut blocks.now }
        ensures cut { result.cut ≡ cut }
        ensures of { (q : List ℤ) → AreCodedBlocks q cut blocks.now → IsBookOf blocks.now.shape q result }
    {
        let packets = all_lengths(blocks, blocks.shape(), cut);
        SizeBook {
            cut,
            packets,
            sizes: sizes_of(&packets),
        }
    }

    /// The cut at which it stands.
    pub fn cut(&self) -> u32
        ensures { result ≡ self.now.cut }
    {
        self.cut
    }

    /// The sizes at its cut.
    pub fn sizes(&self) -> Sizes
        ensures { (shape : Shape) (q : List ℤ) → IsBookOf shape q self.now → AreSizesOf shape q self.now.cut result }
    {
        self.sizes
    }

    // To a cut next to its own, where `least` is the lower one of both.
    fn resize(&mut self, blocks: &Blocks, least: u32, cut: u32)
        requires next { AreNext least self.old.cut cut }
        requires of { (q : List ℤ) × (AreCodedBlocks q cut blocks.now × IsBookOf blocks.now.shape q self.old) }
        ensures cut { self.new.cut ≡ cut }
        ensures of { (q : List ℤ) → AreCodedBlocks q cut blocks.now → IsBookOf blocks.now.shape q self.old
            → IsBookOf blocks.now.shape q self.new }
    {
        let shape = blocks.shape();
        let place = place_changed(least);
        self.packets[place as usize] = resolution_length(blocks, shape, place / 6, place % 6, cut);
        self.sizes = sizes_of(&self.packets);
        self.cut = cut;
    }

    /// To the cut below its own, which keeps more, and down to which the code-blocks are coded.
    pub fn raise(&mut self, blocks: &Blocks)
        requires above { 1 ≤ self.old.cut }
        requires of { (q : List ℤ)
            × (AreCodedBlocks q (self.old.cut - 1) blocks.now × IsBookOf blocks.now.shape q self.old) }
        ensures cut { self.new.cut ≡ self.old.cut - 1 }
        ensures of { (q : List ℤ) → AreCodedBlocks q (self.old.cut - 1) blocks.now
            → IsBookOf blocks.now.shape q self.old → IsBookOf blocks.now.shape q self.new }
    {
        let cut = self.cut - 1;
        self.resize(blocks, cut, cut);
    }

    /// To the cut above its own, which keeps less.
    pub fn lower(&mut self, blocks: &Blocks)
        requires below { self.old.cut < 720 }
        requires of { (q : List ℤ)
            × (AreCodedBlocks q (self.old.cut + 1) blocks.now × IsBookOf blocks.now.shape q self.old) }
        ensures cut { self.new.cut ≡ self.old.cut + 1 }
        ensures of { (q : List ℤ) → AreCodedBlocks q (self.old.cut + 1) blocks.now
            → IsBookOf blocks.now.shape q self.old → IsBookOf blocks.now.shape q self.new }
    {
        let cut = self.cut;
        self.resize(blocks, cut, cut + 1);
    }
}
