ghost use Rattle.std.specs.Prelude.{◌≡◌, ◌≤◌, ◌-◌, ◌↔◌, IsTrue, ℤ, List};
ghost use Rattle.codec_terms.specs.declared.picture.Shape.{Shape};
ghost use Rattle.codec_laws.specs.Bounds.{IsPictureSize, FitBands};
ghost use Rattle.block_packets.specs.Coded.{AreCodedBlocks};
ghost use Rattle.floor_laws.specs.Floors.{IsOver};
ghost use Rattle.cut_floors.specs.Books.{IsFloorBookOf};

use crate::floors::{all_floors, resolution_floor};
use crate::parts::part_floor;
use block_packets::place_changed;
use floor_laws::next_floor_laws;
use mast_base::Limits;
use picture_blocks::Blocks;

/// The floors of a picture's codestream at a cut: the least that it and its tile-parts can be long there and at all lower
/// cuts. They go down from cut to cut, of which each changes the packets of one resolution of one component. It takes no
/// memory.
#[derive(Clone, Copy, Debug, PartialEq, Eq)]
pub struct FloorBook {
    cut: u32,
    // the floors of the packets of each resolution of each component together, six for each component
    packets: [u32; 18],
}

impl FloorBook {
    /// The floors at any cut, of code-blocks that are coded as far down as it keeps them.
    pub fn at(blocks: &Blocks, cut: u32) -> FloorBook
        requires cut { cut ≤ 720 }
        requires of { (q : List ℤ) × AreCodedBlocks q cut blocks.now }
        ensures cut { result.cut ≡ cut }
        ensures of { (q : List ℤ) → AreCodedBlocks q cut blocks.now → IsFloorBookOf blocks.now.shape q result }
    {
        FloorBook {
            cut,
            packets: all_floors(blocks, blocks.shape(), cut),
        }
    }

    /// To the cut below its own, which keeps more, and down to which the code-blocks are coded. Only the one resolution
    /// that changes is walked.
    pub fn raise(&mut self, blocks: &Blocks)
        requires above { 1 ≤ self.old.cut }
        requires of { (q : List ℤ)
            × (AreCodedBlocks q (self.old.cut - 1) blocks.now × IsFloorBookOf blocks.now.shape q self.old) }
        ensures cut { self.new.cut ≡ self.old.cut - 1 }
        ensures of { (q : List ℤ) → AreCodedBlocks q (self.old.cut - 1) blocks.now
            → IsFloorBookOf blocks.now.shape q self.old → IsFloorBookOf blocks.now.shape q self.new }
    {
        next_floor_laws();
        let shape = blocks.shape();
        let cut = self.cut - 1;
        let place = place_changed(cut);
        self.packets[place as usize] = resolution_floor(blocks, shape, place / 6, place % 6, cut);
        self.cut = cut;
    }

    /// Whether the codestream is above the limits, or one of its tile-parts, at its cut and at all lower ones: then a
    /// search for the least cut within the limits may stop.
    pub fn is_over(&self, limits: Limits) -> bool
        requires of { (shape : Shape) × (q : List ℤ)
            × (IsPictureSize shape × FitBands shape q × IsFloorBookOf shape q self.now) }
        ensures { (shape : Shape) (q : List ℤ) → IsFloorBookOf shape q self.now
            → (IsTrue result ↔ IsOver limits shape q self.now.cut) }
    {
        let first = part_floor(&self.packets, 0);
        let second = part_floor(&self.packets, 1);
        let third = part_floor(&self.packets, 2);
        limits.frame < 145 + first + second + third
            || limits.component < first
            || limits.component < second
            || limits.component < third
    }
}
