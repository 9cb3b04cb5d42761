ghost use Rattle.std.specs.Prelude.{◌≡◌, ◌≤◌, ◌+◌, ◌-◌, MatchBool, ℕ, ℤ, List};
ghost use Rattle.codec_terms.specs.declared.picture.Shape.{Shape};
ghost use Rattle.codec_laws.specs.Bounds.{IsPictureSize};
ghost use Rattle.block_packets.specs.Coded.{AreCodedBlocks};
ghost use Rattle.cinema_stream.specs.Books.{IsBookOf};
ghost use Rattle.least_cut.specs.Below.{AreNoneBelow, IsBest};
ghost use Rattle.least_cut.specs.Searches.{IsSearch};

use crate::within::is_within;
use cinema_stream::SizeBook;
use cut_floors::FloorBook;
use floor_laws::{search_laws, stop_laws};
use mast_base::Limits;
use picture_blocks::Blocks;

/// A search that goes down from cut to cut: the least cut within the limits of those that it has looked at, where there is
/// one, and the sizes at the last of them. The floors stand at the same cut, or at the one below where a floor is above its
/// limit.
#[derive(Clone, Copy, Debug)]
pub(crate) struct Search {
    pub(crate) best: Option<u32>,
    pub(crate) sizes: SizeBook,
    floors: FloorBook,
}

/// The size of the picture whose code-blocks these are.
pub(crate) fn size_laws(blocks: &Blocks)
    ensures { IsPictureSize blocks.now.shape }
{
    blocks.shape();
}

// The best where also the cut of these sizes was looked at, which is below all others.
fn best_with(best: Option<u32>, sizes: &SizeBook, limits: Limits) -> Option<u32>
    ensures { (first : ℕ) (shape : Shape) (q : List ℤ) → first ≤ 720 → sizes.now.cut ≤ first → IsBookOf shape q sizes.now
        → IsBest limits shape q (sizes.now.cut + 1) first best → IsBest limits shape q sizes.now.cut first result }
{
    search_laws();
    if is_within(sizes.sizes(), limits) {
        Some(sizes.cut())
    } else {
        best
    }
}

impl Search {
    /// A search that has looked at one cut, down to which the code-blocks are coded.
    pub(crate) fn at(blocks: &Blocks, limits: Limits, cut: u32) -> Search
        requires cut { cut ≤ 720 }
        requires of { (q : List ℤ) × AreCodedBlocks q cut blocks.now }
        ensures sizes { result.sizes.cut ≡ cut }
        ensures floors { result.floors.cut ≡ cut }
        ensures of { (q : List ℤ) → AreCodedBlocks q cut blocks.now → IsSearch limits cut blocks.now.shape q result }
    {
        size_laws(blocks);
        let sizes = SizeBook::at(blocks, cut);
        Search {
            best: best_with(None, &sizes, limits),
            sizes,
            floors: FloorBook::at(blocks, cut),
        }
    }

    /// Whether no cut below the last one is within the limits, so that there is none to look at.
    pub(crate) fn is_done(&self, limits: Limits) -> bool
        requires of { (first : ℕ) × (shape : Shape) × (q : List ℤ) × IsSearch limits first shape q self.now }
        ensures { (first : ℕ) (shape : Shape) (q : List ℤ) → IsSearch limits first shape q self.now
            → MatchBool result (AreNoneBelow limits shape q self.now.sizes.cut)
            ((1 ≤ self.now.sizes.cut) × (self.now.floors.cut ≡ self.now.sizes.cut)) }
    {
        stop_laws();
        self.floors.is_over(limits) || self.sizes.cut() == 0
    }

    /// The cut to look at next.
    pub(crate) fn next_cut(&self) -> u32
        requires { 1 ≤ self.now.sizes.cut }
        ensures { result ≡ self.now.sizes.cut - 1 }
    {
        self.sizes.cut() - 1
    }

    /// The search with the next cut, down to which the code-blocks are coded. Where a floor is above its limit there, its
    /// sizes aren't made.
    pub(crate) fn with_next(self, blocks: &Blocks, limits: Limits) -> Search
        requires above { 1 ≤ self.sizes.cut }
        requires level { self.floors.cut ≡ self.sizes.cut }
        requires of { (first : ℕ) × (q : List ℤ) × (IsSearch limits first blocks.now.shape q self
            × AreCodedBlocks q (self.sizes.cut - 1) blocks.now) }
        ensures floors { result.floors.cut ≡ self.sizes.cut - 1 }
        ensures of { (first : ℕ) (q : List ℤ) → IsSearch limits first blocks.now.shape q self
            → AreCodedBlocks q (self.sizes.cut - 1) blocks.now → IsSearch limits first blocks.now.shape q result }
    {
        let mut floors = self.floors;
        floors.raise(blocks);
        if floors.is_over(limits) {
            return Search { floors, ..self };
        }
        let mut sizes = self.sizes;
        sizes.raise(blocks);
        Search {
            best: best_with(self.best, &sizes, limits),
            sizes,
            floors,
        }
    }
}
