ghost use Rattle.packet_size.specs.SmallTrees.{HasNoMore};

use crate::counter::BitCounter;
use crate::node::Node;
use crate::place::Place;

/// A tag tree over at most four columns and rows of leaves, whose bits are counted (B.10.2). The nodes of each level
/// stand in raster order.
#[derive(Debug, Drop)]
pub(crate) struct SmallTree {
    pub(crate) columns: usize,
    pub(crate) rows: usize,
    pub(crate) top: Node,
    pub(crate) parents: [Node; 4],
    pub(crate) leaves: [Node; 16],
    ghost no_more: { HasNoMore columns rows top parents },
}

impl SmallTree {
    ghost use Rattle.std.specs.Prelude.{◌≡◌, ◌+◌, ◌*◌, ◌<◌, ◌≤◌, ◌^◌};
    ghost use Rattle.codec_terms.specs.TagTree.{leaf_bits, leaf_told};
    ghost use Rattle.packet_size.specs.Counting.{counted};
    ghost use Rattle.packet_size.specs.Trees.{tree_of};

    /// Counts the bits of a leaf for this threshold.
    pub(crate) fn tell(&mut self, at: Place, threshold: u16, counter: &mut BitCounter)
        requires column { at.x < self.old.columns }
        requires row { at.y < self.old.rows }
        requires room { counter.old.bytes < 2 ^ 61 }
        ensures told { tree_of self.new ≡ leaf_told threshold (tree_of self.old) (at.y * self.old.columns + at.x) }
        ensures bits { counter.new ≡ counted counter.old
            (leaf_bits threshold (tree_of self.old) (at.y * self.old.columns + at.x)) }
        ensures few { counter.new.bytes ≤ counter.old.bytes + 2 ^ 18 }
        ensures columns { self.new.columns ≡ self.old.columns }
        ensures rows { self.new.rows ≡ self.old.rows }
    {
        let low = self.top.tell(0, threshold, counter);
        let half = self.columns.div_ceil(2);
        let above = at.y / 2 * half + at.x / 2;
        let low = self.parents[above].tell(low, threshold, counter);
        self.leaves[at.y * self.columns + at.x].tell(low, threshold, counter);
    }
}
