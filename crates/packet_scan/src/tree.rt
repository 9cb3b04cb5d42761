ghost use Rattle.packet_scan.specs.SmallTrees.{HasNoMore};

use crate::node::Node;
use crate::place::Place;
use codec_terms::HeadRefusal;
use header_bits::BitPlace;

/// What is known of a tag tree over at most four columns and rows of leaves (B.10.2). The nodes of each level stand in
/// raster order.
#[derive(Debug, Drop)]
pub(crate) struct SmallTree {
    pub(crate) columns: usize,
    pub(crate) rows: usize,
    pub(crate) top: Node,
    pub(crate) parents: [Node; 4],
    pub(crate) leaves: [Node; 16],
    ghost no_more: { HasNoMore columns rows top parents },
}

impl SmallTree {
    ghost use Rattle.std.specs.Prelude.{◌≡◌, ◌+◌, ◌*◌, ◌<◌, IfOk, IfErr, OnOk, Ok, Err};
    ghost use Rattle.codec_terms.specs.TagTree.{leaf_value};
    ghost use Rattle.codec_terms.specs.PacketReading.{leaf_read};
    ghost use Rattle.packet_scan.specs.Trees.{tree_of};

    /// Reads the bits of a leaf for this threshold, and gives its value, where it is then known.
    // Beside the call it is a sixth faster: the inclusion tree's threshold is 1, so each node wants one bit at most.
    #[inline(always)]
    pub(crate) fn read(
        &mut self,
        bytes: &[u8],
        place: &mut BitPlace,
        at: Place,
        threshold: u8,
    ) -> Result<Option<u32>, HeadRefusal>
        requires column { at.x < self.old.columns }
        requires row { at.y < self.old.rows }
        ensures read { OnOk result (
            leaf_read bytes.now threshold (at.y * self.old.columns + at.x) (tree_of self.old) place.old
            ≡ Ok (tree_of self.new, place.new)) }
        ensures value { IfOk result (λ value. value ≡ leaf_value (tree_of self.new) (at.y * self.old.columns + at.x)) }
        ensures refused { IfErr result (λ refusal.
            leaf_read bytes.now threshold (at.y * self.old.columns + at.x) (tree_of self.old) place.old ≡ Err refusal) }
        ensures columns { self.new.columns ≡ self.old.columns }
        ensures rows { self.new.rows ≡ self.old.rows }
    {
        let half = self.columns.div_ceil(2);
        let above = at.y / 2 * half + at.x / 2;
        let leaf = at.y * self.columns + at.x;
        let low = self.top.read(bytes, place, 0, threshold)?;
        let low = self.parents[above].read(bytes, place, low, threshold)?;
        let value = self.leaves[leaf].read_value(bytes, place, low, threshold)?;
        Ok(value)
    }
}
