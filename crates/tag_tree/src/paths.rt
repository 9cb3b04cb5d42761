ghost use Rattle.std.specs.Prelude.{◌≡◌, ◌++◌, ◌<◌, ◌≤◌, OnOk, OnErr, Bool, true, length, take};
ghost use Rattle.codec_terms.specs.TagTree.{path_bits, path_told, path_wants, path_pushed};
ghost use Rattle.tag_tree.specs.Sizes.{HasPlace};

use crate::found::Found;
use crate::grid::Grid;
use crate::node::Node;
use mast_base::{List, NoMemory};

/// The column and the row of a leaf.
#[derive(Clone, Copy, Debug)]
pub(crate) struct Leaf {
    pub(crate) x: usize,
    pub(crate) y: usize,
}

// The levels stand from the root's down to that of the leaf; `low` is what the parent has reached.

/// Appends the bits that tell of a leaf.
#[tactic(auto, unfolding(codec_terms::specs::TagTree::path_bits))]
pub(crate) fn push_bits(
    levels: &[Grid<Node>],
    leaf: Leaf,
    low: u32,
    threshold: u32,
    out: &mut List<bool>,
) -> Result<(), NoMemory>
    requires place { HasPlace leaf.x leaf.y levels.now }
    requires few { length levels.now ≤ 33 }
    ensures ok { OnOk result (out.new ≡ out.old ++ path_bits threshold low leaf.x leaf.y levels.now) }
    ensures err { OnErr result (take (length out.old) out.new ≡ out.old) }
{
    match levels {
        [] => Ok(()),
        [level, below @ ..] => {
            let depth = below.len();
            let node = level.get(leaf.x >> depth, leaf.y >> depth);
            node.push_bits(low, threshold, out)?;
            push_bits(
                below,
                leaf,
                node.told(low, threshold).reached(),
                threshold,
                out,
            )
        }
    }
}

/// Keeps that a leaf's bits were sent.
#[tactic(auto, unfolding(codec_terms::specs::TagTree::path_told))]
pub(crate) fn tell(levels: &mut [Grid<Node>], leaf: Leaf, low: u32, threshold: u32)
    requires place { HasPlace leaf.x leaf.y levels.old }
    requires few { length levels.old ≤ 33 }
    ensures { levels.new ≡ path_told threshold low leaf.x leaf.y levels.old }
{
    if let Some((level, below)) = levels.split_first_mut() {
        let depth = below.len();
        let told = level
            .get(leaf.x >> depth, leaf.y >> depth)
            .told(low, threshold);
        level.set(leaf.x >> depth, leaf.y >> depth, told);
        tell(below, leaf, told.reached(), threshold);
    }
}

/// Whether the leaf needs a further bit.
#[tactic(auto, unfolding(codec_terms::specs::TagTree::path_wants))]
pub(crate) fn wants(levels: &[Grid<Found>], leaf: Leaf, low: u32, threshold: u32) -> bool
    requires place { HasPlace leaf.x leaf.y levels.now }
    requires few { length levels.now ≤ 33 }
    ensures { result ≡ path_wants threshold low leaf.x leaf.y levels.now }
{
    match levels {
        [] => false,
        [level, below @ ..] => {
            let depth = below.len();
            let node = level.get(leaf.x >> depth, leaf.y >> depth);
            node.is_open(low, threshold) || wants(below, leaf, node.raised(low), threshold)
        }
    }
}

/// Takes a bit of the leaf.
#[tactic(auto, unfolding(codec_terms::specs::TagTree::path_pushed))]
pub(crate) fn push(levels: &mut [Grid<Found>], leaf: Leaf, low: u32, threshold: u32, bit: bool)
    requires place { HasPlace leaf.x leaf.y levels.old }
    requires few { length levels.old ≤ 33 }
    requires wanted { path_wants threshold low leaf.x leaf.y levels.old ≡ true }
    ensures { levels.new ≡ path_pushed bit threshold low leaf.x leaf.y levels.old }
{
    if let Some((level, below)) = levels.split_first_mut() {
        let depth = below.len();
        let node = level.get(leaf.x >> depth, leaf.y >> depth);
        if node.is_open(low, threshold) {
            level.set(leaf.x >> depth, leaf.y >> depth, node.with_bit(low, bit));
        } else {
            push(below, leaf, node.raised(low), threshold, bit);
        }
    }
}
