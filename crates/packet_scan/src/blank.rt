ghost use Rattle.std.specs.Prelude.{◌≡◌};
ghost use Rattle.codec_terms.specs.TagTree.{blank_tree, is_root};
ghost use Rattle.packet_scan.specs.SmallTrees.{IsSmall};
ghost use Rattle.packet_scan.specs.Trees.{tree_of, blank_where};

use crate::node::Node;
use crate::tree::SmallTree;

// Whether a level is the root's.
fn is_root(columns: usize, rows: usize) -> bool
    ensures { result ≡ is_root columns rows }
{
    columns <= 1 && rows <= 1
}

// A node of which nothing is known, where there is one.
fn blank_node(is_there: bool) -> Node
    ensures { result ≡ blank_where is_there }
{
    if is_there { Node::new() } else { Node::none() }
}

/// A tree over so many columns and rows of leaves of which no bit was read.
pub(crate) fn blank_tree(columns: usize, rows: usize) -> SmallTree
    requires small { IsSmall columns rows }
    ensures tree { tree_of result ≡ blank_tree columns rows }
    ensures columns { result.columns ≡ columns }
    ensures rows { result.rows ≡ rows }
{
    let has_parents = !is_root(columns, rows);
    let has_top = !is_root(columns.div_ceil(2), rows.div_ceil(2));
    SmallTree {
        columns,
        rows,
        top: blank_node(has_top),
        parents: [blank_node(has_parents); 4],
        leaves: [Node::new(); 16],
    }
}
