ghost use Rattle.std.specs.Prelude.{◌≡◌, ◌+◌, ◌*◌, ◌<◌, ◌≤◌, ◌^◌, ℕ, length, map, take, slice_index_or};
ghost use Rattle.codec_terms.specs.Grid.{grid_of, grid_item};
ghost use Rattle.codec_terms.specs.TagTree.{new_node, no_node, new_tree, is_root};
ghost use Rattle.tag_tree.specs.Children.{least_child};
ghost use Rattle.packet_size.specs.SmallTrees.{half, IsSmall};
ghost use Rattle.packet_size.specs.Trees.{tree_of};

use crate::node::Node;
use crate::place::Place;
use crate::tree::SmallTree;

// The nodes of new leaves.
fn leaves_of(values: &[u16]) -> [Node; 16]
    requires { length values.now ≤ 16 }
    ensures { take (length values.now) result ≡ map new_node values.now }
{
    let mut leaves = [Node::none(); 16];
    for at in 0..values.len() {
        leaves[at] = Node::new(values[at]);
    }
    leaves
}

// The value of the node in this column and row.
fn value_at(nodes: &[Node], columns: usize, rows: usize, at: Place) -> u16
    requires column { at.x < columns }
    requires row { at.y < rows }
    requires nodes { rows * columns ≤ length nodes.now }
    ensures { result ≡ (grid_item no_node (grid_of columns rows nodes.now) at.x at.y).value }
{
    nodes[at.y * columns + at.x].value()
}

// A new node above those of a level, of which it has the least value.
fn least_of(nodes: &[Node], columns: usize, rows: usize, at: Place) -> Node
    requires small { IsSmall columns rows }
    requires column { 2 * at.x < columns }
    requires row { 2 * at.y < rows }
    requires nodes { rows * columns ≤ length nodes.now }
    ensures { result ≡ new_node (least_child (grid_of columns rows nodes.now) at.x at.y) }
{
    let left = 2 * at.x;
    let top = 2 * at.y;
    let right = (left + 1).min(columns - 1);
    let bottom = (top + 1).min(rows - 1);
    let upper = value_at(nodes, columns, rows, Place { x: left, y: top }).min(value_at(
        nodes,
        columns,
        rows,
        Place { x: right, y: top },
    ));
    let lower = value_at(nodes, columns, rows, Place { x: left, y: bottom }).min(value_at(
        nodes,
        columns,
        rows,
        Place {
            x: right,
            y: bottom,
        },
    ));
    Node::new(upper.min(lower))
}

// The new nodes above the leaves.
fn parents_of(leaves: &[Node], columns: usize, rows: usize) -> [Node; 4]
    requires small { IsSmall columns rows }
    requires nodes { rows * columns ≤ length leaves.now }
    ensures { (x y : ℕ) → x < half columns → y < half rows
        → slice_index_or result (y * half columns + x) no_node
        ≡ new_node (least_child (grid_of columns rows leaves.now) x y) }
{
    let mut parents = [Node::none(); 4];
    let wide = columns.div_ceil(2);
    let mut at = Place::FIRST;
    for number in 0..wide * rows.div_ceil(2) {
        parents[number] = least_of(leaves, columns, rows, at);
        at = at.next(wide);
    }
    parents
}

// Whether a level is the root's.
fn is_root(columns: usize, rows: usize) -> bool
    ensures { result ≡ is_root columns rows }
{
    columns <= 1 && rows <= 1
}

/// The tree over so many columns and rows of leaves, with these values in raster order, of which nothing was told.
pub(crate) fn new_tree(columns: usize, rows: usize, values: &[u16]) -> SmallTree
    requires small { IsSmall columns rows }
    requires values { length values.now ≡ rows * columns }
    ensures tree { tree_of result ≡ new_tree columns rows values.now }
    ensures columns { result.columns ≡ columns }
    ensures rows { result.rows ≡ rows }
{
    let leaves = leaves_of(values);
    if is_root(columns, rows) {
        return SmallTree {
            columns,
            rows,
            top: Node::none(),
            parents: [Node::none(); 4],
            leaves,
        };
    }
    let wide = columns.div_ceil(2);
    let high = rows.div_ceil(2);
    let parents = parents_of(&leaves, columns, rows);
    if is_root(wide, high) {
        return SmallTree {
            columns,
            rows,
            top: Node::none(),
            parents,
            leaves,
        };
    }
    let top = least_of(&parents, wide, high, Place::FIRST);
    SmallTree {
        columns,
        rows,
        top,
        parents,
        leaves,
    }
}
