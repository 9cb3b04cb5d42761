ghost use Rattle.std.specs.Prelude.{◌≡◌, ◌*◌, ◌<◌, length};
ghost use Rattle.codec_terms.specs.Grid.{grid_of};
ghost use Rattle.tag_tree.specs.Sizes.{IsTower};
ghost use Rattle.tag_tree.specs.Children.{raised_nodes};

use crate::grid::Grid;
use crate::node::Node;

/// Makes the levels, the root's first, those of a new tree over so many columns and rows of leaves, with these values.
pub(crate) fn fill(levels: &mut [Grid<Node>], columns: usize, rows: usize, values: &[u32])
    requires tower { IsTower columns rows levels.old }
    requires some_columns { 0 < length levels.old → 0 < columns }
    requires some_rows { 0 < length levels.old → 0 < rows }
    requires values { length values.now ≡ rows * columns }
    ensures { levels.new ≡ raised_nodes (length levels.old) (grid_of columns rows values.now) }
{
    if let Some((level, below)) = levels.split_first_mut() {
        fill(below, columns, rows, values);
        match below.first() {
            Some(next) => level.gather(next),
            None => level.set_values(values),
        }
    }
}
