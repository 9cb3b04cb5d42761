ghost use Rattle.std.specs.Prelude.{◌≡◌, ◌<◌, ◌^◌, IfOk};
ghost use Rattle.codec_terms.specs.TagTree.{is_root};
ghost use Rattle.tag_tree.specs.Sizes.{same_tree, IsWhole};

use crate::grid::Grid;
use mast_base::NoMemory;
use std::alloc::Global;

// Whether a level is the root's.
fn is_root(columns: usize, rows: usize) -> bool
    ensures { result ≡ is_root columns rows }
{
    columns <= 1 && rows <= 1
}

/// The levels over so many columns and rows of leaves, the root's first, with this node everywhere.
pub(crate) fn levels_of<T: Copy + Drop>(
    alloc: Global,
    columns: usize,
    rows: usize,
    node: T,
) -> Result<Vec<Grid<T>>, NoMemory>
    requires columns { columns < 2 ^ 32 }
    requires rows { rows < 2 ^ 32 }
    ensures levels { IfOk result (λ levels. levels.items ≡ same_tree node columns rows) }
    ensures whole { IfOk result (λ levels. IsWhole columns rows levels.items) }
{
    let mut levels = Vec::new(alloc);
    if columns == 0 || rows == 0 {
        return Ok(levels);
    }
    let mut wide = columns;
    let mut high = rows;
    while !is_root(wide, high) {
        levels.insert(0, Grid::filled(alloc, wide, high, node)?)?;
        wide = wide.div_ceil(2);
        high = high.div_ceil(2);
    }
    levels.insert(0, Grid::filled(alloc, wide, high, node)?)?;
    Ok(levels)
}
