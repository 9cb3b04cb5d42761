ghost use Rattle.std.specs.Prelude.{◌≡◌, ◌-◌, ◌≤◌, ◌++◌, IfOk, OnOk, map};
ghost use Rattle.std.specs.List.{range_with_len};
ghost use Rattle.std.specs.Option.{option_copied};
ghost use Rattle.film_timeline.specs.Timeline.{cells_of, shown_in, CoversAll};

use crate::cell::Cell;
use crate::change::next_change;
use crate::clip::{cell_of, find_last};
use film_project::{PictureClip, Project};
use mast_base::{List, NoMemory};
use std::alloc::{AllocFailed, Global};

/// What is shown in each frame of the project: of the clips that cover the frame the last one of
/// the list decides, and a frame without a clip is black.
pub fn cells(alloc: Global, project: &Project) -> Result<List<Cell>, NoMemory>
    ensures { IfOk result (λ cells. cells ≡ cells_of project.now) }
{
    let clips = project.picture.as_slice();
    let mut cells = Vec::with_capacity(alloc, project.frames as usize)?;
    let mut f = 0;
    // The clip is looked up only where one begins or ends.
    while f < project.frames {
        let until = next_change(clips, f, project.frames);
        let shown = find_last(clips, f);
        push_shown(&mut cells, shown.as_ref(), f, until)?;
        f = until;
    }
    Ok(List::from(cells))
}

/// Puts behind the cells what the clip shows from frame `from` on up to `until`.
fn push_shown(
    cells: &mut Vec<Cell>,
    shown: Option<&PictureClip>,
    from: u32,
    until: u32,
) -> Result<(), AllocFailed<Cell>>
    requires order { from ≤ until }
    requires covers { CoversAll (option_copied shown) from until }
    ensures { OnOk result (cells.new.items
        ≡ cells.old.items ++ map (shown_in (option_copied shown.entry)) (range_with_len from (until - from))) }
{
    for f in from..until {
        cells.push(cell_of(shown, f))?;
    }
    Ok(())
}
