ghost use Rattle.std.specs.Prelude.{◌≡◌, ◌-◌, ◌<◌, ◌↔◌, length, IsTrue, slice_get};

/// What is shown in a frame.
#[derive(Clone, Copy, Debug, PartialEq, Eq)]
pub enum Cell {
    Black,
    /// Frame `index` of the asset at place `asset` of the project's assets.
    Frame { asset: u32, index: u32 },
}

/// Whether frame `f` shows what the frame before it shows. The first frame is no repeat.
pub fn is_repeat(cells: &[Cell], f: u32) -> bool
    requires { f < length cells.now }
    ensures { IsTrue result ↔ ((0 < f) × (slice_get cells.now f ≡ slice_get cells.now (f - 1))) }
{
    let at = f as usize;
    at > 0 && cells[at] == cells[at - 1]
}
