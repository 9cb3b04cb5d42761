ghost use Rattle.std.specs.Prelude.{◌≡◌, ◌<◌, ◌^◌, length, filter};
ghost use Rattle.film_timeline.specs.Timeline.{fresh_cells, is_black};

use crate::cell::{Cell, is_repeat};

/// How many frames don't repeat the one before.
pub fn fresh_count(cells: &[Cell]) -> u32
    requires { length cells.now < 2 ^ 32 }
    ensures { result ≡ length (fresh_cells cells.now) }
{
    let mut count = 0;
    for f in 0..cells.len() as u32 {
        if !is_repeat(cells, f) {
            count += 1;
        }
    }
    count
}

/// How many frames are black.
pub fn black_count(cells: &[Cell]) -> u32
    requires { length cells.now < 2 ^ 32 }
    ensures { result ≡ length (filter is_black cells.now) }
{
    cells.iter().filter(|cell| **cell == Cell::Black).count() as u32
}
