ghost use Rattle.std.specs.Prelude.{◌≡◌, ◌+◌, ◌*◌, ◌<◌, ◌≤◌, ◌^◌};

/// The column and the row of a node in its level.
#[derive(Clone, Copy, Debug)]
pub(crate) struct Place {
    pub(crate) x: usize,
    pub(crate) y: usize,
}

impl Place {
    /// The upper left one.
    pub(crate) const FIRST: Place = Place { x: 0, y: 0 };

    /// The place behind this one in raster order.
    pub(crate) fn next(self, columns: usize) -> Place
        requires column { self.x < columns }
        requires row { self.y < 2 ^ 32 }
        ensures number { result.y * columns + result.x ≡ self.y * columns + self.x + 1 }
        ensures column { result.x < columns }
        ensures row { result.y ≤ self.y + 1 }
    {
        if self.x + 1 < columns {
            Place {
                x: self.x + 1,
                y: self.y,
            }
        } else {
            Place {
                x: 0,
                y: self.y + 1,
            }
        }
    }
}
