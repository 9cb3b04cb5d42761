ghost use Rattle.std.specs.Prelude.{◌≡◌, ◌+◌, ◌*◌, ◌%◌, ◌^◌, ◌<◌, ◌≤◌, ℕ, length, slice_index_or, pos, Bool};
ghost use Rattle.codec_terms.specs.BlockReading.{Area, Known, known_values, signed};
ghost use Rattle.block_reading.specs.Known.{HasRoom, value_in};
ghost use Rattle.block_reading.specs.Bounds.{IsBelow};

use crate::room::ReadRoom;

// A magnitude of 31 bits and its sign as a value.
fn signed(negative: bool, magnitude: u32) -> i32
    ensures { result ≡ signed (negative, magnitude % 2 ^ 31) }
{
    let value = (magnitude & 0x7fff_ffff) as i32;
    if negative { -value } else { value }
}

// The values of a row.
fn put_row(room: &ReadRoom, width: usize, y: usize, out: &mut [i32])
    requires narrow { width ≤ 32 }
    requires low { y < 32 }
    requires length { y * width + width ≤ length out.old }
    ensures row { (x : ℕ) → x < width → slice_index_or out.new (y * width + x) (pos 0) ≡ value_in room.now x y }
    ensures others { (n : ℕ) → n < y * width → slice_index_or out.new n (pos 0) ≡ slice_index_or out.old n (pos 0) }
    ensures length { length out.new ≡ length out.old }
{
    let start = y * width;
    let first = y / 4 * 128 + y % 4;
    for x in 0..width {
        let cell = first + 4 * x;
        out[start + x] = signed(room.negative[cell], room.magnitudes[cell]);
    }
}

/// The values of all samples, in raster order.
pub(crate) fn put_values(room: &ReadRoom, width: usize, height: usize, out: &mut [i32])
    requires narrow { width ≤ 32 }
    requires low { height ≤ 32 }
    requires length { length out.old ≡ width * height }
    ensures { (a : Area) (k : Known) → a.width ≡ width → a.height ≡ height → HasRoom a room.now k → IsBelow (2 ^ 31) k
        → out.new ≡ known_values k }
{
    for y in 0..height {
        put_row(room, width, y, out);
    }
}
