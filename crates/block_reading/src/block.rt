ghost use Rattle.std.specs.Prelude.{◌≡◌, ◌*◌, ◌<◌, ◌≤◌, ◌+◌, ◌-◌, List, ℕ, length};
ghost use Rattle.codec_terms.specs.BlockReading.{block_read};
ghost use Rattle.block_sets.specs.Sets.{IsSet};
ghost use Rattle.block_sets.specs.Planes.{all_samples};
ghost use Rattle.block_reading.specs.Known.{area_in, HasKnown, HasRoom};
ghost use Rattle.block_reading.specs.Order.{read_so_far};

use crate::field::{Field, Size};
use crate::pass::read_pass;
use crate::room::{ReadRoom, begin};
use crate::values::put_values;
use block_contexts::zero_codes;
use block_sets::all_samples;
use codec_terms::BandKind;
use mq_coder::Reader;

// Coding pass `n`, where `samples` has all samples of the block.
fn read_next(size: &Size, samples: &[u64; 16], n: u32, reader: &mut Reader<'_>, room: &mut ReadRoom)
    requires n { n + 2 < 3 * size.now.planes }
    requires all { IsSet size.now.width size.now.height (all_samples size.now.width size.now.height) samples.now }
    ensures { (codeword : List ℕ) → HasKnown (area_in size.now) reader.old room.old (read_so_far (area_in size.now) size.now.planes n codeword)
        → HasKnown (area_in size.now) reader.new room.new (read_so_far (area_in size.now) size.now.planes (n + 1) codeword) }
{
    let field = Field {
        kind: size.kind,
        width: size.width,
        height: size.height,
        zeros: zero_codes(size.kind),
        samples,
        plane: size.planes - 1 - (n + 2) / 3,
    };
    read_pass(&field, reader, room, (n + 2) % 3);
}

// The first so many passes.
fn read_passes(size: &Size, passes: u32, codeword: &[u8], room: &mut ReadRoom)
    requires { passes ≤ 3 * size.now.planes - 2 }
    ensures { HasRoom (area_in size.now) room.new (read_so_far (area_in size.now) size.now.planes passes codeword.now) }
{
    begin(room);
    let mut samples = [0; 16];
    all_samples(size.width, size.height, &mut samples);
    let mut reader = Reader::new(codeword);
    for n in 0..passes {
        read_next(size, &samples, n, &mut reader, room);
    }
}

/// The values of a code-block of 1 to 32 columns and rows from so many coding passes of its codeword, in raster order; the
/// first pass is that of the highest of so many bit-planes. What is asked for beyond the passes that these have isn't read.
pub fn read_block(
    kind: BandKind,
    width: u8,
    height: u8,
    planes: u8,
    passes: u8,
    codeword: &[u8],
    room: &mut ReadRoom,
    out: &mut [i32],
)
    requires narrow { width ≤ 32 }
    requires low { height ≤ 32 }
    requires planes { planes ≤ 31 }
    requires length { length out.old ≡ width * height }
    ensures { out.new ≡ block_read (record { kind = kind; width = width; height = height }) planes passes codeword.now }
{
    let size = Size {
        kind,
        width: width as usize,
        height: height as usize,
        planes: planes as u32,
    };
    let all = (3 * size.planes).saturating_sub(2);
    read_passes(&size, all.min(passes as u32), codeword, room);
    put_values(room, size.width, size.height, out);
}
