ghost use Rattle.std.specs.Prelude.{◌≡◌, ◌+◌, ◌*◌, ◌<◌, ◌≤◌, ℕ, List};
ghost use Rattle.codec_terms.specs.Mq.{Decoder};
ghost use Rattle.codec_terms.specs.BlockReading.{Area, nothing_known};
ghost use Rattle.block_words.specs.Words.{place_of};
ghost use Rattle.block_sets.specs.Places.{column_at, row_at};
ghost use Rattle.block_reading.specs.Known.{HasRoom};

/// Room for reading code-blocks, which may be used again: each sample's word, with a border of one sample on all sides, the
/// sets of significant samples and of those that the propagation pass visited, and magnitudes and signs in the order of the
/// scan.
#[derive(Debug, Drop)]
pub struct ReadRoom {
    pub(crate) words: [u16; 1156],
    pub(crate) significant: [u64; 16],
    pub(crate) visited: [u64; 16],
    pub(crate) magnitudes: [u32; 1024],
    pub(crate) negative: [bool; 1024],
}

impl ReadRoom {
    /// Room for any code-block.
    pub fn new() -> Self {
        ReadRoom {
            words: [0; 1156],
            significant: [0; 16],
            visited: [0; 16],
            magnitudes: [0; 1024],
            negative: [false; 1024],
        }
    }
}

/// The place of a sample's word.
pub(crate) fn place_of(w: usize, i: u32) -> usize
    requires w { w < 16 }
    requires i { i < 64 }
    ensures { result ≡ place_of (column_at w i) (row_at w i) }
{
    let i = i as usize;
    (w / 2 * 4 + i % 4 + 1) * 34 + (w % 2 * 16 + i / 4) + 1
}

/// The place of a sample's magnitude and sign.
pub(crate) fn cell_of(w: usize, i: u32) -> usize
    requires w { w < 16 }
    requires i { i < 64 }
    ensures { result ≡ w * 64 + i }
{
    w * 64 + i as usize
}

/// Makes this the room before a code-block, whatever it was.
pub(crate) fn begin(room: &mut ReadRoom)
    ensures { (a : Area) (codeword : List ℕ) → HasRoom a room.new (nothing_known a codeword) }
{
    room.words = [0; 1156];
    room.significant = [0; 16];
    room.visited = [0; 16];
    room.magnitudes = [0; 1024];
    room.negative = [false; 1024];
}
