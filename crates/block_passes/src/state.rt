ghost use Rattle.std.specs.Prelude.{◌≡◌, ◌+◌, ◌<◌, ◌≤◌, ◌∷◌, [], ◌++◌, take};
ghost use Rattle.block_words.specs.Words.{place_of};
ghost use Rattle.block_sets.specs.Places.{column_at, row_at};

/// What the coding passes of a code-block hand on: each sample's word, with a border of one sample on all sides, the
/// sets of significant samples, of those that the propagation pass visited and of those that are refined for the first
/// time, and the decisions of the bit-plane.
#[derive(Debug, Drop)]
pub struct PassState {
    pub(crate) words: [u16; 1156],
    pub(crate) significant: [u64; 16],
    pub(crate) visited: [u64; 16],
    pub(crate) first: [u64; 16],
    pub(crate) decisions: [u8; 7680],
    pub(crate) count: usize,
    pub ghost counted: { count ≤ 7680 },
}

/// How far the word of each sample of a set's word is behind that of the first.
#[rattlefmt::skip]
static OFFSETS: [u8; 64] = [
    0, 34, 68, 102, 1, 35, 69, 103, 2, 36, 70, 104, 3, 37, 71, 105,
    4, 38, 72, 106, 5, 39, 73, 107, 6, 40, 74, 108, 7, 41, 75, 109,
    8, 42, 76, 110, 9, 43, 77, 111, 10, 44, 78, 112, 11, 45, 79, 113,
    12, 46, 80, 114, 13, 47, 81, 115, 14, 48, 82, 116, 15, 49, 83, 117,
];

/// The place of a sample's word.
pub(crate) fn place_of(w: usize, i: u32) -> usize
    requires w { w < 16 }
    requires i { i < 64 }
    ensures { result ≡ place_of (column_at w i) (row_at w i) }
{
    (w / 2 * 4 + 1) * 34 + w % 2 * 16 + 1 + usize::from(OFFSETS[i as usize])
}

impl PassState {
    ghost use Rattle.block_passes.specs.Told.{codes};

    /// Room for any code-block. A bit-plane begins by `begin`.
    pub fn new() -> Self
        ensures { codes result ≡ [] }
    {
        PassState {
            words: [0; 1156],
            significant: [0; 16],
            visited: [0; 16],
            first: [0; 16],
            decisions: [0; 7680],
            count: 0,
        }
    }

    /// The decisions of the bit-plane that was coded last.
    pub fn codes(&self) -> &[u8]
        ensures { result.now ≡ codes self.now }
    {
        &self.decisions[..self.count]
    }

    /// Puts a decision behind the others: twice its context and the bit.
    pub(crate) fn push(&mut self, code: u8)
        requires room { self.old.count < 7680 }
        ensures list { take self.new.count self.new.decisions
            ≡ take self.old.count self.old.decisions ++ code ∷ [] }
        ensures count { self.new.count ≡ self.old.count + 1 }
        ensures words { self.new.words ≡ self.old.words }
        ensures significant { self.new.significant ≡ self.old.significant }
        ensures visited { self.new.visited ≡ self.old.visited }
        ensures first { self.new.first ≡ self.old.first }
    {
        let count = self.count;
        self.decisions[count] = code;
        self.count = count + 1;
    }
}
