ghost use Rattle.std.specs.Prelude.{◌≡◌, ◌+◌, ◌-◌, ◌*◌, ◌<◌, ◌≤◌, ℕ, Bool, List, min, length, slice_index};
ghost use Rattle.std.specs.Int.{bit_at, w64, trailing_zeros};
ghost use Rattle.codec_terms.specs.BlockDecisions.{Block};
ghost use Rattle.block_sets.specs.Planes.{HasPlanesOf};
ghost use Rattle.block_passes.specs.Told.{HasBits, HasWords, IsBefore};
ghost use Rattle.block_passes.specs.Marking.{in_words, HasMarked, IsMarking};

use crate::state::{PassState, place_of};
use block_sets::{BlockPlanes, unite_above};
use block_words::mark;

/// The samples of a set that aren't in another one.
pub(crate) fn difference(set: &[u64; 16], other: &[u64; 16]) -> [u64; 16]
    ensures { (w i : ℕ) → w < 16 → i < 64 → bit_at (slice_index result w) i
        ≡ min (bit_at (slice_index set.now w) i) (1 - bit_at (slice_index other.now w) i) }
{
    let mut left = *set;
    for w in 0..16usize {
        left[w] &= !other[w];
    }
    left
}

// Marks the lowest of the samples that are left of a word, and gives the others.
fn mark_lowest(planes: &BlockPlanes<'_>, words: &mut [u16; 1156], w: usize, left: u64) -> u64
    requires w { w < 16 }
    requires some { 0 < left }
    ensures told { (b : Block) (samples : List Bool) → HasPlanesOf b planes.now → IsMarking b samples words.old w left
        → IsMarking b samples words.new w result }
    ensures behind { trailing_zeros w64 left < trailing_zeros w64 result }
{
    let i = left.trailing_zeros();
    let signs = 0xf00 * u16::from(planes.signs[w] >> i & 1 == 1);
    mark(words, place_of(w, i), signs);
    left & !(1 << i)
}

fn mark_word(planes: &BlockPlanes<'_>, set: &[u64; 16], words: &mut [u16; 1156], w: usize)
    requires { w < 16 }
    ensures { (b : Block) (samples : List Bool) → HasPlanesOf b planes.now → length samples ≡ b.width * b.height
        → HasBits b samples set.now → HasMarked b samples words.old (in_words w)
        → HasMarked b samples words.new (in_words (w + 1)) }
{
    let mut left = set[w];
    while left != 0 {
        left = mark_lowest(planes, words, w, left);
    }
}

// Makes the words those of a set of significant samples.
fn mark_all(planes: &BlockPlanes<'_>, set: &[u64; 16], words: &mut [u16; 1156])
    ensures { (b : Block) (samples : List Bool) → HasPlanesOf b planes.now → length samples ≡ b.width * b.height
        → HasBits b samples set.now → HasWords b words.new samples }
{
    *words = [0; 1156];
    for w in 0..16usize {
        mark_word(planes, set, words, w);
    }
}

/// Makes this the state before a bit-plane, whatever it was.
pub fn begin(planes: &BlockPlanes<'_>, index: usize, state: &mut PassState)
    requires { index < length planes.now.planes.now }
    ensures { (b : Block) → HasPlanesOf b planes.now → IsBefore b index state.new }
{
    let mut above = [0; 16];
    unite_above(planes, index + 1, &mut above);
    unite_above(planes, index, &mut state.significant);
    state.first = difference(&state.significant, &above);
    state.visited = [0; 16];
    mark_all(planes, &state.significant, &mut state.words);
}
