ghost use Rattle.std.specs.Prelude.{◌≡◌, ◌<◌, ℕ, suc, All, length};
ghost use Rattle.codec_terms.specs.BlockDecisions.{Block, plane_start};
ghost use Rattle.codec_laws.specs.PlaneDecisions.{plane_told};
ghost use Rattle.block_words.specs.Told.{decisions_of};
ghost use Rattle.block_sets.specs.Planes.{HasPlanesOf};
ghost use Rattle.block_passes.specs.Told.{IsBefore, HasTold, codes};

use crate::pass::code_plane;
use crate::plane::Plane;
use crate::start::difference;
use crate::state::PassState;
use block_contexts::zero_codes;
use block_sets::{BlockPlanes, all_samples};

fn code(planes: &BlockPlanes<'_>, index: usize, first: &[u64; 16], state: &mut PassState)
    requires { index < length planes.now.planes.now }
    ensures { (b : Block) → HasPlanesOf b planes.now → first.now ≡ state.old.first → IsBefore b index state.old
        → HasTold b state.new (plane_told b index (plane_start b index)) }
{
    let mut samples = [0; 16];
    all_samples(planes.width, planes.height, &mut samples);
    let plane = Plane {
        kind: planes.kind,
        zeros: zero_codes(planes.kind),
        width: planes.width,
        height: planes.height,
        samples: &samples,
        bits: &planes.planes[index],
        signs: planes.signs,
        first,
    };
    code_plane(&plane, state);
}

/// The decisions of bit-plane `index`, each as one byte: twice the context and the bit. Behind the call the state is
/// that before the next lower plane. On a block's highest plane they are those of its one pass.
pub fn plane_decisions(planes: &BlockPlanes<'_>, index: usize, state: &mut PassState)
    requires { index < length planes.now.planes.now }
    ensures decisions { (b : Block) → HasPlanesOf b planes.now → IsBefore b index state.old
        → decisions_of (codes state.new) ≡ (plane_told b index (plane_start b index)).decisions }
    ensures contexts { (b : Block) → HasPlanesOf b planes.now → IsBefore b index state.old
        → All (λ code. code < 38) (codes state.new) }
    ensures next { (b : Block) (p : ℕ) → HasPlanesOf b planes.now → IsBefore b index state.old → index ≡ suc p
        → IsBefore b p state.new }
{
    let before = state.significant;
    let first = state.first;
    code(planes, index, &first, state);
    state.first = difference(&state.significant, &before);
}
