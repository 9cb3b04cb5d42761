ghost use Rattle.std.specs.Prelude.{◌≡◌, ◌+◌, ◌<◌, ◌≤◌, ℕ, fold};
ghost use Rattle.codec_terms.specs.Contexts.{scan};
ghost use Rattle.codec_terms.specs.BlockDecisions.{Block, Walk, propagation, refinement, column_cleaned, plane_start, no_samples};
ghost use Rattle.codec_laws.specs.PlaneDecisions.{plane_told};
ghost use Rattle.block_passes.specs.Told.{IsPlane, HasSets, HasTold};

use crate::cleanup::clean_word;
use crate::plane::Plane;
use crate::propagation::propagate_word;
use crate::refinement::refine_word;
use crate::state::PassState;

fn propagate_all(plane: &Plane<'_>, state: &mut PassState)
    requires room { state.old.count + 2560 ≤ 7680 }
    ensures told { (b : Block) (p : ℕ) (v : Walk) → IsPlane b p plane.now → HasTold b state.old v
        → HasTold b state.new (propagation b p v) }
    ensures count { state.new.count ≤ state.old.count + 2560 }
{
    for w in 0..16usize {
        propagate_word(plane, state, w);
    }
}

fn refine_all(plane: &Plane<'_>, state: &mut PassState)
    requires room { state.old.count + 2560 ≤ 7680 }
    ensures told { (b : Block) (p : ℕ) (v : Walk) → IsPlane b p plane.now → HasTold b state.old v
        → HasTold b state.new (refinement b p v) }
    ensures count { state.new.count ≤ state.old.count + 2560 }
{
    for w in 0..16usize {
        refine_word(plane, state, w);
    }
}

fn clean_all(plane: &Plane<'_>, state: &mut PassState)
    requires room { state.old.count + 2560 ≤ 7680 }
    ensures told { (b : Block) (p : ℕ) (v : Walk) → IsPlane b p plane.now → HasTold b state.old v
        → HasTold b state.new (fold (column_cleaned b p) v (scan b.width b.height)) }
    ensures count { state.new.count ≤ state.old.count + 2560 }
{
    for w in 0..16usize {
        clean_word(plane, state, w);
    }
}

/// The three passes of a bit-plane.
pub(crate) fn code_plane(plane: &Plane<'_>, state: &mut PassState)
    ensures { (b : Block) (p : ℕ) → IsPlane b p plane.now
        → HasSets b state.old (plane_start b p).significant (no_samples b)
        → HasTold b state.new (plane_told b p (plane_start b p)) }
{
    state.count = 0;
    propagate_all(plane, state);
    refine_all(plane, state);
    clean_all(plane, state);
    state.visited = [0; 16];
}
