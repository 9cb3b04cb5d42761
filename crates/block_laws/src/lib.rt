//! Laws of a code-block's decisions, bit-plane by bit-plane, which a coder that stops at a plane and goes on later stands
//! on (ITU-T T.800, Annex D). They name no code.
#![tactic(auto)]

ghost use Rattle.std.specs.Prelude.{◌≡◌, ◌*◌, ◌^◌, ◌<◌, ◌≤◌, suc, ℕ, List, [], ◌++◌, All, length, unsigned_abs};
ghost use Rattle.codec_terms.specs.BlockDecisions.{Block, cleanup, decisions, plane_count, plane_start};
ghost use Rattle.codec_terms.specs.Mq.{Decision};
ghost use Rattle.codec_laws.specs.PlaneDecisions.{plane_told};

use codec_laws::plane_decision_laws;

/// The decisions down to a lower bit-plane begin with those down to a higher one. Down to a plane they are those down to
/// the plane above and then its own: of the highest one its cleanup pass alone, of another one its three passes.
pub fn lower_plane_laws()
    ensures begin { (block : Block) (p lower : ℕ) → length block.values ≡ block.width * block.height
        → All (λ v. unsigned_abs v < 2 ^ 64) block.values → lower ≤ p
        → (further : List Decision) × (decisions block lower ≡ decisions block p ++ further) }
    ensures none { (block : Block) (p : ℕ) → length block.values ≡ block.width * block.height
        → All (λ v. unsigned_abs v < 2 ^ 64) block.values → plane_count block ≤ p → decisions block p ≡ [] }
    ensures highest { (block : Block) (p : ℕ) → length block.values ≡ block.width * block.height
        → All (λ v. unsigned_abs v < 2 ^ 64) block.values → plane_count block ≡ suc p
        → decisions block p ≡ (cleanup block p (plane_start block p)).decisions }
    ensures further { (block : Block) (p : ℕ) → length block.values ≡ block.width * block.height
        → All (λ v. unsigned_abs v < 2 ^ 64) block.values → suc p < plane_count block
        → decisions block p ≡ decisions block (suc p) ++ (plane_told block p (plane_start block p)).decisions }
{
    plane_decision_laws();
}
