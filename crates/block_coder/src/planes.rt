ghost use Rattle.std.specs.Prelude.{◌≡◌, ◌+◌, ◌-◌, ◌≤◌, ◌<◌, suc, ℕ, All, OnOk, OnErr, length, take};
ghost use Rattle.codec_terms.specs.BlockDecisions.{plane_count, plane_start, decisions};
ghost use Rattle.codec_terms.specs.Mq.{coded};
ghost use Rattle.codec_laws.specs.PlaneDecisions.{plane_told};
ghost use Rattle.block_words.specs.Told.{decisions_of};
ghost use Rattle.block_passes.specs.Told.{IsBefore, codes};
ghost use Rattle.block_sets.specs.Rebuilt.{block_of};
ghost use Rattle.block_coder.specs.Blocks.{IsBlock};
ghost use Rattle.block_coder.specs.Codes.{HasCoded, most_decisions};

use block_laws::lower_plane_laws;
use block_passes::{PassState, plane_decisions};
use block_sets::BlockPlanes;
use mast_base::NoMemory;
use mq_coder::{Coder, Ending};

// Forms the decisions of a bit-plane, and leaves the state before the next lower one.
fn form_plane(block: &BlockPlanes<'_>, index: usize, state: &mut PassState)
    requires block { IsBlock block.now }
    requires within { index < plane_count (block_of block.now) }
    requires before { IsBefore (block_of block.now) index state.old }
    ensures decisions { decisions_of (codes state.new)
        ≡ (plane_told (block_of block.now) index (plane_start (block_of block.now) index)).decisions }
    ensures contexts { All (λ code. code < 38) (codes state.new) }
    ensures few { length (plane_told (block_of block.now) index (plane_start (block_of block.now) index)).decisions
        ≤ most_decisions }
    ensures next { (p : ℕ) → index ≡ suc p → IsBefore (block_of block.now) p state.new }
{
    plane_decisions(block, index, state);
}

// A bit-plane behind those above it.
fn code_plane(
    block: &BlockPlanes<'_>,
    index: usize,
    state: &mut PassState,
    coder: &mut Coder,
) -> Result<(), NoMemory>
    requires block { IsBlock block.now }
    requires plane { index < plane_count (block_of block.now) }
    requires before { IsBefore (block_of block.now) index state.old }
    requires coder { coder.old ≡ coded (decisions (block_of block.now) (suc index)) }
    ensures coder { OnOk result (coder.new ≡ coded (decisions (block_of block.now) index)) }
    ensures next { (p : ℕ) → index ≡ suc p → IsBefore (block_of block.now) p state.new }
    ensures few { length (decisions (block_of block.now) index)
        ≤ length (decisions (block_of block.now) (suc index)) + most_decisions }
{
    lower_plane_laws();
    form_plane(block, index, state);
    coder.code_all(state.codes())
}

/// Codes bit-planes behind those that have an ending, until the `wanted` highest of a block's `planes` have one. After
/// `NoMemory` some may have theirs behind the earlier ones.
pub(crate) fn code_planes(
    block: &BlockPlanes<'_>,
    planes: usize,
    wanted: usize,
    endings: &mut Vec<Ending>,
    state: &mut PassState,
    coder: &mut Coder,
) -> Result<(), NoMemory>
    requires block { IsBlock block.now }
    requires planes { planes ≡ plane_count (block_of block.now) }
    requires wanted { wanted ≤ planes }
    requires further { length endings.old.items < wanted }
    requires before { IsBefore (block_of block.now) (planes - suc (length endings.old.items)) state.old }
    requires coded { HasCoded (block_of block.now) planes (length endings.old.items) endings.old.items coder.old }
    ensures coded { OnOk result (HasCoded (block_of block.now) planes wanted endings.new.items coder.new) }
    ensures earlier { OnErr result (take (length endings.old.items) endings.new.items ≡ endings.old.items) }
{
    for done in endings.len()..wanted {
        code_plane(block, planes - 1 - done, state, coder)?;
        endings.push(coder.ending())?;
    }
    Ok(())
}
