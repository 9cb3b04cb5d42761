ghost use Rattle.std.specs.Prelude.{◌≡◌, ◌<◌, IfOk, OnErr, All, map};
ghost use Rattle.codec_terms.specs.Mq.{coded_one, coded_from};
ghost use Rattle.mq_coder.specs.Bytes.{registers_of, IsGrown};
ghost use Rattle.mq_coder.specs.Decisions.{decision_of};
ghost use Rattle.mq_coder.specs.Rows.{HasStates};
ghost use Rattle.mq_coder.specs.Runs.{encoder_at};
ghost use Rattle.mq_laws.specs.Ready.{Ready};

use crate::interval::{Interval, part_of, renormalise};
use crate::output::Output;
use crate::rows::step_of;
use mast_base::NoMemory;

/// Codes one decision, twice its context and one more where its bit is 1 (ENCODE, C.2.2). After `NoMemory` all is as
/// it was.
pub(crate) fn code_one(
    bytes: &mut Output,
    states: &mut [u8; 19],
    at: Interval,
    decision: u8,
) -> Result<Interval, NoMemory>
    requires ready { Ready (registers_of at bytes.old) }
    requires states { HasStates states.old }
    requires decision { decision < 38 }
    ensures ok { IfOk result (λ r. encoder_at r bytes.new states.new
        ≡ coded_one (encoder_at at bytes.old states.old) (decision_of decision)) }
    ensures ready { IfOk result (λ r. Ready (registers_of r bytes.new)) }
    ensures states { HasStates states.new }
    ensures bytes_stay { OnErr result (bytes.new ≡ bytes.old) }
    ensures states_stay { OnErr result (states.new ≡ states.old) }
{
    let context = (decision >> 1) as usize;
    let state = states[context];
    let step = step_of(state, decision & 1);
    let part = part_of(at, step.qe, step.is_mps);
    let next = if part.a < 0x8000 { step.next } else { state };
    let done = renormalise(bytes, part)?;
    states[context] = next;
    Ok(done)
}

/// Codes the decisions in order. After `NoMemory` the bytes and states are those in front of one of them.
pub(crate) fn code_run(
    bytes: &mut Output,
    states: &mut [u8; 19],
    at: Interval,
    decisions: &[u8],
) -> Result<Interval, NoMemory>
    requires ready { Ready (registers_of at bytes.old) }
    requires states { HasStates states.old }
    requires decisions { All (λ d. d < 38) decisions.now }
    ensures ok { IfOk result (λ r. encoder_at r bytes.new states.new
        ≡ coded_from (encoder_at at bytes.old states.old) (map decision_of decisions.now)) }
    ensures ready { IfOk result (λ r. Ready (registers_of r bytes.new)) }
    ensures states { HasStates states.new }
    ensures grown { OnErr result (IsGrown bytes.old bytes.new) }
{
    let mut now = at;
    for decision in decisions {
        now = code_one(bytes, states, now, *decision)?;
    }
    Ok(now)
}
