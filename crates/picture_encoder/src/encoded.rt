ghost use Rattle.std.specs.Prelude.{◌≡◌};
ghost use Rattle.codec_terms.specs.Cut.{IsWithin};
ghost use Rattle.codec_terms.specs.Encode.{encoding, shape_of, task_coefficients, task_cut};

use codec_terms::Task;
use mast_base::Bytes;

/// What a task was encoded to.
#[derive(Debug, Drop)]
pub struct Encoded<'a> {
    pub task: &'a Task,
    /// The codestream.
    pub bytes: Bytes,
    /// How far bit-planes were left out of it.
    pub cut: u32,
    pub ghost bytes_are: { bytes ≡ encoding task.now },
    pub ghost cut_is: { cut ≡ task_cut task.now },
    pub ghost within: { IsWithin task.now.params.limits (shape_of task.now.params) (task_coefficients task.now) cut },
}
