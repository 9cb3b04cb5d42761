ghost use Rattle.std.specs.Prelude.{◌≡◌, List, ℕ, length};
ghost use Rattle.codec_terms.specs.declared.picture.Task.{Task};
ghost use Rattle.codec_terms.specs.Encode.{encoding, task_cut};
ghost use Rattle.film_project.specs.Facts.{ProjectFacts};
ghost use Rattle.film_project.specs.Rules.{IsProject};
ghost use Rattle.raw_frames.specs.Frames.{frame_size};
ghost use Rattle.frame_values.specs.Encoded.{encoded, encoded_cut, IsEncodingOf, IsTaskOf};

use codec_laws::{coefficient_laws, last_cut_laws};
use stream_laws::encoding_read_laws;

/// What is encoded of a raw picture is within the project's limits, and a reader gets from it all that its cut keeps.
pub fn encoded_frame_laws()
    ensures { (project : ProjectFacts) (raw : List ℕ) → IsProject project
        → length raw ≡ frame_size project.width project.height → IsEncodingOf project raw (encoded project raw) }
{
    coefficient_laws();
    last_cut_laws();
    encoding_read_laws();
}

/// What is encoded of a raw picture is the encoding of its task.
pub fn task_laws()
    ensures encoding { (project : ProjectFacts) (task : Task) → IsTaskOf project task
        → encoding task ≡ encoded project task.raw }
    ensures cut { (project : ProjectFacts) (task : Task) → IsTaskOf project task
        → task_cut task ≡ encoded_cut project task.raw }
{}
