ghost use Rattle.std.specs.Prelude.{◌≡◌, IfSome};
ghost use Rattle.frame_values.specs.Ready.{part_fault, ready_fault, survey_fault, HasPart};
ghost use Rattle.frame_values.specs.declared.ends.BadWhy.TheVariants.{Limit};

use crate::ends::BadWhy;
use codec_terms::Shape;
use mast_base::Limits;
use stream_survey::{Survey, survey_stream};

// That a part has more bytes than its limit.
fn over_limit(part: u8, got: u32) -> BadWhy
    ensures { result ≡ Limit part got }
{
    let got = u64::from(got);
    BadWhy::Limit { part, got }
}

// The first part that has more bytes than a component may.
fn part_fault(most: u32, parts: [u32; 3]) -> Option<BadWhy>
    ensures fault { result ≡ part_fault most 1 parts }
    ensures part { IfSome result HasPart }
{
    let [first, second, third] = parts;
    if most < first {
        Some(over_limit(1, first))
    } else if most < second {
        Some(over_limit(2, second))
    } else if most < third {
        Some(over_limit(3, third))
    } else {
        None
    }
}

// What is wrong with a codestream that holds this.
fn survey_fault(limits: Limits, shape: Shape, survey: Survey) -> Option<BadWhy>
    ensures fault { result ≡ survey_fault limits shape survey.shape survey.parts }
    ensures part { IfSome result HasPart }
{
    let Shape { width, height } = survey.shape;
    if width != shape.width || height != shape.height {
        return Some(BadWhy::Size { width, height });
    }
    part_fault(limits.component, survey.parts)
}

/// What is wrong with a codestream that is to be shown as a frame of this size, if anything is: its length, its reading,
/// its size or the length of a part, in this order. It takes no memory.
pub fn ready_fault(limits: Limits, shape: Shape, bytes: &[u8]) -> Option<BadWhy>
    ensures fault { result ≡ ready_fault limits shape bytes.now }
    ensures part { IfSome result HasPart }
{
    if bytes.len() > limits.frame as usize {
        let got = bytes.len() as u64;
        return Some(BadWhy::Limit { part: 0, got });
    }
    match survey_stream(bytes) {
        Ok(survey) => survey_fault(limits, shape, survey),
        Err(refusal) => Some(BadWhy::Stream { refusal }),
    }
}
