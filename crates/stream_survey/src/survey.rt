use crate::parts::survey_parts;
use code_markers::{read_end, read_main};
use codec_terms::{MainHead, ReadRefusal, Shape};

/// What a codestream holds beside the values of its coefficients.
#[derive(Clone, Copy, Debug, PartialEq, Eq)]
pub struct Survey {
    pub shape: Shape,
    /// The cut that a comment states, where one does.
    pub cut: Option<u32>,
    /// The lengths of the tile-parts, in bytes.
    pub parts: [u32; 3],
    /// The number of code-blocks that packets include.
    pub blocks: u32,
}

ghost use Rattle.std.specs.Prelude.{◌≡◌, ◌≤◌, ◌^◌, IfOk, IfErr, Err, length};
ghost use Rattle.codec_terms.specs.StreamReading.{stream_read};
ghost use Rattle.stream_survey.specs.Surveys.{IsSurveyOf, survey_with};

// What there is to tell of a codestream with this main header and so many blocks.
fn survey_with(head: &MainHead, blocks: u32) -> Survey
    ensures { result ≡ survey_with head.now blocks }
{
    Survey {
        shape: head.shape,
        cut: head.cut,
        parts: head.parts,
        blocks,
    }
}

/// What a codestream holds beside the values of its coefficients, or its first refusal by place. Any bytes will do.
/// No codeword is decoded, and no memory is asked for. From more than 2^60 bytes, which no memory has, `NoMemory` comes.
pub fn survey_stream(bytes: &[u8]) -> Result<Survey, ReadRefusal>
    ensures read { IfOk result (IsSurveyOf (stream_read bytes.now)) }
    // So many bytes could ask for a refusal with a number that 64 bits don't hold.
    ensures refused { IfErr result (λ refusal. length bytes.now ≤ 2 ^ 60 → stream_read bytes.now ≡ Err refusal) }
{
    if 1 << 60 < bytes.len() {
        return Err(ReadRefusal::NoMemory);
    }
    let head = match read_main(bytes) {
        Ok(head) => head,
        Err(refusal) => return Err(ReadRefusal::Marker(refusal)),
    };
    let parts = survey_parts(bytes, &head)?;
    read_end(bytes, parts.next)?;
    Ok(survey_with(&head, parts.blocks))
}
