ghost use Rattle.std.specs.Prelude.{◌≡◌, ◌+◌, ◌≤◌, true, None, Some, length, IfOk, OnOk};
ghost use Rattle.codec_terms.specs.MainReading.{fields_end, coding_rules, quantisation_rules, lengths_rules, guard_bits_at, planes_at, parts_at, cut_with, comment_end, segment_end, with_segment};
ghost use Rattle.code_markers.specs.Heads.{so_far};

use crate::field::{Field, field_end, fields_end, number_at, planes_of};
use crate::head::HeadSoFar;
use crate::marker::{COD, QCD, TLM};
use codec_terms::MarkerRefusal;

/// COD (A.6.1).
const CODING: [Field; 16] = [
    // Lcod, Scod: precincts are defined.
    Field::U16(0x12),
    Field::U8(1),
    // Progression CPRL, one layer, the component transform.
    Field::U8(4),
    Field::U16(1),
    Field::U8(1),
    // Five levels, code-blocks of 32 × 32 in no special style, the 9-7 filter.
    Field::U8(5),
    Field::U8(3),
    Field::U8(3),
    Field::U8(0),
    Field::U8(0),
    // Precincts of 128 × 128, and of 256 × 256 from resolution 1 on.
    Field::U8(0x77),
    Field::U8(0x88),
    Field::U8(0x88),
    Field::U8(0x88),
    Field::U8(0x88),
    Field::U8(0x88),
];

/// QCD (A.6.4) in front of the sub-bands' steps: Lqcd, Sqcd.
const QUANTISATION: [Field; 2] = [Field::U16(0x23), Field::GuardBits];

/// TLM (A.7.1): Ltlm, Ztlm, Stlm, and of each tile-part its tile and its length.
const LENGTHS: [Field; 9] = [
    Field::U16(0x13),
    Field::U8(0),
    Field::U8(0x50),
    Field::U8(0),
    Field::AnyU32,
    Field::U8(0),
    Field::AnyU32,
    Field::U8(0),
    Field::AnyU32,
];

/// The first four bytes of a comment that states a cut.
const CUT_MARK: u32 = 0x4355_5431;

fn read_coding(bytes: &[u8], at: usize, head: &mut HeadSoFar) -> Result<usize, MarkerRefusal>
    requires { at ≤ length bytes.now }
    ensures end { result ≡ fields_end bytes.now coding_rules at }
    ensures head { OnOk result (so_far head.new ≡ with_segment bytes.now 0xFF52 at (so_far head.old)) }
{
    let next = fields_end(bytes, &CODING, at)?;
    head.coded = true;
    Ok(next)
}

// The number of guard bits and each sub-band's step.
fn quantisation_end(bytes: &[u8], at: usize) -> Result<usize, MarkerRefusal>
    requires { at ≤ length bytes.now }
    ensures is { result ≡ fields_end bytes.now (quantisation_rules (guard_bits_at bytes.now at)) at }
    ensures place { IfOk result (λ next. next ≡ at + 35) }
    ensures within { IfOk result (λ next. next ≤ length bytes.now) }
{
    let steps_at = fields_end(bytes, &QUANTISATION, at)?;
    let step = Field::Step(bytes[at + 2] / 32);
    fields_end(bytes, &[step; 16], steps_at)
}

fn planes_at(bytes: &[u8], at: usize) -> [u8; 16]
    requires { at + 35 ≤ length bytes.now }
    ensures { result ≡ planes_at bytes.now at }
{
    let guard_bits = bytes[at + 2] / 32;
    let mut planes = [0; 16];
    for (i, plane) in planes.iter_mut().enumerate() {
        *plane = planes_of(guard_bits, number_at(bytes, at + 3 + 2 * i, 2)) as u8;
    }
    planes
}

fn read_quantisation(bytes: &[u8], at: usize, head: &mut HeadSoFar) -> Result<usize, MarkerRefusal>
    requires { at ≤ length bytes.now }
    ensures end { result ≡ fields_end bytes.now (quantisation_rules (guard_bits_at bytes.now at)) at }
    ensures head { OnOk result (so_far head.new ≡ with_segment bytes.now 0xFF5C at (so_far head.old)) }
{
    let next = quantisation_end(bytes, at)?;
    head.planes = Some(planes_at(bytes, at));
    Ok(next)
}

fn read_lengths(bytes: &[u8], at: usize, head: &mut HeadSoFar) -> Result<usize, MarkerRefusal>
    requires { at ≤ length bytes.now }
    ensures end { result ≡ fields_end bytes.now lengths_rules at }
    ensures head { OnOk result (so_far head.new ≡ with_segment bytes.now 0xFF55 at (so_far head.old)) }
{
    let next = fields_end(bytes, &LENGTHS, at)?;
    let first = number_at(bytes, at + 5, 4);
    let second = number_at(bytes, at + 10, 4);
    let third = number_at(bytes, at + 15, 4);
    head.parts = Some([first, second, third]);
    Ok(next)
}

// A comment's length counts itself. It is judged before the content is there.
fn comment_end(bytes: &[u8], at: usize) -> Result<usize, MarkerRefusal>
    requires { at ≤ length bytes.now }
    ensures { result ≡ comment_end bytes.now at }
{
    field_end(bytes, Field::U16Within(5, 0xffff), at)?;
    let next = at + number_at(bytes, at, 2) as usize;
    if bytes.len() < next {
        return Err(MarkerRefusal::Truncated { at: bytes.len() });
    }
    Ok(next)
}

// The cut that a comment of 12 bytes states: binary content (Rcom is 0), the mark, the cut.
fn stated_cut(bytes: &[u8], at: usize) -> Option<u32>
    requires { at + 12 ≤ length bytes.now }
    ensures { result ≡ cut_with bytes.now None at }
{
    if number_at(bytes, at, 4) != 0x000c_0000 || number_at(bytes, at + 4, 4) != CUT_MARK {
        return None;
    }
    Some(number_at(bytes, at + 8, 4))
}

fn read_comment(bytes: &[u8], at: usize, head: &mut HeadSoFar) -> Result<usize, MarkerRefusal>
    requires { at ≤ length bytes.now }
    ensures end { result ≡ comment_end bytes.now at }
    ensures head { OnOk result (so_far head.new ≡ with_segment bytes.now 0xFF64 at (so_far head.old)) }
{
    let next = comment_end(bytes, at)?;
    if head.cut.is_none() && next == at + 12 {
        head.cut = stated_cut(bytes, at);
    }
    Ok(next)
}

/// Reads the segment of this marker, COD, QCD, TLM or COM, from behind the marker on, and gives the
/// place behind it.
pub(crate) fn read_segment(
    bytes: &[u8],
    marker: u16,
    at: usize,
    head: &mut HeadSoFar,
) -> Result<usize, MarkerRefusal>
    requires { at ≤ length bytes.now }
    ensures end { result ≡ segment_end bytes.now marker at }
    ensures head { OnOk result (so_far head.new ≡ with_segment bytes.now marker at (so_far head.old)) }
{
    match marker {
        COD => read_coding(bytes, at, head),
        QCD => read_quantisation(bytes, at, head),
        TLM => read_lengths(bytes, at, head),
        _ => read_comment(bytes, at, head),
    }
}
