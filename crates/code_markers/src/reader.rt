ghost use Rattle.std.specs.Prelude.{◌≡◌, ◌+◌, ◌-◌, ◌≤◌, All, IfOk, OnOk, drop, length, map};
ghost use Rattle.codec_terms.specs.MainReading.{number_at, fields_end, size_rules, segments_read, main_read};
ghost use Rattle.codec_laws.specs.Bounds.{IsPictureSize};
ghost use Rattle.code_markers.specs.Fields.{rule_of};
ghost use Rattle.code_markers.specs.Heads.{so_far};

use crate::field::{Field, fields_end, number_at};
use crate::head::HeadSoFar;
use crate::marker::{SIZ, SOC, SOT, marker_end};
use crate::segment::read_segment;
use codec_terms::{MainHead, MarkerRefusal, Shape};

/// SIZ (A.5.1) up to the picture's size: Lsiz, Rsiz, Xsiz, Ysiz.
const SIZE: [Field; 4] = [
    Field::U16(0x2f),
    Field::U16(3),
    Field::U32Within(32, 2048),
    Field::U32Within(32, 1080),
];

// SIZ behind the picture's size: one tile of that size, no offsets, and three components of 12 bits,
// none of them subsampled.
fn tile_rules(width: u32, height: u32) -> [Field; 16]
    ensures { map rule_of result ≡ drop 4 (size_rules width height) }
{
    [
        Field::U32(0),
        Field::U32(0),
        Field::U32(width),
        Field::U32(height),
        Field::U32(0),
        Field::U32(0),
        Field::U16(3),
        Field::U8(11),
        Field::U8(1),
        Field::U8(1),
        Field::U8(11),
        Field::U8(1),
        Field::U8(1),
        Field::U8(11),
        Field::U8(1),
        Field::U8(1),
    ]
}

// The segment SIZ, from behind its marker on.
fn size_end(bytes: &[u8], at: usize) -> Result<usize, MarkerRefusal>
    requires { at ≤ length bytes.now }
    ensures is { result ≡ fields_end bytes.now
        (size_rules (number_at bytes.now (at + 4) 4) (number_at bytes.now (at + 8) 4)) at }
    ensures place { IfOk result (λ next. next ≡ at + 47) }
    ensures within { IfOk result (λ next. next ≤ length bytes.now) }
    ensures size { OnOk result (IsPictureSize
        (record { width = number_at bytes.now (at + 4) 4; height = number_at bytes.now (at + 8) 4 })) }
{
    let tile_at = fields_end(bytes, &SIZE, at)?;
    let width = number_at(bytes, at + 4, 4);
    let height = number_at(bytes, at + 8, 4);
    fields_end(bytes, &tile_rules(width, height), tile_at)
}

// The segments behind SIZ, up to the first tile-part.
fn read_segments(bytes: &[u8], size: HeadSoFar, start: usize) -> Result<MainHead, MarkerRefusal>
    requires { start ≤ length bytes.now }
    ensures { result ≡ segments_read bytes.now (length bytes.now) (so_far size) start }
{
    let mut head = size;
    let mut at = start;
    loop {
        let marker = head.next_marker(bytes, at)?;
        if marker == SOT {
            return Ok(head.finished(at));
        }
        at = read_segment(bytes, marker, at + 2, &mut head)?;
    }
}

/// What a codestream's main header says, or the first refusal by place. It reads up to the marker of the
/// first tile-part. Any bytes will do, and no memory is taken.
pub fn read_main(bytes: &[u8]) -> Result<MainHead, MarkerRefusal>
    ensures is { result ≡ main_read bytes.now }

    // What is known of a header that is accepted.
    ensures size { IfOk result (λ head. IsPictureSize head.shape) }
    ensures planes { IfOk result (λ head. All (λ n. n ≤ 31) head.mb) }
    ensures next { IfOk result (λ head. head.next + 2 ≤ length bytes.now) }
{
    let size_at = marker_end(bytes, SOC, 0)?;
    let fields_at = marker_end(bytes, SIZ, size_at)?;
    let next = size_end(bytes, fields_at)?;
    let shape = Shape {
        width: number_at(bytes, fields_at + 4, 4) as u16,
        height: number_at(bytes, fields_at + 8, 4) as u16,
    };
    read_segments(bytes, HeadSoFar::of_size(shape), next)
}
