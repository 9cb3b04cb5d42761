ghost use Rattle.std.specs.Prelude.{◌≡◌, ◌≤◌, ◌<◌, ◌+◌, ◌++◌, ℕ, List, length, IfOk, OnOk, Ok};
ghost use Rattle.codec_terms.specs.declared.reading.MainHead.{MainHead};
ghost use Rattle.codec_terms.specs.Codestream.{part_header};
ghost use Rattle.codec_terms.specs.StreamReading.{stated_length, tile_part_start, tile_part_end, marker_behind, end_read};

use crate::field::{Field, fields_end};
use crate::marker::{EOC, SOD, SOT, marker_end};
use codec_terms::{MainHead, MarkerRefusal, ReadRefusal};

/// The end of a codestream: EOC.
pub const END: [u8; 2] = [0xff, 0xd9];

/// The header of a component's tile-part, SOT and SOD (A.4.2, A.4.3), in front of its packets.
/// `part_length` counts from SOT to the end of the packets.
pub fn part_header(component: u8, part_length: u32) -> [u8; 14]
    ensures bytes { result ≡ part_header component part_length }
    // Where the main header states this length, a reader finds the packets behind it.
    ensures read_back { (front rest : List ℕ) (head : MainHead) →
        stated_length head component ≡ part_length →
        tile_part_start (front ++ result ++ rest) head component (length front + 2) ≡ Ok (length front + 14) }
{
    let [a, b, c, d] = part_length.to_be_bytes();
    [
        0xff, 0x90, 0, 10, 0, 0, a, b, c, d, component, 3, 0xff, 0x93,
    ]
}

/// The place of a tile-part's packets, or the first refusal. `at` is the place behind the marker SOT.
/// The length has to be the one that the main header states.
pub fn read_part_header(
    bytes: &[u8],
    head: &MainHead,
    component: u8,
    at: usize,
) -> Result<usize, MarkerRefusal>
    requires component { component < 3 }
    requires at { at ≤ length bytes.now }
    ensures is { result ≡ tile_part_start bytes.now head.now component at }
    ensures place { IfOk result (λ next. next ≡ at + 12) }
    ensures within { IfOk result (λ next. next ≤ length bytes.now) }
{
    let length = head.parts[component as usize];
    let fields = [
        // Lsot, Isot, Psot, TPsot, TNsot
        Field::U16(10),
        Field::U16(0),
        Field::U32(length),
        Field::U8(component),
        Field::U8(3),
    ];
    let data_at = fields_end(bytes, &fields, at)?;
    marker_end(bytes, SOD, data_at)
}

// The marker behind a component's tile-part.
fn marker_behind(component: u8) -> u16
    ensures { result ≡ marker_behind component }
{
    if component == 2 { EOC } else { SOT }
}

/// The place `at` where a tile-part's packets end, if it may end there: the next marker has to stand
/// there, SOT or behind the last component EOC, and the part, which began with its SOT at `start`, has
/// to be of the stated length.
pub fn read_part_end(
    bytes: &[u8],
    component: u8,
    stated: u32,
    start: usize,
    at: usize,
) -> Result<usize, ReadRefusal>
    requires start { start ≤ at }
    requires at { at ≤ length bytes.now }
    ensures is { result ≡ tile_part_end bytes.now component stated start
        (marker_behind component) at }
    ensures same { IfOk result (λ next. next ≡ at) }
    ensures there { OnOk result (at + 2 ≤ length bytes.now) }
{
    let is_other_length = at - start != stated as usize;
    let other = ReadRefusal::PartLength {
        part: component,
        got: stated,
    };
    if bytes.len() == at + 1 && is_other_length {
        return Err(other);
    }
    match marker_end(bytes, marker_behind(component), at) {
        Err(refusal) => Err(ReadRefusal::Marker(refusal)),
        Ok(_) if is_other_length => Err(other),
        Ok(_) => Ok(at),
    }
}

/// The place behind EOC, which stands at `at`, where nothing follows.
pub fn read_end(bytes: &[u8], at: usize) -> Result<usize, ReadRefusal>
    requires { at ≤ length bytes.now }
    ensures { result ≡ end_read bytes.now at }
{
    let end = at + 2;
    if end < bytes.len() {
        return Err(ReadRefusal::After { at: end });
    }
    Ok(end)
}
