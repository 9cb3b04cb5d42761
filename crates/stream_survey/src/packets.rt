ghost use Rattle.std.specs.Prelude.{◌≡◌, ◌≤◌, ◌<◌, ◌*◌, ◌^◌, IfOk, IfErr, Ok, Err, length};
ghost use Rattle.codec_terms.specs.Precincts.{packet_order};
ghost use Rattle.codec_terms.specs.PacketReading.{packet_read};
ghost use Rattle.codec_terms.specs.StreamReading.{head_step, packets_read};
ghost use Rattle.codec_laws.specs.Bounds.{IsPictureSize};
ghost use Rattle.band_laws.specs.Places.{precinct_count};
ghost use Rattle.packet_scan.specs.Scanning.{scanned};
ghost use Rattle.stream_survey.specs.Counts.{counted};
ghost use Rattle.stream_survey.specs.Shapes.{shapes_at};

use crate::counts::Counted;
use crate::shapes::precinct_shapes;
use crate::step::scan_step;
use codec_terms::{MainHead, ReadRefusal};
use packet_places::{PrecinctAt, band_count, packets_of, precinct_at};
use packet_scan::Scanned;

// Scans the packet of a precinct.
fn scan_precinct(
    bytes: &[u8],
    head: &MainHead,
    precinct: PrecinctAt,
    at: usize,
) -> Result<Scanned, ReadRefusal>
    requires resolution { precinct.resolution < 6 }
    requires inside { precinct.number < precinct_count head.now.shape precinct.resolution }
    requires at { at ≤ length bytes.now }
    requires bounded { length bytes.now ≤ 2 ^ 60 }
    ensures read { IfOk result (λ s. scanned (packet_read bytes.now at (shapes_at head.now precinct)) ≡ Ok s) }
    ensures refused { IfErr result (λ refusal.
        head_step (packet_read bytes.now at (shapes_at head.now precinct)) ≡ Err refusal) }
    ensures forward { IfOk result (λ s. at ≤ s.next) }
    ensures within { IfOk result (λ s. s.next ≤ length bytes.now) }
    ensures few { IfOk result (λ s. s.blocks ≤ 48) }
{
    let shapes = precinct_shapes(head, precinct);
    scan_step(bytes, at, &shapes[..band_count(precinct)])
}

/// Counts the blocks that a component's packets include, from the place where its packets begin.
pub(crate) fn survey_packets(
    bytes: &[u8],
    head: &MainHead,
    component: u8,
    start: usize,
) -> Result<Counted, ReadRefusal>
    requires size { IsPictureSize head.now.shape }
    requires start { start ≤ length bytes.now }
    requires bounded { length bytes.now ≤ 2 ^ 60 }
    ensures read { IfOk result (λ part.
        counted (packets_read bytes.now head.now component (packet_order head.now.shape) start) ≡ Ok part) }
    ensures refused { IfErr result (λ refusal.
        counted (packets_read bytes.now head.now component (packet_order head.now.shape) start) ≡ Err refusal) }
    ensures forward { IfOk result (λ part. start ≤ part.next) }
    ensures within { IfOk result (λ part. part.next ≤ length bytes.now) }
    ensures few { IfOk result (λ part. part.blocks ≤ 48 * 2 ^ 20) }
{
    let mut blocks = 0;
    let mut at = start;
    for n in 0..packets_of(head.shape) {
        let precinct = precinct_at(head.shape, component, n);
        let packet = scan_precinct(bytes, head, precinct, at)?;
        blocks += packet.blocks;
        at = packet.next;
    }
    Ok(Counted { blocks, next: at })
}
