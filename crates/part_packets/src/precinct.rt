ghost use Rattle.std.specs.Prelude.{◌≡◌, ◌≤◌, ◌<◌, ◌*◌, IfOk, IfErr, Ok, length, sum_by};
ghost use Rattle.codec_terms.specs.Precincts.{resolution};
ghost use Rattle.codec_terms.specs.PacketReading.{packet_read};
ghost use Rattle.codec_terms.specs.StreamReading.{included_in, head_step, band_shape};
ghost use Rattle.band_laws.specs.Places.{precinct_count};
ghost use Rattle.part_packets.specs.Refused.{IsRefused};
ghost use Rattle.part_packets.specs.Shapes.{shapes_at};

use crate::packet::read_step;
use band_map::blocks_of;
use band_starts::kind_place;
use codec_terms::{Band, BandKind, BandShape, MainHead, PacketRead, ReadRefusal};
use packet_places::PrecinctAt;
use std::alloc::Global;

// What is known of a sub-band in a precinct before the packet is read.
fn band_shape(head: &MainHead, band: Band, precinct: u32) -> BandShape
    requires least { 1 ≤ band.level }
    requires greatest { band.level ≤ 5 }
    requires inside { precinct < precinct_count head.now.shape (resolution band) }
    ensures shape { result ≡ band_shape head.now precinct band }
    ensures few { result.columns * result.rows ≤ 16 }
{
    let area = blocks_of(head.shape, band, precinct);
    BandShape {
        columns: area.columns,
        rows: area.rows,
        mb: head.mb[kind_place(band)],
    }
}

// Reads a packet of the least resolution, which has one sub-band.
fn read_least(
    alloc: Global,
    bytes: &[u8],
    head: &MainHead,
    precinct: PrecinctAt,
    at: usize,
) -> Result<PacketRead, ReadRefusal>
    requires least { precinct.resolution ≡ 0 }
    requires inside { precinct.number < precinct_count head.now.shape precinct.resolution }
    requires at { at ≤ length bytes.now }
    ensures read { IfOk result (λ packet. packet_read bytes.now at (shapes_at head.now precinct) ≡ Ok packet) }
    ensures refused { IfErr result (λ refusal.
        IsRefused (head_step (packet_read bytes.now at (shapes_at head.now precinct))) refusal) }
    ensures forward { IfOk result (λ packet. at ≤ packet.next) }
    ensures within { IfOk result (λ packet. packet.next ≤ length bytes.now) }
    ensures few { IfOk result (λ packet. sum_by included_in packet.bands ≤ 48) }
{
    let band = Band {
        component: precinct.component,
        level: 5,
        kind: BandKind::LL,
    };
    let shapes = [band_shape(head, band, precinct.number)];
    read_step(alloc, bytes, at, &shapes)
}

// Reads a packet of another resolution, which has three.
fn read_greater(
    alloc: Global,
    bytes: &[u8],
    head: &MainHead,
    precinct: PrecinctAt,
    at: usize,
) -> Result<PacketRead, ReadRefusal>
    requires greater { 1 ≤ precinct.resolution }
    requires resolution { precinct.resolution < 6 }
    requires inside { precinct.number < precinct_count head.now.shape precinct.resolution }
    requires at { at ≤ length bytes.now }
    ensures read { IfOk result (λ packet. packet_read bytes.now at (shapes_at head.now precinct) ≡ Ok packet) }
    ensures refused { IfErr result (λ refusal.
        IsRefused (head_step (packet_read bytes.now at (shapes_at head.now precinct))) refusal) }
    ensures forward { IfOk result (λ packet. at ≤ packet.next) }
    ensures within { IfOk result (λ packet. packet.next ≤ length bytes.now) }
    ensures few { IfOk result (λ packet. sum_by included_in packet.bands ≤ 48) }
{
    let component = precinct.component;
    let level = 6 - precinct.resolution;
    let across = Band {
        component,
        level,
        kind: BandKind::HL,
    };
    let down = Band {
        component,
        level,
        kind: BandKind::LH,
    };
    let both = Band {
        component,
        level,
        kind: BandKind::HH,
    };
    let shapes = [
        band_shape(head, across, precinct.number),
        band_shape(head, down, precinct.number),
        band_shape(head, both, precinct.number),
    ];
    read_step(alloc, bytes, at, &shapes)
}

/// Reads the packet of a precinct.
pub(crate) fn read_precinct(
    alloc: Global,
    bytes: &[u8],
    head: &MainHead,
    precinct: PrecinctAt,
    at: usize,
) -> Result<PacketRead, ReadRefusal>
    requires resolution { precinct.resolution < 6 }
    requires inside { precinct.number < precinct_count head.now.shape precinct.resolution }
    requires at { at ≤ length bytes.now }
    ensures read { IfOk result (λ packet. packet_read bytes.now at (shapes_at head.now precinct) ≡ Ok packet) }
    ensures refused { IfErr result (λ refusal.
        IsRefused (head_step (packet_read bytes.now at (shapes_at head.now precinct))) refusal) }
    ensures forward { IfOk result (λ packet. at ≤ packet.next) }
    ensures within { IfOk result (λ packet. packet.next ≤ length bytes.now) }
    ensures few { IfOk result (λ packet. sum_by included_in packet.bands ≤ 48) }
{
    if precinct.resolution == 0 {
        return read_least(alloc, bytes, head, precinct, at);
    }
    read_greater(alloc, bytes, head, precinct, at)
}
