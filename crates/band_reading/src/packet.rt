ghost use Rattle.std.specs.Prelude.{◌≡◌, ◌<◌, ◌≤◌, ◌^◌, length};
ghost use Rattle.codec_terms.specs.Precincts.{packet_order, resolution};
ghost use Rattle.codec_terms.specs.StreamReading.{band_shape, packet_band_of, place_in_packet};
ghost use Rattle.codec_laws.specs.Bounds.{IsPictureSize};
ghost use Rattle.band_laws.specs.Places.{precinct_count};
ghost use Rattle.band_starts.specs.Places.{IsPictureBand};
ghost use Rattle.part_packets.specs.Shapes.{IsOfShape, AreOfPrecincts};
ghost use Rattle.band_reading.specs.Packets.{IsPacketOf};

use band_map::resolution_of;
use codec_terms::{Band, BandKind, MainHead, PacketBand, Shape};
use mast_base::List;
use packet_places::{packets_of, precinct_at};

// Which of a packet's sub-bands this one is.
fn place_in_packet(kind: BandKind) -> usize
    ensures { result ≡ place_in_packet kind }
{
    match kind {
        BandKind::LL | BandKind::HL => 0,
        BandKind::LH => 1,
        BandKind::HH => 2,
    }
}

// The number of a precinct's packet among those of its component.
fn packet_of(shape: Shape, resolution: u8, number: u32) -> usize
    requires size { IsPictureSize shape }
    requires resolution { resolution < 6 }
    requires number { number < precinct_count shape resolution }
    ensures is { IsPacketOf shape resolution number result }
    ensures few { result < 2 ^ 20 }
{
    for n in 0..packets_of(shape) {
        let precinct = precinct_at(shape, 0, n);
        if precinct.resolution == resolution && precinct.number == number {
            return n as usize;
        }
    }
    unreachable!()
}

/// What the packet of a precinct has of a sub-band.
pub(crate) fn packet_band_of<'a>(
    head: &MainHead,
    packets: &'a [List<PacketBand>],
    band: Band,
    number: u32,
) -> &'a PacketBand
    requires size { IsPictureSize head.now.shape }
    requires band { IsPictureBand band }
    requires number { number < precinct_count head.now.shape (resolution band) }
    requires packets { AreOfPrecincts head.now band.component (packet_order head.now.shape) packets.now }
    ensures part { result.now ≡ packet_band_of head.now.shape packets.now band number }
    ensures shape { IsOfShape (band_shape head.now number band) result.now }
{
    let packet = packets[packet_of(head.shape, resolution_of(band), number)].as_slice();
    &packet[place_in_packet(band.kind)]
}
