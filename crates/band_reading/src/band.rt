ghost use Rattle.std.specs.Prelude.{◌≡◌, ◌≤◌, All, length};
ghost use Rattle.codec_terms.specs.Bands.{band_length};
ghost use Rattle.codec_terms.specs.Precincts.{packet_order};
ghost use Rattle.codec_terms.specs.StreamReading.{band_read_values};
ghost use Rattle.codec_laws.specs.Bounds.{IsPictureSize};
ghost use Rattle.band_starts.specs.Places.{IsPictureBand};
ghost use Rattle.part_packets.specs.Shapes.{AreOfPrecincts};

use crate::packet::packet_band_of;
use crate::part::read_part;
use band_map::{precincts, resolution_of};
use block_reading::ReadRoom;
use codec_terms::{Band, MainHead, PacketBand};
use mast_base::List;

/// The values of a sub-band from its component's packets. Those of a block that no packet includes are zero.
pub fn read_band(
    head: &MainHead,
    packets: &[List<PacketBand>],
    band: Band,
    room: &mut ReadRoom,
    scratch: &mut [i32; 1024],
    out: &mut [i32],
)
    requires size { IsPictureSize head.now.shape }
    requires planes { All (λ n. n ≤ 31) head.now.mb }
    requires band { IsPictureBand band }
    requires packets { AreOfPrecincts head.now band.component (packet_order head.now.shape) packets.now }
    requires whole { length out.old ≡ band_length head.now.shape band }
    ensures { out.new ≡ band_read_values head.now packets.now band }
{
    let (across, down) = precincts(head.shape, resolution_of(band));
    for number in 0..across * down {
        let part = packet_band_of(head, packets, band, number);
        read_part(head, band, number, part, room, scratch, out);
    }
}
