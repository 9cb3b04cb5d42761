ghost use Rattle.std.specs.Prelude.{◌≡◌, ◌≤◌, ◌*◌, All, IfOk, IfErr, length};
ghost use Rattle.codec_terms.specs.declared.reading.ReadRefusal.TheVariants.{NoMemory};
ghost use Rattle.codec_laws.specs.Bounds.{IsPictureSize};
ghost use Rattle.part_packets.specs.Shapes.{AreParts};
ghost use Rattle.stream_reader.specs.Values.{stream_values};

use band_reading::read_band;
use band_starts::{band_at, band_length, band_start, picture_area};
use block_reading::ReadRoom;
use codec_terms::{MainHead, PacketBand, ReadRefusal};
use mast_base::List;
use std::alloc::Global;

// Reads the values of each sub-band to its place.
fn read_each(head: &MainHead, parts: &[List<List<PacketBand>>], values: &mut [i32])
    requires size { IsPictureSize head.now.shape }
    requires planes { All (λ n. n ≤ 31) head.now.mb }
    requires parts { AreParts head.now parts.now }
    requires whole { length values.old ≡ 3 * (head.now.shape.width * head.now.shape.height) }
    ensures { values.new ≡ stream_values head.now parts.now }
{
    let mut room = ReadRoom::new();
    let mut scratch = [0; 1024];
    for place in 0..48usize {
        let band = band_at(place);
        let start = band_start(head.shape, band);
        let end = start + band_length(head.shape, band);
        let packets = parts[band.component as usize].as_slice();
        read_band(
            head,
            packets,
            band,
            &mut room,
            &mut scratch,
            &mut values[start..end],
        );
    }
}

/// Reads the values of all sub-bands from the packets of all components.
pub(crate) fn read_values(
    alloc: Global,
    head: &MainHead,
    parts: &[List<List<PacketBand>>],
) -> Result<List<i32>, ReadRefusal>
    requires size { IsPictureSize head.now.shape }
    requires planes { All (λ n. n ≤ 31) head.now.mb }
    requires parts { AreParts head.now parts.now }
    ensures read { IfOk result (λ values. values ≡ stream_values head.now parts.now) }
    ensures refused { IfErr result (λ refusal. refusal ≡ NoMemory) }
{
    let mut values = match vec![in alloc; 0i32; 3 * picture_area(head.shape)] {
        Ok(values) => values,
        Err(_) => return Err(ReadRefusal::NoMemory),
    };
    read_each(head, parts, &mut values);
    Ok(List::from(values))
}
