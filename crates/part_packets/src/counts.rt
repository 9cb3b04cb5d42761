ghost use Rattle.std.specs.Prelude.{◌≡◌, ◌≤◌, sum_by};
ghost use Rattle.codec_terms.specs.StreamReading.{included_in};

use codec_terms::PacketBand;

// How many of a sub-band's blocks a packet includes.
fn included_in(band: &PacketBand) -> usize
    ensures { result ≡ included_in band.now }
{
    let mut count = 0;
    for block in band.blocks.as_slice() {
        if block.included {
            count += 1;
        }
    }
    count
}

/// How many blocks a packet includes.
pub(crate) fn included_in_packet(bands: &[PacketBand]) -> u32
    requires { sum_by included_in bands.now ≤ 48 }
    ensures { result ≡ sum_by included_in bands.now }
{
    let mut count = 0;
    for band in bands {
        count += included_in(band) as u32;
    }
    count
}
