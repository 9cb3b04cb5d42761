ghost use Rattle.std.specs.Prelude.{◌≡◌, ◌≤◌, IfOk};
ghost use Rattle.codec_terms.specs.Bands.{lowest_plane};
ghost use Rattle.codec_terms.specs.BlockDecisions.{Block};
ghost use Rattle.codec_terms.specs.Codestream.{packet_block};
ghost use Rattle.codec_terms.specs.Passes.{pass_count};
ghost use Rattle.packet_size.specs.Sizes.{HasPassCode, IsSizeOf};
ghost use Rattle.block_packets.specs.Coded.{IsCodedFor, most_bytes};

use block_coder::PartlyCoded;
use codec_terms::{Band, PacketBlock};
use cut_planes::{lowest_plane, plane_limit};
use mast_base::{Bytes, NoMemory};
use packet_size::BlockSize;
use std::alloc::Global;

/// The size of a block that isn't included.
pub(crate) const ABSENT: BlockSize = BlockSize {
    included: false,
    zero_planes: 0,
    passes: 0,
    len: 0,
};

// The number of passes of so many bit-planes.
fn pass_count(planes: u8) -> u8
    requires some { 1 ≤ planes }
    requires few { planes ≤ 15 }
    ensures { result ≡ pass_count planes }
{
    3 * planes - 2
}

/// The size that a block of a sub-band has in a packet.
pub(crate) fn block_size(block: &PartlyCoded, band: Band, cut: u32) -> BlockSize
    requires { (b : Block) × IsCodedFor b (lowest_plane cut band) block.now }
    ensures size { (b : Block) → IsCodedFor b (lowest_plane cut band) block.now
        → IsSizeOf result (packet_block band (lowest_plane cut band) b) }
    ensures passes { HasPassCode result }
    ensures few { result.len ≤ most_bytes }
{
    let planes = block.plane_count();
    let lowest = lowest_plane(cut, band) as usize;
    if planes <= lowest {
        return ABSENT;
    }
    let kept = planes - lowest;
    BlockSize {
        included: true,
        zero_planes: plane_limit(band).saturating_sub(planes as u8),
        passes: pass_count(kept as u8),
        len: block.length(kept - 1),
    }
}

/// A block of a sub-band as a packet has it.
pub(crate) fn packet_block(
    alloc: Global,
    block: &PartlyCoded,
    band: Band,
    cut: u32,
) -> Result<PacketBlock, NoMemory>
    requires { (b : Block) × IsCodedFor b (lowest_plane cut band) block.now }
    ensures { (b : Block) → IsCodedFor b (lowest_plane cut band) block.now
        → IfOk result (λ found. found ≡ packet_block band (lowest_plane cut band) b) }
{
    let planes = block.plane_count();
    let lowest = lowest_plane(cut, band) as usize;
    if planes <= lowest {
        return Ok(PacketBlock {
            included: false,
            zero_planes: 0,
            passes: 0,
            codeword: Bytes::new(alloc),
        });
    }
    let kept = planes - lowest;
    Ok(PacketBlock {
        included: true,
        zero_planes: plane_limit(band).saturating_sub(planes as u8),
        passes: pass_count(kept as u8),
        codeword: block.codeword(alloc, kept - 1)?,
    })
}
