//! Packets that a seed draws: any bytes, and valid packets of which a byte is then another.

ghost use Rattle.std.specs.Prelude.{◌<◌, ◌≤◌, IfOk};
ghost use Rattle.packet_head.specs.Writing.{HasPassCode, IsBand};

use codec_terms::HeadRefusal::{
    BadStuffing, LengthPast, NoMemory as WantOfMemory, TooManyPasses, Truncated, WideLength,
};
use codec_terms::{BandShape, HeadRefusal, PacketBand, PacketBlock, PacketRead};
use mast_base::{Bytes, List, NoMemory};
use packet_head::write_packet;
use packet_reading::read_packet;
use std::alloc::Global;
use std::test::Fail;

/// A xorshift generator.
#[derive(Debug, Drop)]
struct Draw {
    seed: u32,
}

impl Draw {
    fn next(&mut self) -> u32 {
        self.seed = self.seed ^ self.seed << 13;
        self.seed = self.seed ^ self.seed >> 17;
        self.seed = self.seed ^ self.seed << 5;
        self.seed
    }

    fn below(&mut self, end: u32) -> u32
        requires { 0 < end }
        ensures { result < end }
    {
        self.next() % end
    }

    fn byte(&mut self) -> u8 {
        (self.next() >> 24) as u8
    }

    fn bytes(&mut self, alloc: Global, len: u32) -> Result<Bytes, NoMemory> {
        let mut bytes = Bytes::new(alloc);
        for _ in 0..len {
            bytes.push(self.byte())?;
        }
        Ok(bytes)
    }

    fn shape(&mut self) -> BandShape {
        BandShape {
            columns: self.below(5),
            rows: self.below(5),
            mb: self.below(14) as u8,
        }
    }

    /// A block of a sub-band of `mb` bit-planes, included or not.
    fn block(&mut self, alloc: Global, mb: u8) -> Result<PacketBlock, NoMemory>
        requires some { 1 ≤ mb }
        requires few { mb ≤ 50 }
        ensures { IfOk result (λ block. HasPassCode block) }
    {
        if self.below(3) == 0 {
            return Ok(PacketBlock {
                included: false,
                zero_planes: 0,
                passes: 0,
                codeword: Bytes::new(alloc),
            });
        }
        let zero_planes = self.below(u32::from(mb)) as u8;
        let most = 3 * u32::from(mb - zero_planes) - 2;
        let passes = 1 + self.below(most) as u8;
        let len = self.below(40);
        Ok(PacketBlock {
            included: true,
            zero_planes,
            passes,
            codeword: self.bytes(alloc, len)?,
        })
    }

    fn band(&mut self, alloc: Global, mb: u8) -> Result<PacketBand, NoMemory>
        requires some { 1 ≤ mb }
        requires few { mb ≤ 50 }
        ensures { IfOk result (λ band. IsBand band) }
    {
        let columns = self.below(4);
        let rows = self.below(4);
        let mut blocks = List::new(alloc);
        for _ in 0..columns * rows {
            blocks.push(self.block(alloc, mb)?)?;
        }
        Ok(PacketBand {
            columns,
            rows,
            blocks,
        })
    }
}

fn shape_of(band: &PacketBand, mb: u8) -> BandShape {
    BandShape {
        columns: band.columns,
        rows: band.rows,
        mb,
    }
}

/// Whether each place that a reader of so many bytes tells is one of them or their end.
fn is_within(read: &Result<PacketRead, HeadRefusal>, start: usize, len: usize) -> bool {
    match read {
        Ok(packet) => start < packet.next && packet.next <= len,
        Err(Truncated { at }) => *at == len,
        Err(BadStuffing { at }) => start < *at && *at < len,
        Err(TooManyPasses { at, n: _ }) => start <= *at && *at < len,
        Err(WideLength { at, n }) => start <= *at && *at < len && 32 < *n,
        Err(LengthPast { at, n }) => start < *at && *at <= len && len - *at < *n as usize,
        Err(WantOfMemory) => false,
    }
}

fn is_block(block: &PacketBlock, wanted: &PacketBlock) -> bool {
    block.included == wanted.included
        && block.zero_planes == wanted.zero_planes
        && block.passes == wanted.passes
        && block.codeword.as_slice() == wanted.codeword.as_slice()
}

fn is_band(band: &PacketBand, wanted: &PacketBand) -> bool {
    let blocks = band.blocks.as_slice();
    let others = wanted.blocks.as_slice();
    band.columns == wanted.columns
        && band.rows == wanted.rows
        && blocks.len() == others.len()
        && blocks
            .iter()
            .zip(others)
            .all(|(block, wanted)| is_block(block, wanted))
}

/// Whether exactly these sub-bands were read, from so many bytes.
fn are_bands(
    read: &Result<PacketRead, HeadRefusal>,
    first: &PacketBand,
    second: &PacketBand,
    len: usize,
) -> bool {
    match read {
        Ok(packet) => match packet.bands.as_slice() {
            [one, two] => packet.next == len && is_band(one, first) && is_band(two, second),
            _ => false,
        },
        Err(_) => false,
    }
}

#[test]
fn answers_ten_thousand_draws(rt: HostRuntime) -> Result<(), Fail> {
    let alloc = rt.alloc();
    let mut draw = Draw { seed: 3 };
    for round in 0..10_000u32 {
        let len = draw.below(60);
        let bytes = draw.bytes(alloc, len)?;
        let start = draw.below(3) as usize;
        let shapes = [draw.shape(), draw.shape()];
        let read = read_packet(alloc, bytes.as_slice(), start, &shapes);
        assert!(rt; is_within(&read, start, bytes.len()), "{round}");
    }
    Ok(())
}

#[test]
fn reads_ten_thousand_packets_back(rt: HostRuntime) -> Result<(), Fail> {
    let alloc = rt.alloc();
    let mut draw = Draw { seed: 5 };
    for round in 0..10_000u32 {
        let mb = 1 + draw.below(50) as u8;
        let bands = [draw.band(alloc, mb)?, draw.band(alloc, mb)?];
        let shapes = [shape_of(&bands[0], mb), shape_of(&bands[1], mb)];
        let mut bytes = write_packet(alloc, &bands)?.into_vec();
        let read = read_packet(alloc, &bytes, 0, &shapes);
        assert!(rt;
            are_bands(&read, &bands[0], &bands[1], bytes.len()),
            "{round}"
        );

        let at = draw.next() as usize;
        assert!(rt; 0 < bytes.len());
        let at = at % bytes.len();
        bytes[at] = draw.byte();
        let read = read_packet(alloc, &bytes, 0, &shapes);
        assert!(rt; is_within(&read, 0, bytes.len()), "{round}");
    }
    Ok(())
}
