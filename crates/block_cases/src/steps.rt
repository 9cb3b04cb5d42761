//! Code-blocks that go on from a bit-plane, against the same blocks coded at once.
ghost use Rattle.std.specs.Prelude.{◌≡◌, ◌<◌, ◌*◌, ◌^◌, All, length, unsigned_abs};
ghost use Rattle.codec_terms.specs.BlockDecisions.{Block};
ghost use Rattle.block_coder.specs.Blocks.{IsBlock};
ghost use Rattle.block_coder.specs.Codes.{IsCodeOf, IsPartOfCode};

use crate::codes::are_small;
use block_coder::{BlockRoom, Coded, PartlyCoded, block_of_values, code_block};
use block_passes::PassState;
use block_sets::BlockPlanes;
use codec_terms::BandKind;
use mast_base::NoMemory;
use mq_coder::Coder;
use std::alloc::Global;
use std::process::Abort;
use std::test::Fail;

/// Values of magnitudes below a limit, of which the lower ones come more often.
fn values_below(limit: u32, seed: u32) -> [i32; 1024] {
    let mut values = [0; 1024];
    let mut random = seed;
    for value in &mut values {
        random = random.wrapping_mul(1_664_525).wrapping_add(1_013_904_223);
        let magnitude = (random >> 16) % (1 + (random >> 4 & 0xfff) % limit.max(1));
        *value = (magnitude & 0x7fff) as i32;
        if random >> 31 == 1 {
            *value = -*value;
        }
    }
    values
}

#[derive(Clone, Copy)]
enum Size {
    Square,
    Narrow,
    Low,
    Column,
}

/// Makes the block of this size, of the first values, in `room`.
fn block_of<'a>(size: Size, values: &[i32; 1024], room: &'a mut BlockRoom) -> BlockPlanes<'a>
    requires { All (λ v. unsigned_abs v < 2 ^ 15) values.now }
    ensures { IsBlock result }
{
    match size {
        Size::Square => block_of_values(BandKind::HL, 32, 32, values, room),
        Size::Narrow => block_of_values(BandKind::LH, 27, 32, &values[..864], room),
        Size::Low => block_of_values(BandKind::HH, 32, 5, &values[..160], room),
        Size::Column => block_of_values(BandKind::LL, 1, 32, &values[..32], room),
    }
}

/// Checks the codewords so far.
fn check_codewords(
    rt: &impl Abort,
    alloc: Global,
    code: &PartlyCoded,
    whole: &Coded,
) -> Result<(), NoMemory>
    requires code { (b : Block) × IsPartOfCode b code.now }
    requires whole { (b : Block) × IsCodeOf b whole.now }
{
    assert!(rt; code.plane_count() == whole.planes as usize);
    for ending in 0..code.coded_count().min(whole.planes as usize) {
        assert!(rt; code.length(ending) == whole.length(ending));
        let got = code.codeword(alloc, ending)?;
        let want = whole.codeword(alloc, ending)?;
        assert!(rt; got.as_slice() == want.as_slice());
    }
    Ok(())
}

/// Checks a block that goes down to each of these planes, between which the lent room serves for all of it.
fn check(
    rt: &impl Abort,
    alloc: Global,
    code: &mut PartlyCoded,
    block: &BlockPlanes<'_>,
    lowest_planes: &[u32],
) -> Result<(), NoMemory>
    requires { IsBlock block.now }
{
    let mut state = PassState::new();
    let mut coder = Coder::new(alloc);
    code.start(block);
    let mut most = 0;
    for lowest in lowest_planes {
        code.code_down_to(block, *lowest, &mut state, &mut coder)?;
        most = most.max(code.plane_count().saturating_sub(*lowest as usize));
        assert!(rt; code.coded_count() == most);
        let whole = code_block(alloc, block, &mut state, &mut coder)?;
        check_codewords(rt, alloc, code, &whole)?;
    }
    Ok(())
}

#[test]
fn goes_on_as_if_at_once(rt: HostRuntime) -> Result<(), Fail> {
    let alloc = rt.alloc();
    let mut code = PartlyCoded::new(alloc);
    let mut room = BlockRoom::new();
    let values = values_below(3000, 7);
    assert!(&rt; are_small(&values));
    for (size, lowest_planes) in [
        (Size::Square, [9, 8, 8, 5, 6, 1, 0].as_slice()),
        (Size::Narrow, [40, 11, 3, 0, 0].as_slice()),
        (Size::Low, [7, 6, 5, 4, 3, 2, 1, 0].as_slice()),
        (Size::Column, [0].as_slice()),
    ] {
        let block = block_of(size, &values, &mut room);
        check(&rt, alloc, &mut code, &block, lowest_planes)?;
    }
    Ok(())
}
