//! Codewords of code-blocks, one for each bit-plane that may be kept as the last, as another encoder gives them.
ghost use Rattle.std.specs.Prelude.{true, ◌≡◌, ◌≤◌, ◌<◌, ◌*◌, ◌^◌, All, length, unsigned_abs};
ghost use Rattle.block_coder.specs.Blocks.{IsBlock};

use block_coder::{BlockRoom, PartlyCoded, block_of_values, code_block};
use block_passes::PassState;
use block_sets::BlockPlanes;
use codec_terms::BandKind;
use mast_base::NoMemory;
use mq_coder::Coder;
use std::alloc::Global;
use std::process::Abort;
use std::test::Fail;

/// Checks each codeword of a block that goes down to each of these planes, and its length.
fn check_steps(
    rt: &impl Abort,
    alloc: Global,
    block: &BlockPlanes<'_>,
    lowest_planes: &[u32],
    codewords: &[&[u8]],
) -> Result<(), NoMemory>
    requires { IsBlock block.now }
{
    let mut state = PassState::new();
    let mut coder = Coder::new(alloc);
    let mut code = PartlyCoded::new(alloc);
    code.start(block);
    for lowest in lowest_planes {
        code.code_down_to(block, *lowest, &mut state, &mut coder)?;
    }
    assert!(rt; code.coded_count() == codewords.len());
    for (ending, want) in codewords.iter().enumerate() {
        if ending < code.coded_count() {
            assert!(rt; code.length(ending) as usize == want.len());
            let got = code.codeword(alloc, ending)?;
            assert!(rt; got.as_slice() == *want);
        }
    }
    Ok(())
}

/// Checks each codeword of a block and its length, whether it is coded at once or in steps.
fn check_block(
    rt: &impl Abort,
    alloc: Global,
    block: &BlockPlanes<'_>,
    codewords: &[&[u8]],
) -> Result<(), NoMemory>
    requires { IsBlock block.now }
{
    let mut state = PassState::new();
    let mut coder = Coder::new(alloc);
    let code = code_block(alloc, block, &mut state, &mut coder)?;
    assert!(rt; code.planes as usize == codewords.len());
    for (ending, want) in codewords.iter().enumerate() {
        if ending < code.planes as usize {
            assert!(rt; code.length(ending) as usize == want.len());
            let got = code.codeword(alloc, ending)?;
            assert!(rt; got.as_slice() == *want);
        }
    }
    check_steps(rt, alloc, block, &[4, 3, 2, 1, 0], codewords)?;
    check_steps(rt, alloc, block, &[1, 3, 0], codewords)
}

/// A block's kind and size, and its values in raster order.
#[derive(Clone, Copy)]
struct Values<'a> {
    kind: BandKind,
    width: usize,
    height: usize,
    values: &'a [i32],
    ghost narrow: { width ≤ 32 },
    ghost low: { height ≤ 32 },
    ghost whole: { length values.now ≡ width * height },
}

/// Whether all magnitudes have 15 bits.
pub(crate) fn are_small(values: &[i32]) -> bool
    ensures { result ≡ true → All (λ v. unsigned_abs v < 2 ^ 15) values.now }
{
    values.iter().all(|value| value.unsigned_abs() < 0x8000)
}

fn check(
    rt: &impl Abort,
    alloc: Global,
    block: &Values<'_>,
    codewords: &[&[u8]],
) -> Result<(), NoMemory> {
    assert!(rt; are_small(block.values));
    let mut room = BlockRoom::new();
    let sets = block_of_values(
        block.kind,
        block.width,
        block.height,
        block.values,
        &mut room,
    );
    check_block(rt, alloc, &sets, codewords)
}

#[test]
fn codes_a_square_block(rt: HostRuntime) -> Result<(), Fail> {
    let values = [12, 0, -4, 0, 0, 0, 0, 0, -31, 0, 0, 22, 0, 0, -16, 0];
    let block = Values {
        kind: BandKind::HL,
        width: 4,
        height: 4,
        values: &values,
    };
    check(
        &rt,
        rt.alloc(),
        &block,
        &[
            &[0x07, 0x32, 0xcb],
            &[0x07, 0x32, 0xcc, 0xad, 0x0f],
            &[0x07, 0x32, 0xcc, 0xad, 0x10, 0x3c, 0x3f],
            &[0x07, 0x32, 0xcc, 0xad, 0x10, 0x3c, 0x5b, 0xaf],
            &[0x07, 0x32, 0xcc, 0xad, 0x10, 0x3c, 0x5b, 0xbb, 0xdf],
        ],
    )?;
    Ok(())
}

#[test]
fn codes_a_narrow_block(rt: HostRuntime) -> Result<(), Fail> {
    let values = [
        -3, 0, 0, 0, 0, 0, -1, 0, 1, 0, 0, 0, 0, 3, 0, 0, 0, 0, 0, 0, 2, 0, 1, 0, 0, 0, 0, 0, 0, 0,
        -1, 0, 0, -1, 0,
    ];
    let block = Values {
        kind: BandKind::HH,
        width: 5,
        height: 7,
        values: &values,
    };
    check(
        &rt,
        rt.alloc(),
        &block,
        &[
            &[0x12, 0x66, 0x44, 0x1f],
            &[0x12, 0x66, 0x44, 0x24, 0xf4, 0xfb, 0x86, 0x27],
        ],
    )?;
    Ok(())
}

#[test]
fn codes_one_sample(rt: HostRuntime) -> Result<(), Fail> {
    let values = [3];
    let block = Values {
        kind: BandKind::LL,
        width: 1,
        height: 1,
        values: &values,
    };
    check(&rt, rt.alloc(), &block, &[&[0x03], &[0x01]])?;
    Ok(())
}

#[test]
fn codes_a_high_block(rt: HostRuntime) -> Result<(), Fail> {
    let values = [
        -3, -2, 0, 0, 1, 0, 0, -3, 0, 0, 0, 0, 0, 2, 0, 0, 0, 0, 0, 0, 0, 0, -2, 0, 1, 0, 0, 0, 0,
        0, 0, 0, 0, 0, 0, 0, 0, 0, 0, 0, -1, 0, 0, -1, 3, 0, 0, 0, 0, 0, 3, 0, 0, 0, 2, 0, 0, 0, 0,
        -3, -2, 0, 1, 0, 0, 0, 0, -1, 0, -1, 0, 0, 0, 0, -2, 0, 0, -2, 0, 1, 0, 0, 0, 3, 0, 3, 0,
        0, 0, -3, 0, -1, 0, 0, 0, 0, -1, -2, -1, 2, 3, 0, 0, 0, -3, 0, 0, 0,
    ];
    let block = Values {
        kind: BandKind::LH,
        width: 9,
        height: 12,
        values: &values,
    };
    check(
        &rt,
        rt.alloc(),
        &block,
        &[
            &[
                0x12, 0x5c, 0x89, 0xc8, 0x25, 0x65, 0xd3, 0x55, 0x81, 0x74, 0x1c, 0x55, 0xc6, 0xd1,
            ],
            &[
                0x12, 0x5c, 0x89, 0xc8, 0x25, 0x65, 0xd3, 0x55, 0x81, 0x74, 0x1c, 0x55, 0xc6, 0xd2,
                0x85, 0x65, 0x14, 0xba, 0x77, 0xf1, 0xe1, 0x70, 0xf8, 0xdc, 0xc3, 0xc3,
            ],
        ],
    )?;
    Ok(())
}

#[test]
fn codes_nothing_of_zeros(rt: HostRuntime) -> Result<(), Fail> {
    let values = [0, 0, 0, 0];
    let block = Values {
        kind: BandKind::LL,
        width: 2,
        height: 2,
        values: &values,
    };
    check(&rt, rt.alloc(), &block, &[])?;
    Ok(())
}
