//! Values of code-blocks from codewords that another encoder gave.
use block_reading::{ReadRoom, read_block};
use codec_terms::BandKind;
use std::test::Fail;

#[test]
fn reads_a_square_block(rt: HostRuntime) -> Result<(), Fail> {
    let codeword = [0x07, 0x32, 0xcc, 0xad, 0x10, 0x3c, 0x5b, 0xbb, 0xdf];
    let want = [12, 0, -4, 0, 0, 0, 0, 0, -31, 0, 0, 22, 0, 0, -16, 0];
    let mut room = ReadRoom::new();
    let mut values = [1; 16];
    read_block(BandKind::HL, 4, 4, 5, 13, &codeword, &mut room, &mut values);
    assert!(rt; values == want);
    Ok(())
}

#[test]
fn reads_the_first_pass_alone(rt: HostRuntime) -> Result<(), Fail> {
    let codeword = [0x07, 0x32, 0xcb];
    let want = [0, 0, 0, 0, 0, 0, 0, 0, -16, 0, 0, 16, 0, 0, -16, 0];
    let mut room = ReadRoom::new();
    let mut values = [1; 16];
    read_block(BandKind::HL, 4, 4, 5, 1, &codeword, &mut room, &mut values);
    assert!(rt; values == want);
    Ok(())
}
