//! Worked decisions, each twice its context and one more where the bit is 1.
ghost use Rattle.std.specs.Prelude.{◌≡◌, ◌<◌, ◌≤◌, ◌*◌, ◌^◌, All, length, unsigned_abs};

use block_coder::{BlockRoom, block_of_values};
use block_passes::{PassState, begin, plane_decisions};
use codec_terms::BandKind;
use std::process::Abort;

/// The size of a code-block, and its values in raster order.
#[derive(Clone, Copy)]
struct Block<'a> {
    kind: BandKind,
    width: usize,
    height: usize,
    values: &'a [i32],
}

/// Checks the decisions of a bit-plane.
fn check(rt: &impl Abort, block: Block<'_>, index: usize, want: &[u8])
    requires narrow { block.width ≤ 32 }
    requires low { block.height ≤ 32 }
    requires whole { length block.values.now ≡ block.width * block.height }
    requires small { All (λ v. unsigned_abs v < 2 ^ 15) block.values.now }
{
    let mut room = BlockRoom::new();
    let planes = block_of_values(
        block.kind,
        block.width,
        block.height,
        block.values,
        &mut room,
    );
    if planes.planes.len() <= index {
        assert!(rt; false, "the block has no such plane");
        return;
    }
    let mut state = PassState::new();
    begin(&planes, index, &mut state);
    plane_decisions(&planes, index, &mut state);
    assert!(rt; state.codes() == want);
}

#[test]
fn codes_one_sample(rt: HostRuntime) {
    let values = [3];
    let block = Block {
        kind: BandKind::LL,
        width: 1,
        height: 1,
        values: &values,
    };
    check(&rt, block, 1, &[1, 18]);
    check(&rt, block, 0, &[29]);
}

#[test]
fn codes_a_stripe_of_four_rows(rt: HostRuntime) {
    let values = [12, 0, -4, 0, 0, 0, 0, 0, -31, 0, 0, 22, 0, 0, -16, 0];
    let block = Block {
        kind: BandKind::HL,
        width: 4,
        height: 4,
        values: &values,
    };
    check(
        &rt,
        block,
        4,
        &[
            35, 37, 36, 19, 10, 0, 2, 6, 2, 35, 37, 37, 19, 0, 0, 3, 18, 14,
        ],
    );
    check(
        &rt,
        block,
        3,
        &[10, 10, 2, 6, 6, 2, 14, 10, 14, 29, 30, 30, 1, 18, 6, 0, 0],
    );
    check(
        &rt,
        block,
        0,
        &[16, 10, 8, 4, 6, 6, 12, 14, 6, 12, 14, 32, 33, 32, 32, 32],
    );
}

#[test]
fn codes_a_short_stripe_behind_a_whole_one(rt: HostRuntime) {
    let values = [0, 0, 0, 0, 5, 0, 0, -2, 0, -7, 0, 1, 3, 0, 0, 0, -6, 4];
    let block = Block {
        kind: BandKind::HH,
        width: 3,
        height: 6,
        values: &values,
    };
    check(
        &rt,
        block,
        2,
        &[
            35, 37, 37, 19, 0, 1, 18, 8, 2, 6, 2, 6, 0, 2, 0, 6, 1, 19, 6, 3, 25,
        ],
    );
    check(
        &rt,
        block,
        1,
        &[
            6, 2, 8, 2, 9, 21, 4, 6, 8, 8, 6, 9, 21, 4, 14, 8, 31, 30, 31, 30,
        ],
    );
    check(
        &rt,
        block,
        0,
        &[
            6, 8, 10, 2, 10, 6, 8, 8, 7, 18, 4, 16, 10, 33, 33, 30, 31, 32, 32,
        ],
    );
}

#[test]
fn codes_no_run_in_three_rows(rt: HostRuntime) {
    let values = [0, 0, 0, 0, 2, -3, 1, 0, 0, 0, 0, -1];
    let block = Block {
        kind: BandKind::LH,
        width: 4,
        height: 3,
        values: &values,
    };
    check(
        &rt,
        block,
        1,
        &[0, 1, 18, 6, 2, 11, 25, 6, 2, 10, 2, 0, 0, 0],
    );
    check(
        &rt,
        block,
        0,
        &[6, 6, 6, 6, 2, 11, 25, 6, 2, 10, 3, 19, 30, 31],
    );
}

#[test]
fn goes_on_behind_a_plane(rt: HostRuntime) {
    let values = [0, 0, 0, 0, 2, -3, 1, 0, 0, 0, 0, -1];
    let mut room = BlockRoom::new();
    let planes = block_of_values(BandKind::LH, 4, 3, &values, &mut room);
    if planes.planes.len() != 2 {
        assert!(&rt; false, "the block has another number of planes");
        return;
    }
    let mut state = PassState::new();
    begin(&planes, 1, &mut state);
    plane_decisions(&planes, 1, &mut state);
    assert!(rt; state.codes() == [0, 1, 18, 6, 2, 11, 25, 6, 2, 10, 2, 0, 0, 0].as_slice());
    plane_decisions(&planes, 0, &mut state);
    assert!(rt; state.codes() == [6, 6, 6, 6, 2, 11, 25, 6, 2, 10, 3, 19, 30, 31].as_slice());
}
