//! Tag trees: bits that are known, and what a reader makes of them.

ghost use Rattle.std.specs.Prelude.{◌≡◌, ◌<◌};
ghost use Rattle.tag_tree.specs.Trees.{leaf_count, found_count};

use mast_base::{List, NoMemory};
use std::alloc::Global;
use std::process::Abort;
use std::test::Fail;
use tag_tree::{TreeReader, TreeWriter};

// Whether these are the bits that are spelled so, `0` and `1`.
fn are_bits(bits: &[bool], spelled: &[u8]) -> bool {
    bits.len() == spelled.len()
        && bits
            .iter()
            .zip(spelled)
            .all(|(bit, spelled)| *bit == (*spelled == b'1'))
}

// The reader takes the leaf's bits, and no more.
fn check_read(rt: &impl Abort, reader: &mut TreeReader, at: u32, threshold: u32, bits: &[u8])
    requires { at < found_count reader.old }
    ensures { found_count reader.new ≡ found_count reader.old }
{
    for bit in bits {
        assert!(rt; reader.wants(at, threshold));
        reader.push(at, threshold, *bit == b'1');
    }
    assert!(rt; !reader.wants(at, threshold));
}

// The writer's bits of the leaves that are asked, each for its threshold, and what the reader then knows.
fn check_tree(
    rt: &impl Abort,
    alloc: Global,
    columns: u32,
    rows: u32,
    values: &[u32],
    asked: &[(u32, u32, &[u8])],
) -> Result<(), NoMemory> {
    assert!(rt; values.len() == rows as usize * columns as usize);
    let mut writer = TreeWriter::new(alloc, columns, rows, values)?;
    let mut reader = TreeReader::new(alloc, columns, rows)?;
    for one in asked {
        let (at, threshold, bits) = *one;
        assert!(rt; (at as usize) < values.len());
        let mut out = List::new(alloc);
        writer.leaf(at, threshold, &mut out)?;
        assert!(rt; are_bits(out.as_slice(), bits));
        check_read(rt, &mut reader, at, threshold, bits);
        if values[at as usize] < threshold {
            assert!(rt; reader.value(at) == Some(values[at as usize]));
        }
    }
    Ok(())
}

#[test]
fn writes_and_reads_leaves_that_are_asked(rt: HostRuntime) -> Result<(), Fail> {
    let alloc = rt.alloc();
    check_tree(&rt, alloc, 1, 1, &[0], &[(0, 1, b"1")])?;
    check_tree(&rt, alloc, 1, 1, &[1], &[(0, 1, b"0"), (0, 1, b"")])?;
    check_tree(&rt, alloc, 1, 1, &[1], &[(0, 2, b"01")])?;
    check_tree(&rt, alloc, 2, 1, &[0, 0], &[(0, 1, b"11"), (1, 1, b"1")])?;
    check_tree(
        &rt,
        alloc,
        2,
        1,
        &[1, 2],
        &[(0, 3, b"011"), (0, 4, b""), (0, 2, b""), (0, 4, b"")],
    )?;
    check_tree(
        &rt,
        alloc,
        2,
        1,
        &[9, 8],
        &[(0, 10, b"00000000101"), (1, 9, b"1")],
    )?;
    check_tree(
        &rt,
        alloc,
        1,
        3,
        &[1, 1, 1],
        &[(0, 2, b"0111"), (1, 2, b"1"), (2, 2, b"11")],
    )?;
    check_tree(
        &rt,
        alloc,
        1,
        3,
        &[3, 0, 2],
        &[
            (2, 3, b"10011"),
            (0, 5, b"10001"),
            (2, 2, b""),
            (1, 1, b"1"),
            (1, 0, b""),
            (1, 4, b""),
        ],
    )?;
    check_tree(
        &rt,
        alloc,
        1,
        3,
        &[5, 2, 4],
        &[(0, 6, b"00110001"), (1, 3, b"1"), (2, 5, b"0011")],
    )?;
    Ok(())
}

#[test]
fn writes_and_reads_leaves_of_larger_trees(rt: HostRuntime) -> Result<(), Fail> {
    let alloc = rt.alloc();
    check_tree(
        &rt,
        alloc,
        3,
        2,
        &[1, 0, 0, 1, 1, 1],
        &[
            (0, 2, b"1101"),
            (1, 1, b"1"),
            (2, 1, b"11"),
            (3, 2, b"01"),
            (4, 2, b"01"),
            (5, 2, b"01"),
        ],
    )?;
    check_tree(
        &rt,
        alloc,
        3,
        2,
        &[1, 1, 1, 2, 3, 3],
        &[
            (1, 4, b"0111"),
            (4, 1, b""),
            (4, 2, b"0"),
            (3, 0, b""),
            (1, 2, b""),
            (0, 4, b"1"),
            (0, 4, b""),
            (5, 5, b"1001"),
            (4, 2, b""),
            (4, 1, b""),
            (2, 0, b""),
            (2, 5, b"1"),
        ],
    )?;
    check_tree(
        &rt,
        alloc,
        3,
        2,
        &[7, 9, 1, 7, 3, 4],
        &[
            (0, 8, b"0100100001"),
            (1, 10, b"0000001"),
            (2, 2, b"11"),
            (3, 8, b"00001"),
            (4, 4, b"1"),
            (5, 5, b"0001"),
        ],
    )?;
    check_tree(
        &rt,
        alloc,
        4,
        4,
        &[1, 0, 1, 0, 1, 0, 0, 0, 0, 1, 0, 0, 1, 0, 0, 1],
        &[
            (0, 2, b"1101"),
            (1, 1, b"1"),
            (2, 2, b"101"),
            (3, 1, b"1"),
            (4, 2, b"01"),
            (5, 1, b"1"),
            (6, 1, b"1"),
            (7, 1, b"1"),
            (8, 1, b"11"),
            (9, 2, b"01"),
            (10, 1, b"11"),
            (11, 1, b"1"),
            (12, 2, b"01"),
            (13, 1, b"1"),
            (14, 1, b"1"),
            (15, 2, b"01"),
        ],
    )?;
    check_tree(
        &rt,
        alloc,
        4,
        4,
        &[2, 3, 3, 2, 1, 1, 1, 0, 0, 2, 0, 3, 2, 0, 3, 3],
        &[
            (15, 0, b""),
            (13, 1, b"111"),
            (13, 1, b""),
            (7, 3, b"11"),
            (11, 1, b"10"),
            (10, 1, b"1"),
            (11, 2, b"0"),
            (2, 1, b"0"),
            (11, 0, b""),
            (8, 0, b""),
            (9, 5, b"001"),
            (9, 2, b""),
            (12, 1, b"0"),
            (8, 5, b"1"),
            (8, 3, b""),
            (1, 0, b""),
            (6, 5, b"01"),
            (13, 0, b""),
            (10, 4, b""),
            (10, 2, b""),
            (15, 4, b"0001"),
            (12, 4, b"01"),
            (8, 3, b""),
            (14, 4, b"0001"),
            (12, 3, b""),
            (13, 5, b""),
            (4, 0, b""),
            (0, 0, b""),
            (0, 2, b"010"),
            (15, 5, b""),
            (8, 4, b""),
            (3, 4, b"001"),
        ],
    )?;
    check_tree(
        &rt,
        alloc,
        4,
        4,
        &[2, 14, 13, 8, 14, 6, 7, 14, 5, 9, 12, 11, 6, 3, 13, 5],
        &[
            (0, 3, b"00111"),
            (1, 15, b"0000000000001"),
            (2, 14, b"0000010000001"),
            (3, 9, b"01"),
            (4, 15, b"0000000000001"),
            (5, 7, b"00001"),
            (6, 8, b"1"),
            (7, 15, b"00000001"),
            (8, 6, b"01001"),
            (9, 10, b"0000001"),
            (10, 13, b"000100000001"),
            (11, 12, b"0000001"),
            (12, 7, b"0001"),
            (13, 4, b"1"),
            (14, 14, b"000000001"),
            (15, 6, b"1"),
        ],
    )?;
    check_tree(
        &rt,
        alloc,
        5,
        3,
        &[0, 0, 0, 0, 0, 1, 1, 1, 1, 1, 0, 1, 0, 1, 1],
        &[
            (0, 1, b"1111"),
            (1, 1, b"1"),
            (2, 1, b"11"),
            (3, 1, b"1"),
            (4, 1, b"111"),
            (5, 2, b"01"),
            (6, 2, b"01"),
            (7, 2, b"01"),
            (8, 2, b"01"),
            (9, 2, b"01"),
            (10, 1, b"11"),
            (11, 2, b"01"),
            (12, 1, b"11"),
            (13, 2, b"01"),
            (14, 2, b"011"),
        ],
    )?;
    check_tree(
        &rt,
        alloc,
        5,
        3,
        &[2, 2, 0, 0, 2, 1, 1, 0, 1, 3, 1, 0, 1, 2, 2],
        &[
            (3, 3, b"1111"),
            (11, 0, b""),
            (13, 1, b"0"),
            (9, 4, b"001101"),
            (10, 4, b"101"),
            (12, 2, b"11"),
            (2, 4, b"1"),
            (11, 3, b"1"),
            (4, 0, b""),
            (9, 0, b""),
            (1, 0, b""),
            (0, 1, b"0"),
            (14, 2, b""),
            (2, 1, b""),
            (5, 4, b"11"),
            (3, 2, b""),
            (9, 4, b""),
            (10, 4, b""),
            (11, 3, b""),
            (9, 0, b""),
            (4, 2, b""),
            (2, 1, b""),
            (13, 2, b"0"),
            (4, 4, b"1"),
            (14, 1, b""),
            (8, 1, b"0"),
            (9, 2, b""),
            (2, 5, b""),
            (1, 1, b""),
            (3, 5, b""),
        ],
    )?;
    check_tree(
        &rt,
        alloc,
        5,
        3,
        &[2, 8, 10, 9, 13, 6, 4, 4, 13, 0, 7, 8, 10, 13, 13],
        &[
            (0, 3, b"100111"),
            (1, 9, b"0000001"),
            (2, 11, b"0010000001"),
            (3, 10, b"000001"),
            (4, 14, b"1100000000000001"),
            (5, 7, b"00001"),
            (6, 5, b"001"),
            (7, 5, b"1"),
            (8, 14, b"0000000001"),
            (9, 1, b"1"),
            (10, 8, b"0000011"),
            (11, 9, b"01"),
            (12, 11, b"0000000011"),
            (13, 14, b"0001"),
            (14, 14, b"000000000000011"),
        ],
    )?;
    Ok(())
}
