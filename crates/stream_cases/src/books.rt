//! Sizes of codestreams at each cut, by a book that goes from cut to cut.

ghost use Rattle.std.specs.Prelude.{◌≡◌, ℤ, List};
ghost use Rattle.block_packets.specs.Coded.{AreCodedBlocks};
ghost use Rattle.cinema_stream.specs.Books.{IsBookOf};

use crate::pictures::{edges, middle};
use crate::streams::STREAM;
use cinema_stream::{SizeBook, Sizes, higher_cut_laws, sizes_at, stream_at};
use picture_blocks::Blocks;
use std::process::Abort;
use std::test::Fail;

fn check_book(rt: &impl Abort, book: &SizeBook, cut: u32, wanted: Sizes) {
    assert!(rt; book.cut() == cut);
    assert!(rt; book.sizes() == wanted, "cut {cut}");
}

/// From cut 0 to the last one.
fn lower_to_last(rt: &impl Abort, blocks: &Blocks, book: &mut SizeBook)
    requires start { book.old.cut ≡ 0 }
    requires of { (q : List ℤ) × (AreCodedBlocks q 0 blocks.now × IsBookOf blocks.now.shape q book.old) }
    ensures end { book.new.cut ≡ 720 }
    ensures of { (q : List ℤ) × (AreCodedBlocks q 0 blocks.now × IsBookOf blocks.now.shape q book.new) }
{
    higher_cut_laws();
    for cut in 0..720u32 {
        check_book(rt, book, cut, sizes_at(blocks, cut));
        book.lower(blocks);
    }
}

/// From the last cut to cut 0.
fn raise_to_first(rt: &impl Abort, blocks: &Blocks, book: &mut SizeBook)
    requires start { book.old.cut ≡ 720 }
    requires of { (q : List ℤ) × (AreCodedBlocks q 0 blocks.now × IsBookOf blocks.now.shape q book.old) }
    ensures end { book.new.cut ≡ 0 }
{
    higher_cut_laws();
    for above in 0..720u32 {
        let cut = 720 - above;
        check_book(rt, book, cut, sizes_at(blocks, cut));
        book.raise(blocks);
    }
}

fn check_walk(rt: &impl Abort, blocks: &Blocks)
    requires { (q : List ℤ) × AreCodedBlocks q 0 blocks.now }
{
    let mut book = SizeBook::start(blocks);
    lower_to_last(rt, blocks, &mut book);
    raise_to_first(rt, blocks, &mut book);
    check_book(rt, &book, 0, sizes_at(blocks, 0));
}

#[test]
fn walks_the_sizes_of_a_picture(rt: HostRuntime) -> Result<(), Fail> {
    let (_, blocks) = edges(rt.alloc())?;
    check_walk(&rt, &blocks);
    Ok(())
}

/// The sizes of a codestream of 32 columns and 32 rows without code-blocks.
const EMPTY: Sizes = Sizes {
    whole: 205,
    parts: [20, 20, 20],
};

/// Checks that a codestream has these sizes at each cut.
fn check_empty(rt: &impl Abort, blocks: &Blocks)
    requires { (q : List ℤ) × AreCodedBlocks q 0 blocks.now }
{
    higher_cut_laws();
    for cut in 0..721u32 {
        assert!(rt; sizes_at(blocks, cut) == EMPTY, "cut {cut}");
    }
}

#[test]
fn writes_coefficients_that_are_0(rt: HostRuntime) -> Result<(), Fail> {
    let alloc = rt.alloc();
    let (bands, blocks) = middle(&rt, alloc)?;
    assert!(&rt; bands.words().iter().all(|word| *word == 0));
    let stream = stream_at(alloc, &blocks, 0)?;
    assert!(&rt; stream.as_slice() == STREAM.as_slice());
    check_empty(&rt, &blocks);
    check_walk(&rt, &blocks);
    Ok(())
}
