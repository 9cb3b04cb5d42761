ghost use Rattle.std.specs.Prelude.{◌≡◌, ◌≤◌, ℕ, ℤ, List, IfOk};
ghost use Rattle.codec_terms.specs.Cut.{least_cut};
ghost use Rattle.picture_sets.specs.Sets.{AreSetsOfPicture};
ghost use Rattle.block_packets.specs.Coded.{AreCodedBlocks};
ghost use Rattle.cinema_stream.specs.Books.{IsBookOf};
ghost use Rattle.least_cut.specs.Below.{AreNoneBelow};
ghost use Rattle.least_cut.specs.Begun.{IsBegun};
ghost use Rattle.least_cut.specs.Searches.{IsSearch, IsEnded};

use crate::planes::code_plane_of;
use crate::search::{Search, size_laws};
use crate::within::is_within;
use cinema_stream::{SizeBook, higher_cut_laws};
use codec_laws::last_cut_laws;
use floor_laws::{answer_laws, search_laws};
use mast_base::{Limits, NoMemory};
use picture_blocks::{Blocks, CodingRoom};
use picture_sets::PictureSets;

// Goes down until no lower cut can be within the limits, and codes the code-blocks as far.
fn search_down(
    blocks: &mut Blocks,
    sets: &PictureSets,
    limits: Limits,
    from: Search,
    room: &mut CodingRoom,
) -> Result<Search, NoMemory>
    requires shape { sets.now.shape ≡ blocks.old.shape }
    requires of { (first : ℕ) × (q : List ℤ) × (AreSetsOfPicture q sets.now
        × IsSearch limits first blocks.old.shape q from × AreCodedBlocks q from.floors.cut blocks.old) }
    ensures shape { blocks.new.shape ≡ blocks.old.shape }
    ensures down { IfOk result (λ last. (first : ℕ) (q : List ℤ) → AreSetsOfPicture q sets.now
        → IsSearch limits first blocks.old.shape q from → AreCodedBlocks q from.floors.cut blocks.old
        → IsEnded limits first q blocks.new last) }
{
    let mut search = from;
    while !search.is_done(limits) {
        code_plane_of(blocks, sets, search.next_cut(), room)?;
        search = search.with_next(blocks, limits);
    }
    Ok(search)
}

/// The least cut within the limits, found upwards from that of the book, below which none is, as below 0. The code-blocks are
/// coded as far down as the book's cut keeps them.
pub fn search_up(blocks: &Blocks, limits: Limits, from: SizeBook) -> u32
    requires least_frame { 364 ≤ limits.frame }
    requires least_component { 73 ≤ limits.component }
    requires cut { from.cut ≤ 720 }
    requires of { (q : List ℤ) × (AreCodedBlocks q from.cut blocks.now × IsBookOf blocks.now.shape q from) }
    ensures few { result ≤ 720 }
    ensures above { from.cut ≤ result }
    ensures least { (q : List ℤ) → AreCodedBlocks q from.cut blocks.now → IsBookOf blocks.now.shape q from
        → AreNoneBelow limits blocks.now.shape q from.cut → result ≡ least_cut limits blocks.now.shape q }
{
    size_laws(blocks);
    higher_cut_laws();
    last_cut_laws();
    search_laws();
    answer_laws();
    let mut book = from;
    while !is_within(book.sizes(), limits) {
        book.lower(blocks);
    }
    book.cut()
}

/// The least cut at which the codestream of a picture and its three tile-parts are within the limits. The code-blocks, which
/// are begun, are then coded as far down as that cut keeps them. The search begins at the cut `start`, from which only its
/// time depends: it is least where `start` is a little above the answer. `room` is lent for the call.
pub fn find_least_cut(
    blocks: &mut Blocks,
    sets: &PictureSets,
    limits: Limits,
    start: u32,
    room: &mut CodingRoom,
) -> Result<u32, NoMemory>
    requires start { start ≤ 720 }
    requires shape { sets.now.shape ≡ blocks.old.shape }
    requires least_frame { 364 ≤ limits.frame }
    requires least_component { 73 ≤ limits.component }
    requires begun { (q : List ℤ) × IsBegun q sets.now blocks.old }
    ensures shape { blocks.new.shape ≡ blocks.old.shape }
    ensures few { IfOk result (λ cut. cut ≤ 720) }
    ensures least { IfOk result (λ cut. (q : List ℤ) → IsBegun q sets.now blocks.old
        → cut ≡ least_cut limits blocks.old.shape q) }
    ensures coded { IfOk result (λ cut. (q : List ℤ) → IsBegun q sets.now blocks.old → AreCodedBlocks q cut blocks.new) }
{
    higher_cut_laws();
    answer_laws();
    blocks.code_to_cut(sets, start, room)?;
    let first = Search::at(blocks, limits, start);
    let last = search_down(blocks, sets, limits, first, room)?;
    match last.best {
        Some(best) => Ok(best),
        None => Ok(search_up(blocks, limits, first.sizes)),
    }
}
