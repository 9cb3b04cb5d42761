//! The least that a picture's codestream and its tile-parts can be long at a cut and at all lower ones, which goes from cut
//! to cut at little cost: by it a search for the least cut within limits may stop.
#![tactic(auto)]

mod book;
mod floors;
mod parts;

pub use book::FloorBook;
