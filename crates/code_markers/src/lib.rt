//! The markers of a JPEG 2000 codestream (ITU-T T.800, Annex A), written and read: the main header, the
//! headers of tile-parts, and the end.
#![tactic(auto)]

mod field;
mod head;
mod marker;
mod part;
mod reader;
mod segment;
mod writer;

pub use part::{END, part_header, read_end, read_part_end, read_part_header};
pub use reader::read_main;
pub use writer::main_header;
