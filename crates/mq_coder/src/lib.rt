//! The arithmetic coder of JPEG 2000 (ITU-T T.800, Annex C), in both directions.
#![tactic(auto)]

mod coder;
mod ending;
mod interval;
mod output;
mod reader;
mod rows;
mod run;
mod source;
mod states;
mod tail;

pub use coder::Coder;
pub use ending::{Ending, ending_laws, flushed};
pub use reader::Reader;
pub use states::States;
