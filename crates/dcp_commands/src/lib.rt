//! The commands of the programs: their words, what they do, and what they print.
#![tactic(auto)]

mod command;
mod frame;
mod line;
mod make;
mod plan;
mod plan_text;
mod read;
mod status;
mod stopped;
mod words;

pub use command::run;
pub use make::run_make;
pub use status::Status;
pub use words::out_name;
