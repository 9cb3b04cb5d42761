//! Codestreams whose packets include no code-block, for tests.
#![tactic(auto)]

mod streams;

pub use streams::{STREAM, marked};
