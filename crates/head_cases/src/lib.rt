//! Tests of the heads and tails of track files.
#![tactic(auto)]

#[cfg(test)]
mod tracks;
