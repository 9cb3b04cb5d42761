//! Tests of the codec.
#![tactic(auto)]

#[cfg(test)]
mod codewords;
#[cfg(test)]
mod lists;
