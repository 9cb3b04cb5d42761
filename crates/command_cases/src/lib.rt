//! Tests of the commands that write no folder.
#![tactic(auto)]

#[cfg(test)]
mod frames;
#[cfg(test)]
mod reads;
