//! Tests of the engine.
#![tactic(auto)]

#[cfg(test)]
mod longest;
#[cfg(test)]
mod pictures;
#[cfg(test)]
mod runs;
#[cfg(test)]
mod sounds;
