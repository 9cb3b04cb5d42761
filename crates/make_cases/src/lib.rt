//! Tests of `make` and `plan`.
#![tactic(auto)]

#[cfg(test)]
mod commands;
#[cfg(test)]
mod inputs;
#[cfg(test)]
mod runs;
#[cfg(test)]
mod sounds;
