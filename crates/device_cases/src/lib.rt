//! Tests of the devices, in memory and real.
#![tactic(auto)]

#[cfg(test)]
mod crashes;
#[cfg(test)]
mod folders;
#[cfg(test)]
mod memory;
