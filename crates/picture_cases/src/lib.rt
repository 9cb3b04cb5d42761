//! Tests of what pictures are made of.
#![tactic(auto)]

#[cfg(test)]
mod bands;
#[cfg(test)]
mod colour;
#[cfg(test)]
mod inputs;
#[cfg(test)]
mod pictures;
#[cfg(test)]
mod wave;
