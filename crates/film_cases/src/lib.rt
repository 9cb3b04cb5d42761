//! Tests of project files, timelines, plans and the raw frames of assets.
#![tactic(auto)]

#[cfg(test)]
mod frames;
#[cfg(test)]
mod plans;
#[cfg(test)]
mod projects;
#[cfg(test)]
mod timelines;
