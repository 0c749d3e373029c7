//! When the members of a run are due: a finite map from member to tick that gives out its least entry,
//! and what it means that a machine stays as it is until it is due.
#![tactic(auto)]

mod entries;
mod laws;
mod timed;
mod wheel;

pub use laws::{machines_stay, skipping_law};
pub use timed::Timed;
pub use wheel::Wheel;

#[cfg(test)]
mod tests;
