//! The receiving end of an arc: what is on its wire, what befalls it there, and what it gives where it arrives.
#![tactic(auto)]

mod changes;
mod frames;
mod incomings;
mod judging;
mod landings;
mod laws;
mod wires;

pub use changes::{damage, is_lost, smd_place};
pub use frames::{Inputs, put_frame};
pub use incomings::Incoming;
pub use landings::{Landed, Landing};
pub use laws::{landings_are_arrivals, no_alias_so_far, other_events};
pub use wires::{Flight, Wire};
