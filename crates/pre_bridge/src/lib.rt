//! The relay of the bridges (IEEE 802.1Q, clause 8.6): a frame that arrives at a bridge stays for the
//! bridge's latency, and then leaves by the next arc of its VID's route.
#![tactic(auto)]

mod ingresses;
mod laws;
mod relays;
mod tables;

pub use laws::{calls_law, next_arc_law, route_law, takes_law, turn_law};
pub use relays::Relay;

#[cfg(test)]
mod tests;
