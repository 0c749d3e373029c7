//! The receiving end of a link: the frames that mPackets give, and their counters (IEEE 802.3, clause 99.4).
#![tactic(auto)]

mod counters;
mod laws;
mod opened;
mod outcomes;
mod receivers;
mod taken;
#[cfg(test)]
mod tests;

pub use counters::Counters;
pub use laws::{later_takings, lost_arrivals, one_taken};
pub use receivers::Receiver;
pub use taken::{Cause, Taken};
