//! The sending end of a link: what is sent in which pieces, and when (IEEE 802.3, clause 99.4).
#![tactic(auto)]

mod choices;
mod going;
mod laws;
mod pieces;
mod senders;
#[cfg(test)]
mod tests;

pub use choices::{Choice, Sent};
pub use laws::{ending_law, fragments_law, frames_law, one_sending, others_law, whole_frames_law};
pub use senders::Sender;
