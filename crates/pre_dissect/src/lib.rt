//! Captures of mPackets: what a run puts on one arc as a capture file, and what the records of such a file give to one receiver.
#![tactic(auto)]

mod adverts;
mod changes;
mod dissecting;
mod faults;
mod laws;
mod lines;
mod newest;
mod sending;
mod watchers;

pub use dissecting::dissect;
pub use faults::DissectFault;
pub use laws::dissect_law;
pub use watchers::CaptureWatcher;

#[cfg(test)]
mod tests;
