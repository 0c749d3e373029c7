//! Pictures in SVG of what a trace tells: the mPackets of each arc, a queue, and delays beside their bounds.
#![tactic(auto)]

mod bars;
mod bounds;
mod charts;
mod delays;
mod pieces;
mod queues;
mod runs;
mod scales;
mod traces;

pub use bars::{Bar, Stop, bars_of};
pub use bounds::put_bounds;
pub use delays::{Entry, Sent};
pub use queues::{Port, Queue, put_queue};
pub use runs::{Run, carrying, put_run};
pub use scales::Scale;
pub use traces::{Seen, TraceFault, last_tick, read_trace};

#[cfg(test)]
mod tests;
