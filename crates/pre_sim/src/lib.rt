//! The run of a script over a network, from each tick at which something may be due to the next one.
#![tactic(auto)]

mod arrivals;
mod closing;
mod ends;
mod entering;
mod expiries;
mod frames;
mod halts;
mod lanes;
mod laws;
mod plans;
mod resting;
mod runs;
mod starts;
mod telling;
mod ticks;

pub use laws::{growth_law, network_law, port_law};
pub use runs::{Sim, Step};

#[cfg(test)]
mod tests;
