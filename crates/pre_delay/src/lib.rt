//! How long an express frame waits at a port, and how many wait with it, where a certificate is good.
#![tactic(auto)]

mod laws;

pub use laws::{
    blocks, bursts_grow, busy_periods, files_make_a_run, growth_law, network_law, port_law,
    premises_can_be_met, windows_are_ticks,
};
