//! The laws of what a run keeps under a good certificate, proved of every legal history.

pub use pre_delay::{growth_law, network_law, port_law};
