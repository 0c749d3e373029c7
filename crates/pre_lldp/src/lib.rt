//! LLDP frames (IEEE 802.1AB) that negotiate preemption, and how long what they say counts.
#![tactic(auto)]

mod adverts;
mod laws;
mod neighbours;
mod reading;
mod writing;

pub use adverts::Advert;
pub use laws::{link_state, one_pdu, read_back};
pub use neighbours::Neighbour;
pub use reading::{LldpFault, Pdu, is_lldp, lldpdu, read_lldpdu};
pub use writing::write_lldp;

#[cfg(test)]
mod tests;
